//! Why a pattern matches a term or splits it so, and why a judgement holds: derivations by the rules, the test of them, and their lines.
#![tactic(auto)]

mod around;
mod deriv;
mod extras;
mod filled;
mod fresh;
mod goal;
mod holding;
mod judgement;
mod known;
pub mod laws;
mod layout;
mod lines;
mod making;
mod progress;
mod reading;
mod rest;
mod rules;
mod same;
mod splitting;

pub use around::{Around, Listed, list_parts, parts_around};
pub use deriv::Deriv;
pub use filled::is_filled;
pub use fresh::{avoiding_all, fresh_binding, pass};
pub use goal::Goal;
pub use holding::derivation_holds;
pub use judgement::allows;
pub use lines::{write_lines, write_rule_name};
pub use making::{made, made_list};
pub use progress::Avoided;
pub use rest::Focus;
