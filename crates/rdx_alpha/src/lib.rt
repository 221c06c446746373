//! Binding forms: how they are read, alpha equivalence of terms under them, and substitution.
//!
//! A binding form says which places of a list that it heads are binders, and which are bodies that
//! bind what stands there: the Redex reference, "Binding Forms", and Stansifer and Wand, "Romeo: a
//! system for more flexible binding-safe programming" (ICFP 2014), of which this is a part.
//! [`read_forms`] gives those that a form of a language writes. Two terms are alpha equivalent
//! where they are the same without the names that are bound in them (de Bruijn 1972), which
//! [`alpha_equal`] tells. [`substitute`] puts a term for a symbol, renames binders that would
//! capture, and by [`laws`] does what nameless substitution does.
#![tactic(auto)]

mod alpha;
mod answers;
mod around;
mod binders;
mod checks;
mod fault;
mod form;
mod forms;
mod free;
mod instances;
pub mod laws;
mod making;
mod marks;
mod names;
mod new_names;
mod occurrence;
mod part;
mod places;
mod read;
mod stop;
mod substitution;
mod written;
mod wrong;

pub use answers::{alpha_equal, substitute};
pub use fault::AlphaFault;
pub use form::{BPlace, BindingForm};
pub use read::read_forms;
