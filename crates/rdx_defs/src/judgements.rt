// Judgements, and premises by themselves.

pub(crate) mod forms;
mod premises;
mod reader;
mod readings;
mod refusals;
mod stands;

pub use premises::{ReadPremise, read_premise, read_premise_over};
pub use reader::{judgement_name, read_judgement, read_judgement_over};
