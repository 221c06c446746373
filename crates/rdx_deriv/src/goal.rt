// What is derived.

use rdx_lang::{Binding, Pat};
use rdx_term::{Name, Term};

/// What is derived. The first name is that of the language or of the judgement.
#[derive(Drop)]
pub enum Goal {
    /// The pattern matches the term, and binds this.
    Match(Name, Pat, Term, Binding),
    /// The pattern splits the term into the context and the part, and binds this.
    Split(Name, Pat, Term, Term, Term, Binding),
    /// The judgement has for these inputs these outputs, both as lists.
    Judge(Name, Term, Term),
}
