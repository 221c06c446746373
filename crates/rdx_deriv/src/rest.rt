// What is left of a list.

use crate::Deriv;
use rdx_term::Term;

/// Which item of a list is split: none, or that behind so many others, into this context and part.
#[derive(Clone, Copy)]
pub enum Focus<'a> {
    /// No item.
    Nowhere,
    /// That behind so many others, into this context and part.
    At(usize, &'a Term, &'a Term),
}

/// What is left of a list: its terms, the derivations for them, and which item is split.
#[derive(Clone, Copy)]
pub(crate) struct Rest<'a> {
    pub terms: &'a [Term],
    pub under: &'a [Deriv],
    pub focus: Focus<'a>,
}
