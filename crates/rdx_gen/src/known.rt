// What is known of the heights in a language.
use crate::height::Height;
use crate::nonterminals::Nonterminals;

/// The nonterminals of a language, and their heights in its order, as far as they are known.
#[derive(Clone, Copy)]
pub(crate) struct Known<'a> {
    pub(crate) nonterminals: &'a Nonterminals<'a>,
    pub(crate) heights: &'a [Height],
}
