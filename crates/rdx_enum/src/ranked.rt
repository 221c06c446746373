// A nonterminal with its number.
use rdx_lang::Ref;

/// A nonterminal with its number, which is above the ranks of the roots of its alternatives.
#[derive(Drop)]
pub(crate) struct Ranked {
    pub(crate) number: u128,
    pub(crate) name: Ref,
}
