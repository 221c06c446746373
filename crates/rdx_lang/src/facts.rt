// What patterns never do, as far as it is known.

use rdx_term::Name;

/// What a pattern may do: where a truth value is false, it never does it. Where it matches and splits no list,
/// `least` is the greatest number and `most` is 0.
#[derive(Clone, Copy)]
pub struct May {
    /// It splits some term.
    pub split: bool,
    /// It matches a term that is no list.
    pub atoms: bool,
    /// It matches and splits no list of fewer items.
    pub least: u32,
    /// It matches and splits no list of more items, where this is not the greatest number.
    pub most: u32,
    /// It matches a term in which there is no hole.
    pub solid: bool,
    /// It has names.
    pub bind: bool,
}

/// What is known of an alternative.
#[derive(Drop)]
pub struct Each {
    /// What it may do.
    pub may: May,
    /// Where it is a nonterminal, the place of that one among those of the language: a hint.
    pub to: Option<usize>,
}

/// What is known of a nonterminal.
#[derive(Drop)]
pub struct Known {
    /// What it may do.
    pub may: May,
    /// What is known of each of its alternatives, in their order.
    pub each: Vec<Each>,
}

/// What is known of a language.
#[derive(Drop)]
pub struct Facts {
    /// What is known of each of its nonterminals, in their order.
    pub nonterminals: Vec<Known>,
    /// The symbols that it has as literals, where these were asked for.
    pub mentioned: Option<Vec<Name>>,
}
