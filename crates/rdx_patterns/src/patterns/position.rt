// Where patterns stand.

/// Where a pattern stands. A built-in name or a nonterminal without a suffix binds its own name outside grammars, and nothing in them.
#[derive(Clone, Copy, Debug, PartialEq, Eq)]
pub enum Position {
    Grammar,
    Query,
}
