// What the places of one name have in common.

/// What the places of one name have in common.
#[derive(Clone, Copy)]
pub(crate) struct Group {
    /// There is one.
    pub(crate) seen: bool,
    /// There are several.
    pub(crate) several: bool,
    /// One of them is under an ellipsis, or in the left part of an `in-hole`.
    pub(crate) inside: bool,
    /// One of them has another pattern than the first.
    pub(crate) differs: bool,
}
