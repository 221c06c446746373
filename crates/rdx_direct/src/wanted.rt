// What is wanted of a part.
use rdx_lang::Pat;

/// What is wanted of a part: that a pattern matches it, and that it has so many nodes, if that is
/// told.
#[derive(Clone, Copy)]
pub(crate) struct Wanted<'p> {
    pub(crate) pat: &'p Pat,
    pub(crate) nodes: Option<u32>,
}
