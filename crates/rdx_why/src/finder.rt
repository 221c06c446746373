// What the search for derivations keeps from one of them to the next.
ghost use Rattle.std.specs.Prelude.{◌≡◌};

use crate::ends::Ends;
use rdx_lang::{Matcher, Program};
use std::alloc::Global;

/// A matcher, and what was found with it of the judgements of a program.
#[derive(Drop)]
pub struct Finder<'a, M: Drop> {
    pub(crate) matcher: M,
    pub(crate) ends: Ends<'a>,
}

impl<'a, M: Matcher + Drop> Finder<'a, M> {
    /// One for derivations in this program, which has found nothing yet.
    pub fn new(alloc: Global, program: &'a Program, matcher: M) -> Finder<'a, M>
        ensures { result.ends.program ≡ program.entry }
    {
        let ends = Ends::new(alloc, program);
        Finder { matcher, ends }
    }
}
