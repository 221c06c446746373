// What is open while a text is read.
ghost use Rattle.std.specs.Prelude.{◌≡◌};
ghost use Rattle.rdx_sexp.specs.Inside.Machine.{opener_place, same_bracket};
ghost use Rattle.rdx_sexp.specs.Inside.Lexemes.{bracket_of, opener_of};

use crate::lexeme::{Bracket, QuoteMark};
use rdx_base::{Place, Span};

// A list, a quote mark before its datum, or a comment on one datum.
#[derive(Clone, Copy, Debug)]
pub(crate) enum Opener {
    Nest(Bracket, Span),
    Quoting(QuoteMark, Span),
    Skipping(Span),
}

impl Opener {
    // Where it begins.
    pub(crate) fn place(self) -> Place
        ensures { result ≡ opener_place (opener_of self) }
    {
        match self {
            Opener::Nest(_, span) | Opener::Quoting(_, span) | Opener::Skipping(span) => span.start,
        }
    }
}

impl Bracket {
    // Whether the other is of the same kind.
    pub(crate) fn is_like(self, other: Bracket) -> bool
        ensures { result ≡ same_bracket (bracket_of self) (bracket_of other) }
    {
        matches!(
            (self, other),
            (Bracket::Round, Bracket::Round)
                | (Bracket::Square, Bracket::Square)
                | (Bracket::Curly, Bracket::Curly)
        )
    }
}
