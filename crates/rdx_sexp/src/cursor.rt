// Characters with their places.
ghost use Rattle.std.specs.Prelude.{◌≡◌, ◌+◌, ◌<◌, ◌≤◌, ◌^◌, [], ◌∷◌, length, MatchOption};
ghost use Rattle.rdx_sexp.specs.Text.{at, after, after_all, next_is, skip_one};

use rdx_base::Place;

// The characters from a place on.
#[derive(Clone, Copy)]
pub(crate) struct Cursor<'a> {
    pub(crate) rest: &'a [char],
    pub(crate) place: Place,
    ghost lines: { place.line + length rest.now < 2 ^ 32 },
    ghost columns: { place.column + length rest.now < 2 ^ 32 },
}

// The place after the character c.
fn after(place: Place, c: char) -> Place
    requires line { place.line + 1 < 2 ^ 32 }
    requires column { place.column + 1 < 2 ^ 32 }
    ensures { result ≡ after place c }
{
    if c == '\n' {
        Place {
            line: place.line + 1,
            column: 1,
        }
    } else {
        Place {
            line: place.line,
            column: place.column + 1,
        }
    }
}

impl<'a> Cursor<'a> {
    // The first character, and the text after it.
    pub(crate) fn step(self) -> Option<(char, Cursor<'a>)>
        ensures { MatchOption result (self.entry.rest.now ≡ [])
            (λ r. (self.entry.rest.now ≡ r.0 ∷ r.1.rest.now)
            × (r.1.place ≡ after self.entry.place r.0)) }
    {
        let (c, rest) = self.rest.split_first()?;
        Some((
            *c,
            Cursor {
                rest,
                place: after(self.place, *c),
            },
        ))
    }

    // Whether the next character is c.
    pub(crate) fn next_is(self, c: char) -> bool
        ensures { result ≡ next_is c self.entry.rest.now }
    {
        match self.rest {
            [] => false,
            [first, ..] => *first == c,
        }
    }

    // The text after one more character.
    pub(crate) fn skip_one(self) -> Cursor<'a>
        ensures value { at result.place result.rest.now
            ≡ skip_one self.entry.place self.entry.rest.now }
        ensures shorter { length result.rest.now ≤ length self.entry.rest.now }
    {
        match self.step() {
            None => self,
            Some((_, rest)) => rest,
        }
    }

    // The place after the text.
    pub(crate) fn end(self) -> Place
        ensures { result ≡ after_all self.entry.place self.entry.rest.now }
    {
        let mut at = self;
        while let Some((_, rest)) = at.step() {
            at = rest;
        }
        at.place
    }
}
