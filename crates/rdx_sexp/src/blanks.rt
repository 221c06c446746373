// White space and comments.
ghost use Rattle.std.specs.Prelude.{◌≡◌, ◌≤◌, ◌==◌, ◌&&◌, [], ◌∷◌, ◌++◌, length, IfOk, OnOk, OnErr, MatchResult, Ok};
ghost use Rattle.std.specs.Str.{byte};
ghost use Rattle.rdx_sexp.specs.Begin as begin;
ghost use Rattle.rdx_sexp.specs.Blanks.{past_blanks, past_comment};
ghost use Rattle.rdx_sexp.specs.Inside.Cursor.{text_from, StopsAt};
ghost use Rattle.rdx_sexp.specs.Text.{next_is};

use crate::cursor::Cursor;
use crate::fault::refused;
use crate::{ReadFault, ReadKind};
use rdx_base::Place;
use std::alloc::Global;

// What follows the end of the line.
pub(crate) fn past_line<'a>(cursor: Cursor<'a>) -> Cursor<'a>
    ensures value { text_from result ≡ begin.past_line cursor.entry.place cursor.entry.rest.now }
    ensures same { past_comment cursor.entry.place cursor.entry.rest.now
        ≡ past_blanks [] result.place result.rest.now }
    ensures shorter { length result.rest.now ≤ length cursor.entry.rest.now }
{
    let mut at = cursor;
    while let Some((c, rest)) = at.step() {
        if c == '\n' {
            return rest;
        }
        at = rest;
    }
    at
}

// The character and the next one begin a block comment.
fn begins_block(c: char, rest: Cursor<'_>) -> bool
    ensures { result ≡ (c == byte "#" && next_is (byte "|") rest.entry.rest.now) }
{
    c == '#' && rest.next_is('|')
}

// The character and the next one end a block comment.
fn ends_block(c: char, rest: Cursor<'_>) -> bool
    ensures { result ≡ (c == byte "|" && next_is (byte "#") rest.entry.rest.now) }
{
    c == '|' && rest.next_is('#')
}

// One more block comment is open, which begins at `place`.
fn nest(place: Place, places: &mut Vec<Place>) -> Result<(), ReadFault>
    ensures ok { OnOk result (places.new.items ≡ places.old.items ++ place ∷ []) }
    ensures err { OnErr result (result ≡ Err ReadFault.NoMemory) }
{
    places.push(place)?;
    Ok(())
}

// What follows a block comment that was opened at `place`.
fn past_block<'a>(alloc: Global, place: Place, cursor: Cursor<'a>) -> Result<Cursor<'a>, ReadFault>
    ensures same { MatchResult result
        (λ r. past_blanks (place ∷ []) cursor.entry.place cursor.entry.rest.now
        ≡ past_blanks [] r.place r.rest.now)
        (λ e. StopsAt e (past_blanks (place ∷ []) cursor.entry.place cursor.entry.rest.now)) }
    ensures shorter { IfOk result (λ r. length r.rest.now ≤ length cursor.entry.rest.now) }
{
    let mut open = Vec::new(alloc);
    nest(place, &mut open)?;
    let mut at = cursor;
    while let Some(innermost) = open.last() {
        let Some((c, rest)) = at.step() else {
            return Err(refused(ReadKind::Unclosed, *innermost));
        };
        if begins_block(c, rest) {
            nest(at.place, &mut open)?;
            at = rest.skip_one();
        } else if ends_block(c, rest) {
            open.pop();
            at = rest.skip_one();
        } else {
            at = rest;
        }
    }
    Ok(at)
}

// Where the next lexeme begins, or the text ends.
#[tactic(auto, using(crate::proofs::Steps::outside_step))]
pub(crate) fn past_blanks<'a>(alloc: Global, cursor: Cursor<'a>) -> Result<Cursor<'a>, ReadFault>
    ensures { MatchResult result
        (λ r. past_blanks [] cursor.entry.place cursor.entry.rest.now ≡ Ok (text_from r))
        (λ e. StopsAt e (past_blanks [] cursor.entry.place cursor.entry.rest.now)) }
{
    let mut at = cursor;
    while let Some((c, rest)) = at.step() {
        if c == ';' {
            at = past_line(rest);
        } else if begins_block(c, rest) {
            at = past_block(alloc, at.place, rest.skip_one())?;
        } else if c.is_whitespace() {
            at = rest;
        } else {
            break;
        }
    }
    Ok(at)
}
