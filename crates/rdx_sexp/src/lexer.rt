// Lexemes of a text.
ghost use Rattle.std.specs.Prelude.{◌≡◌, None};
ghost use Rattle.rdx_sexp.specs.Inside.Cursor.{text_from, GivesPair, GivesStep};
ghost use Rattle.rdx_sexp.specs.Lex.{lexeme_from, first_lexeme, string_step, token_step};
ghost use Rattle.rdx_sexp.specs.Strings.{string_body};

use crate::ReadFault;
use crate::blanks::past_blanks;
use crate::cursor::Cursor;
use crate::lexeme::{Atom, Bracket, Lexeme, QuoteMark};
use crate::strings::string_body;
use crate::words::{atom_of, take_token};
use rdx_base::{Place, Span};
use std::alloc::Global;
use std::rc::RcStr;

// The string that opens at `place`, before `rest`.
fn string<'a>(
    alloc: Global,
    place: Place,
    rest: Cursor<'a>,
) -> Result<(Lexeme, Cursor<'a>), ReadFault>
    ensures { GivesPair result
        (string_step place
        (string_body place rest.entry.place rest.entry.rest.now)
        (text_from rest.entry)) }
{
    let (text, end) = string_body(alloc, place, rest)?;
    let span = Span {
        start: place,
        end: end.place,
    };
    Ok((
        Lexeme::Word(Atom::Str(RcStr::from_string(text)?), span),
        end,
    ))
}

// The token that begins with c at `place`, before `rest`.
fn word<'a>(
    alloc: Global,
    place: Place,
    c: char,
    rest: Cursor<'a>,
) -> Result<(Lexeme, Cursor<'a>), ReadFault>
    ensures { GivesPair result (token_step place c (text_from rest.entry)) }
{
    let mut text = String::new(alloc);
    text.push(c)?;
    let end = take_token(&mut text, rest)?;
    let span = Span {
        start: place,
        end: end.place,
    };
    Ok((Lexeme::Word(atom_of(alloc, text, span)?, span), end))
}

// The lexeme that begins with c at `place`, before `rest`.
fn lexeme_from<'a>(
    alloc: Global,
    place: Place,
    c: char,
    rest: Cursor<'a>,
) -> Result<(Lexeme, Cursor<'a>), ReadFault>
    ensures { GivesPair result (lexeme_from place c (text_from rest.entry)) }
{
    let one = Span {
        start: place,
        end: rest.place,
    };
    let others = rest.skip_one();
    let two = Span {
        start: place,
        end: others.place,
    };
    Ok(match c {
        '(' => (Lexeme::Open(Bracket::Round, one), rest),
        ')' => (Lexeme::Close(Bracket::Round, one), rest),
        '[' => (Lexeme::Open(Bracket::Square, one), rest),
        ']' => (Lexeme::Close(Bracket::Square, one), rest),
        '{' => (Lexeme::Open(Bracket::Curly, one), rest),
        '}' => (Lexeme::Close(Bracket::Curly, one), rest),
        '\'' => (Lexeme::Marked(QuoteMark::Quote, one), rest),
        '`' => (Lexeme::Marked(QuoteMark::Quasiquote, one), rest),
        ',' if rest.next_is('@') => (Lexeme::Marked(QuoteMark::UnquoteSplicing, two), others),
        ',' => (Lexeme::Marked(QuoteMark::Unquote, one), rest),
        '"' => string(alloc, place, rest)?,
        '#' if rest.next_is(';') => (Lexeme::Skip(two), others),
        _ => word(alloc, place, c, rest)?,
    })
}

// The first lexeme, and what follows.
#[tactic(auto, unfolding(crate::specs::Lex::first_lexeme))]
pub(crate) fn next<'a>(
    alloc: Global,
    cursor: Cursor<'a>,
) -> Result<Option<(Lexeme, Cursor<'a>)>, ReadFault>
    ensures { GivesStep result (first_lexeme (text_from cursor.entry)) }
{
    let at = past_blanks(alloc, cursor)?;
    match at.step() {
        None => Ok(None),
        Some((c, rest)) => Ok(Some(lexeme_from(alloc, at.place, c, rest)?)),
    }
}
