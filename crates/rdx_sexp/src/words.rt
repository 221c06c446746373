// Tokens: how far they reach, and what they are.
ghost use Rattle.std.specs.Prelude.{◌≡◌, ◌++◌, IsTrue, string_bytes, IfOk, OnOk, OnErr, MatchOption, Some, None};
ghost use Rattle.std.specs.Char.{is_ascii_digit};
ghost use Rattle.std.specs.List.{list_all};
ghost use Rattle.std.specs.Str.{encode_utf8_all};
ghost use Rattle.std.specs.Str.Parse.{signed_digits_value, without_leading_sign};
ghost use Rattle.rdx_sexp.specs.Inside.Cursor.{text_from, GivesWord};
ghost use Rattle.rdx_sexp.specs.Token.{token_chars, past_token, is_integer, integer_lexeme, keyword_name, hash_lexeme, token_lexeme};

use crate::cursor::Cursor;
use crate::fault::refused;
use crate::lexeme::Atom;
use crate::{ReadFault, ReadKind};
use rdx_base::Span;
use rdx_term::spelling::{
    begins_number, begins_with_hash, ends_token, has_symbol_quote, is_reserved,
};
use std::alloc::Global;
use std::rc::RcStr;

// The rest of a token, at the end of `text`, and what follows.
pub(crate) fn take_token<'a>(text: &mut String, cursor: Cursor<'a>) -> Result<Cursor<'a>, ReadFault>
    ensures chars { OnOk result
        (string_bytes text.new
        ≡ string_bytes text.old ++ encode_utf8_all (token_chars cursor.entry.rest.now)) }
    ensures after { IfOk result
        (λ r. text_from r ≡ past_token cursor.entry.place cursor.entry.rest.now) }
    ensures err { OnErr result (result ≡ Err ReadFault.NoMemory) }
{
    let mut at = cursor;
    while let Some((c, rest)) = at.step() {
        if ends_token(c) {
            return Ok(at);
        }
        text.push(c)?;
        at = rest;
    }
    Ok(at)
}

fn without_sign(bytes: &[u8]) -> &[u8]
    ensures { result.now ≡ without_leading_sign bytes.now }
{
    match bytes {
        [b'+' | b'-', digits @ ..] => digits,
        _ => bytes,
    }
}

fn are_digits(bytes: &[u8]) -> bool
    ensures { result ≡ list_all is_ascii_digit bytes.now }
{
    bytes.iter().all(|byte| byte.is_ascii_digit())
}

fn is_integer(bytes: &[u8]) -> bool
    ensures { result ≡ is_integer bytes.now }
{
    let digits = without_sign(bytes);
    !digits.is_empty() && are_digits(digits)
}

#[tactic(auto, using(crate::proofs::Numbers::out_of_range))]
// The integer that a sign and digits write.
fn integer(text: &str, span: Span) -> Result<Atom, ReadFault>
    requires { IsTrue (is_integer text.now) }
    ensures { GivesWord result span (integer_lexeme (signed_digits_value 10 text.now) span) }
{
    match text.parse::<i128>() {
        Ok(n) => Ok(Atom::Int(n)),
        Err(_) => Err(refused(ReadKind::NumberRange, span.start)),
    }
}

// What stands behind `#:`, if anything does.
fn keyword_name(text: &str) -> Option<&str>
    ensures { MatchOption result
        (keyword_name text.now ≡ None)
        (λ name. keyword_name text.now ≡ Some name.now) }
{
    let bytes = text.as_bytes();
    if bytes.len() > 2 && bytes[0] == b'#' && bytes[1] == b':' {
        Some(&text[2..])
    } else {
        None
    }
}

// What a token that begins with `#` is.
fn hashed(alloc: Global, text: &str, span: Span) -> Result<Atom, ReadFault>
    ensures { GivesWord result span (hash_lexeme text.now span) }
{
    if text == "#t" || text == "#true" {
        return Ok(Atom::Bool(true));
    }
    if text == "#f" || text == "#false" {
        return Ok(Atom::Bool(false));
    }
    match keyword_name(text) {
        Some(name) => Ok(Atom::Key(RcStr::from_str(alloc, name)?)),
        None => Err(refused(ReadKind::BadToken, span.start)),
    }
}

// What a token is.
pub(crate) fn atom_of(alloc: Global, text: String, span: Span) -> Result<Atom, ReadFault>
    ensures { GivesWord result span (token_lexeme (string_bytes text) span) }
{
    let word = text.as_str();
    if has_symbol_quote(word.as_bytes()) || word == "." {
        return Err(refused(ReadKind::BadToken, span.start));
    }
    if begins_with_hash(word.as_bytes()) {
        return hashed(alloc, word, span);
    }
    if is_integer(word.as_bytes()) {
        return integer(word, span);
    }
    if begins_number(word.as_bytes()) || is_reserved(word) {
        return Err(refused(ReadKind::NumberForm, span.start));
    }
    Ok(Atom::Sym(RcStr::from_string(text)?))
}
