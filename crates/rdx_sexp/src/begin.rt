// The first line of a file.
ghost use Rattle.std.specs.Prelude.{◌≡◌, MatchOption, Some, None};
ghost use Rattle.rdx_sexp.specs.Begin.{behind, ends_line, is_line_end, has_lang_line, past_line, body};
ghost use Rattle.rdx_sexp.specs.Inside.Cursor.{text_from};
ghost use Rattle.rdx_sexp.specs.Text.{start};

use crate::blanks::past_line;
use crate::cursor::Cursor;

// What stands behind a word that the text begins with.
fn behind<'a>(word: &[u8], chars: &'a [char]) -> Option<&'a [char]>
    ensures { MatchOption result
        (behind word.now chars.now ≡ None)
        (λ rest. behind word.now chars.now ≡ Some rest.now) }
{
    let mut rest = chars;
    for byte in word {
        let Some((c, others)) = rest.split_first() else {
            return None;
        };
        if *c != char::from(*byte) {
            return None;
        }
        rest = others;
    }
    Some(rest)
}

// Whether the line has nothing more but spaces, tabs and CRs.
fn ends_line(chars: &[char]) -> bool
    ensures { result ≡ ends_line chars.now }
{
    for c in chars {
        if *c == '\n' {
            return true;
        }
        if !(*c == ' ' || *c == '\t' || *c == '\r') {
            return false;
        }
    }
    true
}

// Whether the line has this word and nothing more.
fn is_line(word: &[u8], chars: &[char]) -> bool
    ensures { result ≡ is_line_end (behind word.now chars.now) }
{
    match behind(word, chars) {
        None => false,
        Some(rest) => ends_line(rest),
    }
}

// Whether the first line names the language.
fn has_lang_line(chars: &[char]) -> bool
    ensures { result ≡ has_lang_line chars.now }
{
    is_line(b"#lang racket", chars) || is_line(b"#lang racket/base", chars)
}

// The text with the data, of a whole text.
pub(crate) fn body<'a>(whole: Cursor<'a>) -> Cursor<'a>
    requires { whole.place ≡ start }
    ensures { text_from result ≡ body whole.entry.rest.now }
{
    if has_lang_line(whole.rest) {
        past_line(whole)
    } else {
        whole
    }
}
