// The reader: bytes to data.
ghost use Rattle.std.specs.Prelude.{◌≡◌, ◌≤◌, [], length, List, IfOk, IfErr, OnErr, chars, take};
ghost use Rattle.std.specs.Str.{IsUtf8};
ghost use Rattle.rdx_sexp.specs.declared.fault.ReadRefusal.{ReadRefusal};
ghost use Rattle.rdx_sexp.specs.Answers.{HasData, HasRefusal, IsFaultOf, IsRefusal};
ghost use Rattle.rdx_sexp.specs.Begin as begin;
ghost use Rattle.rdx_sexp.specs.Inside.Cursor.{text_from};
ghost use Rattle.rdx_sexp.specs.Lexeme.{Lexeme};
ghost use Rattle.rdx_sexp.specs.Inside.Machine.{ended, run};
ghost use Rattle.rdx_sexp.specs.Reads.{Lexes, Reads, FirstFault};
ghost use Rattle.rdx_sexp.specs.Refusal.{refusal};
ghost use Rattle.rdx_sexp.specs.Sexp.{Sexp};
ghost use Rattle.rdx_sexp.specs.Size.{AreFileData};
ghost use Rattle.rdx_sexp.specs.Inside.Stack.{frames, Gives};
ghost use Rattle.rdx_sexp.specs.Text.{at, start, after_all};

use crate::begin::body;
use crate::cursor::Cursor;
use crate::fault::refused;
use crate::lexer::next;
use crate::reader::{Level, take};
use crate::{Datum, ReadFault, ReadKind};
use rdx_base::Place;
use std::alloc::Global;

// The data, at the end of the text.
fn finished(stack: &[Level], items: Vec<Datum>) -> Result<Vec<Datum>, ReadFault>
    ensures { Gives result (ended (frames stack.now) items.items) }
{
    match stack.last() {
        None => Ok(items),
        Some(level) => Err(refused(ReadKind::Unclosed, level.opener.place())),
    }
}

// The data of a text.
fn read_text(alloc: Global, text: Cursor<'_>) -> Result<Vec<Datum>, ReadFault>
    ensures { (ls : List Lexeme) → Lexes (text_from text.entry) ls → Gives result (run [] [] ls) }
{
    let mut stack = Vec::new(alloc);
    let mut items = Vec::new(alloc);
    let mut at = text;
    while let Some((lexeme, rest)) = next(alloc, at)? {
        take(alloc, lexeme, &mut stack, &mut items)?;
        at = rest;
    }
    finished(&stack, items)
}

fn chars_of(alloc: Global, text: &str) -> Result<Vec<char>, ReadFault>
    ensures value { IfOk result (λ v. v.items ≡ chars text.now) }
    ensures short { IfOk result (λ v. length v.items ≤ length text.now) }
    ensures err { OnErr result (result ≡ Err ReadFault.NoMemory) }
{
    let chars = text.chars().collect(alloc)?;
    Ok(chars)
}

fn start<'a>(chars: &'a [char]) -> Cursor<'a>
    requires { length chars.now ≤ 1_048_576 }
    ensures { text_from result ≡ at start chars.now }
{
    Cursor {
        rest: chars,
        place: Place { line: 1, column: 1 },
    }
}

fn read_str(alloc: Global, text: &str) -> Result<Vec<Datum>, ReadFault>
    requires { length text.now ≤ 1_048_576 }
    ensures { (ls : List Lexeme)
        → Lexes (begin.body (chars text.now)) ls → Gives result (run [] [] ls) }
{
    let chars = chars_of(alloc, text)?;
    read_text(alloc, body(start(chars.as_slice())))
}

// The refusal of bytes of which the first `len` are UTF-8.
fn not_utf8(alloc: Global, bytes: &[u8], len: usize) -> ReadFault
    requires small { length bytes.now ≤ 1_048_576 }
    requires within { len ≤ length bytes.now }
    requires front { IsUtf8 (take len bytes.now) }
    ensures { IsRefusal
        (refusal ReadKind.NotUtf8 (after_all start (chars (take len bytes.now)))) result }
{
    let Ok(text) = std::str::from_utf8(&bytes[..len]) else {
        unreachable!();
    };
    match chars_of(alloc, text) {
        Ok(chars) => refused(ReadKind::NotUtf8, start(chars.as_slice()).end()),
        Err(fault) => fault,
    }
}

/// The data that the bytes are, or the first fault of the text, a character at a time from its start; bytes that aren't UTF-8 come before
/// every fault of the characters.
pub fn read_all(alloc: Global, bytes: &[u8]) -> Result<Vec<Datum>, ReadFault>
    requires { length bytes.now ≤ 1_048_576 }
    ensures reading { IfOk result (λ v. Reads bytes.now v.items) }
    ensures size { IfOk result (λ v. AreFileData v.items) }
    ensures data { (ds : List Sexp) → Reads bytes.now ds → HasData ds result }
    ensures refused { IfErr result (IsFaultOf bytes.now) }
    ensures fault { (r : ReadRefusal) → FirstFault bytes.now r → HasRefusal r result }
{
    match std::str::from_utf8(bytes) {
        Ok(text) => read_str(alloc, text),
        Err(error) => Err(not_utf8(alloc, bytes, error.valid_up_to())),
    }
}
