// Strings.
ghost use Rattle.std.specs.Prelude.{◌≡◌, None};
ghost use Rattle.rdx_sexp.specs.Inside.Cursor.{GivesBody};
ghost use Rattle.rdx_sexp.specs.Strings.{escape_of, string_body};

use crate::cursor::Cursor;
use crate::fault::refused;
use crate::{ReadFault, ReadKind};
use rdx_base::Place;
use std::alloc::Global;

// What the character behind a backslash stands for.
fn escape_of(c: char) -> Option<char>
    ensures { result ≡ escape_of c }
{
    match c {
        '"' => Some('"'),
        '\\' => Some('\\'),
        'n' => Some('\n'),
        't' => Some('\t'),
        'r' => Some('\r'),
        _ => None,
    }
}

// A string behind its opening quotation mark at `place`, and what follows.
pub(crate) fn string_body<'a>(
    alloc: Global,
    place: Place,
    cursor: Cursor<'a>,
) -> Result<(String, Cursor<'a>), ReadFault>
    ensures { GivesBody result (string_body place cursor.entry.place cursor.entry.rest.now) }
{
    let mut text = String::new(alloc);
    let mut at = cursor;
    while let Some((c, rest)) = at.step() {
        if c == '"' {
            return Ok((text, rest));
        }
        if c != '\\' {
            text.push(c)?;
            at = rest;
            continue;
        }
        let Some((e, others)) = rest.step() else {
            break;
        };
        let Some(meant) = escape_of(e) else {
            return Err(refused(ReadKind::BadString, at.place));
        };
        text.push(meant)?;
        at = others;
    }
    Err(refused(ReadKind::BadString, place))
}
