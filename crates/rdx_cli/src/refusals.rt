// The lines that say why a file is refused, and where.
ghost use Rattle.std.specs.Prelude.{◌≡◌, ◌++◌, IfOk, OnOk, option_map};
ghost use Rattle.std.specs.Rc.{rc_str_bytes};
ghost use Rattle.rdx_patterns.specs.Refusal.{refusal_of};
ghost use Rattle.rdx_cli.specs.Refusals as refusals;

use itoa::Buffer;
use rdx_base::Place;
use rdx_patterns::{DefKind, DefRefusal};
use rdx_sexp::{ReadKind, ReadRefusal};
use rdx_term::NoMemory;
use std::alloc::Global;
use std::rc::RcStr;

// The name of what a text is refused for.
fn read_name(kind: ReadKind) -> &'static str
    ensures { result.now ≡ refusals.read_name kind }
{
    match kind {
        ReadKind::NotUtf8 => "F1 NotUtf8",
        ReadKind::Unclosed => "F2 Unclosed",
        ReadKind::WrongClose => "F3 WrongClose",
        ReadKind::BadToken => "F4 BadToken",
        ReadKind::NumberForm => "F5 NumberForm",
        ReadKind::NumberRange => "F6 NumberRange",
        ReadKind::BadString => "F7 BadString",
        ReadKind::TooDeep => "F8 TooDeep",
    }
}

// The name of what a form is refused for.
fn form_name(kind: DefKind) -> &'static str
    ensures { result.now ≡ refusals.form_name kind }
{
    match kind {
        DefKind::Shape => "S1 Shape",
        DefKind::UnknownLanguage => "S2 UnknownLanguage",
        DefKind::Duplicate => "S3 Duplicate",
        DefKind::BadName => "S4 BadName",
        DefKind::BadPattern => "S5 BadPattern",
        DefKind::EllipsisDepth => "S6 EllipsisDepth",
        DefKind::LeftRecursive => "S7 LeftRecursive",
        DefKind::UnknownName => "S8 UnknownName",
        DefKind::EllipsisVariable => "S9 EllipsisVariable",
        DefKind::RacketEscape => "S10 RacketEscape",
        DefKind::Mode => "S11 Mode",
    }
}

// The front of a line: the kind and the place of a refusal.
fn write_place(kind: &str, place: Place, line: &mut Vec<u8>) -> Result<(), NoMemory>
    ensures { OnOk result
        (line.new.items ≡ line.old.items ++ refusals.place_text kind.now place) }
{
    let mut buffer = Buffer::new();
    line.extend_from_slice(b"refused ")?;
    line.extend_from_slice(kind.as_bytes())?;
    line.extend_from_slice(b" at ")?;
    line.extend_from_slice(buffer.format(place.line).as_bytes())?;
    line.push(b':')?;
    line.extend_from_slice(buffer.format(place.column).as_bytes())?;
    Ok(())
}

// The name at the end of a line, where there is one.
fn write_name(name: &Option<RcStr>, line: &mut Vec<u8>) -> Result<(), NoMemory>
    ensures { OnOk result
        (line.new.items ≡ line.old.items ++ refusals.name_text (option_map rc_str_bytes name.now)) }
{
    if let Some(name) = name {
        line.push(b' ')?;
        line.extend_from_slice(name.as_str().as_bytes())?;
    }
    Ok(())
}

/// The line of a text that can't be read.
pub fn read_line(alloc: Global, refusal: ReadRefusal) -> Result<Vec<u8>, NoMemory>
    ensures { IfOk result (λ line. line.items ≡ refusals.read_line refusal) }
{
    let mut line = Vec::new(alloc);
    write_place(read_name(refusal.kind), refusal.place, &mut line)?;
    line.push(b'\n')?;
    Ok(line)
}

/// The line that says that the last language of a file has not this nonterminal.
pub fn nonterminal_line(alloc: Global, nt: &str) -> Result<Vec<u8>, NoMemory>
    ensures { IfOk result (λ line. line.items ≡ refusals.nonterminal_line nt.now) }
{
    let mut line = Vec::new(alloc);
    line.extend_from_slice(b"refused S12 NoNonterminal ")?;
    line.extend_from_slice(nt.as_bytes())?;
    line.push(b'\n')?;
    Ok(line)
}

/// The line of a form that is refused.
pub fn form_line(alloc: Global, refusal: &DefRefusal) -> Result<Vec<u8>, NoMemory>
    ensures { IfOk result (λ line. line.items ≡ refusals.form_line (refusal_of refusal.now)) }
{
    let mut line = Vec::new(alloc);
    write_place(form_name(refusal.kind), refusal.place, &mut line)?;
    write_name(&refusal.name, &mut line)?;
    line.push(b'\n')?;
    Ok(line)
}
