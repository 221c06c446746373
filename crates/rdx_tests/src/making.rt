// What tests are made of: names, files that are accepted, and terms in boxes, since a box is dropped by one call.
ghost use Rattle.std.specs.Prelude.{◌≤◌, length};
ghost use Rattle.rdx_sexp.specs.Size.{AreFileData};

use rdx_query::{CheckedFile, check_file};
use rdx_sexp::{Datum, read_all};
use rdx_term::{Build, Name, NoMemory, Term};
use std::alloc::Global;
use std::process::Abort;
use std::rc::RcStr;

pub(crate) fn name(alloc: Global, text: &str) -> Result<Name, NoMemory> {
    Name::new(RcStr::from_str(alloc, text)?).ok_or(NoMemory)
}

pub(crate) fn boxed(alloc: Global, made: Result<Term, Build>) -> Result<Box<Term>, Build> {
    Ok(Box::new(alloc, made?)?)
}

pub(crate) fn read<R: Abort + AllocGlobal>(rt: &R, bytes: &[u8]) -> Vec<Datum>
    requires { length bytes.now ≤ 1_048_576 }
    ensures { AreFileData result.items }
{
    read_all(rt.alloc(), bytes).expect(rt, "data")
}

pub(crate) fn checked<R: Abort + AllocGlobal>(rt: &R, bytes: &[u8]) -> CheckedFile
    requires { length bytes.now ≤ 1_048_576 }
{
    let data = read(rt, bytes);
    check_file(rt.alloc(), &data).expect(rt, "a file that is accepted")
}
