// What a file is, before anything is done with it.
ghost use Rattle.std.specs.Prelude.{IfOk};
ghost use Rattle.rdx_cli.specs.Inside.Contents.{AreContents};

use crate::refusals::read_line;
use rdx_sexp::{Datum, ReadFault, read_all};
use rdx_term::NoMemory;
use std::alloc::Global;

const LONGEST: usize = 1_048_576;

/// What a file is.
#[derive(Drop)]
pub enum Contents {
    /// These data.
    Data(Vec<Datum>),
    /// No data, for what this line says.
    Unread(Vec<u8>),
}

/// The data of a file, or the line that says why it is none.
pub fn contents_of(alloc: Global, bytes: &[u8]) -> Result<Contents, NoMemory>
    ensures { IfOk result (λ contents. AreContents bytes.now contents) }
{
    if bytes.len() > LONGEST {
        return Ok(Contents::Unread(b"refused F9 TooLong\n".to_vec(alloc)?));
    }
    match read_all(alloc, bytes) {
        Ok(data) => Ok(Contents::Data(data)),
        Err(ReadFault::Refused(refusal)) => Ok(Contents::Unread(read_line(alloc, refusal)?)),
        Err(ReadFault::NoMemory) => Err(NoMemory),
    }
}
