// A file is read until the source ends, or one byte more than a file may have was taken.
ghost use Rattle.std.specs.Prelude.{◌≡◌, ◌≤◌, IfOk, OnErr, IsErrOf};
ghost use Rattle.rdx_base.specs.Faults.{Rose};
ghost use Rattle.rdx_cli.specs.Reading.{IsRead, LosesFront};
ghost use Rattle.rdx_cli.specs.declared.reading.ReadFailure.TheVariants.{NoMemory};

use rdx_base::{Source, Taken};
use std::alloc::{AllocError, Global};

const FULL: usize = 1_048_577;

const PIECE: usize = 4096;

/// Why a file could not be read.
#[derive(Clone, Copy, Debug, PartialEq, Eq)]
pub enum ReadFailure {
    /// A take failed.
    Failed,
    /// There was no memory for the bytes.
    NoMemory,
}

impl From<AllocError> for ReadFailure {
    ghost from_gives = { λ _ failure. failure ≡ NoMemory };

    fn from(_: AllocError) -> Self {
        ReadFailure::NoMemory
    }
}

/// The bytes of a file: it takes until the source ends, or until 1,048,577 bytes were taken. Each
/// take asks for 4,096 bytes, or for as many as are missing where that is less. It stops at the
/// first that fails, and the bytes that were taken are lost.
pub fn read_file<S: Source>(alloc: Global, source: &mut S) -> Result<Vec<u8>, ReadFailure>
    ensures read { IfOk result (λ bytes.
        IsRead (S.left source.old) (S.left source.new) bytes.items) }
    ensures lost { OnErr result (LosesFront (S.left source.old) (S.left source.new)) }
    ensures later { S.faults source.old ≤ S.faults source.new }
    ensures failed { IsErrOf result ReadFailure.Failed
        → Rose (S.faults source.old) (S.faults source.new) }
{
    let mut bytes = Vec::new(alloc);
    let mut buffer = [0u8; PIECE];
    'pieces: while bytes.len() < FULL {
        let wanted = (FULL - bytes.len()).min(PIECE);
        match source.take(&mut buffer[..wanted]) {
            Taken::Got(count) => bytes.extend_from_slice(&buffer[..count])?,
            Taken::End => return Ok(bytes),
            Taken::Failed => return Err(ReadFailure::Failed),
        }
    }
    Ok(bytes)
}
