// The top call: a file is read, and its transcript is written.
ghost use Rattle.std.specs.Prelude.{◌≡◌, ◌≤◌, ◌⊎◌, ◌↔◌, IfOk, IsErrOf};
ghost use Rattle.rdx_base.specs.Faults.{Rose};
ghost use Rattle.rdx_cli.specs.Reading.{LosesFront};
ghost use Rattle.rdx_cli.specs.Words.{AsksWorkload, FitsNoRow, texts};
ghost use Rattle.rdx_cli.specs.Inside.Rows.{IsWorkload, TakenBy};
ghost use Rattle.rdx_cli.specs.Ends.{WroteWhole, WrotePrefix, IsFinished, IsSilent, code_of, status_of};

use crate::reading::{ReadFailure, read_file};
use crate::transcript::{Verdict, transcript_of};
use crate::words::{Row, row_of};
use crate::writing::write_text;
use rdx_base::{Sink, Source};
use rdx_delta::HostTable;
use std::alloc::Global;

/// How a run ended.
#[derive(Clone, Copy, Debug, PartialEq, Eq)]
pub enum Status {
    /// Each form of the file was answered.
    Done,
    /// Each form was answered, and something that the file states is not met.
    Unmet,
    /// The file was refused.
    Refused,
    /// The words are no row of the table.
    Usage,
    /// The source failed.
    ReadFault,
    /// The sink failed.
    WriteFault,
    /// There was no memory.
    NoMemory,
}

impl Status {
    /// The number that the program ends with.
    pub fn code(&self) -> u8
        ensures { result ≡ code_of self.now }
    {
        *self as u8
    }
}

/// Reads a file, and writes what the words ask for, of which the definition is in
/// `specs/Transcript.antt`. Host expressions of the file ask the table.
pub fn run<S: Source, K: Sink>(
    alloc: Global,
    words: &[String],
    source: &mut S,
    sink: &mut K,
    host: &HostTable,
) -> Status
    // The words decide about the usage, and then nothing is read; nor is it for the workload.
    ensures usage { (result ≡ Status.Usage) ↔ FitsNoRow (texts words.now) }
    ensures untaken { result ≡ Status.Usage → source.new ≡ source.old }
    ensures unread { AsksWorkload (texts words.now) → source.new ≡ source.old }

    // What the words ask for has this transcript, and all of it was written, or a front where a
    // put failed.
    ensures whole { IsFinished result
        → WroteWhole (texts words.now) (S.left source.old) (S.left source.new)
        (K.written sink.old) (K.written sink.new) result }
    ensures front { result ≡ Status.WriteFault
        → WrotePrefix (texts words.now) (S.left source.old) (S.left source.new)
        (K.written sink.old) (K.written sink.new) }
    ensures silent { IsSilent result → sink.new ≡ sink.old }
    ensures lost { LosesFront (S.left source.old) (S.left source.new) }

    // A fault has its cause, and only a fault or want of memory keeps a run from its end.
    ensures read_fault { result ≡ Status.ReadFault
        → Rose (S.faults source.old) (S.faults source.new) }
    ensures write_fault { result ≡ Status.WriteFault
        → Rose (K.faults sink.old) (K.faults sink.new) }
    ensures complete { ¬ FitsNoRow (texts words.now)
        → ¬ Rose (S.faults source.old) (S.faults source.new)
        → ¬ Rose (K.faults sink.old) (K.faults sink.new)
        → IsFinished result ⊎ (result ≡ Status.NoMemory) }
{
    let Some(row) = row_of(words) else {
        return Status::Usage;
    };
    let bytes = match take_for(alloc, &row, source) {
        Ok(bytes) => bytes,
        Err(ReadFailure::Failed) => return Status::ReadFault,
        Err(ReadFailure::NoMemory) => return Status::NoMemory,
    };
    let Ok(transcript) = transcript_of(alloc, &row, &bytes, host) else {
        return Status::NoMemory;
    };
    if !write_text(sink, &transcript.text) {
        return Status::WriteFault;
    }
    status_for(transcript.verdict)
}

// The status of a run that wrote the whole transcript of a file.
fn status_for(verdict: Verdict) -> Status
    ensures { result ≡ status_of verdict }
{
    match verdict {
        Verdict::Done => Status::Done,
        Verdict::Unmet => Status::Unmet,
        Verdict::Refused => Status::Refused,
    }
}

// The bytes that the row asks the source for: a file, or none.
fn take_for<S: Source>(alloc: Global, row: &Row<'_>, source: &mut S) -> Result<Vec<u8>, ReadFailure>
    ensures taken { IfOk result (λ bytes.
        TakenBy row.now (S.left source.old) (S.left source.new) bytes.items) }
    ensures alone { IsWorkload row.now → source.new ≡ source.old }
    ensures lost { LosesFront (S.left source.old) (S.left source.new) }
    ensures later { S.faults source.old ≤ S.faults source.new }
    ensures failed { IsErrOf result ReadFailure.Failed
        → Rose (S.faults source.old) (S.faults source.new) }
{
    match row {
        Row::Run | Row::Why | Row::Step(_) | Row::Typeset | Row::Format | Row::Terms(_, _) =>
            read_file(alloc, source),
        Row::Workload(_) => Ok(Vec::new(alloc)),
    }
}
