// The transcript of a file, made in memory.
ghost use Rattle.std.specs.Prelude.{◌≡◌, ◌≤◌, ◌++◌, IfOk, codes, decimal, drop, length};
ghost use Rattle.rdx_cli.specs.Inside.Rows.{IsFit, Writes, WritesIn};
ghost use Rattle.rdx_cli.specs.Transcript.{FormatWrites, TypesetWrites, WorkloadWrites, last_line, verdict_of};

use crate::contents::{Contents, contents_of};
use crate::refusals::form_line;
use crate::terms::terms_transcript;
use crate::words::{Row, numbers_in};
use itoa::Buffer;
use rdx_delta::HostTable;
use rdx_patterns::DefFault;
use rdx_query::{Answered, Mode, answer, check_file, workload_text};
use rdx_term::NoMemory;
use rdx_typeset::{canonical, typeset};
use std::alloc::Global;

/// What became of a file.
#[derive(Clone, Copy, Debug, PartialEq, Eq)]
pub enum Verdict {
    /// Each form was answered, and all that the file states is met.
    Done,
    /// Each form was answered, and something that the file states is not met.
    Unmet,
    /// The file was refused, and the text says why.
    Refused,
}

/// All that is written for a file.
#[derive(Drop)]
pub struct Transcript {
    /// The bytes of the text.
    pub text: Vec<u8>,
    /// What became of the file.
    pub verdict: Verdict,
}

/// What the row of the table asks for, of a file of these bytes.
pub fn transcript_of(
    alloc: Global,
    row: &Row<'_>,
    bytes: &[u8],
    host: &HostTable,
) -> Result<Transcript, NoMemory>
    requires { IsFit row.now }
    ensures { IfOk result (λ t. Writes row.now bytes.now t.text.items t.verdict) }
{
    match row {
        Row::Run => run_transcript(alloc, bytes, host, &Mode::Run),
        Row::Why => run_transcript(alloc, bytes, host, &Mode::Why),
        Row::Step(words) => {
            let mode = Mode::Step(numbers_in(alloc, words)?);
            run_transcript(alloc, bytes, host, &mode)
        }
        Row::Workload(tests) => workload_transcript(alloc, *tests, host),
        Row::Typeset => typeset_transcript(alloc, bytes),
        Row::Format => format_transcript(alloc, bytes),
        Row::Terms(nt, k) => terms_transcript(alloc, nt, *k, bytes),
    }
}

// The answers to the queries of a file in this mode, or the line that says why it is refused.
fn run_transcript(
    alloc: Global,
    bytes: &[u8],
    host: &HostTable,
    mode: &Mode,
) -> Result<Transcript, NoMemory>
    ensures { IfOk result (λ t. WritesIn mode.now bytes.now t.text.items t.verdict) }
{
    let data = match contents_of(alloc, bytes)? {
        Contents::Data(data) => data,
        Contents::Unread(line) => return Ok(refused(line)),
    };
    match check_file(alloc, &data) {
        Ok(file) => Ok(answered(answer(alloc, &file, host, mode)?)),
        Err(DefFault::Refused(refusal)) => Ok(refused(form_line(alloc, &refusal)?)),
        Err(DefFault::NoMemory) => Err(NoMemory),
    }
}

// The typeset text of a file whose forms are all accepted, or the line that says why it is refused.
fn typeset_transcript(alloc: Global, bytes: &[u8]) -> Result<Transcript, NoMemory>
    ensures { IfOk result (λ t. TypesetWrites bytes.now t.text.items t.verdict) }
{
    let data = match contents_of(alloc, bytes)? {
        Contents::Data(data) => data,
        Contents::Unread(line) => return Ok(refused(line)),
    };
    match check_file(alloc, &data) {
        Ok(_) => Ok(written(typeset(alloc, &data)?)),
        Err(DefFault::Refused(refusal)) => Ok(refused(form_line(alloc, &refusal)?)),
        Err(DefFault::NoMemory) => Err(NoMemory),
    }
}

// The canonical text of a file that is data, or the line that says why it is none.
fn format_transcript(alloc: Global, bytes: &[u8]) -> Result<Transcript, NoMemory>
    ensures { IfOk result (λ t. FormatWrites bytes.now t.text.items t.verdict) }
{
    match contents_of(alloc, bytes)? {
        Contents::Data(data) => Ok(written(canonical(alloc, &data)?)),
        Contents::Unread(line) => Ok(refused(line)),
    }
}

// Where the last line of a text begins.
fn last_line_at(text: &[u8]) -> usize
    ensures within { result ≤ length text.now }
    ensures line { drop result text.now ≡ last_line text.now }
{
    let mut start = text.len().saturating_sub(1);
    'bytes: while start > 0 && text[start - 1] != b'\n' {
        start -= 1;
    }
    start
}

// The two lines of the workload with so many tests, of what its file writes.
fn workload_lines(alloc: Global, tests: u32, whole: &[u8]) -> Result<Vec<u8>, NoMemory>
    ensures { IfOk result (λ text. text.items
        ≡ codes "workload " ++ decimal tests ++ codes "\n" ++ last_line whole.now) }
{
    let mut text = Vec::new(alloc);
    let mut buffer = Buffer::new();
    text.extend_from_slice(b"workload ")?;
    text.extend_from_slice(buffer.format(tests).as_bytes())?;
    text.push(b'\n')?;
    text.extend_from_slice(&whole[last_line_at(whole)..])?;
    Ok(text)
}

// What is written for the workload with so many tests.
fn workload_transcript(alloc: Global, tests: u32, host: &HostTable) -> Result<Transcript, NoMemory>
    requires some { 1 ≤ tests }
    requires few { tests ≤ 2000 }
    ensures { IfOk result (λ t. WorkloadWrites tests t.text.items t.verdict) }
{
    let file = workload_text(alloc, tests)?;
    let whole = run_transcript(alloc, &file, host, &Mode::Run)?;
    Ok(Transcript {
        text: workload_lines(alloc, tests, &whole.text)?,
        verdict: whole.verdict,
    })
}

// The transcript of a file whose forms are all answered.
fn answered(answers: Answered) -> Transcript
    ensures text { result.text.items ≡ answers.transcript.items }
    ensures verdict { result.verdict ≡ verdict_of answers.met }
{
    Transcript {
        text: answers.transcript,
        verdict: verdict_for(answers.met),
    }
}

/// The transcript that is this text alone.
pub fn written(text: Vec<u8>) -> Transcript
    ensures text { result.text.items ≡ text.items }
    ensures verdict { result.verdict ≡ Verdict.Done }
{
    Transcript {
        text,
        verdict: Verdict::Done,
    }
}

// The verdict on a file whose forms are all answered.
fn verdict_for(met: bool) -> Verdict
    ensures { result ≡ verdict_of met }
{
    if met { Verdict::Done } else { Verdict::Unmet }
}

/// The transcript of a refusal, which is this line alone.
pub fn refused(line: Vec<u8>) -> Transcript
    ensures text { result.text.items ≡ line.items }
    ensures verdict { result.verdict ≡ Verdict.Refused }
{
    Transcript {
        text: line,
        verdict: Verdict::Refused,
    }
}
