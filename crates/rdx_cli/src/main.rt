//! A workbench for operational semantics: it reads a file and writes its transcript.
//!
//! The program reads its standard input to the end, or until it is longer than a file may be, makes
//! the transcript in memory, and writes it to its standard output. The words of the command line say
//! what is asked for (`specs/Words.antt`). It ends with the number of its [`top::Status`], and prints
//! nothing else. The table of host operations is made here, of a function for each.
#![tactic(auto)]

ghost use Rattle.std.specs.Prelude.{◌≡◌, ◌⊎◌, ◌↔◌};
ghost use Rattle.std.specs.IoError.{error_kind};

mod contents;
pub mod laws;
mod reading;
mod refusals;
mod terms;
#[cfg(test)]
mod tests;
mod top;
mod transcript;
mod words;
mod writing;

use rdx_base::{StdSink, StdSource};
use rdx_delta::{
    HostEntry, HostTable, host_add, host_add1, host_eq, host_equal, host_ge, host_gt, host_is_zero,
    host_le, host_lt, host_mul, host_not, host_quotient, host_remainder, host_sub, host_sub1,
};
use rdx_lang::HostOp;
use std::env::Env;
use std::io::ErrorKind;
use std::process::ExitCode;
use std::{env, io};
use top::{Status, run};

fn main(rt: HostRuntime) -> ExitCode {
    let entries = Vec::from_array(
        rt.alloc(),
        [
            HostEntry::new(HostOp::Add, host_add),
            HostEntry::new(HostOp::Sub, host_sub),
            HostEntry::new(HostOp::Mul, host_mul),
            HostEntry::new(HostOp::Quotient, host_quotient),
            HostEntry::new(HostOp::Remainder, host_remainder),
            HostEntry::new(HostOp::Add1, host_add1),
            HostEntry::new(HostOp::Sub1, host_sub1),
            HostEntry::new(HostOp::Eq, host_eq),
            HostEntry::new(HostOp::Lt, host_lt),
            HostEntry::new(HostOp::Le, host_le),
            HostEntry::new(HostOp::Gt, host_gt),
            HostEntry::new(HostOp::Ge, host_ge),
            HostEntry::new(HostOp::IsZero, host_is_zero),
            HostEntry::new(HostOp::Equal, host_equal),
            HostEntry::new(HostOp::Not, host_not),
        ],
    );
    let Ok(entries) = entries else {
        return ExitCode::from(Status::NoMemory.code());
    };
    let Ok(table) = HostTable::new(entries) else {
        unreachable!()
    };
    let status = match words_of(&rt) {
        Ok(words) => {
            let mut source = StdSource::new(rt.stdin());
            let mut sink = StdSink::new(rt.stdout());
            run(rt.alloc(), &words, &mut source, &mut sink, &table)
        }
        Err(error) => status_without_words(&error),
    };
    ExitCode::from(status.code())
}

// The words of the command line behind the program's name.
fn words_of<R: Env + AllocGlobal>(rt: &R) -> io::Result<Vec<String>> {
    Ok(env::args(rt)?.skip(1).collect(rt.alloc())?)
}

// How the program ends where its words can't be made: for want of memory, or since one is no text.
fn status_without_words(error: &io::Error) -> Status
    ensures memory { (result ≡ Status.NoMemory) ↔ (error_kind error.now ≡ ErrorKind.OutOfMemory) }
    ensures other { (result ≡ Status.NoMemory) ⊎ (result ≡ Status.Usage) }
{
    match error.kind() {
        ErrorKind::OutOfMemory => Status::NoMemory,
        _ => Status::Usage,
    }
}
