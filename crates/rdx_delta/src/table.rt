// The table of the host operations.
ghost use Rattle.std.specs.Prelude.{◌≡◌, ℕ, ◌<◌, Some, None, MatchResult, map};
ghost use Rattle.rdx_term.specs.View.{tree_of};
ghost use Rattle.rdx_lang.specs.declared.operation.HostOp.{HostOp};
ghost use Rattle.rdx_delta.specs.Delta.{delta};
ghost use Rattle.rdx_delta.specs.Entries.{operations_in};
ghost use Rattle.rdx_delta.specs.Table.{times, wrong, first_wrong, table_refusal};
ghost use Rattle.rdx_delta.specs.View.{reply_of};

use crate::{HostAnswer, HostEntry, TableRefusal};
use rdx_lang::HostOp;
use rdx_term::Term;

/// A table with one entry for each host operation.
#[derive(Drop)]
pub struct HostTable {
    entries: Vec<HostEntry>,
    ghost complete: { (op : HostOp) → 0 < times op (operations_in entries.items) },
}

impl HostTable {
    /// The table of the entries. They are refused exactly where some operation hasn't exactly one
    /// entry, and the refusal names the first such operation.
    pub fn new(entries: Vec<HostEntry>) -> Result<HostTable, TableRefusal>
        ensures { MatchResult result (λ table. table_refusal (operations_in entries.items) ≡ None)
            (λ refusal. table_refusal (operations_in entries.items) ≡ Some refusal) }
    {
        if let Some(refusal) = first_wrong(&entries, &HostOp::ALL) {
            return Err(refusal);
        }
        Ok(HostTable { entries })
    }

    /// What the operation answers to the arguments.
    pub fn answer(&self, op: HostOp, args: &[Term]) -> HostAnswer
        ensures { reply_of result ≡ delta op (map tree_of args.now) }
    {
        for entry in &self.entries {
            if entry.op() == op {
                return entry.answer(args);
            }
        }
        unreachable!()
    }
}

// How many of the entries are of the operation.
fn times(entries: &[HostEntry], op: HostOp) -> usize
    ensures { result ≡ times op (operations_in entries.now) }
{
    let mut times = 0;
    for entry in entries {
        if entry.op() == op {
            times += 1;
        }
    }
    times
}

// What is wrong with the first of the operations that hasn't exactly one entry.
fn first_wrong(entries: &[HostEntry], operations: &[HostOp]) -> Option<TableRefusal>
    ensures { result ≡ first_wrong (operations_in entries.now) operations.now }
{
    for op in operations {
        if let Some(refusal) = wrong(*op, times(entries, *op)) {
            return Some(refusal);
        }
    }
    None
}

// What is wrong with an operation that has so many entries.
fn wrong(op: HostOp, entries: usize) -> Option<TableRefusal>
    ensures { result ≡ wrong op entries }
{
    match entries {
        0 => Some(TableRefusal::Missing(op)),
        1 => None,
        _ => Some(TableRefusal::Twice(op)),
    }
}
