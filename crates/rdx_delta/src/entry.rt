// Entries of the table: operations with functions that do them.
ghost use Rattle.rdx_delta.specs.Does.{Does};
ghost use Rattle.rdx_delta.specs.Model.OneWay.{Does-prop};

use crate::HostAnswer;
use rdx_lang::HostOp;
use rdx_term::Term;

/// A host operation with a function that does it: the function may be called on every list of
/// terms, and it answers what the operation does.
#[derive(Drop)]
pub struct HostEntry {
    op: HostOp,
    call: fn(&[Term]) -> HostAnswer,
    ghost callable: { IsAlwaysCallable call },
    ghost does: { Does op (post call) } by { Does-prop op _ },
}

impl HostEntry {
    ghost use Rattle.std.specs.Prelude.{◌≡◌, map};
    ghost use Rattle.rdx_term.specs.View.{tree_of};
    ghost use Rattle.rdx_delta.specs.Delta.{delta};
    ghost use Rattle.rdx_delta.specs.Does.{Does};
    ghost use Rattle.rdx_delta.specs.Entries.{operation_in};
    ghost use Rattle.rdx_delta.specs.View.{reply_of};

    /// The entry of the operation, done by the function.
    pub fn new(op: HostOp, call: fn(&[Term]) -> HostAnswer) -> HostEntry
        requires callable { IsAlwaysCallable call }
        requires does { Does op (post call) }
        ensures { operation_in result ≡ op }
    {
        HostEntry { op, call }
    }

    // The operation.
    pub(crate) fn op(&self) -> HostOp
        ensures { result ≡ operation_in self.now }
    {
        self.op
    }

    // What the function answers.
    pub(crate) fn answer(&self, args: &[Term]) -> HostAnswer
        ensures { reply_of result ≡ delta (operation_in self.now) (map tree_of args.now) }
    {
        (self.call)(args)
    }
}
