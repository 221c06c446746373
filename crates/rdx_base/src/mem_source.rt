// A source in memory that fails where its plan says.
ghost use Rattle.std.specs.Prelude.{◌≡◌, ◌<◌, ◌≤◌, ◌↔◌, length, Some, Contains};
ghost use Rattle.rdx_base.specs.Faults.{Rose};
ghost use Rattle.rdx_base.specs.MemSource.{planned_source};
ghost use Rattle.rdx_base.specs.Taking.{Takes, bytes_given, IfGot};

use crate::{Source, Taken};
use std::marker::Model;

/// Bytes in memory, given a piece a call, with calls that fail by plan. It tells what is left.
#[derive(Drop)]
pub struct MemSource {
    bytes: Vec<u8>,
    piece: usize,
    failing: Vec<usize>,
    at: usize,
    calls: usize,
    faults: u64,
}

impl Model for MemSource {
    ghost use Rattle.std.specs.Prelude.{◌<◌, ◌≤◌, drop, length};
    ghost use Rattle.rdx_base.specs.MemSource.{PlannedSource};

    ghost Value = { PlannedSource };

    ghost view = { λ s. record {
      left = drop s.at s.bytes.items;
      piece = s.piece;
      failing = s.failing.items;
      calls = s.calls;
      faults = s.faults;
    } };

    ghost invariant = { λ s. (s.at ≤ length s.bytes.items) × (0 < s.piece) };
}

impl MemSource {
    /// A source of these bytes that gives at most `piece` of them a call. The calls of `take` are
    /// numbered from 0, and those with their number in `failing` fail.
    pub fn new(bytes: Vec<u8>, piece: usize, failing: Vec<usize>) -> MemSource
        requires { 0 < piece }
        ensures { result ≡ planned_source bytes.items piece failing.items }
    {
        MemSource {
            bytes,
            piece,
            failing,
            at: 0,
            calls: 0,
            faults: 0,
        }
    }
}

impl Source for MemSource {
    ghost use Rattle.rdx_base.specs.MemSource.{IsNextSource};

    ghost left = { λ s. Some s.left };

    ghost faults = { λ s. s.faults };

    fn take(&mut self, into: &mut [u8]) -> Taken
        requires { 0 < length into.old }
        ensures taken { Takes (Some self.old.left) (Some self.new.left) into.new result }
        ensures later { self.old.faults ≤ self.new.faults }
        ensures failed { result ≡ Taken.Failed → Rose self.old.faults self.new.faults }

        // Exactly the calls of the plan fail, and any other gives as much as it can.
        ensures exact { (result ≡ Taken.Failed) ↔ Contains self.old.failing self.old.calls }
        ensures most { IfGot result (λ n. n ≡ bytes_given self.old.piece self.old.left into.new) }
        ensures next { IsNextSource self.old self.new result }
    {
        let call = self.calls;
        self.calls = self.calls.saturating_add(1);
        if self.failing.contains(&call) {
            self.faults = self.faults.saturating_add(1);
            return Taken::Failed;
        }
        let rest = &self.bytes[self.at..];
        if rest.is_empty() {
            return Taken::End;
        }
        let count = self.piece.min(into.len()).min(rest.len());
        into[..count].copy_from_slice(&rest[..count]);
        self.at += count;
        Taken::Got(count)
    }
}
