// A sink in memory that fails where its plan says, and where it is full.
ghost use Rattle.std.specs.Prelude.{◌≡◌, ◌<◌, ◌≤◌, ◌↔◌, Some, length};
ghost use Rattle.rdx_base.specs.Faults.{Rose};
ghost use Rattle.rdx_base.specs.MemSink.{planned_sink, NextFails, bytes_taken};
ghost use Rattle.rdx_base.specs.Putting.{Puts, IfTook};

use crate::{Put, Sink};
use std::marker::Model;

const ROOM: usize = 65_536;

/// A store of 65,536 bytes, filled a piece a call, with calls that fail by plan. It tells what was
/// written.
#[derive(Drop)]
pub struct MemSink {
    store: [u8; ROOM],
    len: usize,
    piece: usize,
    failing: Vec<usize>,
    calls: usize,
    faults: u64,
}

impl Model for MemSink {
    ghost use Rattle.std.specs.Prelude.{◌<◌, ◌≤◌, take};
    ghost use Rattle.rdx_base.specs.MemSink.{PlannedSink};

    ghost Value = { PlannedSink };

    ghost view = { λ s. record {
      written = take s.len s.store;
      piece = s.piece;
      failing = s.failing.items;
      calls = s.calls;
      faults = s.faults;
    } };

    ghost invariant = { λ s. (s.len ≤ 65536) × (0 < s.piece) };
}

impl MemSink {
    /// An empty sink that takes at most `piece` bytes a call. The calls of `put` are numbered from
    /// 0, and those with their number in `failing` fail.
    pub fn new(piece: usize, failing: Vec<usize>) -> MemSink
        requires { 0 < piece }
        ensures { result ≡ planned_sink piece failing.items }
    {
        MemSink {
            store: [0; ROOM],
            len: 0,
            piece,
            failing,
            calls: 0,
            faults: 0,
        }
    }

    /// All the bytes that were written.
    pub fn written(&self) -> &[u8]
        ensures { result.now ≡ self.now.written }
    {
        &self.store[..self.len]
    }
}

impl Sink for MemSink {
    ghost use Rattle.rdx_base.specs.MemSink.{IsNextSink};

    ghost written = { λ s. Some s.written };

    ghost faults = { λ s. s.faults };

    fn put(&mut self, piece: &[u8]) -> Put
        requires { 0 < length piece.now }
        ensures taken { Puts (Some self.old.written) (Some self.new.written) piece.now result }
        ensures later { self.old.faults ≤ self.new.faults }
        ensures failed { result ≡ Put.Failed → Rose self.old.faults self.new.faults }

        // Exactly the calls of the plan fail and those that find the store full, and any other takes as much as it can.
        ensures exact { (result ≡ Put.Failed) ↔ NextFails self.old }
        ensures most { IfTook result (λ n. n ≡ bytes_taken self.old piece.now) }
        ensures next { IsNextSink self.old self.new result }
    {
        let call = self.calls;
        self.calls = self.calls.saturating_add(1);
        if self.len == ROOM || self.failing.contains(&call) {
            self.faults = self.faults.saturating_add(1);
            return Put::Failed;
        }
        let count = self.piece.min(piece.len()).min(ROOM - self.len);
        let end = self.len + count;
        self.store[self.len..end].copy_from_slice(&piece[..count]);
        self.len = end;
        Put::Took(count)
    }
}
