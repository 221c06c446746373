// A sink in memory that never fails.
ghost use Rattle.std.specs.Prelude.{◌≡◌, ◌≢◌, ◌<◌, [], length, min, take, vec_capacity};
ghost use Rattle.rdx_base.specs.SteadySink.{KeepsWhatFits, empty_store, told_bytes};
ghost use Rattle.rdx_base.specs.Putting.{Puts, IfTook};

use crate::{Put, Sink};
use std::marker::Model;

/// Takes all that comes, a piece a call, and stores it while it fits. It tells what was written
/// until it drops something.
#[derive(Drop)]
pub struct SteadySink {
    store: Vec<u8>,
    piece: usize,
    room: usize,
    is_whole: bool,
}

impl Model for SteadySink {
    ghost use Rattle.std.specs.Prelude.{◌<◌, ◌≤◌, length, vec_capacity};
    ghost use Rattle.rdx_base.specs.SteadySink.{SteadyStore};

    ghost Value = { SteadyStore };

    ghost view = { λ s. record {
      kept = s.store.items;
      told = s.is_whole;
      piece = s.piece;
      room = s.room;
    } };

    ghost invariant = { λ s. (0 < s.piece) × (length s.store.items ≤ s.room)
        × (s.room ≤ vec_capacity s.store) };
}

impl SteadySink {
    /// A sink that takes at most `piece` bytes a call. It stores them in the capacity of `room`
    /// while all of them fit, and then drops what it takes.
    pub fn new(piece: usize, room: Vec<u8>) -> SteadySink
        requires positive { 0 < piece }
        requires empty { room.items ≡ [] }
        ensures { result ≡ empty_store piece (vec_capacity room) }
    {
        SteadySink {
            room: room.capacity(),
            store: room,
            piece,
            is_whole: true,
        }
    }

    /// The bytes that were stored.
    pub fn kept(&self) -> &[u8]
        ensures { result.now ≡ self.now.kept }
    {
        &self.store
    }
}

impl Sink for SteadySink {
    ghost written = { λ s. told_bytes s };

    ghost faults = { λ _. 0 };

    fn put(&mut self, piece: &[u8]) -> Put
        requires { 0 < length piece.now }
        ensures taken { Puts (told_bytes self.old) (told_bytes self.new) piece.now result }
        ensures steady { result ≢ Put.Failed }
        ensures most { IfTook result (λ n. n ≡ min self.old.piece (length piece.now)) }
        ensures kept { IfTook result (λ n. KeepsWhatFits self.old self.new (take n piece.now)) }
    {
        let count = self.piece.min(piece.len());
        if self.is_whole {
            self.is_whole = count <= self.room - self.store.len();
            if self.is_whole {
                let _ = self.store.extend_from_slice(&piece[..count]);
            }
        }
        Put::Took(count)
    }
}
