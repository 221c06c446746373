// A source in memory that never fails.
ghost use Rattle.std.specs.Prelude.{◌≡◌, ◌≢◌, ◌<◌, length, Some};
ghost use Rattle.rdx_base.specs.Taking.{Takes, bytes_given, IfGot};

use crate::{Source, Taken};
use std::marker::Model;

/// Bytes in memory, given a piece a call. It tells what is left.
#[derive(Drop)]
pub struct SteadySource {
    bytes: Vec<u8>,
    piece: usize,
    at: usize,
}

impl Model for SteadySource {
    ghost use Rattle.std.specs.Prelude.{◌<◌, ◌≤◌, drop, length};
    ghost use Rattle.rdx_base.specs.SteadySource.{SteadyLeft};

    ghost Value = { SteadyLeft };

    ghost view = { λ s. record { left = drop s.at s.bytes.items; piece = s.piece } };

    ghost invariant = { λ s. (s.at ≤ length s.bytes.items) × (0 < s.piece) };
}

impl SteadySource {
    /// A source of these bytes that gives at most `piece` of them a call.
    pub fn new(bytes: Vec<u8>, piece: usize) -> SteadySource
        requires { 0 < piece }
        ensures { result ≡ record { left = bytes.items; piece = piece } }
    {
        SteadySource {
            bytes,
            piece,
            at: 0,
        }
    }
}

impl Source for SteadySource {
    ghost left = { λ s. Some s.left };

    ghost faults = { λ _. 0 };

    fn take(&mut self, into: &mut [u8]) -> Taken
        requires { 0 < length into.old }
        ensures taken { Takes (Some self.old.left) (Some self.new.left) into.new result }
        ensures steady { result ≢ Taken.Failed }
        ensures most { IfGot result (λ n. n ≡ bytes_given self.old.piece self.old.left into.new) }
        ensures piece { self.new.piece ≡ self.old.piece }
    {
        let rest = &self.bytes[self.at..];
        if rest.is_empty() {
            return Taken::End;
        }
        let count = self.piece.min(into.len()).min(rest.len());
        into[..count].copy_from_slice(&rest[..count]);
        self.at += count;
        Taken::Got(count)
    }
}
