// What a sink of bytes is.
ghost use Rattle.std.specs.Prelude.{◌≡◌, ◌<◌, ◌≤◌, ℕ, List, length};
ghost use Rattle.std.specs.declared.option.Option.{Option};
ghost use Rattle.rdx_base.specs.Faults.{Rose};
ghost use Rattle.rdx_base.specs.Putting.{Puts};

/// What a put took.
#[derive(Clone, Copy, Debug, PartialEq, Eq)]
pub enum Put {
    /// That many bytes, at least one.
    Took(usize),
    /// None, since the sink failed. It counted this fault. A sink that doesn't tell what it holds may
    /// hold a front of the piece all the same.
    Failed,
}

/// Takes bytes in order, a piece a call.
pub trait Sink {
    /// The bytes that the sink holds, where it tells them. Once untold they stay so.
    ghost written: { Self → Option (List ℕ) };

    /// How often the sink failed: a count that never falls and whose last value is 2^64 - 1.
    ghost faults: { Self → ℕ };

    /// Takes bytes from the front of `piece`.
    fn put(&mut self, piece: &[u8]) -> Put
        requires { 0 < length piece.now }
        ensures taken { Puts (written self.old) (written self.new) piece.now result }
        ensures later { faults self.old ≤ faults self.new }
        ensures failed { result ≡ Put.Failed → Rose (faults self.old) (faults self.new) };
}
