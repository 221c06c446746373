// What a source of bytes is.
ghost use Rattle.std.specs.Prelude.{◌≡◌, ◌<◌, ◌≤◌, ℕ, List, length};
ghost use Rattle.std.specs.declared.option.Option.{Option};
ghost use Rattle.rdx_base.specs.Faults.{Rose};
ghost use Rattle.rdx_base.specs.Taking.{Takes};

/// What a take gave.
#[derive(Clone, Copy, Debug, PartialEq, Eq)]
pub enum Taken {
    /// That many bytes, at least one.
    Got(usize),
    /// None, since none is left.
    End,
    /// None, since the source failed. It counted this fault.
    Failed,
}

/// Gives bytes in order, a piece a call.
pub trait Source {
    /// The bytes still to come, where the source tells them.
    ghost left: { Self → Option (List ℕ) };

    /// How often the source failed: a count that never falls and whose last value is 2^64 - 1.
    ghost faults: { Self → ℕ };

    /// Moves the next bytes to the front of `into`. What stands behind them there is left open.
    fn take(&mut self, into: &mut [u8]) -> Taken
        requires { 0 < length into.old }
        ensures taken { Takes (left self.old) (left self.new) into.new result }
        ensures later { faults self.old ≤ faults self.new }
        ensures failed { result ≡ Taken.Failed → Rose (faults self.old) (faults self.new) };
}
