// Any reader of std as a source.
ghost use Rattle.std.specs.Prelude.{◌≡◌, ◌<◌, ◌≤◌, None, length};
ghost use Rattle.rdx_base.specs.Faults.{Rose};
ghost use Rattle.rdx_base.specs.Taking.{Takes, ReaderTakes, count_after_take};

use crate::{Source, Taken};
use std::io::Read;
use std::marker::Model;

/// A reader of std with a count of its errors. It doesn't tell what is left. A read of no bytes is
/// the end, and an error of a read, whatever its kind, is a fault.
#[derive(Drop)]
pub struct StdSource<R: Read> {
    reader: R,
    faults: u64,
}

impl<R: Read> Model for StdSource<R> {
    ghost use Rattle.rdx_base.specs.StdEnds.{Counted};

    ghost Value = { Counted R };

    ghost view = { λ s. record { end = s.reader; faults = s.faults } };
}

impl<R: Read> StdSource<R> {
    /// A source over this reader, with no fault so far.
    pub fn new(reader: R) -> StdSource<R>
        ensures { result ≡ record { end = reader; faults = 0 } }
    {
        StdSource { reader, faults: 0 }
    }
}

impl<R: Read> Source for StdSource<R> {
    ghost left = { λ _. None };

    ghost faults = { λ s. s.faults };

    fn take(&mut self, into: &mut [u8]) -> Taken
        requires { 0 < length into.old }
        ensures taken { Takes None None into.new result }
        ensures later { self.old.faults ≤ self.new.faults }
        ensures failed { result ≡ Taken.Failed → Rose self.old.faults self.new.faults }

        // The reader gave these bytes, where those that it has left are known.
        ensures reader { ReaderTakes R.remaining self.old self.new into.new result }
        ensures counted { self.new.faults ≡ count_after_take self.old.faults result }
    {
        match self.reader.read(into) {
            Ok(0) => Taken::End,
            Ok(count) => Taken::Got(count),
            Err(_) => {
                self.faults = self.faults.saturating_add(1);
                Taken::Failed
            }
        }
    }
}
