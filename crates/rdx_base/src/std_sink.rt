// Any writer of std as a sink.
ghost use Rattle.std.specs.Prelude.{◌≡◌, ◌<◌, ◌≤◌, None, length};
ghost use Rattle.rdx_base.specs.Faults.{Rose};
ghost use Rattle.rdx_base.specs.Putting.{Puts, WriterPuts, count_after_put};

use crate::{Put, Sink};
use std::io::Write;
use std::marker::Model;

/// A writer of std with a count of its faults. It doesn't tell what was written. A put is one write
/// and one flush. An error of either, whatever its kind, and a write that takes no byte are faults.
#[derive(Drop)]
pub struct StdSink<W: Write> {
    writer: W,
    faults: u64,
}

impl<W: Write> Model for StdSink<W> {
    ghost use Rattle.rdx_base.specs.StdEnds.{Counted};

    ghost Value = { Counted W };

    ghost view = { λ s. record { end = s.writer; faults = s.faults } };
}

impl<W: Write> StdSink<W> {
    /// A sink over this writer, with no fault so far.
    pub fn new(writer: W) -> StdSink<W>
        ensures { result ≡ record { end = writer; faults = 0 } }
    {
        StdSink { writer, faults: 0 }
    }
}

impl<W: Write> Sink for StdSink<W> {
    ghost written = { λ _. None };

    ghost faults = { λ s. s.faults };

    fn put(&mut self, piece: &[u8]) -> Put
        requires { 0 < length piece.now }
        ensures taken { Puts None None piece.now result }
        ensures later { self.old.faults ≤ self.new.faults }
        ensures failed { result ≡ Put.Failed → Rose self.old.faults self.new.faults }

        // The writer took these bytes, where those that it holds are known.
        ensures writer { WriterPuts W.contents self.old self.new piece.now result }
        ensures counted { self.new.faults ≡ count_after_put self.old.faults result }
    {
        let count = match self.writer.write(piece) {
            Ok(count) => count,
            Err(_) => 0,
        };
        if count > 0 && self.writer.flush().is_ok() {
            return Put::Took(count);
        }
        self.faults = self.faults.saturating_add(1);
        Put::Failed
    }
}
