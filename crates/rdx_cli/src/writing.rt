// A text is written in pieces.
ghost use Rattle.std.specs.Bool.{OnTrue, OnFalse};
ghost use Rattle.std.specs.Prelude.{◌≤◌};
ghost use Rattle.rdx_base.specs.Faults.{Rose};
ghost use Rattle.rdx_base.specs.Putting.{Gains, GainsPrefix};

use rdx_base::{Put, Sink};

const PIECE: usize = 4096;

/// Whether the whole text was written. Each put offers the next 4,096 bytes, or the whole rest
/// where that is less. It stops at the first that fails, and takes no memory.
pub fn write_text<K: Sink>(sink: &mut K, text: &[u8]) -> bool
    ensures whole { OnTrue result (Gains (K.written sink.old) (K.written sink.new) text.now) }
    ensures prefix { GainsPrefix (K.written sink.old) (K.written sink.new) text.now }
    ensures later { K.faults sink.old ≤ K.faults sink.new }
    ensures failed { OnFalse result (Rose (K.faults sink.old) (K.faults sink.new)) }
{
    let mut done = 0;
    'pieces: while done < text.len() {
        let end = done + (text.len() - done).min(PIECE);
        match sink.put(&text[done..end]) {
            Put::Took(count) => done += count,
            Put::Failed => return false,
        }
    }
    true
}
