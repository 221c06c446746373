// What no clause says: the ends over readers and writers of std, also over those that fail, and a run of each end in memory.
use rdx_base::{
    MemSink, MemSource, Put, Sink, Source, StdSink, StdSource, SteadySink, SteadySource, Taken,
};
use std::io;
use std::io::{Read, Write};
use std::process::Abort;

// Gives `a` at its first read, fails at the second, and is then at its end.
#[derive(Drop)]
struct Halting {
    reads: u8,
}

impl Read for Halting {
    fn read(&mut self, buf: &mut [u8]) -> io::Result<usize> {
        self.reads = self.reads.saturating_add(1);
        if self.reads == 2 {
            return Err(io::Error::from(io::ErrorKind::WouldBlock));
        }
        if self.reads > 2 {
            return Ok(0);
        }
        let mut text = b"a".as_slice();
        text.read(buf)
    }
}

// Takes all that is written, and fails at its second flush.
#[derive(Drop)]
struct Clogged {
    flushes: u8,
}

impl Write for Clogged {
    fn write(&mut self, buf: &[u8]) -> io::Result<usize> {
        Ok(buf.len())
    }

    fn flush(&mut self) -> io::Result<()> {
        self.flushes = self.flushes.saturating_add(1);
        if self.flushes == 2 {
            return Err(io::Error::from(io::ErrorKind::WouldBlock));
        }
        Ok(())
    }
}

// Takes into four bytes until the row is through.
fn takes<S: Source>(rt: &impl Abort, source: &mut S, rows: &[(Taken, &[u8])]) {
    let mut buffer = [0u8; 4];
    for (wanted, bytes) in rows {
        let taken = source.take(&mut buffer);
        assert!(rt;
            taken == *wanted && buffer.starts_with(bytes),
            "{taken:?} and not {wanted:?}, or not in {buffer:?}"
        );
    }
}

// Puts each piece of the row.
fn puts<K: Sink>(rt: &impl Abort, sink: &mut K, rows: &[(&[u8], Put)]) {
    for (piece, wanted) in rows {
        if !piece.is_empty() {
            assert_eq!(rt; sink.put(piece), *wanted);
        }
    }
}

fn has_got(rt: &impl Abort, got: &[u8], wanted: &[u8]) {
    assert_eq!(rt; got, wanted);
}

const WHOLE: [(Taken, &[u8]); 3] = [
    (Taken::Got(4), b"abcd"),
    (Taken::Got(1), b"e"),
    (Taken::End, b""),
];

#[test]
fn readers_give_their_bytes(rt: HostRuntime) {
    takes(&rt, &mut StdSource::new(b"abcde".as_slice()), &WHOLE);
}

#[test]
fn steady_sources_give_their_bytes(rt: HostRuntime) {
    let bytes = b"abcde".to_vec(rt.alloc()).expect(&rt, "five bytes");
    takes(&rt, &mut SteadySource::new(bytes, 9), &WHOLE);
}

// The second call fails.
const PLANNED_TAKES: [(Taken, &[u8]); 4] = [
    (Taken::Got(3), b"abc"),
    (Taken::Failed, b""),
    (Taken::Got(2), b"de"),
    (Taken::End, b""),
];

#[test]
fn planned_sources_give_their_bytes(rt: HostRuntime) {
    let alloc = rt.alloc();
    let failing = vec![in alloc; 1usize].expect(&rt, "a plan");
    let bytes = b"abcde".to_vec(alloc).expect(&rt, "five bytes");
    takes(&rt, &mut MemSource::new(bytes, 3, failing), &PLANNED_TAKES);
}

// The room for three bytes takes two, then one, and a write of none is a fault.
const SHORT: [(&[u8], Put); 3] = [
    (b"ab", Put::Took(2)),
    (b"cd", Put::Took(1)),
    (b"d", Put::Failed),
];

#[test]
fn writers_take_their_bytes(rt: HostRuntime) {
    let mut bytes = [0u8; 3];
    puts(&rt, &mut StdSink::new(bytes.as_mut_slice()), &SHORT);
    has_got(&rt, &bytes, b"abc");
}

const PLANNED_PUTS: [(&[u8], Put); 3] = [
    (b"abcd", Put::Took(3)),
    (b"d", Put::Failed),
    (b"de", Put::Took(2)),
];

#[test]
fn planned_sinks_take_their_bytes(rt: HostRuntime) {
    let failing = vec![in rt.alloc(); 1usize].expect(&rt, "a plan");
    let mut planned = MemSink::new(3, failing);
    puts(&rt, &mut planned, &PLANNED_PUTS);
    has_got(&rt, planned.written(), b"abcde");
}

const STEADY_PUTS: [(&[u8], Put); 2] = [(b"abc", Put::Took(3)), (b"de", Put::Took(2))];

#[test]
fn steady_sinks_take_their_bytes(rt: HostRuntime) {
    let room = Vec::with_capacity(rt.alloc(), 3).expect(&rt, "room for three bytes");
    let mut steady = SteadySink::new(9, room);
    puts(&rt, &mut steady, &STEADY_PUTS);
    has_got(&rt, steady.kept(), b"abc");
}

const HALTING_TAKES: [(Taken, &[u8]); 3] = [
    (Taken::Got(1), b"a"),
    (Taken::Failed, b""),
    (Taken::End, b""),
];

#[test]
fn errors_of_readers_are_faults(rt: HostRuntime) {
    let mut source = StdSource::new(Halting { reads: 0 });
    takes(&rt, &mut source, &HALTING_TAKES);
}

// Each put flushes once, and fails where its flush does.
const CLOGGED_PUTS: [(&[u8], Put); 3] = [
    (b"ab", Put::Took(2)),
    (b"c", Put::Failed),
    (b"d", Put::Took(1)),
];

#[test]
fn errors_of_writers_are_faults(rt: HostRuntime) {
    let mut sink = StdSink::new(Clogged { flushes: 0 });
    puts(&rt, &mut sink, &CLOGGED_PUTS);
}
