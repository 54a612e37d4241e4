//! What sinks take.

use super::check_write;
use super::claims::holds;
use ph_edge::StdSink;
use ph_io::{CountSink, Failed, MemorySink};
use std::io::{Error, ErrorKind, Result, Write};

#[test]
fn count_sink_counts_bytes(rt: HostRuntime) {
    let mut sink = CountSink::new();
    for (piece, taken) in [(b"abc".as_slice(), 3), (b"", 3), (b"de", 5)] {
        check_write(&rt, &mut sink, piece, Ok(piece.len()));
        holds(&rt, sink.taken() == taken);
    }
}

#[test]
fn memory_sink_takes_pieces_up_to_its_room(rt: HostRuntime) {
    let fails = vec![in rt.alloc(); 2u64].expect(&rt, "memory");
    let mut sink = MemorySink::with_room(rt.alloc(), 5, 2, fails).expect(&rt, "memory");
    for (piece, answer) in [
        (b"abc".as_slice(), Ok(2)),
        (b"cde", Err(Failed)),
        (b"cde", Ok(2)),
        (b"ef", Ok(1)),
        (b"", Ok(0)),
        (b"f", Err(Failed)),
    ] {
        check_write(&rt, &mut sink, piece, answer);
    }
    holds(&rt, sink.bytes() == b"abcde".as_slice());
}

#[test]
fn std_sink_gives_whole_pieces_to_its_writer(rt: HostRuntime) {
    let mut written = Vec::new(rt.alloc());
    let mut sink = StdSink::new(&mut written);
    for piece in [b"abc".as_slice(), b"", b"de"] {
        check_write(&rt, &mut sink, piece, Ok(piece.len()));
    }
    holds(&rt, written.as_slice() == b"abcde".as_slice());
}

// Fails for a piece that begins with `!`, and takes nothing of any other.
#[derive(Drop)]
struct Broken;

impl Write for Broken {
    fn write(&mut self, piece: &[u8]) -> Result<usize> {
        match piece.first() {
            Some(b'!') => Err(Error::from(ErrorKind::BrokenPipe)),
            _ => Ok(0),
        }
    }

    fn flush(&mut self) -> Result<()> {
        Ok(())
    }
}

#[test]
fn std_sink_fails_where_its_writer_takes_nothing(rt: HostRuntime) {
    let mut sink = StdSink::new(Broken);
    for (piece, answer) in [
        (b"".as_slice(), Ok(0)),
        (b"a", Err(Failed)),
        (b"!", Err(Failed)),
    ] {
        check_write(&rt, &mut sink, piece, answer);
    }
}
