//! What is gathered until the next read.

use super::claims::holds;
use ph_edge::{Gathered, ReadAfter, Replies};
use std::cell::Cell;
use std::io::{Error, ErrorKind, Read, Result, Write};

// Takes so many bytes, tells how many it has taken, and fails where it has no room left.
#[derive(Drop)]
struct Tub<'t> {
    room: usize,
    taken: &'t Cell<usize>,
}

impl Write for Tub<'_> {
    fn write(&mut self, piece: &[u8]) -> Result<usize> {
        let count = piece.len().min(self.room);
        self.room -= count;
        self.taken.set(self.taken.get().saturating_add(count));
        if count == 0 && !piece.is_empty() {
            return Err(Error::from(ErrorKind::BrokenPipe));
        }
        Ok(count)
    }

    fn flush(&mut self) -> Result<()> {
        Ok(())
    }
}

#[test]
fn writes_before_a_read(rt: HostRuntime) {
    let taken = Cell::new(0);
    let tub = Tub {
        room: 9,
        taken: &taken,
    };
    let gathered = Gathered::new(rt.alloc(), 8, tub).expect(&rt, "memory");
    let mut into = [0u8; 4];
    let mut replies = Replies::new(&gathered);
    let mut script = ReadAfter::new(b"abcdef".as_slice(), &gathered);
    for before in [0, 3] {
        holds(&rt, replies.write(b"xyz").ok() == Some(3));
        holds(&rt, taken.get() == before);
        holds(&rt, script.read(&mut into).is_ok());
        holds(&rt, taken.get() == before + 3);
    }
    holds(&rt, into == *b"efcd");
}

#[test]
fn keeps_that_a_flush_failed(rt: HostRuntime) {
    for room in 0..3 {
        let taken = Cell::new(0);
        let tub = Tub {
            room,
            taken: &taken,
        };
        let gathered = Gathered::new(rt.alloc(), 8, tub).expect(&rt, "memory");
        let mut into = [0u8; 4];
        let mut replies = Replies::new(&gathered);
        let mut script = ReadAfter::new(b"abcdef".as_slice(), &gathered);
        holds(&rt, replies.write(b"xyz").ok() == Some(3));
        holds(&rt, script.read(&mut into).ok() == Some(4));
        holds(&rt, replies.write(b"u").is_err());
        holds(&rt, gathered.flush().is_err());
    }
}
