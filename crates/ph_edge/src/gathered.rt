//! Bytes that are gathered before they are written, and written at the latest before the next read.
ghost use Rattle.std.specs.Prelude.{◌≡◌, [], true, false, MatchResult, IsErr, OnOk};
ghost use Rattle.std.specs.Io.{WritesAtMost};
ghost use Rattle.std.specs.Io.KnownBytes.{Keeps, WriteAppends};
ghost use Rattle.std.specs.Io.Buffered.{writer_contents, writer_buffer};

use std::alloc::Global;
use std::cell::RefCell;
use std::io;
use std::io::{BufWriter, Error, ErrorKind, Read, Write};

/// A writer that gathers. Several may borrow it: who writes to it, and who reads once it has written what it has.
///
/// After a write that failed it takes nothing more, and what it had not yet written may stay so.
#[derive(Drop)]
pub struct Gathered<W: Write + Drop> {
    cell: RefCell<Held<W>>,
}

#[derive(Drop)]
struct Held<W: Write + Drop> {
    writer: BufWriter<W>,
    failed: bool,
}

impl<W: Write + Drop> Held<W> {
    fn write(&mut self, piece: &[u8]) -> io::Result<usize>
        ensures bound { WritesAtMost result piece.now }
        ensures bytes { WriteAppends
            (writer_contents W.contents self.old.writer) (writer_contents W.contents self.new.writer) result piece.now }
        ensures failed { MatchResult result (λ _. self.new.failed ≡ false) (λ _. self.new.failed ≡ true) }
        ensures late { self.old.failed ≡ true → IsErr result }
    {
        if self.failed {
            return Err(failure());
        }
        let answer = self.writer.write(piece);
        self.failed = answer.is_err();
        answer
    }

    fn flush(&mut self) -> io::Result<()>
        ensures bytes { Keeps (writer_contents W.contents self.old.writer) (writer_contents W.contents self.new.writer) }
        ensures ok { OnOk result (writer_buffer self.new.writer ≡ []) }
        ensures failed { MatchResult result (λ _. self.new.failed ≡ false) (λ _. self.new.failed ≡ true) }
        ensures late { self.old.failed ≡ true → IsErr result }
    {
        if self.failed {
            return Err(failure());
        }
        let answer = self.writer.flush();
        self.failed = answer.is_err();
        answer
    }
}

fn failure() -> Error {
    Error::from(ErrorKind::BrokenPipe)
}

impl<W: Write + Drop> Gathered<W> {
    /// Gathers so many bytes before it writes. It takes memory for them.
    pub fn new(alloc: Global, most: usize, writer: W) -> io::Result<Gathered<W>> {
        let writer = BufWriter::with_capacity(alloc, most, writer)?;
        Ok(Gathered {
            cell: RefCell::new(Held {
                writer,
                failed: false,
            }),
        })
    }

    fn write(&self, piece: &[u8]) -> io::Result<usize>
        ensures { WritesAtMost result piece.now }
    {
        match self.cell.try_borrow_mut() {
            Ok(mut held) => held.write(piece),
            Err(_) => Err(failure()),
        }
    }

    /// Writes what was gathered.
    pub fn flush(&self) -> io::Result<()> {
        match self.cell.try_borrow_mut() {
            Ok(mut held) => held.flush(),
            Err(_) => Err(failure()),
        }
    }
}

/// A reader that has the gathered bytes written before each of its reads. Where that fails the read is made all the same, and
/// the next write fails.
#[derive(Drop)]
pub struct ReadAfter<'g, R, W: Write + Drop> {
    reader: R,
    replies: &'g Gathered<W>,
}

impl<'g, R: Read, W: Write + Drop> ReadAfter<'g, R, W> {
    pub fn new(reader: R, replies: &'g Gathered<W>) -> ReadAfter<'g, R, W>
        ensures { result.reader ≡ reader }
    {
        ReadAfter { reader, replies }
    }
}

impl<'g, R: Read, W: Write + Drop> Read for ReadAfter<'g, R, W> {
    ghost remaining = { λ s. R.remaining s.reader };

    fn read(&mut self, buf: &mut [u8]) -> io::Result<usize> {
        let _written = self.replies.flush();
        self.reader.read(buf)
    }
}

/// A writer whose bytes are gathered.
#[derive(Drop)]
pub struct Replies<'g, W: Write + Drop> {
    gathered: &'g Gathered<W>,
}

impl<'g, W: Write + Drop> Replies<'g, W> {
    pub fn new(gathered: &'g Gathered<W>) -> Replies<'g, W> {
        Replies { gathered }
    }
}

impl<'g, W: Write + Drop> Write for Replies<'g, W> {
    fn write(&mut self, buf: &[u8]) -> io::Result<usize> {
        self.gathered.write(buf)
    }

    fn flush(&mut self) -> io::Result<()> {
        self.gathered.flush()
    }
}
