//! The trusted edge: a source over a reader of std, and a sink over a writer.
ghost use Rattle.std.specs.Prelude.{◌≡◌, ◌<◌, None, length, IfOk, MatchResult};
ghost use Rattle.std.specs.Io.{ReadsAtMost, WritesAtMost};
ghost use Rattle.std.specs.Io.KnownBytes.{IsAtEnd, ReadConsumes, WriteAppends};
ghost use Rattle.ph_io.specs.Amounts.{WriteAdds};
ghost use Rattle.ph_io.specs.Causes.{HasCause};
ghost use Rattle.ph_io.specs.Counts.{next_count};

use crate::interrupted::read_again;
use ph_io::{Failed, Sink, Source};
use std::io::{Read, Write};
use std::marker::Model;

/// A source over a reader. It knows what is left where the reader does, and each error of the
/// reader is a fault, also one that a later read might not meet. A read that a signal interrupts is
/// tried again, 64 times at most.
///
/// What is left of the standard input is never known. That its bytes come in their order, each once, and that a read gives 0
/// at its end alone, is trusted of std and of the operating system.
#[derive(Drop)]
pub struct StdSource<R> {
    reader: R,
    faults: u64,
}

impl<R> Model for StdSource<R> {
    ghost use Rattle.ph_edge.specs.Counted.{Counted};

    ghost Value = { Counted R };

    ghost view = { λ s. record { stream = s.reader; faults = s.faults } };
}

impl<R: Read> StdSource<R> {
    /// A source over this reader, with no fault so far. It takes no memory.
    pub fn new(reader: R) -> StdSource<R>
        ensures { result ≡ record { stream = reader; faults = 0 } }
    {
        StdSource { reader, faults: 0 }
    }
}

impl<R: Read> Source for StdSource<R> {
    ghost left = { λ s. R.remaining s.stream };

    ghost faults = { λ s. s.faults };

    fn read(&mut self, into: &mut [u8]) -> Result<usize, Failed>
        requires { 0 < length into.old }
        ensures bound { ReadsAtMost result into.new }
        ensures bytes { ReadConsumes
            (R.remaining self.old.stream) (R.remaining self.new.stream) result into.new }
        ensures end { IfOk result (λ n. n ≡ 0 → IsAtEnd (R.remaining self.new.stream)) }
        ensures cause { HasCause self.old.faults self.new.faults result }
        ensures faults { MatchResult result
            (λ _. self.new.faults ≡ self.old.faults)
            (λ _. self.new.faults ≡ next_count self.old.faults) }
    {
        match read_again(&mut self.reader, into) {
            Ok(count) => Ok(count),
            Err(_) => {
                self.faults = self.faults.saturating_add(1);
                Err(Failed)
            }
        }
    }
}

/// A sink over a writer. It knows what was written where the writer does. Each error of the writer
/// is a fault, and so is a write that takes nothing of a piece that has bytes. It never flushes.
///
/// What was written to the standard output is never known. That the bytes which a write says it took go out in their order,
/// each once and none held back, is trusted of std and of the operating system.
#[derive(Drop)]
pub struct StdSink<W> {
    writer: W,
    faults: u64,
}

impl<W> Model for StdSink<W> {
    ghost use Rattle.ph_edge.specs.Counted.{Counted};

    ghost Value = { Counted W };

    ghost view = { λ s. record { stream = s.writer; faults = s.faults } };
}

impl<W: Write> StdSink<W> {
    /// A sink over this writer, with no fault so far. It takes no memory.
    pub fn new(writer: W) -> StdSink<W>
        ensures { result ≡ record { stream = writer; faults = 0 } }
    {
        StdSink { writer, faults: 0 }
    }
}

impl<W: Write> Sink for StdSink<W> {
    ghost written = { λ s. W.contents s.stream };

    ghost amount = { λ _. None };

    ghost faults = { λ s. s.faults };

    ghost follows_itself = { λ _. tt };

    ghost follows_on = { λ _ _ _ _ _. tt };

    fn write(&mut self, piece: &[u8]) -> Result<usize, Failed>
        ensures bound { WritesAtMost result piece.now }
        ensures some { IfOk result (λ n. 0 < length piece.now → 0 < n) }
        ensures bytes { WriteAppends
            (W.contents self.old.stream) (W.contents self.new.stream) result piece.now }
        ensures amount { WriteAdds None None result }
        ensures cause { HasCause self.old.faults self.new.faults result }
        ensures faults { MatchResult result
            (λ _. self.new.faults ≡ self.old.faults)
            (λ _. self.new.faults ≡ next_count self.old.faults) }
    {
        match self.writer.write(piece) {
            Ok(count) if 0 < count || piece.is_empty() => Ok(count),
            _ => {
                self.faults = self.faults.saturating_add(1);
                Err(Failed)
            }
        }
    }
}
