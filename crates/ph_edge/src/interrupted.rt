//! Reads that a signal interrupts.
ghost use Rattle.std.specs.Prelude.{IsTrue, IsErr};
ghost use Rattle.std.specs.Io.{ReadsAtMost};
ghost use Rattle.std.specs.Io.KnownBytes.{ReadConsumes};

use std::io;
use std::io::{Error, ErrorKind, Read};

// A read is tried so often: a signal that comes again each time must not keep a call for ever.
const TRIES: u32 = 64;

/// One read, tried again where a signal interrupts it before it has moved a byte. It fails as interrupted where each of the tries was.
pub(crate) fn read_again<R: Read>(reader: &mut R, into: &mut [u8]) -> io::Result<usize>
    ensures bound { ReadsAtMost result into.new }
    ensures bytes { ReadConsumes (R.remaining reader.old) (R.remaining reader.new) result into.new }
{
    for _try in 0..TRIES {
        let answer = reader.read(into);
        if !is_interrupted(&answer) {
            return answer;
        }
    }
    Err(Error::from(ErrorKind::Interrupted))
}

fn is_interrupted(answer: &io::Result<usize>) -> bool
    ensures { IsTrue result → IsErr answer.now }
{
    match answer {
        Ok(_) => false,
        Err(error) => error.kind() == ErrorKind::Interrupted,
    }
}
