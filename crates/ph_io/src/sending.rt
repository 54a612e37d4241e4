//! Whole pieces, given to a sink.
ghost use Rattle.std.specs.Prelude.{OnErr, OnOk};
ghost use Rattle.ph_io.specs.Causes.{HasCause};
ghost use Rattle.ph_io.specs.Giving.{Given, taken_of};
ghost use Rattle.ph_io.specs.Writing.{WritesFront};

use crate::streams::{Failed, Sink};

/// Gives a piece to a sink, by as many writes as it takes.
///
/// After an error a front of the piece was given, and not the whole of it. It takes no memory.
pub fn write_piece<O: Sink>(out: &mut O, piece: &[u8]) -> Result<(), Failed>
    ensures told { OnOk result (Given (taken_of (O.written out.old) (O.amount out.old)) (taken_of (O.written out.new) (O.amount out.new)) piece.now) }
    ensures front { OnErr result (WritesFront (taken_of (O.written out.old) (O.amount out.old)) (taken_of (O.written out.new) (O.amount out.new)) piece.now) }
    ensures cause { HasCause (O.faults out.old) (O.faults out.new) result }
    ensures follows { O.follows out.old out.new }
{
    let mut at = 0;
    while at < piece.len() {
        match out.write(&piece[at..]) {
            Ok(count) => at += count,
            Err(Failed) => return Err(Failed),
        }
    }
    Ok(())
}
