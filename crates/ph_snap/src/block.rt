//! Bytes that wait until there are enough of them for a write.

ghost use Rattle.std.specs.Prelude.{◌≡◌, ◌+◌, ◌≤◌, [], ◌++◌, length, OnOk, OnErr};
ghost use Rattle.ph_io.specs.Causes.{HasCause};
ghost use Rattle.ph_io.specs.Giving.{Given, taken_of};
ghost use Rattle.ph_io.specs.Writing.{WritesFront};
ghost use Rattle.ph_specs.specs.RecordNames.{bytes_of, word_bytes};
ghost use Rattle.ph_snap.specs.Saving.{Passed};

use ph_io::{Failed, Sink, write_piece};
use std::marker::Model;

const SIZE: usize = 4096;

/// The bytes that wait to be given to a sink, at most 4,096. Most records are far shorter, and a sink may take a system
/// call for each write.
///
/// After an error of a call, a front of the bytes that waited was given, and which of them wait then is not told.
#[derive(Drop)]
pub(crate) struct Block {
    bytes: [u8; SIZE],
    len: usize,
}

impl Model for Block {
    ghost use Rattle.std.specs.Prelude.{ℕ, List, ◌≤◌, take};

    ghost Value = { List ℕ };

    ghost view = { λ b. take b.len b.bytes };

    ghost invariant = { λ b. b.len ≤ 4096 };
}

impl Block {
    pub(crate) fn new() -> Block
        ensures { result ≡ [] }
    {
        Block {
            bytes: [0; SIZE],
            len: 0,
        }
    }

    /// Lets eight bytes wait. Where there is no room for them, those that wait are given to the sink first.
    pub(crate) fn push<S: Sink>(&mut self, bytes: [u8; 8], sink: &mut S) -> Result<(), Failed>
        ensures passed { OnOk result (Passed
            (taken_of (S.written sink.old) (S.amount sink.old)) self.old
            (taken_of (S.written sink.new) (S.amount sink.new)) self.new
            bytes) }
        ensures front { OnErr result (WritesFront (taken_of (S.written sink.old) (S.amount sink.old)) (taken_of (S.written sink.new) (S.amount sink.new)) self.old) }
        ensures cause { HasCause (S.faults sink.old) (S.faults sink.new) result }
        ensures follows { S.follows sink.old sink.new }
    {
        self.make_room(sink)?;
        self.append(bytes);
        Ok(())
    }

    /// Lets words wait, each by its eight bytes with the most significant first.
    pub(crate) fn put<S: Sink>(&mut self, words: &[u64], sink: &mut S) -> Result<(), Failed>
        ensures passed { OnOk result (Passed
            (taken_of (S.written sink.old) (S.amount sink.old)) self.old
            (taken_of (S.written sink.new) (S.amount sink.new)) self.new
            (bytes_of words.now)) }
        ensures front { OnErr result (WritesFront
            (taken_of (S.written sink.old) (S.amount sink.old))
            (taken_of (S.written sink.new) (S.amount sink.new))
            (self.old ++ bytes_of words.now)) }
        ensures cause { HasCause (S.faults sink.old) (S.faults sink.new) result }
        ensures follows { S.follows sink.old sink.new }
    {
        for word in words {
            self.push(bytes_in(*word), sink)?;
        }
        Ok(())
    }

    /// Gives the bytes that wait to the sink, after which none waits.
    pub(crate) fn give<S: Sink>(&mut self, sink: &mut S) -> Result<(), Failed>
        ensures given { OnOk result (Given (taken_of (S.written sink.old) (S.amount sink.old)) (taken_of (S.written sink.new) (S.amount sink.new)) self.old) }
        ensures empty { OnOk result (self.new ≡ []) }
        ensures front { OnErr result (WritesFront (taken_of (S.written sink.old) (S.amount sink.old)) (taken_of (S.written sink.new) (S.amount sink.new)) self.old) }
        ensures cause { HasCause (S.faults sink.old) (S.faults sink.new) result }
        ensures follows { S.follows sink.old sink.new }
    {
        write_piece(sink, &self.bytes[..self.len])?;
        self.len = 0;
        Ok(())
    }

    // Sees to it that eight bytes more have room.
    fn make_room<S: Sink>(&mut self, sink: &mut S) -> Result<(), Failed>
        ensures room { OnOk result (length self.new + 8 ≤ 4096) }
        ensures passed { OnOk result (Passed
            (taken_of (S.written sink.old) (S.amount sink.old)) self.old
            (taken_of (S.written sink.new) (S.amount sink.new)) self.new
            []) }
        ensures front { OnErr result (WritesFront (taken_of (S.written sink.old) (S.amount sink.old)) (taken_of (S.written sink.new) (S.amount sink.new)) self.old) }
        ensures cause { HasCause (S.faults sink.old) (S.faults sink.new) result }
        ensures follows { S.follows sink.old sink.new }
    {
        if SIZE - self.len < 8 {
            return self.give(sink);
        }
        Ok(())
    }

    fn append(&mut self, bytes: [u8; 8])
        requires { length self.old + 8 ≤ 4096 }
        ensures { self.new ≡ self.old ++ bytes }
    {
        self.bytes[self.len..self.len + 8].copy_from_slice(&bytes);
        self.len += 8;
    }
}

// The eight bytes of a word, the most significant first.
fn bytes_in(word: u64) -> [u8; 8]
    ensures { result ≡ word_bytes word }
{
    word.to_be_bytes()
}
