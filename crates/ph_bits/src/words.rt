//! A block of words.

ghost use Rattle.std.specs.Prelude.{◌≡◌, ◌+◌, ◌-◌, ◌<◌, ◌≤◌, ◌^◌, ◌∷◌, ◌++◌, [], length, take, replicate, slice_index_or, slice_set, IfOk};
ghost use Rattle.std.specs.List.{remove};
ghost use Rattle.ph_bits.specs.Block.{room_of, zeros, empty, IsSamePlaces};
ghost use Rattle.ph_bits.specs.Parts.{IsBlock, block_of};

use crate::NoMemory;
use crate::places::{Places, Right, Start, release, take};
use std::alloc::Global;
use std::marker::Model;

/// A block of words: as many as its length, and behind them places that it may grow into.
///
/// It is one piece of memory, with eight bytes before the words, and it keeps its pointer, its length and its room in 16 bytes.
/// What lies behind the words is not cleared. No call but the two that make a block takes memory.
pub struct Words {
    start: Start,
    places: Places,
    right: Right<Global>,
    len: u32,
    room: u32,
    alloc: Global,
}

impl Model for Words {
    ghost use Rattle.std.specs.Prelude.{◌-◌};
    ghost use Rattle.ph_bits.specs.Block.{Block};
    ghost use Rattle.ph_bits.specs.Parts.{IsBlock, block_of};

    ghost Value = { Block };

    ghost view = { λ w. block_of w.places.slots w.len w.room w.alloc };

    ghost invariant = { λ w. IsBlock w.start w.places w.right w.len w.room w.alloc };
}

impl Drop for Words {
    fn drop(self) {
        let Words {
            start,
            places,
            right,
            len: _,
            room,
            alloc,
        } = self;
        release(&alloc, start, room as usize + 1, places, right);
    }
}

impl Words {
    ghost use Rattle.std.specs.Borrow.{sem};
    ghost use Rattle.ph_bits.specs.LendsSlice.{lends_slice};

    /// A block without words that has room for `room` of them. Its memory is not cleared.
    pub fn with_room(alloc: Global, room: usize) -> Result<Words, NoMemory>
        requires { room < 2 ^ 21 }
        ensures empty { IfOk result (λ w. w ≡ empty alloc room) }
    {
        let (start, mut places, right) = take(&alloc, room + 1)?;
        places.write(start, 0, 0);
        Ok(Words {
            start,
            places,
            right,
            len: 0,
            room: room as u32,
            alloc,
        })
    }

    // Its parts, its length and its room.
    #[inline(always)]
    pub(crate) fn into_parts(self) -> (Start, Places, Right<Global>, u32, u32, Global)
        ensures parts { IsBlock result.0 result.1 result.2 result.3 result.4 result.5 }
        ensures value { self ≡ block_of result.1.slots result.3 result.4 result.5 }
    {
        let Words {
            start,
            places,
            right,
            len,
            room,
            alloc,
        } = self;
        (start, places, right, len, room, alloc)
    }

    /// A block of `len` zeros, with no room for more.
    pub fn zeroed(alloc: Global, len: usize) -> Result<Words, NoMemory>
        requires { len < 2 ^ 21 }
        ensures zeros { IfOk result (λ w. w ≡ zeros alloc len) }
    {
        let mut words = Words::with_room(alloc, len)?;
        words.reset(len);
        Ok(words)
    }

    #[inline(always)]
    pub fn len(&self) -> usize
        ensures { result ≡ length self.now.words }
    {
        self.len as usize
    }

    /// How many words the block may have.
    #[inline(always)]
    pub fn room(&self) -> usize
        ensures value { result ≡ room_of self.now }
        ensures limit { result < 2 ^ 21 }
    {
        self.room as usize
    }

    /// The allocator that it keeps from its making.
    #[inline(always)]
    pub fn allocator(&self) -> Global
        ensures { result ≡ self.now.heap }
    {
        self.alloc
    }

    #[inline(always)]
    pub fn get(&self, i: usize) -> u64
        requires { i < length self.now.words }
        ensures { result ≡ slice_index_or self.now.words i 0 }
    {
        self.as_slice()[i]
    }

    #[inline(always)]
    pub fn set(&mut self, i: usize, word: u64)
        requires { i < length self.old.words }
        ensures { self.new ≡ record self.old { words = slice_set self.old.words i word } }
    {
        self.places.write(self.start, i + 1, word);
    }

    /// Writes a word behind the others.
    #[inline(always)]
    pub fn push(&mut self, word: u64)
        requires { 0 < self.old.spare }
        ensures words { self.new.words ≡ self.old.words ++ word ∷ [] }
        ensures places { IsSamePlaces self.old self.new }
    {
        self.places.write(self.start, self.len as usize + 1, word);
        self.len += 1;
    }

    /// Writes words behind the others.
    pub fn extend(&mut self, more: &[u64])
        requires { length self.old.words + length more.now ≤ room_of self.old }
        ensures words { self.new.words ≡ self.old.words ++ more.now }
        ensures places { IsSamePlaces self.old self.new }
    {
        self.places.extend(self.start, self.len as usize + 1, more);
        self.len += more.len() as u32;
    }

    /// Takes a word out. Those behind it move up, and its place stays free behind them.
    pub fn remove(&mut self, i: usize)
        requires { i < length self.old.words }
        ensures words { self.new.words ≡ remove self.old.words i }
        ensures places { IsSamePlaces self.old self.new }
    {
        for k in i..self.len() - 1 {
            let word = self.get(k + 1);
            self.set(k, word);
        }
        let left = self.len() - 1;
        self.truncate(left);
    }

    /// Leaves the first `len` words. The places of the others stay free behind them.
    #[inline(always)]
    pub fn truncate(&mut self, len: usize)
        requires { len ≤ length self.old.words }
        ensures words { self.new.words ≡ take len self.old.words }
        ensures places { IsSamePlaces self.old self.new }
    {
        let _ = &self.places;
        self.len = len as u32;
    }

    /// Leaves `len` zeros in place of the words.
    ///
    /// With length 0 nothing is written: so a block is made ready for [`Words::push`].
    pub fn reset(&mut self, len: usize)
        requires { len ≤ room_of self.old }
        ensures words { self.new.words ≡ replicate len 0 }
        ensures places { IsSamePlaces self.old self.new }
    {
        self.len = 0;
        for _ in 0..len {
            self.push(0);
        }
    }

    #[inline(always)]
    pub fn as_slice(&self) -> &[u64]
        ensures { result.now ≡ self.now.words }
    {
        &self.places.words(self.start, self.len as usize + 1)[1..]
    }

    #[inline(always)]
    pub fn as_mut_slice(&mut self) -> &mut [u64]
        ensures* lends { sem 𝓛 (lends_slice self.entry result) }
        ensures words { result.now ≡ self.old.words }
    {
        self.places.words_mut(self.start, self.len as usize)
    }
}
