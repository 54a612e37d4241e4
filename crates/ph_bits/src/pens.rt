//! Fields that are written one behind the other.

ghost use Rattle.std.specs.Prelude.{◌≡◌, ◌+◌, ◌-◌, ◌*◌, ◌^◌, ◌<◌, ◌≤◌, ◌++◌, ℕ, List, length, take, map};
ghost use Rattle.std.specs.List.{AllByRecursion as Each};
ghost use Rattle.ph_specs.specs.RecordNames.{Field, field, number_after, digits_of, words_for, words_of};
ghost use Rattle.ph_bits.specs.Block.{room_of, IsSamePlaces};
ghost use Rattle.ph_bits.specs.Fields.{number_in};
ghost use Rattle.ph_bits.specs.Written.{IsPen, digits_by, number_by};

use crate::words::Words;

/// A writer of fields behind the words of a block.
///
/// Each word is stored once, as soon as it is full; what the places held before is neither read nor cleared. The
/// digits of the word that was begun are kept here.
#[derive(Clone, Copy)]
pub struct Pen {
    // the digits of the word begun, as a number
    pub(crate) kept: u64,
    // how many more it takes, from 1 to 64
    pub(crate) room: u32,
}

impl Pen {
    /// Begins at a new word.
    #[inline(always)]
    pub fn new() -> Pen
        ensures pen { IsPen result }
        ensures digits { (words : _) → digits_by words result ≡ 64 * length words }
        ensures number { (words : _) → number_by words result ≡ number_in words }
    {
        Pen { kept: 0, room: 64 }
    }

    /// Writes `v` with `width` digits.
    #[inline(always)]
    pub fn put(&mut self, words: &mut Words, width: u32, v: u64)
        requires pen { IsPen self.old }
        requires width { width ≤ 63 }
        requires value { v < 2 ^ width }
        requires inside { digits_by words.old.words self.old + width ≤ 64 * room_of words.old }
        ensures pen { IsPen self.new }
        ensures digits { digits_by words.new.words self.new ≡ digits_by words.old.words self.old + width }
        ensures number { number_by words.new.words self.new ≡ number_by words.old.words self.old * 2 ^ width + v }
        ensures places { IsSamePlaces words.old words.new }
    {
        if width < self.room {
            self.kept = (self.kept << width) + v;
            self.room -= width;
        } else {
            let low = width - self.room;
            words.push((self.kept << self.room) + (v >> low));
            self.kept = v & ((1 << low) - 1);
            self.room = 64 - low;
        }
    }

    /// Writes so many zeros.
    #[inline(always)]
    pub fn put_zeros(&mut self, words: &mut Words, digits: u64)
        requires pen { IsPen self.old }
        requires inside { digits_by words.old.words self.old + digits ≤ 64 * room_of words.old }
        ensures pen { IsPen self.new }
        ensures digits { digits_by words.new.words self.new ≡ digits_by words.old.words self.old + digits }
        ensures number { number_by words.new.words self.new ≡ number_by words.old.words self.old * 2 ^ digits }
        ensures places { IsSamePlaces words.old words.new }
    {
        if digits < 64 {
            self.put(words, digits as u32, 0);
        } else {
            let pen = *self;
            *self = pen.behind_zeros(words, digits);
        }
    }

    // The pen behind zeros that fill the word begun at least: those that it takes, then whole words, then what is left. It stays a
    // call on a pen by value, so that who writes short runs keeps the pen in registers.
    #[inline(never)]
    fn behind_zeros(self, words: &mut Words, digits: u64) -> Pen
        requires pen { IsPen self }
        requires many { 64 ≤ digits }
        requires inside { digits_by words.old.words self + digits ≤ 64 * room_of words.old }
        ensures pen { IsPen result }
        ensures digits { digits_by words.new.words result ≡ digits_by words.old.words self + digits }
        ensures number { number_by words.new.words result ≡ number_by words.old.words self * 2 ^ digits }
        ensures places { IsSamePlaces words.old words.new }
    {
        let mut pen = self;
        let first = self.room % 64;
        pen.put(words, first, 0);
        let left = digits - first as u64;
        for _ in 0..left / 64 {
            words.push(0);
        }
        pen.put(words, (left % 64) as u32, 0);
        pen
    }

    /// Writes the first `count` numbers of a body with `width` digits each.
    pub fn put_row(&mut self, words: &mut Words, width: u32, count: usize, body: &[u64; 16])
        requires pen { IsPen self.old }
        requires width { width ≤ 63 }
        requires few { count ≤ 16 }
        requires values { Each (λ v. v < 2 ^ width) (take count body.now) }
        requires inside { digits_by words.old.words self.old + count * width ≤ 64 * room_of words.old }
        ensures pen { IsPen self.new }
        ensures digits { digits_by words.new.words self.new ≡ digits_by words.old.words self.old + count * width }
        ensures number { number_by words.new.words self.new ≡ number_after (number_by words.old.words self.old) (map (field width) (take count body.now)) }
        ensures places { IsSamePlaces words.old words.new }
    {
        for i in 0..count {
            self.put(words, width, body[i]);
        }
    }

    /// Ends a table of fields that began at a new word: its last word is filled up with zeros.
    pub fn finish(self, words: &mut Words)
        requires pen { IsPen self }
        requires inside { digits_by words.old.words self ≤ 64 * room_of words.old }
        ensures length { length words.new.words ≡ words_for (digits_by words.old.words self) }
        ensures table { (front : List ℕ) → (fs : List Field) → Each (λ x. x < 2 ^ 64) front
            → Each (λ f. f.number < 2 ^ f.width) fs
            → digits_by words.old.words self ≡ 64 * length front + digits_of fs
            → number_by words.old.words self ≡ number_after (number_in front) fs
            → words.new.words ≡ front ++ words_of fs }
        ensures places { IsSamePlaces words.old words.new }
    {
        self.end(words);
        are_words(words.as_slice());
    }

    // Stores the word begun with zeros behind its digits.
    #[inline(always)]
    fn end(self, words: &mut Words)
        requires pen { IsPen self }
        requires inside { digits_by words.old.words self ≤ 64 * room_of words.old }
        ensures length { length words.new.words ≡ words_for (digits_by words.old.words self) }
        ensures number { number_in words.new.words ≡ number_by words.old.words self * 2 ^ (64 * length words.new.words - digits_by words.old.words self) }
        ensures places { IsSamePlaces words.old words.new }
    {
        if self.room < 64 {
            words.push(self.kept << self.room);
        }
    }
}

/// The items of a slice of words are words. It does nothing when it runs.
#[inline(always)]
pub fn are_words(all: &[u64])
    ensures { Each (λ x. x < 2 ^ 64) all.now }
{
    let _ = all;
}
