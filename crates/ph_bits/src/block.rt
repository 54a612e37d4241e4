//! A block of words with values behind them.

ghost use Rattle.std.specs.Prelude.{◌≡◌, ◌+◌, ◌-◌, ◌*◌, ◌<◌, ◌≤◌, ◌^◌, ◌∷◌, ◌++◌, [], length, take, drop, slice_index_or, slice_set, reverse};
ghost use Rattle.std.specs.List.{insert, remove};
ghost use Rattle.ph_bits.specs.Filled.{filled, IsSameWords, IsSameValues};
ghost use Rattle.ph_bits.specs.Headers.{header};
ghost use Rattle.ph_bits.specs.Kids.{IsWord};

use crate::Words;
use crate::kids::Kids;
use crate::places::{Places, Right, Start, release};
use std::alloc::Global;
use std::marker::Model;
use std::mem::ManuallyDrop;

// One word more, and one place for words more, as the header has them.
const WORD: u64 = 0x20_0000;

const PLACE: u64 = 0x400_0000_0000;

/// A block of words with values behind them. Between them are spare places, which words grow into from the front, and values, of
/// one word each, from behind.
///
/// It is one piece of memory, with eight bytes before the words, and it keeps a pointer to it in 8 bytes. Its words, spare places
/// and values are fewer than 2^21. No call takes memory, and all of it is given back when the block is dropped.
pub struct Block<T> {
    start: Start,
    places: Places,
    right: Right<Global>,
    alloc: Global,
    kids: Kids<T>,
}

impl<T> Model for Block<T> {
    ghost use Rattle.ph_bits.specs.Filled.{Filled};

    ghost Value = { Filled T };

    ghost use Rattle.ph_bits.specs.Headers.{shown, IsFilled};

    ghost view = { λ b. shown b.places.slots b.kids.items b.alloc };

    ghost invariant = { λ b. IsFilled b.start b.places b.right b.alloc b.kids };
}

impl<T: Drop> Drop for Block<T> {
    fn drop(self) {
        let first = self.first();
        let count = self.count();
        let Block {
            start,
            mut places,
            right,
            alloc,
            mut kids,
        } = self;
        for i in 0..count {
            let _value = kids.pop_front(&mut places, start, first + i);
        }
        release(&alloc, start, first + count, places, right);
        let _none = unsafe { ManuallyDrop::new_unchecked(kids) };
    }
}

impl<T> Block<T> {
    ghost use Rattle.std.specs.Borrow.{sem};
    ghost use Rattle.ph_bits.specs.LendsFilled.{lends_words, lends_value, lends_values};

    /// The block of these words, with their room as spare places and no value. It takes no memory and copies no word.
    #[inline(always)]
    pub fn of(words: Words) -> Block<T>
        ensures { result ≡ filled words [] }
    {
        let (start, mut places, right, len, room, alloc) = words.into_parts();
        places.write(start, 0, room as u64 * PLACE + len as u64 * WORD);
        let kids = Kids::none(&places);
        Block {
            start,
            places,
            right,
            alloc,
            kids,
        }
    }

    // The first place, which has how many places for words, words and values there are.
    #[inline(always)]
    fn header(&self) -> u64
        ensures value { result ≡ header (length self.now.words + self.now.spare) (length self.now.words) (length self.now.values) }
        ensures limit { length self.now.words + self.now.spare + length self.now.values < 2 ^ 21 }
    {
        self.places.words(self.start, 1)[0]
    }

    // The place of the first value.
    #[inline(always)]
    fn first(&self) -> usize
        ensures { result ≡ length self.now.words + self.now.spare + 1 }
    {
        (self.header() / PLACE) as usize + 1
    }

    /// The allocator that the block goes back to.
    #[inline(always)]
    pub fn allocator(&self) -> Global
        ensures { result ≡ self.now.heap }
    {
        self.alloc
    }

    /// How many words there are.
    #[inline(always)]
    pub fn len(&self) -> usize
        ensures value { result ≡ length self.now.words }
        ensures limit { result + self.now.spare + length self.now.values < 2 ^ 21 }
    {
        (self.header() / WORD % WORD) as usize
    }

    /// How many values there are.
    #[inline(always)]
    pub fn count(&self) -> usize
        ensures value { result ≡ length self.now.values }
        ensures limit { length self.now.words + self.now.spare + result < 2 ^ 21 }
    {
        (self.header() % WORD) as usize
    }

    /// How many words or values more it has places for.
    #[inline(always)]
    pub fn spare(&self) -> usize
        ensures value { result ≡ self.now.spare }
        ensures limit { length self.now.words + result + length self.now.values < 2 ^ 21 }
    {
        let header = self.header();
        (header / PLACE - header / WORD % WORD) as usize
    }

    /// The words, in one piece.
    #[inline(always)]
    pub fn words(&self) -> &[u64]
        ensures { result.now ≡ self.now.words }
    {
        &self.places.words(self.start, self.len() + 1)[1..]
    }

    /// Lends the words for writing, as many as they are.
    #[inline(always)]
    pub fn words_mut(&mut self) -> &mut [u64]
        ensures* lends { sem 𝓛 (lends_words T.row self.entry result) }
        ensures words { result.now ≡ self.old.words }
    {
        let len = self.len();
        self.places.words_mut(self.start, len)
    }

    /// Writes another word in place of the i-th.
    #[inline(always)]
    pub fn set(&mut self, i: usize, word: u64)
        requires { i < length self.old.words }
        ensures { self.new ≡ record self.old { words = slice_set self.old.words i word } }
    {
        self.places.write(self.start, i + 1, word);
    }

    /// Writes a word behind the others, into the first of the spare places.
    #[inline(always)]
    pub fn push(&mut self, word: u64)
        requires { 0 < self.old.spare }
        ensures words { self.new.words ≡ self.old.words ++ word ∷ [] }
        ensures spare { self.old.spare ≡ self.new.spare + 1 }
        ensures same { IsSameValues self.old self.new }
    {
        let header = self.header() + WORD;
        let len = self.len();
        self.places.write(self.start, len + 1, word);
        self.places.write(self.start, 0, header);
    }

    /// Leaves the first `len` words. The places of the others are spare ones then.
    #[inline(always)]
    pub fn truncate(&mut self, len: usize)
        requires { len ≤ length self.old.words }
        ensures words { self.new.words ≡ take len self.old.words }
        ensures spare { self.new.spare ≡ self.old.spare + (length self.old.words - len) }
        ensures same { IsSameValues self.old self.new }
    {
        let header = self.header() - (self.len() - len) as u64 * WORD;
        self.places.write(self.start, 0, header);
    }

    /// The i-th value.
    #[inline(always)]
    pub fn value(&self, i: usize) -> &T
        requires { i < length self.now.values }
        ensures { result.now ≡ slice_index_or self.now.values i result.now }
    {
        self.kids.get(self.start, self.first(), i)
    }

    /// Lends the i-th value for writing.
    #[inline(always)]
    pub fn value_mut(&mut self, i: usize) -> &mut T
        requires { i < length self.old.values }
        ensures* lends { sem 𝓛 (lends_value T.row self.entry i result) }
        ensures value { result.now ≡ slice_index_or self.old.values i result.now }
    {
        let first = self.first();
        self.kids.get_mut(self.start, first, i)
    }

    /// The values, in one piece.
    #[inline(always)]
    pub fn values(&self) -> &[T]
        requires { IsWord T.row }
        ensures { result.now ≡ self.now.values }
    {
        self.kids.as_slice(self.start, self.first(), self.count())
    }

    /// Lends the values for writing, as many as they are.
    #[inline(always)]
    pub fn values_mut(&mut self) -> &mut [T]
        requires { IsWord T.row }
        ensures* lends { sem 𝓛 (lends_values T.row self.entry result) }
        ensures values { result.now ≡ self.old.values }
    {
        let first = self.first();
        let count = self.count();
        self.kids.as_mut_slice(self.start, first, count)
    }

    /// Puts a value before the others, into the last of the spare places. The others do not move.
    #[inline(always)]
    pub fn put_first(&mut self, value: T)
        requires spare { 0 < self.old.spare }
        requires sized { IsWord T.row }
        ensures values { self.new.values ≡ value ∷ self.old.values }
        ensures spare { self.old.spare ≡ self.new.spare + 1 }
        ensures same { IsSameWords self.old self.new }
    {
        let header = self.header() - PLACE + 1;
        let last = self.first() - 1;
        self.kids
            .push_front(&mut self.places, self.start, last, value);
        self.places.write(self.start, 0, header);
    }

    // Takes the first value out. Its place is a spare one then.
    #[inline(always)]
    fn take_first(&mut self) -> T
        requires { 0 < length self.old.values }
        ensures values { self.old.values ≡ result ∷ self.new.values }
        ensures spare { self.new.spare ≡ self.old.spare + 1 }
        ensures same { IsSameWords self.old self.new }
    {
        let header = self.header() + PLACE - 1;
        let first = self.first();
        let value = self.kids.pop_front(&mut self.places, self.start, first);
        self.places.write(self.start, 0, header);
        value
    }

    /// Puts a value before the one with the number `rank`, or behind all, so that it has that number. The `rank` values before it
    /// move by one place, into the last of the spare ones. No word moves.
    pub fn insert(&mut self, rank: usize, value: T)
        requires spare { 0 < self.old.spare }
        requires sized { IsWord T.row }
        requires rank { rank ≤ length self.old.values }
        ensures values { self.new.values ≡ insert self.old.values rank value }
        ensures spare { self.old.spare ≡ self.new.spare + 1 }
        ensures same { IsSameWords self.old self.new }
    {
        self.put_first(value);
        first_to(self.values_mut(), rank);
    }

    /// Takes the value with the number `rank` out. The `rank` values before it move by one place, and one place more is spare. No
    /// word moves.
    pub fn remove(&mut self, rank: usize) -> T
        requires sized { IsWord T.row }
        requires rank { rank < length self.old.values }
        ensures value { result ≡ slice_index_or self.old.values rank result }
        ensures values { self.new.values ≡ remove self.old.values rank }
        ensures spare { self.new.spare ≡ self.old.spare + 1 }
        ensures same { IsSameWords self.old self.new }
    {
        to_first(self.values_mut(), rank);
        self.take_first()
    }

    /// Turns the values about, the last one first: so values that come in rising order are put first one by one, and turned once
    /// at the end.
    pub fn reverse(&mut self)
        requires { IsWord T.row }
        ensures values { self.new.values ≡ reverse self.old.values }
        ensures spare { self.new.spare ≡ self.old.spare }
        ensures same { IsSameWords self.old self.new }
    {
        turn(self.values_mut());
    }

    /// Takes all values of another block, in their order, into the last of the spare places, by one copy. The other block keeps its
    /// words, and has no value and as many spare places more.
    pub fn take_values(&mut self, from: &mut Block<T>)
        requires none { self.old.values ≡ [] }
        requires room { length from.old.values ≤ self.old.spare }
        requires sized { IsWord T.row }
        ensures values { (self.new.values ≡ from.old.values) × (from.new.values ≡ []) }
        ensures spare { self.old.spare ≡ self.new.spare + length from.old.values }
        ensures left { from.new.spare ≡ from.old.spare + length from.old.values }
        ensures same { IsSameWords self.old self.new × IsSameWords from.old from.new }
    {
        let count = from.count();
        let moved = count as u64 * (PLACE - 1);
        let header = self.header() - moved;
        let left = from.header() + moved;
        let last = self.first() - count;
        let first = from.first();
        self.kids.take_all(
            &mut self.places,
            self.start,
            last,
            &mut from.kids,
            &mut from.places,
            from.start,
            first,
            count,
        );
        self.places.write(self.start, 0, header);
        from.places.write(from.start, 0, left);
    }
}

// Moves the first of some values behind the `rank` that follow it.
fn first_to<T>(values: &mut [T], rank: usize)
    requires { rank < length values.old }
    ensures { values.new ≡ drop 1 (take (rank + 1) values.old) ++ take 1 (take (rank + 1) values.old) ++ drop (rank + 1) values.old }
{
    values[..rank + 1].rotate_left(1);
}

// Moves one of some values before the `rank` that it follows.
fn to_first<T>(values: &mut [T], rank: usize)
    requires { rank < length values.old }
    ensures { values.new ≡ drop rank (take (rank + 1) values.old) ++ take rank values.old ++ drop (rank + 1) values.old }
{
    values[..rank + 1].rotate_right(1);
}

// Turns some values about.
fn turn<T>(values: &mut [T])
    ensures { values.new ≡ reverse values.old }
{
    values.reverse();
}
