//! Runs of digits that are moved within words.

ghost use Rattle.std.specs.Prelude.{◌≡◌, ◌≤◌, ◌<◌, ◌+◌, ◌-◌, ◌*◌, ◌/◌, ◌%◌, ◌^◌, length};
ghost use Rattle.ph_bits.specs.Moved.{IsMoved};

use crate::fields::{field, set_field, with_field};

/// Moves the `len` digits from digit `from` on to digit `to`, which does not lie behind it. The runs may overlap. The digits
/// that lie outside the run at `to` stay. It takes no memory.
pub fn move_down(words: &mut [u64], from: u64, to: u64, len: u64)
    requires order { to ≤ from }
    requires inside { from + len ≤ 64 * length words.old }
    requires near { from + len ≤ 2 ^ 62 }
    ensures { IsMoved words.old from to len words.new }
{
    if len < 64 {
        move_field(words, from, to, len as u32);
    } else {
        move_many_down(words, from, to, len);
    }
}

/// Moves the `len` digits from digit `from` on to digit `to`, which does not lie in front of it. The runs may overlap. The
/// digits that lie outside the run at `to` stay. It takes no memory.
pub fn move_up(words: &mut [u64], from: u64, to: u64, len: u64)
    requires order { from ≤ to }
    requires inside { to + len ≤ 64 * length words.old }
    requires near { to + len ≤ 2 ^ 62 }
    ensures { IsMoved words.old from to len words.new }
{
    if len < 64 {
        move_field(words, from, to, len as u32);
    } else {
        move_many_up(words, from, to, len);
    }
}

// Moves at least a word's digits: those that fill the first word, then whole words, then what is left. It stays a call, so
// that a short run saves no registers.
#[inline(never)]
fn move_many_down(words: &mut [u64], from: u64, to: u64, len: u64)
    requires order { to ≤ from }
    requires many { 64 ≤ len }
    requires inside { from + len ≤ 64 * length words.old }
    requires near { from + len ≤ 2 ^ 62 }
    ensures { IsMoved words.old from to len words.new }
{
    let front = (64 - to % 64) % 64;
    let whole = (len - front) / 64;
    let done = front + 64 * whole;
    let rest = (len - done) as u32;
    move_part(words, from, to, front as u32, 0);
    move_words_down(words, from + front, (to + front) / 64, whole);
    move_part(words, from + done, to + done, rest, 64 - rest);
}

// The same from the last digits to the first.
#[inline(never)]
fn move_many_up(words: &mut [u64], from: u64, to: u64, len: u64)
    requires order { from ≤ to }
    requires many { 64 ≤ len }
    requires inside { to + len ≤ 64 * length words.old }
    requires near { to + len ≤ 2 ^ 62 }
    ensures { IsMoved words.old from to len words.new }
{
    let front = (64 - to % 64) % 64;
    let whole = (len - front) / 64;
    let done = front + 64 * whole;
    let rest = (len - done) as u32;
    move_part(words, from + done, to + done, rest, 64 - rest);
    move_words_up(words, from + front, (to + front) / 64, whole);
    move_part(words, from, to, front as u32, 0);
}

// Moves the digits from one on to so many words, the first word first.
fn move_words_down(words: &mut [u64], from: u64, place: u64, count: u64)
    requires order { 64 * place ≤ from }
    requires inside { from + 64 * count ≤ 64 * length words.old }
    requires near { from + 64 * count ≤ 2 ^ 62 }
    ensures { IsMoved words.old from (64 * place) (64 * count) words.new }
{
    if from % 64 == 0 {
        copy_words(words, from / 64, place, count);
    } else {
        shift_words_down(words, from, place, count);
    }
}

// Moves the digits from one on to so many words, the last word first.
fn move_words_up(words: &mut [u64], from: u64, place: u64, count: u64)
    requires order { from ≤ 64 * place }
    requires inside { 64 * place + 64 * count ≤ 64 * length words.old }
    requires near { 64 * place + 64 * count ≤ 2 ^ 62 }
    ensures { IsMoved words.old from (64 * place) (64 * count) words.new }
{
    if from % 64 == 0 {
        copy_words(words, from / 64, place, count);
    } else {
        shift_words_up(words, from, place, count);
    }
}

// Moves whole words.
fn copy_words(words: &mut [u64], start: u64, place: u64, count: u64)
    requires from { start + count ≤ length words.old }
    requires to { place + count ≤ length words.old }
    ensures { IsMoved words.old (64 * start) (64 * place) (64 * count) words.new }
{
    words.copy_within(start as usize..(start + count) as usize, place as usize);
}

// Moves digits that begin within a word to so many words, from the first word to the last, four words a turn and then those
// that are left: what was written lies in front of the words that are read next.
fn shift_words_down(words: &mut [u64], from: u64, place: u64, count: u64)
    requires across { 0 < from % 64 }
    requires order { 64 * place ≤ from }
    requires inside { from + 64 * count ≤ 64 * length words.old }
    requires near { from + 64 * count ≤ 2 ^ 62 }
    ensures { IsMoved words.old from (64 * place) (64 * count) words.new }
{
    for turn in 0..count / 4 {
        shift_four(words, from + 256 * turn, place + 4 * turn);
    }
    let done = count / 4 * 4;
    shift_few_down(words, from + 64 * done, place + done, count % 4);
}

// The same from the last word to the first: what was written lies behind the words that are read next.
fn shift_words_up(words: &mut [u64], from: u64, place: u64, count: u64)
    requires across { 0 < from % 64 }
    requires order { from ≤ 64 * place }
    requires inside { 64 * place + 64 * count ≤ 64 * length words.old }
    requires near { 64 * place + 64 * count ≤ 2 ^ 62 }
    ensures { IsMoved words.old from (64 * place) (64 * count) words.new }
{
    let mut left = count;
    while left >= 4 {
        left -= 4;
        shift_four(words, from + 64 * left, place + left);
    }
    shift_few_up(words, from, place, left);
}

// Moves digits that begin within a word to four words, all of which are read before the first is written. So the two runs may
// overlap in any way.
#[inline(always)]
fn shift_four(words: &mut [u64], from: u64, place: u64)
    requires across { 0 < from % 64 }
    requires from { from + 256 ≤ 64 * length words.old }
    requires to { 64 * place + 256 ≤ 64 * length words.old }
    ensures { IsMoved words.old from (64 * place) 256 words.new }
{
    let start = (from / 64) as usize;
    let front = from % 64;
    let behind = 64 - front;
    let (a, b, c, d, e) = (
        words[start],
        words[start + 1],
        words[start + 2],
        words[start + 3],
        words[start + 4],
    );
    let to = place as usize;
    words[to + 3] = word_across(d, e, front, behind);
    words[to + 2] = word_across(c, d, front, behind);
    words[to + 1] = word_across(b, c, front, behind);
    words[to] = word_across(a, b, front, behind);
}

// Moves digits that begin within a word to so many words, the first word first. Each word is read once, and before it is
// written: what was written lies in front of the word that was read last.
fn shift_few_down(words: &mut [u64], from: u64, place: u64, count: u64)
    requires across { 0 < from % 64 }
    requires order { 64 * place ≤ from }
    requires inside { from + 64 * count ≤ 64 * length words.old }
    requires near { from + 64 * count ≤ 2 ^ 62 }
    ensures { IsMoved words.old from (64 * place) (64 * count) words.new }
{
    let start = from / 64;
    let front = from % 64;
    let behind = 64 - front;
    let mut first = words[start as usize];
    for i in 0..count {
        let last = words[(start + i + 1) as usize];
        words[(place + i) as usize] = word_across(first, last, front, behind);
        first = last;
    }
}

// The same from the last word to the first.
fn shift_few_up(words: &mut [u64], from: u64, place: u64, count: u64)
    requires across { 0 < from % 64 }
    requires order { from ≤ 64 * place }
    requires inside { 64 * place + 64 * count ≤ 64 * length words.old }
    requires near { 64 * place + 64 * count ≤ 2 ^ 62 }
    ensures { IsMoved words.old from (64 * place) (64 * count) words.new }
{
    let start = from / 64;
    let front = from % 64;
    let behind = 64 - front;
    let mut last = words[(start + count) as usize];
    let mut left = count;
    while left > 0 {
        left -= 1;
        let first = words[(start + left) as usize];
        words[(place + left) as usize] = word_across(first, last, front, behind);
        last = first;
    }
}

// The 64 digits of two words that begin behind the first `front`. Whoever makes many words makes `behind` once: where each has
// its own `64 - front`, the compiler makes double shifts, of which there are no vectors.
#[inline(always)]
fn word_across(first: u64, last: u64, front: u64, behind: u64) -> u64
    requires some { 0 < front }
    requires inside { front < 64 }
    requires word { front + behind ≡ 64 }
    ensures { result ≡ first % 2 ^ (64 - front) * 2 ^ front + last / 2 ^ (64 - front) }
{
    (first << front) | (last >> behind)
}

// Moves digits to others that lie in one word, in front of its last `behind`.
#[inline(always)]
fn move_part(words: &mut [u64], from: u64, to: u64, width: u32, behind: u32)
    requires width { width ≤ 64 }
    requires one { 0 < width → to % 64 + width + behind ≡ 64 }
    requires from { from + width ≤ 64 * length words.old }
    requires to { to + width ≤ 64 * length words.old }
    ensures { IsMoved words.old from to width words.new }
{
    if width == 0 {
        return;
    }
    let moved = field(words, from, width);
    let place = (to / 64) as usize;
    words[place] = with_field(words[place], behind, width, moved);
}

// Moves at most 64 digits.
fn move_field(words: &mut [u64], from: u64, to: u64, width: u32)
    requires width { width ≤ 64 }
    requires from { from + width ≤ 64 * length words.old }
    requires to { to + width ≤ 64 * length words.old }
    ensures { IsMoved words.old from to width words.new }
{
    let moved = field(words, from, width);
    set_field(words, to, width, moved);
}
