//! Fields of binary digits in words.

ghost use Rattle.std.specs.Prelude.{◌≡◌, ◌≤◌, ◌<◌, ◌+◌, ◌-◌, ◌*◌, ◌/◌, ◌%◌, ◌^◌, length};
ghost use Rattle.ph_model.specs.ModelNames.{digits_at};
ghost use Rattle.ph_bits.specs.Fields.{IsPut, ones_in};

use std::cmp::min;

/// The number of the `width` digits that begin at digit `at`.
///
/// It reads the words of the first and of the last of these digits, which may be one word, and has no jump that depends on where they lie.
#[inline(always)]
pub fn field(words: &[u64], at: u64, width: u32) -> u64
    requires width { width ≤ 64 }
    requires inside { at + width ≤ 64 * length words.now }
    ensures { result ≡ digits_at words.now at width }
{
    if width == 0 {
        return 0;
    }
    let place = (at / 64) as usize;
    let front = at % 64;
    let first = words[place];
    let last = words[place + ((front + width as u64 - 1) / 64) as usize];
    let all = (first << front) | ((last >> 1) >> (63 - front));
    all >> (64 - width)
}

/// The number of the `width` digits of a word behind its first `front`.
#[inline(always)]
pub fn part_of(word: u64, front: u64, width: u64) -> u64
    requires some { 0 < width }
    requires inside { front + width ≤ 64 }
    ensures { result ≡ word / 2 ^ (64 - front - width) % 2 ^ width }
{
    (word << front) >> (64 - width)
}

/// Puts `v` into the `width` digits that begin at digit `at`.
pub fn set_field(words: &mut [u64], at: u64, width: u32, v: u64)
    requires width { width ≤ 64 }
    requires inside { at + width ≤ 64 * length words.old }
    requires value { v < 2 ^ width }
    ensures { IsPut words.old at width v words.new }
{
    if width == 0 {
        return;
    }
    let place = (at / 64) as usize;
    let room = 64 - (at % 64) as u32;
    if width <= room {
        words[place] = with_field(words[place], room - width, width, v);
    } else {
        let low = width - room;
        let behind = 64 - low;
        words[place] = with_field(words[place], 0, room, v >> low);
        words[place + 1] = with_field(words[place + 1], behind, low, (v << behind) >> behind);
    }
}

/// A word with `v` in the `width` digits in front of the last `behind`.
pub fn with_field(word: u64, behind: u32, width: u32, v: u64) -> u64
    requires width { 0 < width }
    requires inside { behind + width ≤ 64 }
    requires value { v < 2 ^ width }
    ensures { result + word / 2 ^ behind % 2 ^ width * 2 ^ behind ≡ word + v * 2 ^ behind }
{
    let old = (word << (64 - behind - width)) >> (64 - width);
    word - (old << behind) + (v << behind)
}

/// How many of the `n` digits from digit `at` on are ones. Mostly they lie in one word.
#[inline(always)]
pub fn ones_before(words: &[u64], at: u64, n: u64) -> u64
    requires inside { at + n ≤ 64 * length words.now }
    ensures { result ≡ ones_in words.now at n }
{
    if n == 0 {
        return 0;
    }
    let front = at % 64;
    if n <= 64 - front {
        part_of(words[(at / 64) as usize], front, n).count_ones() as u64
    } else {
        ones_across(words, at, n)
    }
}

// How many of the `n` digits from digit `at` on are ones, word by word.
fn ones_across(words: &[u64], at: u64, n: u64) -> u64
    requires inside { at + n ≤ 64 * length words.now }
    ensures { result ≡ ones_in words.now at n }
{
    let first = min(64 - at % 64, n);
    let mut ones = field(words, at, first as u32).count_ones() as u64;
    let mut place = (at / 64) as usize;
    let mut left = n - first;
    while left > 0 {
        place += 1;
        let width = min(64, left);
        ones += (words[place] >> (64 - width)).count_ones() as u64;
        left -= width;
    }
    ones
}
