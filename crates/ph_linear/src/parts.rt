//! Single parts of a linear record.

ghost use Rattle.std.specs.Prelude.{◌≡◌, ◌+◌, ◌*◌, ◌^◌, ◌<◌, ◌≤◌, ◌==◌, true, false, length, slice_index_or};
ghost use Rattle.ph_specs.specs.RecordNames.{first_in};
ghost use Rattle.ph_model.specs.ModelNames.{digits_at, IsRecord, entries_as};
ghost use Rattle.ph_bits.specs.Packed.{rank_at};
ghost use Rattle.ph_linear.specs.Linear.{kinds, addresses};

use ph_bits::{field, ones_before, part_of};

// Whether the kinds and the addresses of so many entries lie in one word, the first behind the head.
#[inline(always)]
pub(crate) fn is_short(dims: usize, count: u64) -> bool
    requires few { dims ≤ 16 }
    requires count { count < 2 ^ 24 }
    ensures { result ≡ true → count + count * dims ≤ 64 }
{
    count + count * dims as u64 <= 64
}

// The number of some digits of the first word behind the head.
#[inline(always)]
pub(crate) fn near_field(words: &[u64], front: u64, width: u64) -> u64
    requires some { 0 < width }
    requires near { front + width ≤ 64 }
    requires inside { 1 < length words.now }
    ensures { result ≡ digits_at words.now (64 + front) width }
{
    part_of(words[1], front, width)
}

// The address of an entry, where the record has `count` entries.
#[inline(always)]
pub(crate) fn address_at(words: &[u64], dims: usize, count: u64, place: u64) -> u64
    requires record { IsRecord false dims words.now }
    requires count { count ≡ (first_in words.now).entries }
    requires place { place < count }
    ensures value { result ≡ slice_index_or (addresses dims words.now) place 0 }
    ensures limit { result < 2 ^ 16 }
{
    if is_short(dims, count) {
        near_field(words, count + place * dims as u64, dims as u64)
    } else {
        field(words, 64 + count + place * dims as u64, dims as u32)
    }
}

// Whether an entry is a child.
#[inline(always)]
pub(crate) fn child_at(words: &[u64], dims: usize, i: usize) -> bool
    requires record { IsRecord false dims words.now }
    requires within { i < (first_in words.now).entries }
    ensures { result ≡ (slice_index_or (kinds dims words.now) i 0 == 1) }
{
    field(words, 64 + i as u64, 1) == 1
}

/// How many children, or points, there are in front of entry `i`.
#[inline(always)]
pub fn rank_of(words: &[u64], dims: usize, i: usize, child: bool) -> usize
    requires record { IsRecord false dims words.now }
    requires within { i < (first_in words.now).entries }
    ensures { result ≡ rank_at child (entries_as false dims words.now) i }
{
    let children = ones_before(words, 64, i as u64) as usize;
    if child { children } else { i - children }
}
