//! Parts of an entry whose place and address are known.

ghost use Rattle.std.specs.Prelude.{◌≡◌, ◌+◌, ◌<◌, Some, true, map, slice_get};
ghost use Rattle.ph_specs.specs.RecordNames.{first_in};
ghost use Rattle.ph_model.specs.ModelNames.{IsRecord, entries_as, read_address, is_child as read_child_test};
ghost use Rattle.ph_bits.specs.Packed.{rank_at as rank_in, IsBodyAt};

use crate::parts::{body_of, child_at, next_present, rank_of};

/// Whether entry `i`, at an address, is a child.
#[inline(always)]
pub fn is_child_at(words: &[u64], dims: usize, i: usize, addr: u32) -> bool
    requires record { IsRecord true dims words.now }
    requires within { i < (first_in words.now).entries }
    requires address { slice_get (map read_address (entries_as true dims words.now)) i ≡ Some addr }
    ensures { slice_get (map read_child_test (entries_as true dims words.now)) i ≡ Some result }
{
    let _ = (dims, i);
    child_at(words, addr as u64)
}

/// How many children, or points, there are in front of entry `i`, at an address.
#[inline(always)]
pub fn rank_at(words: &[u64], dims: usize, i: usize, addr: u32, child: bool) -> usize
    requires record { IsRecord true dims words.now }
    requires within { i < (first_in words.now).entries }
    requires address { slice_get (map read_address (entries_as true dims words.now)) i ≡ Some addr }
    ensures { result ≡ rank_in child (entries_as true dims words.now) i }
{
    rank_of(words, dims, i, addr as u64, child)
}

/// The address of the entry behind entry `i`, which stands at an address.
#[inline(always)]
pub fn next_address(words: &[u64], dims: usize, i: usize, addr: u32) -> u32
    requires record { IsRecord true dims words.now }
    requires within { i + 1 < (first_in words.now).entries }
    requires address { slice_get (map read_address (entries_as true dims words.now)) i ≡ Some addr }
    ensures { slice_get (map read_address (entries_as true dims words.now)) (i + 1) ≡ Some result }
{
    next_present(words, dims, i, addr as u64) as u32
}

/// The digit at which the body of entry `i`, at an address, begins.
#[inline(always)]
pub fn body_at(words: &[u64], dims: usize, i: usize, addr: u32) -> u64
    requires record { IsRecord true dims words.now }
    requires within { i < (first_in words.now).entries }
    requires address { slice_get (map read_address (entries_as true dims words.now)) i ≡ Some addr }
    ensures { IsBodyAt dims (first_in words.now).level words.now (entries_as true dims words.now) i result }
{
    body_of(words, dims, i, addr as u64)
}
