//! The entries of a linear record.

ghost use Rattle.std.specs.Prelude.{◌≡◌, ◌==◌, ◌+◌, ◌*◌, ◌^◌, ◌<◌, ◌≤◌, ℕ, Bool, Some, None, false, length, map, position, slice_index_or, slice_get, IfSome, IsNone};
ghost use Rattle.ph_specs.specs.RecordNames.{linear_digits, first_in};
ghost use Rattle.ph_model.specs.ModelNames.{IsRecord, entries_as, read_address, is_child as read_child_test};
ghost use Rattle.ph_bits.specs.Packed.{read_of, rank_at, IsBodyAt, IsPadded};
ghost use Rattle.ph_linear.specs.Linear.{addresses};

use crate::heads::{count_in, level_in};
use crate::parts::{address_at, child_at, rank_of};
use crate::searches::find;
use ph_bits::{Packed, row};

/// The digits of the tables of `n` entries at a level.
#[inline(always)]
pub fn bits_of(dims: usize, n: u32, level: u32) -> u64
    requires few { dims ≤ 16 }
    requires low { level < 62 }
    requires entries { n ≤ 2 ^ dims }
    ensures { result ≡ linear_digits dims level n }
{
    n as u64 * (1 + dims as u64 + dims as u64 * level as u64)
}

/// Entry `i`.
#[inline(always)]
pub fn entry(words: &[u64], dims: usize, i: usize) -> Packed
    requires record { IsRecord false dims words.now }
    requires within { i < (first_in words.now).entries }
    ensures entry { slice_get (entries_as false dims words.now) i ≡ Some (read_of dims result) }
    ensures zeros { IsPadded dims result.body }
    ensures rank { result.rank ≡ rank_at result.child (entries_as false dims words.now) i }
{
    let addr = address_at(words, dims, count_in(words), i as u64) as u32;
    entry_at(words, dims, i, addr)
}

/// The entry at an address.
#[inline(always)]
pub fn find_entry(words: &[u64], dims: usize, addr: u32) -> Option<Packed>
    requires record { IsRecord false dims words.now }
    ensures none { IsNone result → position (λ r. read_address r == addr) (entries_as false dims words.now) ≡ None }
    ensures entry { IfSome result
        (λ p.
        (i : ℕ)
        × (position (λ r. read_address r == addr) (entries_as false dims words.now) ≡ Some i)
        × (slice_get (entries_as false dims words.now) i ≡ Some (read_of dims p))
        × (p.rank ≡ rank_at p.child (entries_as false dims words.now) i)) }
    ensures zeros { IfSome result (λ p. IsPadded dims p.body) }
{
    match find(words, dims, addr) {
        Some(i) => Some(entry_at(words, dims, i, addr)),
        None => None,
    }
}

/// The address of entry `i`.
#[inline(always)]
pub fn address(words: &[u64], dims: usize, i: usize) -> u32
    requires record { IsRecord false dims words.now }
    requires within { i < (first_in words.now).entries }
    ensures { slice_get (map read_address (entries_as false dims words.now)) i ≡ Some result }
{
    address_at(words, dims, count_in(words), i as u64) as u32
}

/// The digit at which the body of entry `i` begins.
#[inline(always)]
pub fn body_at(words: &[u64], dims: usize, i: usize) -> u64
    requires record { IsRecord false dims words.now }
    requires within { i < (first_in words.now).entries }
    ensures { IsBodyAt dims (first_in words.now).level words.now (entries_as false dims words.now) i result }
{
    let count = count_in(words);
    let level = level_in(words);
    64 + (count + count * dims as u64) + i as u64 * dims as u64 * level as u64
}

/// Whether entry `i` is a child.
#[inline(always)]
pub fn is_child(words: &[u64], dims: usize, i: usize) -> bool
    requires record { IsRecord false dims words.now }
    requires within { i < (first_in words.now).entries }
    ensures { slice_get (map read_child_test (entries_as false dims words.now)) i ≡ Some result }
{
    child_at(words, dims, i)
}

/// The place of entry `i` among the points, or among the children where it is a child.
#[inline(always)]
pub fn rank(words: &[u64], dims: usize, i: usize) -> usize
    requires record { IsRecord false dims words.now }
    requires within { i < (first_in words.now).entries }
    ensures { (child : Bool) → slice_get (map read_child_test (entries_as false dims words.now)) i ≡ Some child
        → result ≡ rank_at child (entries_as false dims words.now) i }
{
    rank_of(words, dims, i, child_at(words, dims, i))
}

// Entry `i`, whose address is known.
#[inline(always)]
fn entry_at(words: &[u64], dims: usize, i: usize, addr: u32) -> Packed
    requires record { IsRecord false dims words.now }
    requires within { i < (first_in words.now).entries }
    requires address { addr ≡ slice_index_or (addresses dims words.now) i 0 }
    ensures entry { slice_get (entries_as false dims words.now) i ≡ Some (read_of dims result) }
    ensures zeros { IsPadded dims result.body }
    ensures rank { result.rank ≡ rank_at result.child (entries_as false dims words.now) i }
{
    let child = child_at(words, dims, i);
    let body = row(words, body_at(words, dims, i), level_in(words), dims);
    Packed {
        addr,
        child,
        body,
        rank: rank_of(words, dims, i, child),
    }
}
