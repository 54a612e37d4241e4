//! The entries of a cube record.

ghost use Rattle.std.specs.Prelude.{◌≡◌, ◌==◌, ◌+◌, ◌*◌, ◌^◌, ◌<◌, ◌≤◌, ℕ, Bool, Some, None, true, map, position, slice_get, IfSome, IsNone};
ghost use Rattle.ph_specs.specs.RecordNames.{cube_digits, first_in};
ghost use Rattle.ph_model.specs.ModelNames.{IsRecord, entries_as, read_address, is_child as read_child_test};
ghost use Rattle.ph_bits.specs.Packed.{read_of, rank_at, IsPadded};
ghost use Rattle.ph_cube.specs.Stands.{StandsAt};

use crate::parts::{address_of, body_of, child_at, rank_of};
use crate::searches::find;
use ph_bits::{Packed, row};
use ph_linear::level_in;

/// The digits of the tables of `n` entries at a level: they are as many for every `n`.
#[inline(always)]
pub fn bits_of(dims: usize, n: u32, level: u32) -> u64
    requires few { dims ≤ 16 }
    requires low { level < 62 }
    requires entries { n ≤ 2 ^ dims }
    ensures { result ≡ cube_digits dims level }
{
    (1 << dims) * (2 + dims as u64 * level as u64)
}

/// Entry `i`. Its address is found by halving the addresses; where it is known, `find_entry` is faster.
#[inline(always)]
pub fn entry(words: &[u64], dims: usize, i: usize) -> Packed
    requires record { IsRecord true dims words.now }
    requires within { i < (first_in words.now).entries }
    ensures entry { slice_get (entries_as true dims words.now) i ≡ Some (read_of dims result) }
    ensures zeros { IsPadded dims result.body }
    ensures rank { result.rank ≡ rank_at result.child (entries_as true dims words.now) i }
{
    let addr = address_of(words, dims, i);
    entry_at(words, dims, i, addr)
}

/// The entry at an address.
#[inline(always)]
pub fn find_entry(words: &[u64], dims: usize, addr: u32) -> Option<Packed>
    requires record { IsRecord true dims words.now }
    requires address { addr < 2 ^ dims }
    ensures none { IsNone result → position (λ r. read_address r == addr) (entries_as true dims words.now) ≡ None }
    ensures entry { IfSome result
        (λ p.
        (i : ℕ)
        × (position (λ r. read_address r == addr) (entries_as true dims words.now) ≡ Some i)
        × (slice_get (entries_as true dims words.now) i ≡ Some (read_of dims p))
        × (p.rank ≡ rank_at p.child (entries_as true dims words.now) i)) }
    ensures zeros { IfSome result (λ p. IsPadded dims p.body) }
{
    match find(words, dims, addr) {
        Some(i) => Some(entry_at(words, dims, i, addr as u64)),
        None => None,
    }
}

/// The address of entry `i`.
#[inline(always)]
pub fn address(words: &[u64], dims: usize, i: usize) -> u32
    requires record { IsRecord true dims words.now }
    requires within { i < (first_in words.now).entries }
    ensures { slice_get (map read_address (entries_as true dims words.now)) i ≡ Some result }
{
    address_of(words, dims, i) as u32
}

/// Whether entry `i` is a child.
#[inline(always)]
pub fn is_child(words: &[u64], dims: usize, i: usize) -> bool
    requires record { IsRecord true dims words.now }
    requires within { i < (first_in words.now).entries }
    ensures { slice_get (map read_child_test (entries_as true dims words.now)) i ≡ Some result }
{
    child_at(words, address_of(words, dims, i))
}

/// The place of entry `i` among the points, or among the children where it is a child.
#[inline(always)]
pub fn rank(words: &[u64], dims: usize, i: usize) -> usize
    requires record { IsRecord true dims words.now }
    requires within { i < (first_in words.now).entries }
    ensures { (child : Bool) → slice_get (map read_child_test (entries_as true dims words.now)) i ≡ Some child
        → result ≡ rank_at child (entries_as true dims words.now) i }
{
    let addr = address_of(words, dims, i);
    rank_of(words, dims, i, addr, child_at(words, addr))
}

// Entry `i`, which stands at an address.
#[inline(always)]
fn entry_at(words: &[u64], dims: usize, i: usize, addr: u64) -> Packed
    requires record { IsRecord true dims words.now }
    requires within { i < (first_in words.now).entries }
    requires stands { StandsAt dims words.now addr i }
    ensures entry { slice_get (entries_as true dims words.now) i ≡ Some (read_of dims result) }
    ensures zeros { IsPadded dims result.body }
    ensures rank { result.rank ≡ rank_at result.child (entries_as true dims words.now) i }
{
    let child = child_at(words, addr);
    let at = body_of(words, dims, i, addr);
    let body = row(words, at, level_in(words), dims);
    Packed {
        addr: addr as u32,
        child,
        body,
        rank: rank_of(words, dims, i, addr, child),
    }
}
