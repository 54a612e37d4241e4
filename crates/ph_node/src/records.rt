//! Records of either layout.

ghost use Rattle.std.specs.Prelude.{◌≡◌, ℕ, ◌+◌, ◌-◌, ◌*◌, ◌%◌, ◌<◌, ◌≤◌, ◌^◌, ◌==◌, nat_le, true, false};
ghost use Rattle.std.specs.Prelude.{[], None, Some, length, map, position, slice_get, slice_index_or, IfOk, IfErr};
ghost use Rattle.std.specs.List.{position_or_len};
ghost use Rattle.ph_specs.specs.RecordNames.{is_cube, values, record_of, first_in, has_cube, entries_in, values_in};
ghost use Rattle.ph_model.specs.ModelNames.{read_address, entries_as, is_child as read_child_test, AreRising, IsRecord};
ghost use Rattle.ph_bits.specs.Block.{room_of, IsSamePlaces, empty};
ghost use Rattle.ph_bits.specs.Edits.{least_digits, words_wanted};
ghost use Rattle.ph_bits.specs.Packed.{read_of, rank_at, IsBodyAt, IsPadded};
ghost use Rattle.ph_node.specs.Recorded.{IsLaidOut};
ghost use Rattle.ph_node.specs.Relaid.{differ};
ghost use Rattle.ph_node.specs.Spots.{IsSpotIn};

use crate::NoMemory;
use crate::spots::Spot;
use ph_bits::{Entries, Packed, Words};
use ph_coord::Dims;
use ph_cube::by_dims as cube;
use ph_linear::{by_dims as linear, children_in, count_in, level_in};
use std::alloc::Global;
use std::cmp::min;

// Among so many entries of a linear record an address is found as fast from the start as from an entry on.
const FEW: usize = 8;

/// The place of the entry at an address, or else the place that an entry there would have.
#[inline(always)]
pub(crate) fn search(words: &[u64], dims: usize, addr: u32) -> Result<usize, usize>
    requires record { IsLaidOut dims words.now }
    requires address { addr < 2 ^ dims }
    ensures found { IfOk result (λ i. Some i ≡ position (λ r. read_address r == addr) (entries_in dims words.now)) }
    ensures absent { IfErr result (λ i. None ≡ position (λ r. read_address r == addr) (entries_in dims words.now)) }
    ensures place { IfErr result (λ i. i ≡ position_or_len (λ r. nat_le addr (read_address r)) (entries_in dims words.now)) }
{
    if is_full(words, dims) {
        return Ok(addr as usize);
    }
    if has_cube(words, dims) {
        cube::search(words, dims, addr)
    } else {
        linear::search(words, dims, addr)
    }
}

/// The place of the first entry whose address is at least `addr`.
#[inline(always)]
pub(crate) fn next_at_or_after(words: &[u64], dims: usize, addr: u32) -> Option<usize>
    requires record { IsLaidOut dims words.now }
    ensures { result ≡ position (λ r. nat_le addr (read_address r)) (entries_in dims words.now) }
{
    if is_full(words, dims) {
        let place = addr as usize;
        return if place < count(words) {
            Some(place)
        } else {
            None
        };
    }
    if has_cube(words, dims) {
        cube::next_at_or_after(words, dims, addr)
    } else {
        linear::next_at_or_after(words, dims, addr)
    }
}

/// The same, where this is above the address of an entry. In a larger linear record the entries behind it are looked at first.
#[inline(always)]
pub(crate) fn next_behind<P: Dims>(words: &[u64], spot: Spot, addr: u32) -> Option<usize>
    requires record { IsLaidOut P.D words.now }
    requires within { spot.place < (first_in words.now).entries }
    requires address { slice_get (map read_address (entries_in P.D words.now)) spot.place ≡ Some spot.addr }
    requires above { spot.addr < addr }
    ensures { result ≡ position (λ r. nat_le addr (read_address r)) (entries_in P.D words.now) }
{
    if count(words) <= FEW || has_cube(words, P::D) {
        return next_at_or_after(words, P::D, addr);
    }
    next_near::<P>(words, spot, addr)
}

// The same in a linear record. It is compiled once for each number of dimensions, and stands beside the loop of a walk.
#[inline(never)]
fn next_near<P: Dims>(words: &[u64], spot: Spot, addr: u32) -> Option<usize>
    requires record { IsRecord false P.D words.now }
    requires within { spot.place < (first_in words.now).entries }
    requires address { slice_get (map read_address (entries_as false P.D words.now)) spot.place ≡ Some spot.addr }
    requires above { spot.addr < addr }
    ensures { result ≡ position (λ r. nat_le addr (read_address r)) (entries_as false P.D words.now) }
{
    linear::next_behind(words, P::D, spot.place, addr)
}

/// Entry `i`.
#[inline(always)]
pub(crate) fn entry(words: &[u64], dims: usize, i: usize) -> Packed
    requires record { IsLaidOut dims words.now }
    requires within { i < (first_in words.now).entries }
    ensures entry { slice_get (entries_in dims words.now) i ≡ Some (read_of dims result) }
    ensures zeros { IsPadded dims result.body }
    ensures rank { result.rank ≡ rank_at result.child (entries_in dims words.now) i }
{
    if has_cube(words, dims) {
        cube::entry(words, dims, i)
    } else {
        linear::entry(words, dims, i)
    }
}

/// The address of entry `i`.
#[inline(always)]
pub(crate) fn address(words: &[u64], dims: usize, i: usize) -> u32
    requires record { IsLaidOut dims words.now }
    requires within { i < (first_in words.now).entries }
    ensures { slice_get (map read_address (entries_in dims words.now)) i ≡ Some result }
{
    if is_full(words, dims) {
        return i as u32;
    }
    if has_cube(words, dims) {
        cube::address(words, dims, i)
    } else {
        linear::address(words, dims, i)
    }
}

/// Whether an entry is a child. Where all entries are of one kind, the first word tells.
#[inline(always)]
pub(crate) fn is_child(words: &[u64], dims: usize, spot: Spot) -> bool
    requires { IsSpotIn dims words.now spot }
    ensures { slice_get (map read_child_test (entries_in dims words.now)) spot.place ≡ Some result }
{
    let children = children_in(words);
    if children == 0 {
        return false;
    }
    if children == count_in(words) {
        return true;
    }
    if has_cube(words, dims) {
        cube::is_child_at(words, dims, spot.place, spot.addr)
    } else {
        linear::is_child(words, dims, spot.place)
    }
}

/// How many children, or points, there are in front of an entry.
#[inline(always)]
pub(crate) fn rank(words: &[u64], dims: usize, spot: Spot, child: bool) -> usize
    requires { IsSpotIn dims words.now spot }
    ensures { result ≡ rank_at child (entries_in dims words.now) spot.place }
{
    let children = children_before(words, dims, spot);
    if child {
        children
    } else {
        spot.place - children
    }
}

// How many children there are in front of an entry.
#[inline(always)]
fn children_before(words: &[u64], dims: usize, spot: Spot) -> usize
    requires { IsSpotIn dims words.now spot }
    ensures { result ≡ rank_at true (entries_in dims words.now) spot.place }
{
    if has_cube(words, dims) {
        cube::rank_at(words, dims, spot.place, spot.addr, true)
    } else {
        linear::rank_of(words, dims, spot.place, true)
    }
}

/// Whether an entry is a child, and how many of its kind there are in front of it. Where all entries are of one kind, the first
/// word tells both.
#[inline(always)]
pub(crate) fn ranked(words: &[u64], dims: usize, spot: Spot) -> (bool, usize)
    requires { IsSpotIn dims words.now spot }
    ensures kind { slice_get (map read_child_test (entries_in dims words.now)) spot.place ≡ Some result.0 }
    ensures rank { result.1 ≡ rank_at result.0 (entries_in dims words.now) spot.place }
{
    let children = children_in(words);
    if children == 0 {
        return (false, spot.place);
    }
    if children == count_in(words) {
        return (true, spot.place);
    }
    let child = is_child(words, dims, spot);
    (child, rank(words, dims, spot, child))
}

/// The digit at which the body of an entry begins.
#[inline(always)]
pub(crate) fn body_at(words: &[u64], dims: usize, spot: Spot) -> u64
    requires { IsSpotIn dims words.now spot }
    ensures { IsBodyAt dims (first_in words.now).level words.now (entries_in dims words.now) spot.place result }
{
    if has_cube(words, dims) {
        cube::body_at(words, dims, spot.place, spot.addr)
    } else {
        linear::body_at(words, dims, spot.place)
    }
}

/// Whether a record has an entry at each address. Each entry then stands in the place of its address.
#[inline(always)]
fn is_full(words: &[u64], dims: usize) -> bool
    requires some { 0 < length words.now }
    requires few { dims ≤ 16 }
    ensures { result ≡ ((first_in words.now).entries == 2 ^ dims) }
{
    count_in(words) == 1 << dims
}

/// Whether a record has the cube layout.
#[inline(always)]
pub(crate) fn has_cube(words: &[u64], dims: usize) -> bool
    requires record { IsLaidOut dims words.now }
    ensures { result ≡ has_cube dims (first_in words.now) }
{
    let _ = dims;
    words[0] >> 48 & 0xFF == 1
}

/// The value of a point, by its place among the points. The values end the record.
#[inline(always)]
pub(crate) fn value(words: &[u64], dims: usize, rank: usize) -> u64
    requires record { IsLaidOut dims words.now }
    requires within { rank < length (values_in dims words.now) }
    ensures { result ≡ slice_index_or (values_in dims words.now) rank 0 }
{
    let _ = dims;
    let points = count(words) - (words[0] & 0xFF_FFFF) as usize;
    words[words.len() - points + rank]
}

/// How many entries a record has.
#[inline(always)]
pub(crate) fn count(words: &[u64]) -> usize
    requires { 0 < length words.now }
    ensures { result ≡ (first_in words.now).entries }
{
    count_in(words) as usize
}

/// How many words the record of `n` entries at a level has, of which some are points.
pub(crate) fn size(dims: usize, level: u32, n: usize, points: usize) -> usize
    requires few { dims ≤ 16 }
    requires low { level ≤ 61 }
    requires entries { n ≤ 2 ^ dims }
    requires points { points ≤ n }
    ensures value { result ≡ words_wanted dims level n points }
    ensures limit { result ≤ 2 ^ 20 + points }
{
    let digits = least_of(dims, level, n);
    1 + ((digits + 63) / 64) as usize + points
}

/// A block that has room for the record of `n` entries, of which some are children, and behind it for the children. It has no
/// words.
pub(crate) fn exact_block<P: Dims>(
    alloc: Global,
    level: u32,
    n: usize,
    children: usize,
) -> Result<Words, NoMemory>
    requires few { P.D ≤ 16 }
    requires low { level ≤ 61 }
    requires entries { n ≤ 2 ^ P.D }
    requires children { children ≤ n }
    ensures { IfOk result (λ w. w ≡ empty alloc (words_wanted P.D level n (n - children) + children)) }
{
    Words::with_room(alloc, size(P::D, level, n, n - children) + children)
}

/// The same with some room more where it is long, so that blocks of like sizes have the same one and are used again.
pub(crate) fn block<P: Dims>(
    alloc: Global,
    level: u32,
    n: usize,
    children: usize,
) -> Result<Words, NoMemory>
    requires few { P.D ≤ 16 }
    requires low { level ≤ 61 }
    requires entries { n ≤ 2 ^ P.D }
    requires children { children ≤ n }
    ensures none { IfOk result (λ w. w.words ≡ []) }
    ensures room { IfOk result (λ w. words_wanted P.D level n (n - children) + children ≤ room_of w) }
    ensures most { IfOk result (λ w. 4 * room_of w ≤ 5 * (words_wanted P.D level n (n - children) + children)) }
{
    roomy(alloc, size(P::D, level, n, n - children) + children)
}

/// A block without words that has room for so many of them, and for some more where that is many.
pub(crate) fn roomy(alloc: Global, room: usize) -> Result<Words, NoMemory>
    requires { room ≤ 2 ^ 20 + 2 ^ 19 }
    ensures none { IfOk result (λ w. w.words ≡ []) }
    ensures room { IfOk result (λ w. room ≤ room_of w) }
    ensures most { IfOk result (λ w. 4 * room_of w ≤ 5 * room) }
{
    Words::with_room(alloc, rounded(room))
}

// The room of a block that wants so much: above 32 places, the next multiple of a quarter of the greatest power of two in it.
fn rounded(room: usize) -> usize
    requires { room ≤ 2 ^ 20 + 2 ^ 19 }
    ensures enough { room ≤ result }
    ensures most { 4 * result ≤ 5 * room }
    ensures limit { result < 2 ^ 21 }
    ensures exact { room ≤ 32 → result ≡ room }
    ensures rounded { 32 < room → (k : ℕ) × (2 ^ (k + 2) ≤ room) × (room < 2 ^ (k + 3)) × (result % 2 ^ k ≡ 0) × (result < room + 2 ^ k) }
{
    if room <= 32 {
        return room;
    }
    let step = 1 << (room.ilog2() - 2);
    (room + step - 1) / step * step
}

// The digits of the tables in the smaller layout.
fn least_of(dims: usize, level: u32, n: usize) -> u64
    requires few { dims ≤ 16 }
    requires low { level ≤ 61 }
    requires entries { n ≤ 2 ^ dims }
    ensures value { result ≡ least_digits dims level n }
    ensures limit { result ≤ 2 ^ 16 * 993 }
{
    min(
        cube::bits_of(dims, n as u32, level),
        linear::bits_of(dims, n as u32, level),
    )
}

/// Whether the cube is smaller.
pub(crate) fn wants_cube(dims: usize, level: u32, n: usize) -> bool
    requires few { dims ≤ 16 }
    requires low { level ≤ 61 }
    requires entries { n ≤ 2 ^ dims }
    ensures { result ≡ is_cube dims level n }
{
    cube::bits_of(dims, n as u32, level) < linear::bits_of(dims, n as u32, level)
}

/// Whether the record of `n` entries at the level of this one has the other layout.
#[inline(always)]
pub(crate) fn changes_layout(words: &[u64], dims: usize, n: usize) -> bool
    requires record { IsLaidOut dims words.now }
    requires entries { n ≤ 2 ^ dims }
    ensures { result ≡ differ (is_cube dims (first_in words.now).level n) (has_cube dims (first_in words.now)) }
{
    wants_cube(dims, level_in(words), n) != has_cube(words, dims)
}

/// Writes the record of these entries in the smaller layout into the room of a block, whatever it held before.
pub(crate) fn write<P: Dims, E: Entries<P>>(words: &mut Words, level: u32, from: &E)
    requires few { P.D ≤ 16 }
    requires low { level ≤ 61 }
    requires rise { AreRising P.D level 0 (E.list from.now) }
    requires room { words_wanted P.D level (length (E.list from.now)) (length (values (E.list from.now))) ≤ room_of words.old }
    ensures words { words.new.words ≡ record_of P.D level (E.list from.now) }
    ensures places { IsSamePlaces words.old words.new }
{
    if wants_cube(P::D, level, from.count()) {
        cube::write::<P, E>(words, level, from);
    } else {
        linear::write::<P, E>(words, level, from);
    }
}
