//! Places of addresses in a linear record, by halving.

ghost use Rattle.std.specs.Prelude.{◌≡◌, ◌+◌, ◌-◌, ◌*◌, ◌/◌, ◌%◌, ◌^◌, ◌<◌, ◌≤◌, ◌==◌, nat_le};
ghost use Rattle.std.specs.Prelude.{None, Some, false, length, map, position, slice_get, slice_index_or, IfOk, IfErr, IfSome};
ghost use Rattle.std.specs.List.{position_or_len};
ghost use Rattle.ph_specs.specs.RecordNames.{first_in};
ghost use Rattle.ph_model.specs.ModelNames.{IsRecord, entries_as, read_address};
ghost use Rattle.ph_linear.specs.Linear.{addresses};

use crate::heads::count_in;
use crate::parts::{address_at, is_short, near_field};
use ph_bits::field;

/// The place of the entry at an address.
#[inline(always)]
pub fn find(words: &[u64], dims: usize, addr: u32) -> Option<usize>
    requires record { IsRecord false dims words.now }
    ensures { result ≡ position (λ r. read_address r == addr) (entries_as false dims words.now) }
{
    match search(words, dims, addr) {
        Ok(i) => Some(i),
        Err(_) => None,
    }
}

/// The place of the entry at an address, or else the place that an entry there would have.
#[inline(always)]
pub fn search(words: &[u64], dims: usize, addr: u32) -> Result<usize, usize>
    requires record { IsRecord false dims words.now }
    ensures found { IfOk result (λ i. Some i ≡ position (λ r. read_address r == addr) (entries_as false dims words.now)) }
    ensures absent { IfErr result (λ i. None ≡ position (λ r. read_address r == addr) (entries_as false dims words.now)) }
    ensures place { IfErr result (λ i. i ≡ position_or_len (λ r. nat_le addr (read_address r)) (entries_as false dims words.now)) }
{
    // The most common number of entries is told apart, so that its search is compiled without a loop.
    match count_in(words) {
        2 => search_two(words, dims, addr),
        count => search_among(words, dims, count, addr),
    }
}

// The same among two addresses, without a jump that depends on the first: only the one that may be it is compared with it.
#[inline(always)]
fn search_two(words: &[u64], dims: usize, addr: u32) -> Result<usize, usize>
    requires record { IsRecord false dims words.now }
    requires two { 2 ≡ (first_in words.now).entries }
    ensures found { IfOk result (λ i. Some i ≡ position (λ r. read_address r == addr) (entries_as false dims words.now)) }
    ensures absent { IfErr result (λ i. None ≡ position (λ r. read_address r == addr) (entries_as false dims words.now)) }
    ensures place { IfErr result (λ i. i ≡ position_or_len (λ r. nat_le addr (read_address r)) (entries_as false dims words.now)) }
{
    let first = address_at(words, dims, 2, 0);
    let i = one_if_less(first, addr as u64);
    let there = address_at(words, dims, 2, i);
    if there == addr as u64 {
        return Ok(i as usize);
    }
    let behind = one_if_less(there, addr as u64);
    Err((i + behind) as usize)
}

// 1 where a number is less than another, and else 0.
#[inline(always)]
fn one_if_less(x: u64, y: u64) -> u64
    ensures less { x < y → result ≡ 1 }
    ensures more { y ≤ x → result ≡ 0 }
    ensures limit { result ≤ 1 }
{
    (x < y) as u64
}

// The same among the addresses of so many entries.
#[inline(always)]
fn search_among(words: &[u64], dims: usize, count: u64, addr: u32) -> Result<usize, usize>
    requires record { IsRecord false dims words.now }
    requires count { count ≡ (first_in words.now).entries }
    ensures found { IfOk result (λ i. Some i ≡ position (λ r. read_address r == addr) (entries_as false dims words.now)) }
    ensures absent { IfErr result (λ i. None ≡ position (λ r. read_address r == addr) (entries_as false dims words.now)) }
    ensures place { IfErr result (λ i. i ≡ position_or_len (λ r. nat_le addr (read_address r)) (entries_as false dims words.now)) }
{
    let i = place_of(words, dims, count, addr);
    if i == count {
        return Err(i as usize);
    }
    if address_at(words, dims, count, i) == addr as u64 {
        Ok(i as usize)
    } else {
        Err(i as usize)
    }
}

/// The place of the first entry whose address is at least `addr`.
#[inline(always)]
pub fn next_at_or_after(words: &[u64], dims: usize, addr: u32) -> Option<usize>
    requires record { IsRecord false dims words.now }
    ensures { result ≡ position (λ r. nat_le addr (read_address r)) (entries_as false dims words.now) }
{
    match count_in(words) {
        2 => next_among(words, dims, 2, addr),
        count => next_among(words, dims, count, addr),
    }
}

// The same among the addresses of so many entries.
#[inline(always)]
fn next_among(words: &[u64], dims: usize, count: u64, addr: u32) -> Option<usize>
    requires record { IsRecord false dims words.now }
    requires count { count ≡ (first_in words.now).entries }
    ensures { result ≡ position (λ r. nat_le addr (read_address r)) (entries_as false dims words.now) }
{
    let i = place_of(words, dims, count, addr);
    if i < count { Some(i as usize) } else { None }
}

/// The same, where this is above the address of entry `place`. The addresses behind it, as many as have 64 digits together, are read
/// at once and looked at one by one; a later one is searched for.
#[inline(always)]
pub fn next_behind(words: &[u64], dims: usize, place: usize, addr: u32) -> Option<usize>
    requires record { IsRecord false dims words.now }
    requires within { place < (first_in words.now).entries }
    requires above { IfSome (slice_get (map read_address (entries_as false dims words.now)) place) (λ a. a < addr) }
    ensures { result ≡ position (λ r. nat_le addr (read_address r)) (entries_as false dims words.now) }
{
    let count = count_in(words);
    match near_place(words, dims, count, place as u64 + 1, addr) {
        Some(i) => Some(i as usize),
        None => next_among(words, dims, count, addr),
    }
}

// The place of the first address that is at least `addr`, as that in front of `from` is not, if it is one of the next few.
#[inline(always)]
fn near_place(words: &[u64], dims: usize, count: u64, from: u64, addr: u32) -> Option<u64>
    requires record { IsRecord false dims words.now }
    requires count { count ≡ (first_in words.now).entries }
    requires some { 1 ≤ from }
    requires most { from ≤ count }
    requires below { slice_index_or (addresses dims words.now) (from - 1) 0 < addr }
    ensures within { IfSome result (λ i. i < count) }
    ensures value { IfSome result (λ i. i ≡ position_or_len (λ a. nat_le addr a) (addresses dims words.now)) }
{
    let end = (from + 64 / dims as u64).min(count);
    let next = field(
        words,
        64 + count + from * dims as u64,
        ((end - from) * dims as u64) as u32,
    );
    for i in from..end {
        if one_of(next, dims, end - 1 - i) >= addr as u64 {
            return Some(i);
        }
    }
    None
}

// How many addresses are less than `addr`.
#[inline(always)]
fn place_of(words: &[u64], dims: usize, count: u64, addr: u32) -> u64
    requires record { IsRecord false dims words.now }
    requires count { count ≡ (first_in words.now).entries }
    ensures value { result ≡ position_or_len (λ a. nat_le addr a) (addresses dims words.now) }
    ensures within { result ≤ count }
{
    if is_short(dims, count) {
        let all = near_field(words, count, count * dims as u64);
        less_in(all, dims, count, addr)
    } else {
        place_of_many(words, dims, count, addr)
    }
}

// How many of many addresses are less than `addr`. Halves until the addresses that are left have no more than 64
// digits, and then reads these at once.
fn place_of_many(words: &[u64], dims: usize, count: u64, addr: u32) -> u64
    requires record { IsRecord false dims words.now }
    requires count { count ≡ (first_in words.now).entries }
    ensures value { result ≡ position_or_len (λ a. nat_le addr a) (addresses dims words.now) }
    ensures within { result ≤ count }
{
    let mut low = 0;
    let mut high = count;
    while (high - low) * dims as u64 > 64 {
        let middle = low + (high - low) / 2;
        if address_at(words, dims, count, middle) < (addr as u64) {
            low = middle + 1;
        } else {
            high = middle;
        }
    }
    let rest = field(
        words,
        64 + count + low * dims as u64,
        ((high - low) * dims as u64) as u32,
    );
    low + less_in(rest, dims, high - low, addr)
}

// How many of `n` addresses that make a number together are less than `addr`. They are at most 64, and
// mostly less than 16, so all are counted, without a jump that depends on them.
#[inline(always)]
fn less_in(all: u64, dims: usize, n: u64, addr: u32) -> u64
    requires some { 1 ≤ dims }
    requires few { dims ≤ 16 }
    requires inside { n * dims ≤ 64 }
    requires rise { (i : _) → (j : _) → i ≤ j → j < n → all / 2 ^ (dims * (n - 1 - i)) % 2 ^ dims ≤ all / 2 ^ (dims * (n - 1 - j)) % 2 ^ dims }
    ensures within { result ≤ n }
    ensures before { (i : _) → i < result → all / 2 ^ (dims * (n - 1 - i)) % 2 ^ dims < addr }
    ensures after { (i : _) → result ≤ i → i < n → addr ≤ all / 2 ^ (dims * (n - 1 - i)) % 2 ^ dims }
{
    let mut less = 0;
    for behind in 0..n {
        if one_of(all, dims, behind) < (addr as u64) {
            less += 1;
        }
    }
    less
}

// The address that has so many others behind it.
#[inline(always)]
fn one_of(all: u64, dims: usize, behind: u64) -> u64
    requires few { dims ≤ 16 }
    requires inside { behind * dims < 64 }
    ensures { result ≡ all / 2 ^ (dims * behind) % 2 ^ dims }
{
    (all >> (dims as u64 * behind)) & ((1 << dims) - 1)
}
