//! Single parts of a cube record.

ghost use Rattle.std.specs.Prelude.{◌≡◌, ◌+◌, ◌*◌, ◌^◌, ◌<◌, ◌≤◌, ◌==◌, true, length};
ghost use Rattle.ph_specs.specs.RecordNames.{first_in};
ghost use Rattle.ph_model.specs.ModelNames.{digits_at, IsRecord, entries_as};
ghost use Rattle.ph_bits.specs.Fields.{ones_in};
ghost use Rattle.ph_bits.specs.Packed.{rank_at, IsBodyAt};
ghost use Rattle.ph_cube.specs.Cube.{twos_in, HIGH};
ghost use Rattle.ph_cube.specs.Stands.{StandsAt};

use ph_bits::{field, ones_before};
use ph_linear::level_in;

// How many addresses there are.
#[inline(always)]
pub(crate) fn addresses(dims: usize) -> u64
    requires { dims ≤ 16 }
    ensures { result ≡ 2 ^ dims }
{
    1 << dims
}

// The address of entry `i`, by halving the addresses that are left.
#[inline(always)]
pub(crate) fn address_of(words: &[u64], dims: usize, i: usize) -> u64
    requires record { IsRecord true dims words.now }
    requires within { i < (first_in words.now).entries }
    ensures { StandsAt dims words.now result i }
{
    let mut addr = 0;
    let mut left = i as u64;
    let mut k = dims;
    while k > 0 {
        k -= 1;
        let ones = ones_before(words, 64 + addr * 2, (1 << k) * 2);
        if left >= ones {
            left -= ones;
            addr += 1 << k;
        }
    }
    addr
}

// The address of the entry behind entry `i`, which stands at an address. Words whose kinds are all 0 are passed as wholes.
#[inline(always)]
pub(crate) fn next_present(words: &[u64], dims: usize, i: usize, addr: u64) -> u64
    requires record { IsRecord true dims words.now }
    requires within { i + 1 < (first_in words.now).entries }
    requires stands { StandsAt dims words.now addr i }
    ensures { StandsAt dims words.now result (i + 1) }
{
    let _ = (dims, i);
    let mut first = addr + 1;
    let mut place = first / 32 + 1;
    let mut left = words[place as usize] << (first % 32 * 2);
    while left == 0 {
        first = place * 32;
        place += 1;
        left = words[place as usize];
    }
    first + left.leading_zeros() as u64 / 2
}

// Whether a child stands at an address.
#[inline(always)]
pub(crate) fn child_at(words: &[u64], addr: u64) -> bool
    requires few { addr ≤ 2 ^ 16 }
    requires inside { 64 + addr * 2 + 2 ≤ 64 * length words.now }
    ensures { result ≡ (digits_at words.now (64 + addr * 2) 2 == 2) }
{
    field(words, 64 + addr * 2, 2) == 2
}

// How many children, or points, there are in front of entry `i`, which stands at an address.
#[inline(always)]
pub(crate) fn rank_of(words: &[u64], dims: usize, i: usize, addr: u64, child: bool) -> usize
    requires record { IsRecord true dims words.now }
    requires within { i < (first_in words.now).entries }
    requires limit { addr < 2 ^ dims }
    requires place { ones_in words.now 64 (addr * 2) ≡ i }
    ensures { result ≡ rank_at child (entries_as true dims words.now) i }
{
    let children = children_before(words, addr) as usize;
    if child { children } else { i - children }
}

// The digit at which the body of entry `i`, which stands at an address, begins.
#[inline(always)]
pub(crate) fn body_of(words: &[u64], dims: usize, i: usize, addr: u64) -> u64
    requires record { IsRecord true dims words.now }
    requires within { i < (first_in words.now).entries }
    requires stands { StandsAt dims words.now addr i }
    ensures { IsBodyAt dims (first_in words.now).level words.now (entries_as true dims words.now) i result }
{
    let _ = i;
    64 + (1 << dims) * 2 + addr * dims as u64 * level_in(words) as u64
}

// How many of the first `n` kinds are children: each has 1 as its first digit.
#[inline(always)]
pub(crate) fn children_before(words: &[u64], n: u64) -> u64
    requires inside { 64 + n * 2 ≤ 64 * length words.now }
    requires few { n ≤ 2 ^ 16 }
    ensures { result ≡ twos_in words.now 64 n }
{
    let mut place = 1;
    let mut left = n * 2;
    let mut twos = 0;
    while left >= 64 {
        twos += twos_of(words[place]);
        place += 1;
        left -= 64;
    }
    if left > 0 {
        twos += twos_of(words[place] >> (64 - left));
    }
    twos
}

// How many kinds of a word are children.
#[inline(always)]
fn twos_of(word: u64) -> u64
    ensures { result ≡ HIGH word }
{
    (word & 0xAAAA_AAAA_AAAA_AAAA).count_ones() as u64
}
