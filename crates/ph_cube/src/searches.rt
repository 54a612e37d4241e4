//! Places of addresses in a cube record.

ghost use Rattle.std.specs.Prelude.{◌≡◌, ◌*◌, ◌+◌, ◌^◌, ◌<◌, ◌==◌, nat_le, None, Some, true, position, IfOk, IfErr};
ghost use Rattle.std.specs.List.{position_or_len};
ghost use Rattle.ph_model.specs.ModelNames.{IsRecord, entries_as, read_address};

use ph_bits::{field, ones_before};
use ph_linear::count_in;

/// The place of the entry at an address.
#[inline(always)]
pub fn find(words: &[u64], dims: usize, addr: u32) -> Option<usize>
    requires record { IsRecord true dims words.now }
    requires address { addr < 2 ^ dims }
    ensures { result ≡ position (λ r. read_address r == addr) (entries_as true dims words.now) }
{
    match search(words, dims, addr) {
        Ok(i) => Some(i),
        Err(_) => None,
    }
}

/// The place of the entry at an address, or else the place that an entry there would have.
#[inline(always)]
pub fn search(words: &[u64], dims: usize, addr: u32) -> Result<usize, usize>
    requires record { IsRecord true dims words.now }
    requires address { addr < 2 ^ dims }
    ensures found { IfOk result (λ i. Some i ≡ position (λ r. read_address r == addr) (entries_as true dims words.now)) }
    ensures absent { IfErr result (λ i. None ≡ position (λ r. read_address r == addr) (entries_as true dims words.now)) }
    ensures place { IfErr result (λ i. i ≡ position_or_len (λ r. nat_le addr (read_address r)) (entries_as true dims words.now)) }
{
    let before = addr as u64 * 2;
    let i = ones_before(words, 64, before) as usize;
    if field(words, 64 + before, 2) == 0 {
        Err(i)
    } else {
        Ok(i)
    }
}

/// The place of the first entry whose address is at least `addr`.
#[inline(always)]
pub fn next_at_or_after(words: &[u64], dims: usize, addr: u32) -> Option<usize>
    requires record { IsRecord true dims words.now }
    ensures { result ≡ position (λ r. nat_le addr (read_address r)) (entries_as true dims words.now) }
{
    if addr as u64 >= 1 << dims {
        return None;
    }
    let i = ones_before(words, 64, addr as u64 * 2);
    if i < count_in(words) {
        Some(i as usize)
    } else {
        None
    }
}
