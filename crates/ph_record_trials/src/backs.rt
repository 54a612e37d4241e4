//! Whether records are read as the lists of entries that they were written of.

ghost use Rattle.std.specs.Prelude.{◌≡◌, ◌≤◌, ◌<◌, ◌^◌, true, false, length, IfSome};
ghost use Rattle.ph_specs.specs.RecordNames.{first_in};
ghost use Rattle.ph_model.specs.ModelNames.{IsRecord};

use crate::items::Item;
use ph_bits::Packed;

// Compares each read of a layout with a list.
macro_rules! compare_reads {
    ($layout:ident, $words:expr, $dims:expr, $items:expr) => {{
        for addr in 0..addresses($dims) {
            let place = place_of($items, addr);
            if $layout::by_dims::find($words, $dims, addr) != place
                || $layout::by_dims::search($words, $dims, addr) != looked_for($items, addr)
                || $layout::by_dims::next_at_or_after($words, $dims, addr) != next_of($items, addr)
                || !is_found(
                    $layout::by_dims::find_entry($words, $dims, addr),
                    $dims,
                    $items,
                    place,
                )
            {
                return false;
            }
        }
        for i in 0..$items.len() {
            if !is_entry(&$layout::by_dims::entry($words, $dims, i), $dims, $items, i)
                || $layout::by_dims::address($words, $dims, i) != $items[i].addr
                || $layout::by_dims::is_child($words, $dims, i) != $items[i].value.is_none()
                || $layout::by_dims::rank($words, $dims, i) != rank_of($items, i)
            {
                return false;
            }
        }
        true
    }};
}

/// Whether each read of a linear record gives what the list has.
pub fn is_linear_back(words: &[u64], dims: usize, items: &[Item]) -> bool
    requires few { dims ≤ 2 }
    requires record { IsRecord false dims words.now }
    requires count { (first_in words.now).entries ≡ length items.now }
{
    compare_reads!(ph_linear, words, dims, items)
}

/// Whether each read of a cube record gives what the list has.
pub fn is_cube_back(words: &[u64], dims: usize, items: &[Item]) -> bool
    requires few { dims ≤ 2 }
    requires record { IsRecord true dims words.now }
    requires count { (first_in words.now).entries ≡ length items.now }
{
    compare_reads!(ph_cube, words, dims, items)
}

// How many addresses there are.
fn addresses(dims: usize) -> u32
    requires few { dims ≤ 2 }
    ensures { result ≡ 2 ^ dims }
{
    1 << dims
}

// The place of an address in a list.
fn place_of(items: &[Item], addr: u32) -> Option<usize> {
    items.iter().position(|item| item.addr == addr)
}

// The place of the first address that is not below another.
fn next_of(items: &[Item], addr: u32) -> Option<usize> {
    items.iter().position(|item| item.addr >= addr)
}

// The place of an address in a list, or else the place that it would have.
fn looked_for(items: &[Item], addr: u32) -> Result<usize, usize> {
    match place_of(items, addr) {
        Some(i) => Ok(i),
        None => Err(next_of(items, addr).unwrap_or(items.len())),
    }
}

// How many entries of the kind of entry `i` are in front of it.
fn rank_of(items: &[Item], i: usize) -> usize
    requires { i < length items.now }
{
    let child = items[i].value.is_none();
    items[..i]
        .iter()
        .filter(|item| item.value.is_none() == child)
        .count()
}

// Whether what was found by an address is the entry at a place of a list, or both are nothing.
fn is_found(found: Option<Packed>, dims: usize, items: &[Item], place: Option<usize>) -> bool {
    match (found, place) {
        (Some(packed), Some(i)) => i < items.len() && is_entry(&packed, dims, items, i),
        (None, None) => true,
        _ => false,
    }
}

// Whether an entry that was read is entry `i` of a list.
fn is_entry(packed: &Packed, dims: usize, items: &[Item], i: usize) -> bool
    requires { i < length items.now }
{
    let item = &items[i];
    let (x, y) = item.fields;
    let last = if dims == 2 { y } else { 0 };
    let fields = (packed.body[0], packed.body[1]);
    (packed.addr, fields, packed.child, packed.rank)
        == (
            item.addr,
            (x, last),
            item.value.is_none(),
            rank_of(items, i),
        )
}
