//! The entries of a record that are read one behind the other: each is found from the one in front of it.

ghost use Rattle.std.specs.Prelude.{◌≡◌, ◌+◌, ◌<◌, Some, IfSome};
ghost use Rattle.ph_specs.specs.RecordNames.{first_in, entries_in};
ghost use Rattle.ph_model.specs.ModelNames.{read_address};
ghost use Rattle.std.specs.Prelude.{slice_get, map};
ghost use Rattle.ph_bits.specs.Packed.{read_of, IsPadded};
ghost use Rattle.ph_node.specs.Marks.{IsMarkIn};
ghost use Rattle.ph_node.specs.Recorded.{IsLaidOut};

use crate::records;
use crate::spots::Spot;
use ph_bits::{Mark, Packed, row};
use ph_cube::by_dims as cube;
use ph_linear::{by_dims as linear, level_in};

/// Moves a mark on to entry `k`.
#[inline(always)]
pub(crate) fn marked(words: &[u64], dims: usize, k: usize, mark: &mut Option<Mark>) -> Mark
    requires record { IsLaidOut dims words.now }
    requires within { k < (first_in words.now).entries }
    requires stands { IfSome mark.old (IsMarkIn dims words.now) }
    ensures mark { IsMarkIn dims words.now result }
    ensures place { result.place ≡ k }
    ensures stands { mark.new ≡ Some result }
{
    let found = found_from(words, dims, k, *mark);
    *mark = Some(found);
    found
}

// The mark of entry `k`, from another one: those one behind the other are found in time for what lies between them.
#[inline(always)]
fn found_from(words: &[u64], dims: usize, k: usize, mark: Option<Mark>) -> Mark
    requires record { IsLaidOut dims words.now }
    requires within { k < (first_in words.now).entries }
    requires stands { IfSome mark (IsMarkIn dims words.now) }
    ensures mark { IsMarkIn dims words.now result }
    ensures place { result.place ≡ k }
{
    match mark {
        Some(last) => reached(words, dims, k, last),
        None => sought(words, dims, k),
    }
}

// The mark of entry `k`, from that of another one.
#[inline(always)]
fn reached(words: &[u64], dims: usize, k: usize, last: Mark) -> Mark
    requires mark { IsMarkIn dims words.now last }
    requires within { k < (first_in words.now).entries }
    ensures mark { IsMarkIn dims words.now result }
    ensures place { result.place ≡ k }
{
    if last.place == k {
        return last;
    }
    if last.place + 1 == k {
        return next(words, dims, last);
    }
    sought(words, dims, k)
}

// The mark of the entry behind that of another one.
#[inline(always)]
fn next(words: &[u64], dims: usize, last: Mark) -> Mark
    requires mark { IsMarkIn dims words.now last }
    requires within { last.place + 1 < (first_in words.now).entries }
    ensures mark { IsMarkIn dims words.now result }
    ensures place { result.place ≡ last.place + 1 }
{
    let child = records::is_child(words, dims, spot_of(last));
    Mark {
        place: last.place + 1,
        addr: next_address(words, dims, last),
        points: last.points + !child as usize,
    }
}

// The address of the entry behind that of a mark.
#[inline(always)]
fn next_address(words: &[u64], dims: usize, last: Mark) -> u32
    requires mark { IsMarkIn dims words.now last }
    requires within { last.place + 1 < (first_in words.now).entries }
    ensures { slice_get (map read_address (entries_in dims words.now)) (last.place + 1) ≡ Some result }
{
    if records::has_cube(words, dims) {
        cube::next_address(words, dims, last.place, last.addr)
    } else {
        linear::address(words, dims, last.place + 1)
    }
}

// The mark of entry `k`, by all entries in front of it.
#[inline(always)]
fn sought(words: &[u64], dims: usize, k: usize) -> Mark
    requires record { IsLaidOut dims words.now }
    requires within { k < (first_in words.now).entries }
    ensures mark { IsMarkIn dims words.now result }
    ensures place { result.place ≡ k }
{
    let addr = records::address(words, dims, k);
    let spot = Spot { place: k, addr };
    Mark {
        place: k,
        addr,
        points: records::rank(words, dims, spot, false),
    }
}

#[inline(always)]
fn spot_of(mark: Mark) -> Spot
    ensures place { result.place ≡ mark.place }
    ensures address { result.addr ≡ mark.addr }
{
    Spot {
        place: mark.place,
        addr: mark.addr,
    }
}

/// The entry at a mark. Its rank is any number.
#[inline(always)]
pub(crate) fn entry_at(words: &[u64], dims: usize, mark: Mark) -> Packed
    requires mark { IsMarkIn dims words.now mark }
    ensures entry { slice_get (entries_in dims words.now) mark.place ≡ Some (read_of dims result) }
    ensures zeros { IsPadded dims result.body }
{
    let spot = spot_of(mark);
    let child = records::is_child(words, dims, spot);
    let at = records::body_at(words, dims, spot);
    Packed {
        addr: mark.addr,
        child,
        body: row(words, at, level_in(words), dims),
        rank: 0,
    }
}
