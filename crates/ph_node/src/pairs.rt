//! The record of two entries, one of them a point.

ghost use Rattle.std.specs.Prelude.{◌≡◌, ◌≢◌, ◌+◌, ◌-◌, ◌<◌, ◌≤◌, take, length, if◌then◌else◌, Some, None, IfOk};
ghost use Rattle.ph_specs.specs.RecordNames.{record_of};
ghost use Rattle.ph_model.specs.ModelNames.{body_address};
ghost use Rattle.ph_bits.specs.Block.{room_of};
ghost use Rattle.ph_bits.specs.Edits.{words_wanted};
ghost use Rattle.ph_bits.specs.Packed.{IsPadded};
ghost use Rattle.ph_node.specs.Pairs.{below_flat, in_order, pair_flats, flats_in_pair, written_flat};

use crate::olds::OldEntry;
use crate::{NoMemory, records};
use ph_bits::{Entries, Mark, Packed, Words};
use ph_coord::Dims;
use ph_digits::{body_address, body_below};
use std::alloc::Global;
use std::marker::PhantomData;

/// An entry that is written, and its value where it is a point.
#[derive(Clone, Copy)]
pub(crate) struct Written {
    entry: Packed,
    value: u64,
}

/// Two entries.
#[derive(Drop)]
pub(crate) struct PairOf<'t, P: Dims> {
    first: &'t Written,
    second: &'t Written,
    dims: PhantomData<P>,
    ghost first_padded: { IsPadded P.D first.now.entry.body },
    ghost second_padded: { IsPadded P.D second.now.entry.body },
}

impl<'t, P: Dims> Entries<P> for PairOf<'t, P> {
    ghost use Rattle.ph_node.specs.Pairs.{flats_in_pair};

    ghost list = { λ s. flats_in_pair P.D s.first.now s.second.now };

    fn count(&self) -> usize {
        2
    }

    #[inline(always)]
    fn at(&self, i: usize, mark: &mut Option<Mark>) -> Packed {
        let _ = mark;
        if i == 0 {
            self.first.entry
        } else {
            self.second.entry
        }
    }

    #[inline(always)]
    fn value(&self, i: usize, mark: &mut Option<Mark>) -> u64 {
        let _ = mark;
        if i == 0 {
            self.first.value
        } else {
            self.second.value
        }
    }
}

/// The record of a child at a level, which has an old entry and a point with a body, by their digits below it. Its words have room
/// for what the old entry holds, where that is a child.
#[inline(always)]
pub(crate) fn pair_below<P: Dims>(
    alloc: Global,
    level: u32,
    old: &OldEntry,
    body: &[u64; 16],
    v: u64,
) -> Result<Words, NoMemory>
    requires few { P.D ≤ 16 }
    requires low { level ≤ 61 }
    requires old { length (take P.D old.now.body) ≡ P.D }
    requires old_padded { IsPadded P.D old.now.body }
    requires body { length (take P.D body.now) ≡ P.D }
    requires body_padded { IsPadded P.D body.now }
    requires differ { body_address level (take P.D old.now.body) ≢ body_address level (take P.D body.now) }
    ensures words { IfOk result (λ w. w.words ≡ record_of P.D level (pair_flats P.D level old.now body.now v)) }
    ensures room { IfOk result (λ w. words_wanted P.D level 2 (2 - (if old.now.child then 1 else 0)) + (if old.now.child then 1 else 0) ≤ room_of w) }
{
    let was = written_below(P::D, level, old.child, &old.body, old.value);
    let joins = written_below(P::D, level, false, body, v);
    let pair: PairOf<'_, P> = in_order(&was, &joins);
    let mut words = records::block::<P>(alloc, level, 2, old.child as usize)?;
    records::write::<P, PairOf<'_, P>>(&mut words, level, &pair);
    Ok(words)
}

// Two entries in the order of their addresses.
#[inline(always)]
fn in_order<'t, P: Dims>(old: &'t Written, new: &'t Written) -> PairOf<'t, P>
    requires old { IsPadded P.D old.now.entry.body }
    requires new { IsPadded P.D new.now.entry.body }
    ensures { flats_in_pair P.D result.first.now result.second.now ≡ in_order (written_flat P.D old.now) (written_flat P.D new.now) }
{
    let (first, second) = if new.entry.addr < old.entry.addr {
        (new, old)
    } else {
        (old, new)
    };
    PairOf {
        first,
        second,
        dims: PhantomData,
    }
}

// The entry of a body below a place.
#[inline(always)]
fn written_below(dims: usize, place: u32, child: bool, body: &[u64; 16], value: u64) -> Written
    requires place { place < 64 }
    requires few { dims ≤ 16 }
    requires padded { IsPadded dims body.now }
    ensures entry { written_flat dims result ≡ below_flat place (take dims body.now) (if child then None else Some value) }
    ensures padded { IsPadded dims result.entry.body }
{
    let entry = Packed {
        addr: body_address(place, &body[..dims]),
        child,
        body: body_below(place, *body),
        rank: 0,
    };
    Written { entry, value }
}
