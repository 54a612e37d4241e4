//! An entry that becomes a child of two entries.

ghost use Rattle.std.specs.Prelude.{◌≡◌, ◌≢◌, ◌+◌, ◌≤◌, length, take, OnErr, OnOk};
ghost use Rattle.ph_model.specs.ModelNames.{what_at, entries};
ghost use Rattle.ph_digits.specs.Differences.{IsTopDifference};
ghost use Rattle.ph_node.specs.Bodies.{IsBodyArray};
ghost use Rattle.ph_node.specs.Split.{IsBelow, body_at, part_place, split_node};
ghost use Rattle.ph_node.specs.Spots.{IsSpot};

use crate::moves::take_child;
use crate::node::{ChildOf, NodeOf};
use crate::pairs::pair_below;
use crate::spots::Spot;
use crate::{NoMemory, rewrites};
use ph_bits::{Block, Edit, Packed};
use ph_coord::Dims;
use ph_digits::{body_above, top_difference};
use ph_steps::Steps;
use std::marker::PhantomData;
use std::sync::ledger::Ledger;

impl<P: Dims> NodeOf<P> {
    /// Splits an entry at the greatest place at which its body and this one differ: it becomes a child at this level that
    /// holds what the entry held, and a point with this body, given by its digits below the node's level.
    ///
    /// Takes memory for the new child alone, before the first change: the record is changed where it lies. Without it nothing has
    /// changed.
    pub fn split<C: Ledger>(
        &mut self,
        spot: Spot,
        body: &[u64; 16],
        v: u64,
        changes: &mut Steps<C>,
    ) -> Result<(), NoMemory>
        requires spot { IsSpot (entries self.old) spot }
        requires body { IsBodyArray P.D self.old.level body.now }
        requires differ { body_at (entries self.old) spot.place ≢ take P.D body.now }
        requires above { IsBelow (part_place self.old spot.place (take P.D body.now)) (what_at (entries self.old) spot.place) }
        ensures ok { OnOk result (self.new ≡ split_node self.old spot.place (part_place self.old spot.place (take P.D body.now)) (take P.D body.now) v) }
        ensures cost { OnOk result (changes.new ≡ changes.old + 2) }
        ensures err { OnErr result (self.new ≡ self.old) }
        ensures spared { OnErr result (changes.new ≡ changes.old) }
    {
        let alloc = self.block.allocator();
        let old = self.old_entry(spot);
        let level = place_apart::<P>(&old.body, body);
        let words = pair_below::<P>(alloc, level, &old, body, v)?;
        let entry = Packed {
            addr: old.addr,
            child: true,
            body: body_above(level, *body),
            rank: 0,
        };
        let edit = Edit {
            place: spot.place,
            less: 1,
            more: 1,
            entry,
            value: 0,
        };
        rewrites::put_entry(&mut self.block, P::D, &edit);
        changes.tick();
        changes.tick();
        let mut below = Block::of(words);
        take_child(&mut self.block, old.front, old.child, &mut below);
        let node = NodeOf {
            block: below,
            dims: PhantomData,
        };
        self.block.insert(old.front, ChildOf { node });
        Ok(())
    }
}

// The greatest place at which the fields of two bodies differ.
fn place_apart<P: Dims>(old: &[u64; 16], new: &[u64; 16]) -> u32
    requires few { P.D ≤ 16 }
    requires same { length (take P.D old.now) ≡ length (take P.D new.now) }
    requires differ { take P.D old.now ≢ take P.D new.now }
    ensures { IsTopDifference (take P.D old.now) (take P.D new.now) result }
{
    match top_difference(&old[..P::D], &new[..P::D]) {
        Some(place) => place,
        None => unreachable!(),
    }
}
