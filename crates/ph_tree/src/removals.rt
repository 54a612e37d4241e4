//! Taking a point out, below a node and out of a tree.

ghost use Rattle.std.specs.Prelude.{◌≡◌, ◌+◌, ◌-◌, ◌*◌, ◌^◌, ◌<◌, ◌≤◌, None, Some, length, MatchOption, IfOk, OnOk, OnErr, IsOk, IsSome};
ghost use Rattle.ph_model.specs.ModelNames.{node_of, entries, what_at, without, IsLawful, IsLawfulFrom, find_node, find_tree, del_node, del_tree};
ghost use Rattle.ph_bits.specs.Block.{empty, room_of};
ghost use Rattle.ph_node.specs.Merge.{IsPair, entries_held, merge_node};
ghost use Rattle.ph_node.specs.Split.{IsValue, body_at};
ghost use Rattle.ph_node.specs.Spots.{IsSpot};
ghost use Rattle.ph_tree.specs.Opened.{opened_below, opened_in};
ghost use Rattle.ph_tree.specs.Placed.{value_gone};
ghost use Rattle.ph_tree.specs.Removals.{IsRemoval};
ghost use Rattle.ph_tree.specs.Rooms.{relaid_room, spare_wanted, spare_wanted_in};
ghost use Rattle.ph_tree.specs.Spares.{HasRoom};
ghost use Rattle.ph_tree.specs.Step.{IsLeading};

use crate::key::KeyOf;
use crate::records::relaid_room;
use crate::step::{StepOf, step};
use ph_bits::Words;
use ph_coord::Dims;
use ph_node::{NoMemory, NodeOf, Spot};
use ph_steps::Steps;
use std::alloc::Global;
use std::sync::ledger::Ledger;

// What a removal takes along on its way down.
#[derive(Drop)]
pub(crate) struct Removal {
    // Where a block for a record that is laid out anew is taken from, once the point is found.
    pub(crate) alloc: Global,
    // Or else a block that is there.
    pub(crate) there: Option<Words>,
    // The value that went, once the point is gone.
    pub(crate) value: u64,
}

impl Removal {
    // A block with room for so many words, where any are wanted. Where one is there, none is taken.
    fn block(&mut self, room: usize) -> Result<Option<Words>, NoMemory>
        requires limit { room < 2 ^ 21 }
        ensures room { IfOk result (λ b. MatchOption b (room ≡ 0) (λ words. room ≤ room_of words)) }
        ensures none { room ≡ 0 → IfOk result (λ b. b ≡ None) × (self.new ≡ self.old) }
        ensures taken { 0 < room → self.old.there ≡ None → IfOk result (λ b. b ≡ Some (empty self.old.alloc room)) }
        ensures handed { 0 < room → IsSome self.old.there → IfOk result (λ b. b ≡ self.old.there) }
        ensures there { HasRoom self.old room → IsOk result }
    {
        if room == 0 {
            return Ok(None);
        }
        match self.there.take() {
            None => Ok(Some(Words::with_room(self.alloc, room)?)),
            Some(words) => {
                if words.room() < room {
                    return Err(NoMemory);
                }
                Ok(Some(words))
            }
        }
    }
}

// What came of a removal below the root. The value that went stays in the removal, so that this is one number: only then
// the compiler makes a loop of `del_below`.
#[derive(Clone, Copy)]
pub(crate) enum Removed {
    // The point is not there.
    Nothing,
    // The point is gone.
    Gone,
    // There was no memory.
    Failed,
}

impl Removed {
    // The value that is gone, if one is, or the error.
    #[inline(always)]
    fn outcome(self, value: u64) -> Result<Option<u64>, NoMemory>
        ensures { result ≡ value_gone self value }
    {
        match self {
            Removed::Nothing => Ok(None),
            Removed::Gone => Ok(Some(value)),
            Removed::Failed => Err(NoMemory),
        }
    }
}

// Takes a point out of a tree. The root is visited once, and goes with the last row. Memory is taken where the point is found and its
// node's record changes its layout, before the first change.
pub(crate) fn del_in<P: Dims, V: Ledger, C: Ledger>(
    root: &mut Option<NodeOf<P>>,
    key: &KeyOf<P>,
    removal: &mut Removal,
    visits: &mut Steps<V>,
    changes: &mut Steps<C>,
) -> Result<Option<u64>, NoMemory>
    requires lawful { IsLawful key.now.width P.D root.old }
    ensures del { IsRemoval (find_tree key.now.width P.D root.old key.now.point)
        root.old (del_tree key.now.width P.D root.old key.now.point) root.new
        changes.old changes.new result }
    ensures roomy { HasRoom removal.old (spare_wanted_in key.now.width P.D root.old key.now.point) → IsOk result }
    ensures visits { visits.new ≤ visits.old + (2 * opened_in key.now.width root.old key.now.point - 1) }
    ensures later { visits.old ≤ visits.new }
{
    // A use that makes the range of the width known.
    let _width = key.width();
    let Some(mut node) = root.take() else {
        return Ok(None);
    };
    let top = node.visit(visits);
    match step(top, key, visits) {
        StepOf::Absent(_) | StepOf::Other(_) => {
            *root = Some(node);
            Ok(None)
        }
        StepOf::Same(spot, value) => {
            if top.len() == 1 {
                node.dissolve(changes);
                return Ok(Some(value));
            }
            let room = relaid_room(top);
            let found = drop_point(&mut node, spot, value, room, removal, changes);
            *root = Some(node);
            found.outcome(removal.value)
        }
        StepOf::Below(spot, rank, _) => {
            let found = del_below(&mut node, spot, rank, key, removal, visits, changes);
            *root = Some(node);
            found.outcome(removal.value)
        }
    }
}

// Takes a point out from below an entry of a node: a child, at its place among the children, that has the point's digits above
// its level. Where the child has the point and one entry more, that one takes the child's place.
fn del_below<P: Dims, V: Ledger, C: Ledger>(
    cur: &mut NodeOf<P>,
    spot: Spot,
    rank: usize,
    key: &KeyOf<P>,
    removal: &mut Removal,
    visits: &mut Steps<V>,
    changes: &mut Steps<C>,
) -> Removed
    requires lawful { IsLawfulFrom P.D cur.old.level 0 cur.old.chain }
    requires level { cur.old.level < key.now.width }
    requires leads { IsLeading key.now.width key.now.point cur.old spot rank }
    ensures del { IsRemoval (find_node key.now.width cur.old key.now.point)
        cur.old (del_node key.now.width cur.old key.now.point) cur.new
        changes.old changes.new (value_gone result removal.new.value) }
    ensures roomy { HasRoom removal.old (spare_wanted key.now.width P.D cur.old key.now.point) → IsOk (value_gone result removal.new.value) }
    ensures visits { visits.new + 1 ≤ visits.old + 2 * opened_below key.now.width cur.old.level cur.old.chain key.now.point }
    ensures later { visits.old ≤ visits.new }
{
    let held = cur.child_mut(spot, rank);
    let child = held.node_mut();
    let below = child.visit(visits);
    match step(below, key, visits) {
        StepOf::Absent(_) | StepOf::Other(_) => Removed::Nothing,
        StepOf::Same(own, value) => {
            let pair = below.len() == 2;
            if pair {
                drop_child(cur, spot, own.place, value, removal, changes);
                Removed::Gone
            } else {
                let room = relaid_room(below);
                drop_point(child, own, value, room, removal, changes)
            }
        }
        StepOf::Below(next, place, _) => {
            del_below(child, next, place, key, removal, visits, changes)
        }
    }
}

// Lets a point entry of a node go, which wants so much room for that, and leaves its value in the removal.
#[inline(never)]
fn drop_point<P: Dims, C: Ledger>(
    cur: &mut NodeOf<P>,
    spot: Spot,
    value: u64,
    room: usize,
    removal: &mut Removal,
    changes: &mut Steps<C>,
) -> Removed
    requires spot { IsSpot (entries cur.old) spot }
    requires point { IsValue (what_at (entries cur.old) spot.place) }
    requires many { 2 ≤ length (entries cur.old) }
    requires room { room ≡ relaid_room P.D cur.old.level cur.old.chain }
    requires limit { room < 2 ^ 21 }
    ensures del { IsRemoval (Some value)
        cur.old (node_of cur.old.level (without (entries cur.old) spot.place)) cur.new
        changes.old changes.new (value_gone result removal.new.value) }
    ensures roomy { HasRoom removal.old room → IsOk (value_gone result removal.new.value) }
{
    let Ok(block) = removal.block(room) else {
        return Removed::Failed;
    };
    cur.drop_entry(spot, block, changes);
    removal.value = value;
    Removed::Gone
}

// Lets the child of an entry and its point entry `j` go, and leaves the point's value in the removal. Takes no memory.
#[inline(never)]
fn drop_child<P: Dims, C: Ledger>(
    cur: &mut NodeOf<P>,
    spot: Spot,
    j: usize,
    value: u64,
    removal: &mut Removal,
    changes: &mut Steps<C>,
)
    requires spot { IsSpot (entries cur.old) spot }
    requires child { IsPair cur.old.level (body_at (entries cur.old) spot.place) (what_at (entries cur.old) spot.place) }
    requires one { j < 2 }
    requires point { IsValue (what_at (entries_held (what_at (entries cur.old) spot.place)) j) }
    ensures value { removal.new.value ≡ value }
    ensures del { cur.new ≡ merge_node cur.old spot.place j }
    ensures cost { changes.new ≡ changes.old + 2 }
{
    cur.merge(spot, j, changes);
    removal.value = value;
}
