//! Putting a value at a point, below a node and in a tree.

ghost use Rattle.std.specs.Prelude.{◌≡◌, ◌+◌, ◌-◌, ◌*◌, ◌^◌, ◌<◌, ◌≤◌, None, Some, position, IfOk};
ghost use Rattle.ph_specs.specs.TableNames.{address};
ghost use Rattle.ph_model.specs.ModelNames.{entries, node_of, value, IsLawful, IsLawfulFrom, find_node, find_tree, put_node, put_tree, has_address, what_at};
ghost use Rattle.ph_model.specs.ModelNames.{with_what};
ghost use Rattle.ph_node.specs.Places.{place_for};
ghost use Rattle.ph_node.specs.Split.{IsValue};
ghost use Rattle.ph_node.specs.Spots.{IsSpot};
ghost use Rattle.ph_tree.specs.Opened.{opened_below, opened_in};
ghost use Rattle.ph_tree.specs.Placed.{outcome};
ghost use Rattle.ph_tree.specs.Puts.{IsPut};
ghost use Rattle.ph_tree.specs.Spare.{IsRoomy};
ghost use Rattle.ph_tree.specs.Step.{IsApartAt};

use crate::error::PutError;
use crate::key::KeyOf;
use crate::spare::Spare;
use crate::step::{StepOf, step};
use ph_coord::Dims;
use ph_node::{NodeOf, Spot};
use ph_steps::Steps;
use ph_table::Put;
use std::alloc::Global;
use std::sync::ledger::Ledger;

// What is put: a value at a point.
#[derive(Drop)]
pub(crate) struct PutOf<'t, P: Dims> {
    pub(crate) key: &'t KeyOf<P>,
    pub(crate) value: u64,
    // Whether there is room for a new point.
    pub(crate) room: bool,
    // Whether only a new point is put: one that is there keeps its value.
    pub(crate) fresh: bool,
    // The value that the point had, once it was found.
    pub(crate) former: u64,
    // A block that is taken before a new point is put.
    pub(crate) spare: Spare,
}

// What came of a put below the root. The value that the point had stays in the put, so that this is one number: only then the
// compiler makes a loop of `put_at`.
#[derive(Clone, Copy)]
pub(crate) enum Placed {
    // The point is new.
    Joined,
    // The point was there.
    Present,
    // The point would be new, and there is no room.
    Refused,
    // There was no memory.
    Failed,
}

impl Placed {
    // The answer, with the value that the point had, or the error.
    #[inline(always)]
    fn outcome(self, former: u64) -> Result<Put, PutError>
        ensures { result ≡ outcome self former }
    {
        match self {
            Placed::Joined => Ok(Put::New),
            Placed::Present => Ok(Put::Old(former)),
            Placed::Refused => Err(PutError::Full),
            Placed::Failed => Err(PutError::NoMemory),
        }
    }
}

// Puts a value at a point in a tree, as far as the put allows it.
pub(crate) fn put_in<P: Dims, V: Ledger, C: Ledger>(
    root: &mut Option<NodeOf<P>>,
    alloc: Global,
    put: &mut PutOf<'_, P>,
    visits: &mut Steps<V>,
    changes: &mut Steps<C>,
) -> Result<Put, PutError>
    requires some { 1 ≤ P.D }
    requires few { P.D ≤ 16 }
    requires lawful { IsLawful put.old.key.now.width P.D root.old }
    requires room { put.old.spare.room < 2 ^ 21 }
    ensures put { IsPut put.old.fresh put.old.room (find_tree put.old.key.now.width P.D root.old put.old.key.now.point)
        root.old (put_tree put.old.key.now.width P.D root.old put.old.key.now.point put.old.value) root.new
        changes.old changes.new result }
    ensures visits { visits.new ≤ visits.old + (2 * opened_in put.old.key.now.width root.old put.old.key.now.point - 1) }
    ensures later { visits.old ≤ visits.new }
    ensures roomy { IfOk result (λ a. a ≡ Put.New → IsRoomy put.new.spare.block put.old.spare.room) }
{
    let key = put.key;
    let top = key.width() - 1;
    match root {
        Some(node) => put_at(node, put, visits, changes).outcome(put.former),
        None => {
            if !put.room {
                return Err(PutError::Full);
            }
            if !put.spare.take() {
                return Err(PutError::NoMemory);
            }
            match NodeOf::single(
                alloc,
                top,
                key.address(top),
                key.below(top),
                put.value,
                changes,
            ) {
                Ok(node) => {
                    *root = Some(node);
                    Ok(Put::New)
                }
                Err(_) => Err(PutError::NoMemory),
            }
        }
    }
}

// Puts a value at a point in a node or below it, as far as the put allows it.
pub(crate) fn put_at<P: Dims, V: Ledger, C: Ledger>(
    cur: &mut NodeOf<P>,
    put: &mut PutOf<'_, P>,
    visits: &mut Steps<V>,
    changes: &mut Steps<C>,
) -> Placed
    requires lawful { IsLawfulFrom P.D cur.old.level 0 cur.old.chain }
    requires level { cur.old.level < put.old.key.now.width }
    requires room { put.old.spare.room < 2 ^ 21 }
    ensures put { IsPut put.old.fresh put.old.room (find_node put.old.key.now.width cur.old put.old.key.now.point)
        cur.old (put_node put.old.key.now.width cur.old put.old.key.now.point put.old.value) cur.new
        changes.old changes.new (outcome result put.new.former) }
    ensures visits { visits.new ≤ visits.old + 2 * opened_below put.old.key.now.width cur.old.level cur.old.chain put.old.key.now.point + 1 }
    ensures later { visits.old ≤ visits.new }
    ensures roomy { IfOk (outcome result put.new.former) (λ a. a ≡ Put.New → IsRoomy put.new.spare.block put.old.spare.room) }
{
    let node = cur.visit(visits);
    let level = node.level();
    match step(node, put.key, visits) {
        StepOf::Absent(i) => add_point(cur, i, level, put, changes),
        StepOf::Same(spot, old) => replace_value(cur, spot, old, put, changes),
        StepOf::Below(spot, rank, _) => {
            let held = cur.child_mut(spot, rank);
            put_at(held.node_mut(), put, visits, changes)
        }
        StepOf::Other(spot) => split_entry(cur, spot, level, put, changes),
    }
}

// Gives a point entry of a node, which has an old value, the one that is put, unless only a new point is put. The old one is
// kept in the put.
#[inline(never)]
fn replace_value<P: Dims, C: Ledger>(
    cur: &mut NodeOf<P>,
    spot: Spot,
    old: u64,
    put: &mut PutOf<'_, P>,
    changes: &mut Steps<C>,
) -> Placed
    requires spot { IsSpot (entries cur.old) spot }
    requires point { IsValue (what_at (entries cur.old) spot.place) }
    ensures put { IsPut put.old.fresh put.old.room (Some old)
        cur.old (node_of cur.old.level (with_what (entries cur.old) spot.place (value put.old.value))) cur.new
        changes.old changes.new (outcome result put.new.former) }
    ensures there { result ≡ Placed.Present }
{
    if !put.fresh {
        cur.set_value(spot, put.value, changes);
    }
    put.former = old;
    Placed::Present
}

// Adds a point to a node at a level that has no entry at its address, in the place of one, once the spare block is there.
#[inline(never)]
fn add_point<P: Dims, C: Ledger>(
    cur: &mut NodeOf<P>,
    i: usize,
    level: u32,
    put: &mut PutOf<'_, P>,
    changes: &mut Steps<C>,
) -> Placed
    requires level { level ≡ cur.old.level }
    requires below { level < put.old.key.now.width }
    requires absent { position (has_address (address put.old.key.now.width put.old.key.now.point level)) (entries cur.old) ≡ None }
    requires place { i ≡ place_for (address put.old.key.now.width put.old.key.now.point level) (entries cur.old) }
    requires room { put.old.spare.room < 2 ^ 21 }
    ensures put { IsPut put.old.fresh put.old.room None
        cur.old (put_node put.old.key.now.width cur.old put.old.key.now.point put.old.value) cur.new
        changes.old changes.new (outcome result put.new.former) }
    ensures roomy { IfOk (outcome result put.new.former) (λ a. a ≡ Put.New → IsRoomy put.new.spare.block put.old.spare.room) }
{
    if !put.room {
        return Placed::Refused;
    }
    if !put.spare.take() {
        return Placed::Failed;
    }
    match cur.add(
        i,
        put.key.address(level),
        put.key.below(level),
        put.value,
        changes,
    ) {
        Ok(()) => Placed::Joined,
        Err(_) => Placed::Failed,
    }
}

// Splits an entry of a node at a level, so that a point stands beside what it holds, once the spare block is there.
#[inline(never)]
fn split_entry<P: Dims, C: Ledger>(
    cur: &mut NodeOf<P>,
    spot: Spot,
    level: u32,
    put: &mut PutOf<'_, P>,
    changes: &mut Steps<C>,
) -> Placed
    requires lawful { IsLawfulFrom P.D cur.old.level 0 cur.old.chain }
    requires level { level ≡ cur.old.level }
    requires below { level < put.old.key.now.width }
    requires apart { IsApartAt put.old.key.now.width put.old.key.now.point cur.old spot }
    requires room { put.old.spare.room < 2 ^ 21 }
    ensures put { IsPut put.old.fresh put.old.room None
        cur.old (put_node put.old.key.now.width cur.old put.old.key.now.point put.old.value) cur.new
        changes.old changes.new (outcome result put.new.former) }
    ensures roomy { IfOk (outcome result put.new.former) (λ a. a ≡ Put.New → IsRoomy put.new.spare.block put.old.spare.room) }
{
    if !put.room {
        return Placed::Refused;
    }
    if !put.spare.take() {
        return Placed::Failed;
    }
    match cur.split(spot, &put.key.below(level), put.value, changes) {
        Ok(()) => Placed::Joined,
        Err(_) => Placed::Failed,
    }
}
