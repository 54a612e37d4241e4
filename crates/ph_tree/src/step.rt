//! One step of a look-up or of an edit: what a node says of a point.

ghost use Rattle.std.specs.Prelude.{◌≡◌, ◌<◌, ◌-◌, ◌≤◌, map};
ghost use Rattle.ph_specs.specs.TableNames.{offset};
ghost use Rattle.ph_specs.specs.TreeNames.{same_digits};
ghost use Rattle.ph_model.specs.ModelNames.{HasZerosFrom, IsBody, IsLawfulFrom, entries, body_above, body_below};
ghost use Rattle.ph_node.specs.Shown.{shown};
ghost use Rattle.ph_node.specs.Split.{body_at};
ghost use Rattle.ph_node.specs.Spots.{IsSpot};
ghost use Rattle.ph_tree.specs.Step.{IsStep};

use crate::key::KeyOf;
use ph_coord::Dims;
use ph_node::{NodeOf, NodeRefOf, Spot, WhatOf};
use ph_steps::Steps;
use std::sync::ledger::Ledger;

// What a node has at the address of a point.
#[derive_where(Clone, Copy)]
pub(crate) enum StepOf<'t, N> {
    // No entry, and the place that one would have.
    Absent(usize),
    // The point, as this entry and with this value.
    Same(Spot, u64),
    // A child, by its entry, by its place among the children and as it is visited, that has the point's digits above its level.
    Below(Spot, usize, NodeRefOf<'t, N>),
    // This entry, of which the point is no part.
    Other(Spot),
}

// Looks for a point in a node. Visits the child at the point's address, if there is one. What a caller does not use of the
// step is not worked out.
#[inline(always)]
pub(crate) fn step<'t, P: Dims, V: Ledger>(
    node: NodeRefOf<'t, NodeOf<P>>,
    key: &KeyOf<P>,
    visits: &mut Steps<V>,
) -> StepOf<'t, NodeOf<P>>
    requires lawful { IsLawfulFrom P.D (shown node).level 0 (shown node).chain }
    requires level { (shown node).level < key.now.width }
    ensures step { IsStep key.now.width key.now.point (shown node.entry) result (visits.new - visits.old) }
    ensures cost { visits.old ≤ visits.new }
{
    let spot = match node.search(key.address(node.level())) {
        Ok(spot) => spot,
        Err(place) => return StepOf::Absent(place),
    };
    let (rank, what) = node.ranked(spot);
    match what {
        WhatOf::Value(v) => {
            if node.is_below(spot, key.offsets()) {
                StepOf::Same(spot, v)
            } else {
                StepOf::Other(spot)
            }
        }
        WhatOf::Child(child) => {
            let below = child.visit(visits);
            if is_joined(node, spot, below.level(), key) {
                StepOf::Below(spot, rank, below)
            } else {
                StepOf::Other(spot)
            }
        }
    }
}

// Whether a point has the digits of a child's entry between the levels of both nodes. Mostly there are none between.
#[inline(always)]
fn is_joined<P: Dims>(node: NodeRefOf<'_, NodeOf<P>>, spot: Spot, low: u32, key: &KeyOf<P>) -> bool
    requires spot { IsSpot (entries (shown node)) spot }
    requires low { low < (shown node).level }
    requires body { IsBody P.D (shown node).level (body_at (entries (shown node)) spot.place) }
    requires zeros { HasZerosFrom low (body_at (entries (shown node)) spot.place) }
    ensures { result
        ≡ same_digits (body_at (entries (shown node.entry)) spot.place)
        (body_above low (body_below (shown node.entry).level (map (offset key.now.width) key.now.point))) }
{
    let offsets = key.offsets();
    let level = node.level();
    if low + 1 == level {
        return true;
    }
    node.is_between(spot, low, offsets)
}
