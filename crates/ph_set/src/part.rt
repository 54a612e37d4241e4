//! Parts of a tree.
ghost use Rattle.std.specs.Prelude.{◌≡◌, ◌+◌, ◌≤◌, take};
ghost use Rattle.ph_model.specs.ModelNames.{what_at, IsBody, entries};
ghost use Rattle.ph_node.specs.Shown.{shown};
ghost use Rattle.ph_node.specs.Spots.{IsSpot, joined_digits};
ghost use Rattle.ph_set.specs.Held.{held_what};
ghost use Rattle.ph_set.specs.Parts.{openings};

use ph_coord::Dims;
use ph_node::{NodeOf, NodeRefOf, Spot, WhatOf};
use ph_steps::Steps;
use std::sync::ledger::Ledger;

/// A row or a visited node, with the digits that are known of it.
#[derive_where(Clone, Copy)]
pub(crate) struct PartOf<'t, N> {
    pub(crate) digits: [u64; 16],
    pub(crate) held: HeldOf<'t, N>,
}

#[derive_where(Clone, Copy)]
pub(crate) enum HeldOf<'t, N> {
    Value(u64),
    Node(NodeRefOf<'t, N>),
}

/// What an entry of a node holds. A child is visited.
pub(crate) fn part_at<'t, P: Dims, V: Ledger>(
    node: NodeRefOf<'t, NodeOf<P>>,
    digits: &[u64; 16],
    spot: Spot,
    visits: &mut Steps<V>,
) -> PartOf<'t, NodeOf<P>>
    requires dims { P.D ≤ 16 }
    requires spot { IsSpot (entries (shown node)) spot }
    requires digits { IsBody P.D 62 (take P.D digits.now) }
    ensures digits { take P.D result.digits ≡ joined_digits (shown node.entry) spot (take P.D digits.now) }
    ensures held { held_what result.held ≡ what_at (entries (shown node.entry)) spot.place }
    ensures visits { visits.new ≡ visits.old + openings (what_at (entries (shown node.entry)) spot.place) }
{
    let mut digits = *digits;
    join_entry(node, spot, &mut digits);
    let held = match node.what(spot) {
        WhatOf::Value(value) => HeldOf::Value(value),
        WhatOf::Child(child) => HeldOf::Node(child.visit(visits)),
    };
    PartOf { digits, held }
}

/// Puts the digits of an entry behind those that are known above the level of its node.
pub(crate) fn join_entry<P: Dims>(node: NodeRefOf<'_, NodeOf<P>>, spot: Spot, known: &mut [u64; 16])
    requires dims { P.D ≤ 16 }
    requires spot { IsSpot (entries (shown node)) spot }
    requires known { IsBody P.D 62 (take P.D known.old) }
    ensures { take P.D known.new ≡ joined_digits (shown node.entry) spot (take P.D known.old) }
{
    let dims = P::D;
    node.join(spot, &mut known[..dims]);
}
