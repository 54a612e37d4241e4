//! All rows of a part of a tree.
ghost use Rattle.std.specs.Prelude.{◌≡◌, ◌+◌, ◌≤◌, [], length, take};
ghost use Rattle.ph_model.specs.ModelNames.{entries, node as held_node, IsBody, digits_from, chosen, seen_nodes};
ghost use Rattle.ph_node.specs.Shown.{shown};
ghost use Rattle.ph_set.specs.Held.{IsLawfulPart, nodes_held, rows_held};
ghost use Rattle.ph_set.specs.Meeting.{alone};
ghost use Rattle.ph_node.specs.Spots.{IsSpot};
ghost use Rattle.ph_set.specs.Parts.{IsPart, digits_over, nodes_over, rows_over, spot_openings, spot_rows, stretch_nodes, stretch_rows};
ghost use Rattle.ph_set.specs.Sides.{side_digits, side_entries, side_node};

use crate::part::{HeldOf, PartOf, join_entry};
use crate::plan::Plan;
use crate::side::SideOf;
use crate::sink::RowSink;
use ph_coord::Width;
use ph_node::{NodeOf, NodeRefOf, Spot, WhatOf};
use ph_shape::Space;
use ph_steps::Steps;
use std::sync::ledger::Ledger;

/// Hands the rows of a part to a sink.
pub(crate) fn list_part<P: Space, S: RowSink<P>, V: Ledger>(
    w: Width,
    part: &PartOf<'_, NodeOf<P>>,
    rows: &mut S,
    visits: &mut Steps<V>,
)
    requires dims { P.D ≤ 16 }
    requires part { IsLawfulPart w P.D part.now }
    ensures rows { S.adds rows.old rows.new (rows_held w P.D part.now) }
    ensures visits { visits.new ≡ visits.old + length (nodes_held w P.D part.now) }
{
    match part.held {
        HeldOf::Value(value) => rows.take(P::with_offsets(w, &part.digits, value)),
        HeldOf::Node(node) => {
            list_stretch::<P, S, V>(w, node, &part.digits, 0, node.len(), rows, visits)
        }
    }
}

// Hands the rows of the entries of a node from one place up to another to a sink.
fn list_stretch<P: Space, S: RowSink<P>, V: Ledger>(
    w: Width,
    node: NodeRefOf<'_, NodeOf<P>>,
    digits: &[u64; 16],
    from: usize,
    to: usize,
    rows: &mut S,
    visits: &mut Steps<V>,
)
    requires dims { P.D ≤ 16 }
    requires part { IsPart w P.D (take P.D digits.now) (held_node (shown node)) }
    requires within { to ≤ length (entries (shown node)) }
    ensures rows { S.adds rows.old rows.new (stretch_rows w (shown node.entry) (take P.D digits.now) from to) }
    ensures visits { visits.new ≡ visits.old + length (stretch_nodes w (shown node.entry) (take P.D digits.now) from to) }
{
    let mut known = *digits;
    list_entries::<P, S, V>(w, node, &mut known, from, to, rows, visits)
}

// The same, where digits are known above the level of the node. What is known there does not change while digits are joined below it, so
// one array serves all that is below a node.
#[cycle(lists)]
fn list_entries<P: Space, S: RowSink<P>, V: Ledger>(
    w: Width,
    node: NodeRefOf<'_, NodeOf<P>>,
    known: &mut [u64; 16],
    from: usize,
    to: usize,
    rows: &mut S,
    visits: &mut Steps<V>,
)
    requires dims { P.D ≤ 16 }
    requires known { IsBody P.D w (take P.D known.old) }
    requires part { IsPart w P.D (digits_over P.D (shown node) known.old) (held_node (shown node)) }
    requires within { to ≤ length (entries (shown node)) }
    ensures rows { S.adds rows.old rows.new (rows_over w P.D (shown node.entry) known.old from to) }
    ensures visits { visits.new ≡ visits.old + length (nodes_over w P.D (shown node.entry) known.old from to) }
    ensures known { IsBody P.D w (take P.D known.new) }
    ensures above { digits_from ((shown node.entry).level + 1) (take P.D known.new) ≡ digits_from ((shown node.entry).level + 1) (take P.D known.old) }
{
    for i in from..to {
        list_entry::<P, S, V>(w, node, node.spot(i), known, rows, visits);
    }
}

// The same of one entry.
#[cycle(lists)]
fn list_entry<P: Space, S: RowSink<P>, V: Ledger>(
    w: Width,
    node: NodeRefOf<'_, NodeOf<P>>,
    spot: Spot,
    known: &mut [u64; 16],
    rows: &mut S,
    visits: &mut Steps<V>,
)
    requires dims { P.D ≤ 16 }
    requires spot { IsSpot (entries (shown node)) spot }
    requires known { IsBody P.D w (take P.D known.old) }
    requires part { IsPart w P.D (digits_over P.D (shown node) known.old) (held_node (shown node)) }
    ensures rows { S.adds rows.old rows.new (spot_rows w (shown node.entry) spot (take P.D known.old)) }
    ensures visits { visits.new ≡ visits.old + spot_openings w (shown node.entry) spot (take P.D known.old) }
    ensures known { IsBody P.D w (take P.D known.new) }
    ensures above { digits_from ((shown node.entry).level + 1) (take P.D known.new) ≡ digits_from ((shown node.entry).level + 1) (take P.D known.old) }
{
    // A use that makes the range of the width known.
    let _bits = w.bits();
    join_entry(node, spot, known);
    match node.what(spot) {
        WhatOf::Value(value) => rows.take(P::with_offsets(w, known, value)),
        WhatOf::Child(child) => {
            let below = child.visit(visits);
            list_entries::<P, S, V>(w, below, known, 0, below.len(), rows, visits)
        }
    }
}

/// The same as [`list_part`] where a plan keeps the rows that one tree alone has, the left one or the right one, and else nothing.
pub(crate) fn list_part_if<P: Space, S: RowSink<P>, V: Ledger>(
    plan: &Plan,
    left: bool,
    part: &PartOf<'_, NodeOf<P>>,
    rows: &mut S,
    visits: &mut Steps<V>,
)
    requires dims { P.D ≤ 16 }
    requires part { IsLawfulPart plan.now.width P.D part.now }
    ensures rows { S.adds rows.old rows.new (chosen (alone plan.now left) (rows_held plan.now.width P.D part.now)) }
    ensures visits { visits.new ≡ visits.old + seen_nodes plan.now.width (alone plan.now left) [] (nodes_held plan.now.width P.D part.now) }
{
    if plan.alone(left) {
        list_part::<P, S, V>(plan.width, part, rows, visits);
    }
}

/// The same of [`list_stretch`].
pub(crate) fn list_stretch_if<P: Space, S: RowSink<P>, V: Ledger>(
    plan: &Plan,
    left: bool,
    side: &SideOf<'_, NodeOf<P>>,
    from: usize,
    to: usize,
    rows: &mut S,
    visits: &mut Steps<V>,
)
    requires dims { P.D ≤ 16 }
    requires part { IsPart plan.now.width P.D (side_digits P.D side.now) (held_node (side_node side.now)) }
    requires within { to ≤ length (side_entries side.now) }
    ensures rows { S.adds rows.old rows.new
        (chosen (alone plan.now left) (stretch_rows plan.now.width (side_node side.now) (side_digits P.D side.now) from to)) }
    ensures visits { visits.new
        ≡ visits.old + seen_nodes plan.now.width (alone plan.now left) [] (stretch_nodes plan.now.width (side_node side.now) (side_digits P.D side.now) from to) }
{
    if plan.alone(left) {
        list_stretch::<P, S, V>(plan.width, side.node, side.digits, from, to, rows, visits);
    }
}
