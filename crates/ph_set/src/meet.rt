//! A descent of two trees at once.
//!
//! Two parts meet where the points of the lower one lie in the region of the higher one. A child is visited where its entry
//! has something of the other tree at its address, which is where its region holds a point of the other tree, or where all its
//! rows are listed.
ghost use Rattle.std.specs.Prelude.{◌≡◌, ◌+◌, ◌<◌, ◌≤◌, length, None, Some};
ghost use Rattle.ph_model.specs.ModelNames.{node as held_node, digits_from, chosen, AreParted};
ghost use Rattle.ph_node.specs.Shown.{shown};
ghost use Rattle.ph_set.specs.Held.{IsLawfulPart, held_what, part_digits, part_what, rows_held, with_node, with_value};
ghost use Rattle.ph_node.specs.Merge.{addr_at};
ghost use Rattle.ph_set.specs.Meeting.{IsPartingOf, kept_parts, work_parts, kept_parts_by, work_parts_by, apart_parts_by};
ghost use Rattle.ph_set.specs.Sides.{AreBeside, side_entries, kept_from, work_from, kept_from_by, work_from_by};
ghost use Rattle.ph_set.specs.Parts.{height};
ghost use Rattle.ph_set.specs.Sinks.{AreTaken};

use crate::lists::{list_part_if, list_stretch_if};
use crate::part::{HeldOf, PartOf, part_at};
use crate::plan::Plan;
use crate::side::{SideOf, place_from};
use crate::sink::RowSink;
use ph_coord::Dims;
use ph_digits::{body_address, top_difference};
use ph_node::{NodeOf, NodeRefOf};
use ph_shape::Space;
use ph_steps::Steps;
use std::sync::ledger::Ledger;

/// Lists what a plan keeps of two parts that are lawful.
#[cycle(meet)]
pub(crate) fn meet<P: Space, S: RowSink<P>, V: Ledger>(
    plan: &Plan,
    x: &PartOf<'_, NodeOf<P>>,
    y: &PartOf<'_, NodeOf<P>>,
    rows: &mut S,
    visits: &mut Steps<V>,
)
    requires dims { P.D ≤ 16 }
    requires left { IsLawfulPart plan.now.width P.D x.now }
    requires right { IsLawfulPart plan.now.width P.D y.now }
    ensures rows { S.adds rows.old rows.new (kept_parts plan.now P.D x.now y.now) }
    ensures visits { visits.new ≡ visits.old + work_parts plan.now P.D x.now y.now }
{
    if let Some(place) = parting(x, y) {
        return list_apart::<P, S, V>(plan, x, y, place, rows, visits);
    }
    match (x.held, y.held) {
        (HeldOf::Value(value), HeldOf::Value(_)) => list_both::<P, S>(plan, x, value, rows),
        (HeldOf::Node(a), HeldOf::Value(_)) => over::<P, S, V>(plan, true, a, x, y, rows, visits),
        (HeldOf::Value(_), HeldOf::Node(b)) => over::<P, S, V>(plan, false, b, y, x, rows, visits),
        (HeldOf::Node(a), HeldOf::Node(b)) => meet_nodes::<P, S, V>(plan, a, x, b, y, rows, visits),
    }
}

// Lists what a plan keeps of two nodes whose digits agree above both.
#[cycle(meet)]
fn meet_nodes<P: Space, S: RowSink<P>, V: Ledger>(
    plan: &Plan,
    a: NodeRefOf<'_, NodeOf<P>>,
    x: &PartOf<'_, NodeOf<P>>,
    b: NodeRefOf<'_, NodeOf<P>>,
    y: &PartOf<'_, NodeOf<P>>,
    rows: &mut S,
    visits: &mut Steps<V>,
)
    requires dims { P.D ≤ 16 }
    requires left { IsLawfulPart plan.now.width P.D (with_node x.now a) }
    requires right { IsLawfulPart plan.now.width P.D (with_node y.now b) }
    requires low { part_what x.now ≡ held_node (shown a) }
    requires high { part_what y.now ≡ held_node (shown b) }
    requires agree { IsPartingOf P.D (with_node x.now a) (with_node y.now b) None }
    ensures rows { S.adds rows.old rows.new (kept_parts plan.now P.D (with_node x.now a.entry) (with_node y.now b.entry)) }
    ensures visits { visits.new ≡ visits.old + work_parts plan.now P.D (with_node x.now a.entry) (with_node y.now b.entry) }
{
    if a.level() > b.level() {
        return over::<P, S, V>(plan, true, a, x, y, rows, visits);
    }
    if a.level() < b.level() {
        return over::<P, S, V>(plan, false, b, y, x, rows, visits);
    }
    let left = SideOf {
        node: a,
        digits: &x.digits,
    };
    let right = SideOf {
        node: b,
        digits: &y.digits,
    };
    side_by_side::<P, S, V>(plan, &left, &right, rows, visits)
}

// Lists what a plan keeps of a node and a lower part that lies at one address in it. The node is of the left tree or of the right one.
#[cycle(meet)]
fn over<P: Space, S: RowSink<P>, V: Ledger>(
    plan: &Plan,
    left: bool,
    a: NodeRefOf<'_, NodeOf<P>>,
    x: &PartOf<'_, NodeOf<P>>,
    y: &PartOf<'_, NodeOf<P>>,
    rows: &mut S,
    visits: &mut Steps<V>,
)
    requires dims { P.D ≤ 16 }
    requires whole { IsLawfulPart plan.now.width P.D (with_node x.now a) }
    requires part { IsLawfulPart plan.now.width P.D y.now }
    requires lower { height (part_what y.now) ≤ (shown a).level }
    requires agree { digits_from ((shown a).level + 1) (part_digits P.D y.now) ≡ digits_from ((shown a).level + 1) (part_digits P.D x.now) }
    ensures rows { S.adds rows.old rows.new (kept_parts_by plan.now left P.D (with_node x.now a.entry) y.now) }
    ensures visits { visits.new ≡ visits.old + work_parts_by plan.now left P.D (with_node x.now a.entry) y.now }
{
    // A use that makes the range of the width known.
    let _bits = plan.width.bits();
    let dims = P::D;
    let end = a.len();
    let side = SideOf {
        node: a,
        digits: &x.digits,
    };
    match a.search(body_address(a.level(), &y.digits[..dims])) {
        Ok(spot) => {
            list_stretch_if::<P, S, V>(plan, left, &side, 0, spot.place, rows, visits);
            let part = part_at(a, &x.digits, spot, visits);
            meet_either::<P, S, V>(plan, left, &part, y, rows, visits);
            let behind = spot.place + 1;
            list_stretch_if::<P, S, V>(plan, left, &side, behind, end, rows, visits)
        }
        Err(place) => {
            list_stretch_if::<P, S, V>(plan, left, &side, 0, place, rows, visits);
            list_part_if::<P, S, V>(plan, !left, y, rows, visits);
            list_stretch_if::<P, S, V>(plan, left, &side, place, end, rows, visits)
        }
    }
}

// Lists what a plan keeps of two parts, of which the first is of the left tree or of the right one.
#[cycle(meet)]
fn meet_either<P: Space, S: RowSink<P>, V: Ledger>(
    plan: &Plan,
    left: bool,
    x: &PartOf<'_, NodeOf<P>>,
    y: &PartOf<'_, NodeOf<P>>,
    rows: &mut S,
    visits: &mut Steps<V>,
)
    requires dims { P.D ≤ 16 }
    requires first { IsLawfulPart plan.now.width P.D x.now }
    requires second { IsLawfulPart plan.now.width P.D y.now }
    ensures rows { S.adds rows.old rows.new (kept_parts_by plan.now left P.D x.now y.now) }
    ensures visits { visits.new ≡ visits.old + work_parts_by plan.now left P.D x.now y.now }
{
    if left {
        meet::<P, S, V>(plan, x, y, rows, visits)
    } else {
        meet::<P, S, V>(plan, y, x, rows, visits)
    }
}

// Lists what a plan keeps of two nodes at one level whose digits agree above it.
//
// Entries at whose addresses the other node has none are passed in one step, so there are at most two steps for each entry of the
// node that has fewer, and one.
#[cycle(meet)]
fn side_by_side<P: Space, S: RowSink<P>, V: Ledger>(
    plan: &Plan,
    a: &SideOf<'_, NodeOf<P>>,
    b: &SideOf<'_, NodeOf<P>>,
    rows: &mut S,
    visits: &mut Steps<V>,
)
    requires dims { P.D ≤ 16 }
    requires sides { AreBeside plan.now.width P.D a.now b.now }
    ensures rows { S.adds rows.old rows.new (kept_from plan.now P.D a.now 0 b.now 0) }
    ensures visits { visits.new ≡ visits.old + work_from plan.now P.D a.now 0 b.now 0 }
{
    let lefts = a.node.len();
    let rights = b.node.len();
    let mut i = 0;
    let mut j = 0;
    while i < lefts && j < rights {
        let (next, other) = pair_at::<P, S, V>(plan, a, i, b, j, rows, visits);
        i = next;
        j = other;
    }
    list_stretch_if::<P, S, V>(plan, true, a, i, lefts, rows, visits);
    list_stretch_if::<P, S, V>(plan, false, b, j, rights, rows, visits)
}

// Lists what a plan keeps of two entries of such nodes, or of the entries of one of them up to the address of the other one's. The
// answer is the places behind what is passed.
#[cycle(meet)]
fn pair_at<P: Space, S: RowSink<P>, V: Ledger>(
    plan: &Plan,
    a: &SideOf<'_, NodeOf<P>>,
    i: usize,
    b: &SideOf<'_, NodeOf<P>>,
    j: usize,
    rows: &mut S,
    visits: &mut Steps<V>,
) -> (usize, usize)
    requires dims { P.D ≤ 16 }
    requires sides { AreBeside plan.now.width P.D a.now b.now }
    requires first { i < length (side_entries a.now) }
    requires second { j < length (side_entries b.now) }
    ensures rows { AreTaken S.adds rows.old rows.new (kept_from plan.now P.D a.now i b.now j) (kept_from plan.now P.D a.now result.0 b.now result.1) }
    ensures visits { visits.new + work_from plan.now P.D a.now result.0 b.now result.1 ≡ visits.old + work_from plan.now P.D a.now i b.now j }
    ensures ahead { (i ≤ result.0) × (j ≤ result.1) × (i + j < result.0 + result.1) }
    ensures inside { (result.0 ≤ length (side_entries a.now)) × (result.1 ≤ length (side_entries b.now)) }
{
    // Uses that make known the range of the width, and how many entries there are at most.
    let _bits = plan.width.bits();
    let _lefts = a.node.len();
    let _rights = b.node.len();
    let left = a.node.spot(i);
    let right = b.node.spot(j);
    if left.addr < right.addr {
        let next = pass::<P, S, V>(plan, true, a, i, b, j, rows, visits);
        return (next, j);
    }
    if right.addr < left.addr {
        let next = pass::<P, S, V>(plan, false, b, j, a, i, rows, visits);
        return (i, next);
    }
    let x = part_at(a.node, a.digits, left, visits);
    let y = part_at(b.node, b.digits, right, visits);
    meet::<P, S, V>(plan, &x, &y, rows, visits);
    (i + 1, j + 1)
}

// Lists what a plan keeps of the entries of one of two such nodes from a place on, up to the address of an entry of the other. The node is of
// the left tree or of the right one. The answer is the place behind what is passed.
fn pass<P: Space, S: RowSink<P>, V: Ledger>(
    plan: &Plan,
    left: bool,
    a: &SideOf<'_, NodeOf<P>>,
    i: usize,
    b: &SideOf<'_, NodeOf<P>>,
    j: usize,
    rows: &mut S,
    visits: &mut Steps<V>,
) -> usize
    requires dims { P.D ≤ 16 }
    requires sides { AreBeside plan.now.width P.D a.now b.now }
    requires first { i < length (side_entries a.now) }
    requires second { j < length (side_entries b.now) }
    requires less { addr_at (side_entries a.now) i < addr_at (side_entries b.now) j }
    ensures rows { AreTaken S.adds rows.old rows.new
        (kept_from_by plan.now left P.D a.now i b.now j) (kept_from_by plan.now left P.D a.now result b.now j) }
    ensures visits { visits.new + work_from_by plan.now left P.D a.now result b.now j ≡ visits.old + work_from_by plan.now left P.D a.now i b.now j }
    ensures ahead { i < result }
    ensures inside { result ≤ length (side_entries a.now) }
{
    let next = place_from(a.node, b.node.spot(j).addr);
    list_stretch_if::<P, S, V>(plan, left, a, i, next, rows, visits);
    next
}

// The greatest place at which the digits of two parts differ, where it is known of both. None where they are the same from where
// both are known on.
fn parting<P: Dims>(x: &PartOf<'_, NodeOf<P>>, y: &PartOf<'_, NodeOf<P>>) -> Option<u32>
    requires dims { P.D ≤ 16 }
    ensures { IsPartingOf P.D x.now y.now result }
{
    let dims = P::D;
    let Some(place) = top_difference(&x.digits[..dims], &y.digits[..dims]) else {
        return None;
    };
    if place < height_of(x.held) {
        return None;
    }
    if place < height_of(y.held) {
        return None;
    }
    Some(place)
}

// From which place on the digits of a part are known.
fn height_of<P: Dims>(held: HeldOf<'_, NodeOf<P>>) -> u32
    ensures { result ≡ height (held_what held.entry) }
{
    match held {
        HeldOf::Value(_) => 0,
        HeldOf::Node(node) => node.level() + 1,
    }
}

// Lists what a plan keeps of two parts that no point has in common.
fn list_apart<P: Space, S: RowSink<P>, V: Ledger>(
    plan: &Plan,
    x: &PartOf<'_, NodeOf<P>>,
    y: &PartOf<'_, NodeOf<P>>,
    place: u32,
    rows: &mut S,
    visits: &mut Steps<V>,
)
    requires dims { P.D ≤ 16 }
    requires left { IsLawfulPart plan.now.width P.D x.now }
    requires right { IsLawfulPart plan.now.width P.D y.now }
    requires apart { IsPartingOf P.D x.now y.now (Some place) }
    ensures rows { S.adds rows.old rows.new (kept_parts plan.now P.D x.now y.now) }
    ensures visits { visits.new ≡ visits.old + work_parts plan.now P.D x.now y.now }
{
    let dims = P::D;
    let first = body_address(place, &x.digits[..dims]);
    let second = body_address(place, &y.digits[..dims]);
    if first < second {
        list_in_order::<P, S, V>(plan, true, x, y, rows, visits)
    } else {
        list_in_order::<P, S, V>(plan, false, y, x, rows, visits)
    }
}

// Lists what a plan keeps of two parts, where each point of the first comes before each of the second. The first is of the left tree or of
// the right one.
fn list_in_order<P: Space, S: RowSink<P>, V: Ledger>(
    plan: &Plan,
    left: bool,
    x: &PartOf<'_, NodeOf<P>>,
    y: &PartOf<'_, NodeOf<P>>,
    rows: &mut S,
    visits: &mut Steps<V>,
)
    requires dims { P.D ≤ 16 }
    requires first { IsLawfulPart plan.now.width P.D x.now }
    requires second { IsLawfulPart plan.now.width P.D y.now }
    requires order { AreParted plan.now.width (rows_held plan.now.width P.D x.now) (rows_held plan.now.width P.D y.now) }
    ensures rows { S.adds rows.old rows.new (kept_parts_by plan.now left P.D x.now y.now) }
    ensures visits { visits.new ≡ visits.old + apart_parts_by plan.now left P.D x.now y.now }
{
    list_part_if::<P, S, V>(plan, left, x, rows, visits);
    list_part_if::<P, S, V>(plan, !left, y, rows, visits)
}

// Lists the row of the left tree at a point of both, if it is kept.
fn list_both<P: Space, S: RowSink<P>>(
    plan: &Plan,
    x: &PartOf<'_, NodeOf<P>>,
    value: u64,
    rows: &mut S,
)
    requires dims { P.D ≤ 16 }
    requires left { IsLawfulPart plan.now.width P.D (with_value x.now value) }
    ensures { S.adds rows.old rows.new (chosen plan.now.both (rows_held plan.now.width P.D (with_value x.now value))) }
{
    if plan.both {
        rows.take(P::with_offsets(plan.width, &x.digits, value));
    }
}
