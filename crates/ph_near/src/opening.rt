//! Opening nodes: their rows are found, and their children wait from then on.

ghost use Rattle.std.specs.Prelude.{◌≡◌, ℕ, ◌+◌, ◌<◌, ◌≤◌, [], ◌∷◌, ◌++◌, length, map, true, false, vec_capacity, IfOk, OnOk, IfSome, IfNone};
ghost use Rattle.std.specs.BinaryHeap.{heap_items};
ghost use Rattle.ph_specs.specs.TableNames.{coordinate};
ghost use Rattle.ph_model.specs.ModelNames.{what_at, IsBody, entries};
ghost use Rattle.ph_node.specs.Kinds.{is_node};
ghost use Rattle.ph_node.specs.Shown.{shown};
ghost use Rattle.ph_node.specs.Spots.{IsSpot};
ghost use Rattle.ph_near.specs.Far.{corner_of, gaps_above};
ghost use Rattle.ph_near.specs.Nearing.{IsKept};
ghost use Rattle.ph_near.specs.Opening.{IsOpened, IsNewest, IsEntered, opened_items, place_item, line_of, AreWaiting, IsTried, IsTreated, AreTreated};
ghost use Rattle.ph_near.specs.Scanning.{AreBeyond, IsNear};
ghost use Rattle.ph_near.specs.Ranking.{IsRanking};

use crate::beyond::is_point_beyond;
use crate::corners::Corners;
use crate::distances::Distances;
use crate::found::Found;
use crate::halves::Halves;
use crate::ranking::Ranking;
use crate::tables::Tables;
use crate::waiting::{Queue, Waiting};
use ph_coord::Width;
use ph_node::{NoMemory, Node, NodeRef, NodeRefOf, Spot, WhatOf};
use ph_steps::Steps;
use ph_zorder::offset_distance;
use std::alloc::Global;
use std::sync::ledger::Ledger;

// In up to so many dimensions each sum is made of the halves as fast as tables of them are made and read.
const DIRECT_DIMS: usize = 4;

// In more dimensions the sums of up to so many entries are made anew as fast as halves are told, and tables made of them.
const FEW_ENTRIES: usize = 5;

// In up to so many dimensions a row is told as fast as it is tried.
const FEW_DIMS: usize = 3;

// Room for so many opened nodes is taken at once.
const FEW_NODES: usize = 32;

// A visited node, and the digits that are known above its level.
#[derive_where(Clone, Copy)]
pub(crate) struct OpenedOf<'t, N, const D: usize> {
    pub node: NodeRefOf<'t, N>,
    pub known: [u64; D],
}

pub(crate) type Opened<'t, const D: usize> = OpenedOf<'t, Node<D>, D>;

// An entry that may be near enough, and the square of the least distance that its address tells.
#[derive(Clone, Copy)]
struct Near {
    pub spot: Spot,
    pub distance: u128,
}

// No node is opened yet.
pub(crate) fn none_opened<'t, const D: usize>(alloc: Global) -> Result<Vec<Opened<'t, D>>, NoMemory>
    ensures items { IfOk result (λ opened. opened.items ≡ []) }
    ensures room { IfOk result (λ opened. vec_capacity opened ≡ FEW_NODES) }
{
    Vec::with_capacity(alloc, FEW_NODES)
}

// Visits the child at a place of an opened node, and joins its digits.
#[inline(always)]
pub(crate) fn enter<'t, const D: usize, V: Ledger>(
    w: Width,
    from: &Opened<'t, D>,
    place: usize,
    visits: &mut Steps<V>,
) -> Opened<'t, D>
    requires few { D ≤ 16 }
    requires opened { IsOpened w D from.now }
    requires place { place < length (entries (shown from.now.node)) }
    requires child { is_node (what_at (entries (shown from.now.node)) place) ≡ true }
    ensures opened { IsOpened w D result }
    ensures entered { IsEntered w from.now place result }
    ensures cost { visits.new ≡ visits.old + 1 }
{
    let _bits = w.bits();
    let spot = from.node.spot(place);
    let mut known = from.known;
    match from.node.what(spot) {
        WhatOf::Child(child) => {
            let node = child.visit(visits);
            from.node.join_child(spot, node.level(), &mut known);
            Opened { node, known }
        }
        WhatOf::Value(_) => unreachable!(),
    }
}

// Opens a visited node: of its entries that may be near enough, the rows are ranked and the children wait.
pub(crate) fn open<'t, const D: usize>(
    from: &Opened<'t, D>,
    opened: &mut Vec<Opened<'t, D>>,
    w: Width,
    center: &[u64; D],
    ranking: &mut Ranking<D>,
    queue: &mut Queue,
) -> Result<(), NoMemory>
    requires some { 1 ≤ D }
    requires few { D ≤ 16 }
    requires opened { IsOpened w D from.now }
    requires point { IsBody D w center.now }
    requires ranking { IsRanking ranking.old }
    requires waits { AreWaiting w (map (coordinate w) center.now) opened.old.items queue.old }
    ensures n { ranking.new.n ≡ ranking.old.n }
    ensures ranking { OnOk result (IsRanking ranking.new) }
    ensures opened { OnOk result (opened.new.items ≡ opened.old.items ++ from.now ∷ []) }
    ensures waits { OnOk result (AreWaiting w (map (coordinate w) center.now) opened.new.items queue.new) }
    ensures kept { OnOk result
        (IsKept w ranking.old.n (map (coordinate w) center.now)
        (heap_items ranking.old.rows) (opened_items w from.now ++ line_of w opened.old.items queue.old)
        (heap_items ranking.new.rows) (line_of w opened.new.items queue.new)) }
{
    let _bits = w.bits();
    keep(from.node, from.known, opened)?;
    treat_all(opened.as_slice(), from, w, center, ranking, queue)
}

// Treats the entries of the node that was opened last. How far their parts of its region are is told in the form that is the cheapest there.
#[inline(always)]
fn treat_all<'t, const D: usize>(
    opened: &[Opened<'t, D>],
    from: &Opened<'t, D>,
    w: Width,
    center: &[u64; D],
    ranking: &mut Ranking<D>,
    queue: &mut Queue,
) -> Result<(), NoMemory>
    requires some { 1 ≤ D }
    requires few { D ≤ 16 }
    requires opened { IsOpened w D from.now }
    requires last { IsNewest opened.now from.now }
    requires point { IsBody D w center.now }
    requires ranking { IsRanking ranking.old }
    requires waits { AreWaiting w (map (coordinate w) center.now) opened.now queue.old }
    ensures n { ranking.new.n ≡ ranking.old.n }
    ensures ranking { OnOk result (IsRanking ranking.new) }
    ensures treated { OnOk result
        (AreTreated w ranking.old.n (map (coordinate w) center.now) opened.now from.now
        (heap_items ranking.old.rows) (heap_items ranking.new.rows) queue.old queue.new) }
{
    let _bits = w.bits();
    let level = from.node.level();
    if D > DIRECT_DIMS && from.node.len() <= FEW_ENTRIES {
        let corners = Corners::new(level, &from.known, center);
        return treat_by(opened, from, &corners, w, center, ranking, queue);
    }
    let halves = Halves::new(level, &from.known, center);
    if D <= DIRECT_DIMS {
        return treat_by(opened, from, &halves, w, center, ranking, queue);
    }
    treat_by(
        opened,
        from,
        &Tables::new(&halves),
        w,
        center,
        ranking,
        queue,
    )
}

// The same by what tells how far the parts are.
#[inline(always)]
fn treat_by<'t, const D: usize, S: Distances<D>>(
    opened: &[Opened<'t, D>],
    from: &Opened<'t, D>,
    sums: &S,
    w: Width,
    center: &[u64; D],
    ranking: &mut Ranking<D>,
    queue: &mut Queue,
) -> Result<(), NoMemory>
    requires few { D ≤ 16 }
    requires opened { IsOpened w D from.now }
    requires last { IsNewest opened.now from.now }
    requires sound { S.IsSound sums.now }
    requires told { (addr : ℕ) → S.told sums.now addr ≡ gaps_above (shown from.now.node).level (corner_of (shown from.now.node).level addr from.now.known) center.now }
    requires point { IsBody D w center.now }
    requires ranking { IsRanking ranking.old }
    requires waits { AreWaiting w (map (coordinate w) center.now) opened.now queue.old }
    ensures n { ranking.new.n ≡ ranking.old.n }
    ensures ranking { OnOk result (IsRanking ranking.new) }
    ensures treated { OnOk result
        (AreTreated w ranking.old.n (map (coordinate w) center.now) opened.now from.now
        (heap_items ranking.old.rows) (heap_items ranking.new.rows) queue.old queue.new) }
{
    // Uses that make the range of the width and the number of entries known.
    let (_bits, _count) = (w.bits(), from.node.len());
    let at = opened.len() - 1;
    let mut place = 0;
    while let Some(near) = next_near(from, sums, place, ranking.limit()) {
        treat(at, from, near, w, center, ranking, queue)?;
        place = near.spot.place + 1;
    }
    Ok(())
}

// Keeps a node among those that were opened.
fn keep<'t, const D: usize>(
    node: NodeRef<'t, D>,
    known: [u64; D],
    opened: &mut Vec<Opened<'t, D>>,
) -> Result<(), NoMemory>
    requires few { D ≤ 16 }
    ensures { OnOk result (opened.new.items ≡ opened.old.items ++ record { node = node.entry; known = known.entry } ∷ []) }
{
    match opened.push(Opened { node, known }) {
        Ok(()) => Ok(()),
        Err(_) => Err(NoMemory),
    }
}

// An entry at or behind a place, before which none is within a limit. It is within it itself, but in few dimensions, where entries are
// taken one after the other.
#[inline(always)]
fn next_near<'t, const D: usize, S: Distances<D>>(
    from: &Opened<'t, D>,
    sums: &S,
    place: usize,
    limit: u128,
) -> Option<Near>
    requires sound { S.IsSound sums.now }
    ensures near { IfSome result (λ near. IsNear (S.told sums.now) (entries (shown from.now.node)) limit place near) }
    ensures none { IfNone result (AreBeyond (S.told sums.now) (entries (shown from.now.node)) limit place (length (entries (shown from.now.node)))) }
{
    if D <= DIRECT_DIMS {
        return near_at(from, sums, place);
    }
    first_near(from, sums, place, limit)
}

// The entry at a place.
#[inline(always)]
fn near_at<'t, const D: usize, S: Distances<D>>(
    from: &Opened<'t, D>,
    sums: &S,
    place: usize,
) -> Option<Near>
    requires sound { S.IsSound sums.now }
    ensures near { (limit : ℕ) → IfSome result (λ near. IsNear (S.told sums.now) (entries (shown from.now.node)) limit place near) }
    ensures none { (limit : ℕ) → IfNone result (AreBeyond (S.told sums.now) (entries (shown from.now.node)) limit place (length (entries (shown from.now.node)))) }
{
    if place >= from.node.len() {
        return None;
    }
    let spot = from.node.spot(place);
    let distance = sums.least(spot.addr);
    Some(Near { spot, distance })
}

// The first entry at or behind a place that is within a limit. Most entries of a large node are beyond it: the loop writes nothing.
#[inline(always)]
fn first_near<'t, const D: usize, S: Distances<D>>(
    from: &Opened<'t, D>,
    sums: &S,
    place: usize,
    limit: u128,
) -> Option<Near>
    requires sound { S.IsSound sums.now }
    ensures near { IfSome result (λ near. IsNear (S.told sums.now) (entries (shown from.now.node)) limit place near) }
    ensures within { IfSome result (λ near. near.distance ≤ limit) }
    ensures none { IfNone result (AreBeyond (S.told sums.now) (entries (shown from.now.node)) limit place (length (entries (shown from.now.node)))) }
{
    for i in place..from.node.len() {
        let spot = from.node.spot(i);
        let distance = sums.least(spot.addr);
        if distance <= limit {
            return Some(Near { spot, distance });
        }
    }
    None
}

// Treats an entry of a node that may be near enough. The node is the one at `at` of those that were opened.
#[inline(always)]
fn treat<'t, const D: usize>(
    at: usize,
    from: &Opened<'t, D>,
    near: Near,
    w: Width,
    center: &[u64; D],
    ranking: &mut Ranking<D>,
    queue: &mut Queue,
) -> Result<(), NoMemory>
    requires few { D ≤ 16 }
    requires opened { IsOpened w D from.now }
    requires spot { IsSpot (entries (shown from.now.node)) near.spot }
    requires told { near.distance ≡ gaps_above (shown from.now.node).level (corner_of (shown from.now.node).level near.spot.addr from.now.known) center.now }
    requires point { IsBody D w center.now }
    requires ranking { IsRanking ranking.old }
    ensures n { ranking.new.n ≡ ranking.old.n }
    ensures ranking { OnOk result (IsRanking ranking.new) }
    ensures treated { OnOk result
        (IsTreated ranking.old.n w (map (coordinate w) center.now) at from.now near.spot.place
        (heap_items ranking.old.rows) (heap_items ranking.new.rows) queue.old queue.new) }
{
    let _bits = w.bits();
    if D <= DIRECT_DIMS && near.distance > ranking.limit() {
        return Ok(());
    }
    if !from.node.is_child(near.spot) {
        return find(from, near.spot, w, center, ranking);
    }
    let child = Waiting {
        distance: near.distance,
        opened: at,
        place: near.spot.place,
    };
    queue.push(child)
}

// Ranks the row of an entry if it is near enough.
fn find<'t, const D: usize>(
    from: &Opened<'t, D>,
    spot: Spot,
    w: Width,
    center: &[u64; D],
    ranking: &mut Ranking<D>,
) -> Result<(), NoMemory>
    requires few { D ≤ 16 }
    requires opened { IsOpened w D from.now }
    requires spot { IsSpot (entries (shown from.now.node)) spot }
    requires row { is_node (what_at (entries (shown from.now.node)) spot.place) ≡ false }
    requires point { IsBody D w center.now }
    requires ranking { IsRanking ranking.old }
    ensures n { ranking.new.n ≡ ranking.old.n }
    ensures ranking { OnOk result (IsRanking ranking.new) }
    ensures tried { OnOk result
        (IsTried ranking.old.n w (map (coordinate w) center.now) (place_item w from.now spot.place)
        (heap_items ranking.old.rows) (heap_items ranking.new.rows)) }
{
    let _bits = w.bits();
    if D > FEW_DIMS && is_point_beyond(from.node, spot, &from.known, center, ranking.limit()) {
        return Ok(());
    }
    let mut known = from.known;
    from.node.join(spot, &mut known);
    match from.node.what(spot) {
        WhatOf::Value(value) => {
            let distance = offset_distance(w, &known, center);
            if distance > ranking.limit() {
                return Ok(());
            }
            ranking.add(Found {
                distance,
                known,
                value,
            })
        }
        WhatOf::Child(_) => unreachable!(),
    }
}
