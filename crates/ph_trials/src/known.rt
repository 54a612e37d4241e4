//! Trees whose nodes are known from outside.

ghost use Rattle.std.specs.Prelude.{◌≡◌, ◌<◌, ◌≤◌};
ghost use Rattle.ph_specs.specs.TableNames.{IsPoint};

use crate::claims::{holds, holds_for};
use crate::crowded::crowds;
use crate::nodes::nodes;
use ph_coord::{Point, Width};
use ph_node::{NodeRef, What};
use ph_steps::{Counters, Steps};
use ph_tree::{Moved, PhTree, Put, PutError};
use std::alloc::Global;
use std::marker::Brand;
use std::process::Abort;
use std::sync::ledger::{Blank, Ledger};

const FULL: Result<Put, PutError> = Err(PutError::Full);

#[derive(Clone, Copy)]
enum Case {
    UnitSquare,
    EachSplit,
    DeepestPath,
    DeepestPathGone,
    CrowdedCube,
    Crowds,
    Dimensions,
    FullTable,
    Moves,
    Nodes,
}

pub(crate) fn empty<const D: usize>(rt: &impl Abort, alloc: Global, max: u64) -> PhTree<D>
    requires some { 1 ≤ D }
    requires few { D ≤ 16 }
{
    let Some(width) = Width::new(32) else {
        panic!(rt; "no width");
    };
    PhTree::new(alloc, width, max)
}

fn point<const D: usize>(rt: &impl Abort, tree: &PhTree<D>, coords: &[i64]) -> Point<D>
    ensures { IsPoint tree.now.width D result }
{
    let Some(p) = Point::from_slice(tree.width(), coords) else {
        panic!(rt; "no point");
    };
    p
}

// A put that is to find this.
fn put<const D: usize, V: Ledger, C: Ledger>(
    rt: &impl Abort,
    tree: &mut PhTree<D>,
    coords: &[i64],
    v: u64,
    counters: &mut Counters<V, C>,
    found: Result<Put, PutError>,
)
    requires { D ≤ 16 }
{
    let p = point(rt, tree, coords);
    let answer = tree.put(p, v, &mut counters.visits, &mut counters.changes);
    holds_for(rt, answer == found, &v);
}

// A put of a new point.
pub(crate) fn put_new<const D: usize, V: Ledger, C: Ledger>(
    rt: &impl Abort,
    tree: &mut PhTree<D>,
    coords: &[i64],
    v: u64,
    counters: &mut Counters<V, C>,
)
    requires { D ≤ 16 }
{
    put(rt, tree, coords, v, counters, Ok(Put::New));
}

// A removal that is to find this.
pub(crate) fn del<const D: usize, V: Ledger, C: Ledger>(
    rt: &impl Abort,
    tree: &mut PhTree<D>,
    coords: &[i64],
    counters: &mut Counters<V, C>,
    found: Option<u64>,
)
    requires { D ≤ 16 }
{
    let p = point(rt, tree, coords);
    let answer = tree.del(&p, &mut counters.visits, &mut counters.changes);
    holds(rt, answer == Ok(found));
}

// A move that is to find this.
fn relocate<V: Ledger, C: Ledger>(
    rt: &impl Abort,
    tree: &mut PhTree<2>,
    from: [i64; 2],
    to: [i64; 2],
    counters: &mut Counters<V, C>,
    found: Moved,
) {
    let (p, q) = (point(rt, tree, &from), point(rt, tree, &to));
    let answer = tree.relocate(&p, &q, &mut counters.visits, &mut counters.changes);
    holds(rt, answer == Ok(found));
}

// The value at a point.
fn get<const D: usize, V: Ledger>(
    rt: &impl Abort,
    tree: &PhTree<D>,
    coords: &[i64],
    visits: &mut Steps<V>,
) -> Option<u64>
    requires { D ≤ 16 }
{
    tree.get(&point(rt, tree, coords), visits)
}

// The child of entry i, visited.
pub(crate) fn child<'t, const D: usize, V: Ledger>(
    rt: &impl Abort,
    node: NodeRef<'t, D>,
    i: usize,
    visits: &mut Steps<V>,
) -> NodeRef<'t, D> {
    assert!(rt; i < node.len());
    match node.entry(i).what {
        What::Child(child) => child.visit(visits),
        What::Value(_) => panic!(rt; "no child"),
    }
}

// Whether entry i is a point with this value, whose address is i.
fn is_point<const D: usize>(node: NodeRef<'_, D>, i: usize, v: u64) -> bool {
    if i >= node.len() {
        return false;
    }
    let entry = node.entry(i);
    match entry.what {
        What::Value(u) => u == v && entry.addr as usize == i,
        What::Child(_) => false,
    }
}

// Whether a node is at a level and has so many entries.
fn is_sized<const D: usize>(node: NodeRef<'_, D>, level: u32, len: usize) -> bool {
    (node.level(), node.len()) == (level, len)
}

pub(crate) fn root<'t, const D: usize, V: Ledger>(
    rt: &impl Abort,
    tree: &'t PhTree<D>,
    visits: &mut Steps<V>,
) -> NodeRef<'t, D> {
    let Some(root) = tree.root() else {
        panic!(rt; "no root");
    };
    root.visit(visits)
}

// Puts corner 0 to 3 of the unit square, with its number as the value.
fn put_corner<V: Ledger, C: Ledger>(
    rt: &impl Abort,
    tree: &mut PhTree<2>,
    corner: u64,
    counters: &mut Counters<V, C>,
) {
    put_new(rt, tree, &corner_point(corner), corner, counters);
}

fn corner_point(corner: u64) -> [i64; 2] {
    [(corner >> 1 & 1) as i64, (corner & 1) as i64]
}

fn unit_square<V: Ledger, C: Ledger>(
    rt: &impl Abort,
    alloc: Global,
    counters: &mut Counters<V, C>,
) {
    for order in 0..64u64 {
        let (a, b, c) = (order >> 4, order >> 2 & 3, order & 3);
        if a == b || b == c || a == c {
            continue;
        }
        let mut tree: PhTree<2> = empty(rt, alloc, 4);
        for corner in [a, b, c, 6u64.saturating_sub(a + b + c)] {
            put_corner(rt, &mut tree, corner, counters);
        }
        let top = root(rt, &tree, &mut counters.visits);
        holds_for(rt, is_sized(top, 31, 1), &order);
        let square = child(rt, top, 0, &mut counters.visits);
        holds_for(rt, is_sized(square, 0, 4), &order);
        for i in 0..4 {
            holds_for(rt, is_point(square, i, i as u64), &order);
        }
    }
}

fn each_split<V: Ledger, C: Ledger>(rt: &impl Abort, alloc: Global, counters: &mut Counters<V, C>) {
    for place in 0..31u32 {
        let mut tree: PhTree<2> = empty(rt, alloc, 2);
        put_new(rt, &mut tree, &[0, 0], 0, counters);
        let beside = [0, (1u64 << place) as i64];
        put_new(rt, &mut tree, &beside, 1, counters);
        let top = root(rt, &tree, &mut counters.visits);
        let split = child(rt, top, 0, &mut counters.visits);
        holds_for(rt, is_sized(split, place, 2), &place);
        holds_for(rt, is_point(split, 0, 0) && is_point(split, 1, 1), &place);
    }
}

// Each power of two in one dimension: each place has a node.
fn deepest_path<V: Ledger, C: Ledger>(
    rt: &impl Abort,
    alloc: Global,
    counters: &mut Counters<V, C>,
) {
    let mut tree: PhTree<1> = empty(rt, alloc, 32);
    put_new(rt, &mut tree, &[0], 0, counters);
    for place in 0..31u32 {
        let power = 1u64 << place;
        put_new(rt, &mut tree, &[power as i64], power, counters);
    }
    let mut node = root(rt, &tree, &mut counters.visits);
    for place in (0..31u32).rev() {
        node = child(rt, node, 0, &mut counters.visits);
        holds_for(rt, is_sized(node, place, 2), &place);
        holds_for(rt, is_point(node, 1, 1u64 << place), &place);
    }
    holds(rt, is_point(node, 0, 0));
    holds(rt, tree.len() == 32);
}

// Takes the powers of two out from the root's child down, and then zero.
fn deepest_path_gone<V: Ledger, C: Ledger>(
    rt: &impl Abort,
    alloc: Global,
    counters: &mut Counters<V, C>,
) {
    let mut tree: PhTree<1> = empty(rt, alloc, 32);
    put_new(rt, &mut tree, &[0], 7, counters);
    for place in 0..31u32 {
        let power = [(1u64 << place) as i64];
        put_new(rt, &mut tree, &power, 9, counters);
    }
    for place in (1..31u32).rev() {
        let power = [(1u64 << place) as i64];
        del(rt, &mut tree, &power, counters, Some(9));
        let top = child(
            rt,
            root(rt, &tree, &mut counters.visits),
            0,
            &mut counters.visits,
        );
        holds_for(rt, is_sized(top, place - 1, 2), &place);
    }
    del(rt, &mut tree, &[1], counters, Some(9));
    holds(rt, root(rt, &tree, &mut counters.visits).len() == 1);
    del(rt, &mut tree, &[0], counters, Some(7));
    holds(rt, tree.root().is_none());
}

// The corners of the unit cube of eight dimensions, in a mixed order: one node has them all.
fn crowded_cube<V: Ledger, C: Ledger>(
    rt: &impl Abort,
    alloc: Global,
    counters: &mut Counters<V, C>,
) {
    let mut tree: PhTree<8> = empty(rt, alloc, 256);
    for k in 0..256u64 {
        let corner = k * 37 % 256;
        let mut coords = [0; 8];
        for (i, coord) in coords.iter_mut().enumerate() {
            *coord = (corner >> (7 - i) & 1) as i64;
        }
        put_new(rt, &mut tree, &coords, corner, counters);
    }
    let cube = child(
        rt,
        root(rt, &tree, &mut counters.visits),
        0,
        &mut counters.visits,
    );
    holds(rt, is_sized(cube, 0, 256));
    for i in 0..256 {
        holds_for(rt, is_point(cube, i, i as u64), &i);
    }
}

// Values at the points with one coordinate of -1, replaced and looked up.
fn dimensions<const D: usize, V: Ledger, C: Ledger>(
    rt: &impl Abort,
    alloc: Global,
    counters: &mut Counters<V, C>,
)
    requires some { 1 ≤ D }
    requires few { D ≤ 16 }
{
    let mut tree: PhTree<D> = empty(rt, alloc, 16);
    for pass in 0..2u64 {
        for i in 0..D {
            let mut coords = [0; D];
            coords[i] = -1;
            let v = pass * 100 + i as u64;
            let found = if pass == 0 {
                Put::New
            } else {
                Put::Old(i as u64)
            };
            put(rt, &mut tree, &coords, v, counters, Ok(found));
            holds(rt, get(rt, &tree, &coords, &mut counters.visits) == Some(v));
        }
    }
    holds(rt, get(rt, &tree, &[0; D], &mut counters.visits).is_none());
    tree.clear();
    holds(rt, (tree.len(), tree.max()) == (0, 16));
}

fn full_table<V: Ledger, C: Ledger>(rt: &impl Abort, alloc: Global, counters: &mut Counters<V, C>) {
    let mut tree: PhTree<2> = empty(rt, alloc, 1);
    put_new(rt, &mut tree, &[0, 0], 1, counters);
    put(rt, &mut tree, &[1, 1], 2, counters, FULL);
    put(rt, &mut tree, &[0, 0], 3, counters, Ok(Put::Old(1)));
    holds(rt, tree.len() == 1);
    let mut none: PhTree<2> = empty(rt, alloc, 0);
    put(rt, &mut none, &[0, 0], 1, counters, FULL);
}

// Moves in a full tree, and the rows that are left.
fn moves<V: Ledger, C: Ledger>(rt: &impl Abort, alloc: Global, counters: &mut Counters<V, C>) {
    let mut tree: PhTree<2> = empty(rt, alloc, 2);
    put_new(rt, &mut tree, &[0, 0], 5, counters);
    put_new(rt, &mut tree, &[0, 1], 6, counters);
    for (from, to, found) in [
        ([1, 1], [0, 0], Moved::Absent),
        ([1, 1], [1, 1], Moved::Absent),
        ([0, 0], [0, 1], Moved::Taken),
        ([0, 0], [0, 0], Moved::Done),
        ([0, 0], [1, 1], Moved::Done),
        ([0, 0], [1, 1], Moved::Absent),
    ] {
        relocate(rt, &mut tree, from, to, counters, found);
    }
    for (coords, found) in [([0, 0], None), ([0, 1], Some(6)), ([1, 1], Some(5))] {
        holds(rt, get(rt, &tree, &coords, &mut counters.visits) == found);
    }
}

fn outcome<V: Ledger, C: Ledger>(
    rt: &impl Abort,
    alloc: Global,
    case: Case,
    visits: Blank,
    changes: Blank,
)
    requires visits { (visits.name ≡ V.name) × (visits.parts ≡ V.parts) × (0 < visits.parts) }
    requires changes { (changes.name ≡ C.name) × (changes.parts ≡ C.parts) × (0 < changes.parts) }
{
    let mut counters: Counters<V, C> = Counters::new(visits, changes);
    match case {
        Case::UnitSquare => unit_square(rt, alloc, &mut counters),
        Case::EachSplit => each_split(rt, alloc, &mut counters),
        Case::DeepestPath => deepest_path(rt, alloc, &mut counters),
        Case::DeepestPathGone => deepest_path_gone(rt, alloc, &mut counters),
        Case::CrowdedCube => crowded_cube(rt, alloc, &mut counters),
        Case::Crowds => crowds(rt, alloc, &mut counters),
        Case::Dimensions => {
            dimensions::<1, V, C>(rt, alloc, &mut counters);
            dimensions::<2, V, C>(rt, alloc, &mut counters);
            dimensions::<3, V, C>(rt, alloc, &mut counters);
            dimensions::<8, V, C>(rt, alloc, &mut counters);
            dimensions::<16, V, C>(rt, alloc, &mut counters);
        }
        Case::FullTable => full_table(rt, alloc, &mut counters),
        Case::Moves => moves(rt, alloc, &mut counters),
        Case::Nodes => nodes(rt, alloc, &mut counters.visits),
    }
}

fn check(rt: &impl Abort, alloc: Global, case: Case) {
    outcome::<Brand, Brand>(rt, alloc, case, Blank::new(1), Blank::new(1));
}

#[test]
fn unit_square_in_any_order(rt: HostRuntime) {
    check(&rt, rt.alloc(), Case::UnitSquare);
}

#[test]
fn split_at_each_place(rt: HostRuntime) {
    check(&rt, rt.alloc(), Case::EachSplit);
}

#[test]
fn the_deepest_path(rt: HostRuntime) {
    check(&rt, rt.alloc(), Case::DeepestPath);
}

#[test]
fn the_deepest_path_gone(rt: HostRuntime) {
    check(&rt, rt.alloc(), Case::DeepestPathGone);
}

#[test]
fn the_crowded_cube(rt: HostRuntime) {
    check(&rt, rt.alloc(), Case::CrowdedCube);
}

#[test]
fn one_to_sixteen_dimensions(rt: HostRuntime) {
    check(&rt, rt.alloc(), Case::Dimensions);
}

#[test]
fn the_full_table(rt: HostRuntime) {
    check(&rt, rt.alloc(), Case::FullTable);
}

#[test]
fn moves_in_a_full_tree(rt: HostRuntime) {
    check(&rt, rt.alloc(), Case::Moves);
}

#[test]
fn crowded_nodes(rt: HostRuntime) {
    check(&rt, rt.alloc(), Case::Crowds);
}

#[test]
fn nodes_edit_by_edit(rt: HostRuntime) {
    check(&rt, rt.alloc(), Case::Nodes);
}
