//! A node through its edits, with entries and words that are known from outside.

use crate::claims::{holds, holds_for};
use ph_node::{Node, NodeOf, NodeRef, Spot, What};
use ph_steps::Steps;
use std::alloc::Global;
use std::process::Abort;
use std::sync::ledger::Ledger;

const OLD: [u64; 16] = [9, 3, 0, 0, 0, 0, 0, 0, 0, 0, 0, 0, 0, 0, 0, 0];

const BESIDE: [u64; 16] = [4, 30, 0, 0, 0, 0, 0, 0, 0, 0, 0, 0, 0, 0, 0, 0];

const NEAR: [u64; 16] = [1, 3, 0, 0, 0, 0, 0, 0, 0, 0, 0, 0, 0, 0, 0, 0];

const ONES: [u64; 16] = [1, 1, 0, 0, 0, 0, 0, 0, 0, 0, 0, 0, 0, 0, 0, 0];

const FAR: [u64; 16] = [17, 3, 0, 0, 0, 0, 0, 0, 0, 0, 0, 0, 0, 0, 0, 0];

const FIRST: Spot = Spot { place: 0, addr: 1 };

const SECOND: Spot = Spot { place: 1, addr: 2 };

// An address, two fields, and a value or none for a child.
type Seen = (u32, u64, u64, Option<u64>);

fn is_entry(node: NodeRef<'_, 2>, i: usize, want: &Seen) -> bool {
    if i >= node.len() {
        return false;
    }
    let entry = node.entry(i);
    let value = match entry.what {
        What::Value(v) => Some(v),
        What::Child(_) => None,
    };
    (entry.addr, entry.body[0], entry.body[1], value) == *want
}

// Whether a node is at a level and has these entries.
fn is_node(node: NodeRef<'_, 2>, level: u32, wanted: &[Seen]) -> bool {
    if (node.level(), node.len()) != (level, wanted.len()) {
        return false;
    }
    for (i, want) in wanted.iter().enumerate() {
        if !is_entry(node, i, want) {
            return false;
        }
    }
    true
}

// Visits the child at a place.
fn visit_child<'t, L: Ledger>(
    rt: &impl Abort,
    node: NodeRef<'t, 2>,
    i: usize,
    steps: &mut Steps<L>,
) -> NodeRef<'t, 2> {
    if i < node.len() {
        if let What::Child(child) = node.entry(i).what {
            return child.visit(steps);
        }
    }
    panic!(rt; "no child")
}

// What a node with entries at the addresses 1 and 2 finds.
fn check_finds(rt: &impl Abort, node: NodeRef<'_, 2>) {
    for (addr, found, next) in [
        (0, None, Some(0)),
        (1, Some(0), Some(0)),
        (2, Some(1), Some(1)),
        (3, None, None),
    ] {
        holds_for(rt, node.find(addr) == found, &addr);
        holds_for(rt, node.next_at_or_after(addr) == next, &addr);
    }
}

fn outcome<L: Ledger>(rt: &impl Abort, alloc: Global, steps: &mut Steps<L>) {
    let mut node: Node<2> = NodeOf::single(alloc, 5, 2, OLD, 70, steps).expect(rt, "memory");
    node.add(0, 1, BESIDE, 71, steps).expect(rt, "memory");
    node.set_value(FIRST, 72, steps);
    node.split(SECOND, &NEAR, 73, steps).expect(rt, "memory");
    node.split(SECOND, &FAR, 74, steps).expect(rt, "memory");
    let root = node.visit(steps);
    holds(
        rt,
        is_node(root, 5, &[(1, 4, 30, Some(72)), (2, 0, 0, None)]),
    );
    check_finds(rt, root);
    let upper = visit_child(rt, root, 1, steps);
    holds(
        rt,
        is_node(upper, 4, &[(0, 0, 0, None), (2, 1, 3, Some(74))]),
    );
    let lower = visit_child(rt, upper, 0, steps);
    holds(
        rt,
        is_node(lower, 3, &[(0, 1, 3, Some(73)), (2, 1, 3, Some(70))]),
    );
}

fn removals<L: Ledger>(rt: &impl Abort, alloc: Global, steps: &mut Steps<L>) {
    let mut node: Node<2> = NodeOf::single(alloc, 5, 2, OLD, 70, steps).expect(rt, "memory");
    node.add(0, 1, BESIDE, 71, steps).expect(rt, "memory");
    node.split(SECOND, &NEAR, 73, steps).expect(rt, "memory");
    node.merge(SECOND, 0, steps);
    let root = node.visit(steps);
    holds(
        rt,
        is_node(root, 5, &[(1, 4, 30, Some(71)), (2, 9, 3, Some(70))]),
    );
    node.drop_entry(FIRST, None, steps);
    let root = node.visit(steps);
    holds(rt, is_node(root, 5, &[(2, 9, 3, Some(70))]));
    node.dissolve(steps);
}

// A node that goes from between a node and a child, which then stands where it stood, and a child that moves to another block.
fn lifts<L: Ledger>(rt: &impl Abort, alloc: Global, steps: &mut Steps<L>) {
    let mut node: Node<2> = NodeOf::single(alloc, 5, 2, OLD, 70, steps).expect(rt, "memory");
    node.add(0, 1, BESIDE, 71, steps).expect(rt, "memory");
    node.split(SECOND, &NEAR, 73, steps).expect(rt, "memory");
    node.split(SECOND, &FAR, 74, steps).expect(rt, "memory");
    node.merge(SECOND, 1, steps);
    let root = node.visit(steps);
    holds(rt, (root.words().len(), root.children().len()) == (3, 1));
    holds(
        rt,
        is_node(root, 5, &[(1, 4, 30, Some(71)), (2, 0, 0, None)]),
    );
    node.drop_entry(FIRST, None, steps);
    let root = node.visit(steps);
    holds(rt, is_node(root, 5, &[(2, 0, 0, None)]));
    let lower = visit_child(rt, root, 0, steps);
    holds(
        rt,
        is_node(lower, 3, &[(0, 1, 3, Some(73)), (2, 1, 3, Some(70))]),
    );
}

fn has_words(words: &[u64], want: &[u64]) -> bool {
    *words == *want
}

// The words of nodes.
fn layouts<L: Ledger>(rt: &impl Abort, alloc: Global, steps: &mut Steps<L>) {
    let body = [3, 4, 0, 0, 0, 0, 0, 0, 0, 0, 0, 0, 0, 0, 0, 0];
    let across: Node<2> = NodeOf::single(alloc, 31, 3, body, 17, steps).expect(rt, "memory");
    let words = across.visit(steps).words();
    holds(
        rt,
        has_words(words, &[0x1f00000001000000, 0x60000000c0000002, 0, 0x11]),
    );
}

// The words of a node and its child, before and after the child gets an entry.
fn child_layouts<L: Ledger>(rt: &impl Abort, alloc: Global, steps: &mut Steps<L>) {
    let mut node: Node<2> = NodeOf::single(alloc, 31, 3, [0; 16], 1, steps).expect(rt, "memory");
    let spot = Spot { place: 0, addr: 3 };
    node.split(spot, &ONES, 2, steps).expect(rt, "memory");
    let root = node.visit(steps);
    holds(
        rt,
        has_words(root.words(), &[0x1f00000001000001, 0xe000000000000000, 0]),
    );
    let words = visit_child(rt, root, 0, steps).words();
    holds(
        rt,
        has_words(words, &[0x0000000002000000, 0x0c00000000000000, 1, 2]),
    );
    let slot = node.child_mut(spot, 0);
    let added = slot.node_mut().add(1, 1, [0; 16], 3, steps);
    assert!(rt; added.is_ok());
    let words = visit_child(rt, node.visit(steps), 0, steps).words();
    holds(
        rt,
        has_words(words, &[0x0001000003000000, 0x5100000000000000, 1, 3, 2]),
    );
}

// What a node with a point at the address 1 and a child at 2 says of its records, and where others would stand.
fn check_places(rt: &impl Abort, node: NodeRef<'_, 2>) {
    holds(rt, (node.words().len(), node.children().len()) == (3, 1));
    holds(rt, !node.is_cube());
    holds(rt, node.search(0).err() == Some(0));
    holds(rt, node.search(3).err() == Some(2));
}

// What it says of each of its spots.
fn check_spots(rt: &impl Abort, node: NodeRef<'_, 2>) {
    assert!(rt; node.len() == 2);
    let (point, child) = (node.spot(0), node.spot(1));
    holds(rt, (point.addr, child.addr) == (1, 2));
    holds(rt, node.is_below(point, &[4 + 32, 30]));
    holds(rt, !node.is_below(point, &[4 + 16, 30]));
    holds(rt, node.is_between(child, 3, &[9, 3]));
    holds(rt, !node.is_between(child, 3, &[16, 3]));
    holds(rt, node.is_child(child));
    holds(rt, !node.is_child(point));
}

// Whether its point lies between two others.
fn is_point_between(node: NodeRef<'_, 2>, low: &[u64; 2], high: &[u64; 2]) -> bool {
    node.len() == 2 && node.lies_between(node.spot(0), &[64, 255], low, high)
}

// The square of the distance of its point from another, where that is within a limit.
fn distance_within(node: NodeRef<'_, 2>, limit: u128) -> Option<u128> {
    if node.len() != 2 {
        return None;
    }
    node.distance_within(node.spot(0), &[64, 255], &[65, 250], limit)
}

// What it says of its point, which is (68, 254) below the digits of (64, 255).
fn check_point(rt: &impl Abort, node: NodeRef<'_, 2>) {
    holds(rt, is_point_between(node, &[68, 0], &[68, 254]));
    holds(rt, !is_point_between(node, &[69, 0], &[99, 254]));
    holds(rt, !is_point_between(node, &[68, 0], &[68, 253]));
    holds(rt, distance_within(node, 25) == Some(25));
    holds(rt, distance_within(node, 24).is_none());
    assert!(rt; node.len() == 2);
    let mut known = [64, 255];
    node.join(node.spot(0), &mut known);
    holds(rt, known == [64 + 4, 192 + 32 + 30]);
}

fn spots<L: Ledger>(rt: &impl Abort, alloc: Global, steps: &mut Steps<L>) {
    let mut node: Node<2> = NodeOf::single(alloc, 5, 2, OLD, 70, steps).expect(rt, "memory");
    let spot = Spot { place: 0, addr: 2 };
    node.split(spot, &NEAR, 73, steps).expect(rt, "memory");
    node.add(0, 1, BESIDE, 71, steps).expect(rt, "memory");
    let root = node.visit(steps);
    check_places(rt, root);
    check_spots(rt, root);
    check_point(rt, root);
}

// All of these, over one counter.
pub(crate) fn nodes<L: Ledger>(rt: &impl Abort, alloc: Global, steps: &mut Steps<L>) {
    layouts(rt, alloc, steps);
    child_layouts(rt, alloc, steps);
    outcome(rt, alloc, steps);
    removals(rt, alloc, steps);
    lifts(rt, alloc, steps);
    spots(rt, alloc, steps);
}
