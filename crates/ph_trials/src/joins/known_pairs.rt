//! Boxes that touch, and tables of which no pair is listed.

ghost use Rattle.std.specs.Prelude.{◌≡◌, ◌%◌, ◌≤◌};
ghost use Rattle.ph_specs.specs.TableNames.{AreBoxes};

use super::boxes::tree_of;
use crate::claims::holds;
use ph_join::Join;
use ph_steps::{Counters, Counting, Steps, with_new_counters};
use ph_tree::PhTree;
use std::alloc::Global;
use std::process::Abort;
use std::sync::ledger::Ledger;

// Joins of small trees, whose pairs are written out.
#[derive(Drop)]
struct KnownPairs<'r, A: Abort>(&'r A, Global);

// The values of the next pair, if there is one.
fn next_values<const D: usize, V: Ledger>(
    join: &mut Join<'_, D>,
    visits: &mut Steps<V>,
) -> Option<(u64, u64)> {
    let (first, second) = join.next(visits)?;
    Some((first.value, second.value))
}

// Joins two trees of boxes, which is to list the pairs of these values.
fn list<const D: usize, V: Ledger, C: Ledger>(
    rt: &impl Abort,
    first: &PhTree<D>,
    second: &PhTree<D>,
    pairs: &[(u64, u64)],
    counters: &mut Counters<V, C>,
)
    requires even { D % 2 ≡ 0 }
    requires few { D ≤ 16 }
    requires width { first.now.width ≡ second.now.width }
    requires firsts { AreBoxes first.now.table }
    requires seconds { AreBoxes second.now.table }
{
    let mut join = Join::new(first, second);
    for pair in pairs {
        holds(
            rt,
            next_values(&mut join, &mut counters.visits) == Some(*pair),
        );
    }
    holds(rt, next_values(&mut join, &mut counters.visits).is_none());
    holds(rt, next_values(&mut join, &mut counters.visits).is_none());
}

// A cube, and boxes that touch it in a corner, an edge and a face, that lie in it or around it, or that are one off in
// the first or in the last dimension.
fn touching<V: Ledger, C: Ledger>(rt: &impl Abort, alloc: Global, counters: &mut Counters<V, C>) {
    let cube = [([0, 0, 0], [2, 2, 2])];
    let around = [
        ([2, 2, 2], [3, 3, 3]),
        ([2, 2, 0], [3, 3, 1]),
        ([2, 0, 0], [3, 1, 1]),
        ([1, 1, 1], [1, 1, 1]),
        ([-1, -1, -1], [3, 3, 3]),
        ([3, 0, 0], [4, 1, 1]),
        ([0, 0, 3], [1, 1, 4]),
    ];
    let first: PhTree<6> = tree_of::<3, 6, V, C>(rt, alloc, &cube, counters);
    let second: PhTree<6> = tree_of::<3, 6, V, C>(rt, alloc, &around, counters);
    let touched = [(1, 5), (1, 4), (1, 3), (1, 2), (1, 1)];
    list(rt, &first, &second, &touched, counters);
    let turned = [(5, 1), (4, 1), (3, 1), (2, 1), (1, 1)];
    list(rt, &second, &first, &turned, counters);
}

// Intervals with themselves and with none.
fn intervals<V: Ledger, C: Ledger>(rt: &impl Abort, alloc: Global, counters: &mut Counters<V, C>) {
    let row = [([0], [1]), ([1], [2]), ([3], [3])];
    let some: PhTree<2> = tree_of::<1, 2, V, C>(rt, alloc, &row, counters);
    let none: PhTree<2> = tree_of::<1, 2, V, C>(rt, alloc, &[], counters);
    let same = [(1, 1), (1, 2), (2, 1), (2, 2), (3, 3)];
    list(rt, &some, &some, &same, counters);
    for (first, second) in [(&some, &none), (&none, &some), (&none, &none)] {
        list(rt, first, second, &[], counters);
    }
}

impl<A: Abort> Counting for KnownPairs<'_, A> {
    type Outcome = ();

    fn run<V: Ledger, C: Ledger>(self, counters: &mut Counters<V, C>) {
        let KnownPairs(rt, alloc) = self;
        touching(rt, alloc, counters);
        intervals(rt, alloc, counters);
    }
}

#[test]
fn known_pairs(rt: HostRuntime) {
    with_new_counters(KnownPairs(&rt, rt.alloc()));
}
