//! Nearest rows of which most have n others in front of them.

ghost use Rattle.std.specs.Prelude.{◌≡◌, ◌<◌};

use super::nearest_rows::{hit, point, tree_of};
use crate::claims::holds;
use ph_near::{Hit, nearest};
use ph_steps::Steps;
use ph_tree::PhTree;
use std::alloc::Global;
use std::marker::Brand;
use std::process::Abort;
use std::sync::ledger::{Blank, Ledger};

// Whether the nearest rows are the first ones of a list.
fn lists<V: Ledger>(
    rt: &impl Abort,
    alloc: Global,
    tree: &PhTree<2>,
    q: [i64; 2],
    ranked: &[Hit<2>],
    visits: &mut Steps<V>,
)
    requires { tree.now.width ≡ 32 }
{
    for n in [0, 1, 2, 5, 9] {
        let hits = nearest(alloc, tree, point(rt, q), n, visits).expect(rt, "memory");
        let most = ranked.len().min(n as usize);
        holds(rt, hits.as_slice() == &ranked[..most]);
    }
}

// Twelve rows at one distance, one nearer and two farther.
fn circle<V: Ledger, C: Ledger>(
    rt: &impl Abort,
    alloc: Global,
    visits: &mut Steps<V>,
    changes: &mut Steps<C>,
) {
    let points = [
        [4, 3],
        [5, 0],
        [3, 4],
        [0, 5],
        [4, -3],
        [3, -4],
        [0, -5],
        [-3, 4],
        [-4, 3],
        [-5, 0],
        [-3, -4],
        [-4, -3],
        [6, 6],
        [-7, -1],
        [1, 1],
    ];
    let ranked = [
        hit(rt, [1, 1], 15, 2),
        hit(rt, [-4, -3], 12, 25),
        hit(rt, [-3, -4], 11, 25),
        hit(rt, [-5, 0], 10, 25),
        hit(rt, [-4, 3], 9, 25),
        hit(rt, [-3, 4], 8, 25),
        hit(rt, [0, -5], 7, 25),
        hit(rt, [3, -4], 6, 25),
        hit(rt, [4, -3], 5, 25),
    ];
    let tree = tree_of(rt, alloc, &points, visits, changes);
    lists(rt, alloc, &tree, [0, 0], &ranked, visits);
}

// Two clusters of rows, of which one is near.
fn clusters<V: Ledger, C: Ledger>(
    rt: &impl Abort,
    alloc: Global,
    visits: &mut Steps<V>,
    changes: &mut Steps<C>,
) {
    let points = [
        [0, 0],
        [0, 1],
        [0, 2],
        [0, 3],
        [1, 0],
        [1, 1],
        [1, 2],
        [1, 3],
        [2, 0],
        [2, 1],
        [2, 2],
        [2, 3],
        [3, 0],
        [3, 1],
        [3, 2],
        [3, 3],
        [900, 900],
        [900, 901],
        [901, 900],
        [901, 901],
    ];
    let ranked = [
        hit(rt, [1, 1], 6, 0),
        hit(rt, [0, 1], 2, 1),
        hit(rt, [1, 0], 5, 1),
        hit(rt, [1, 2], 7, 1),
        hit(rt, [2, 1], 10, 1),
        hit(rt, [0, 0], 1, 2),
        hit(rt, [0, 2], 3, 2),
        hit(rt, [2, 0], 9, 2),
        hit(rt, [2, 2], 11, 2),
    ];
    let tree = tree_of(rt, alloc, &points, visits, changes);
    lists(rt, alloc, &tree, [1, 1], &ranked, visits);
}

fn run<V: Ledger, C: Ledger>(rt: &impl Abort, alloc: Global, visits: Blank, changes: Blank)
    requires visits { (visits.name ≡ V.name) × (visits.parts ≡ V.parts) × (0 < visits.parts) }
    requires changes { (changes.name ≡ C.name) × (changes.parts ≡ C.parts) × (0 < changes.parts) }
{
    let mut visits: Steps<V> = Steps::new(visits);
    let mut changes: Steps<C> = Steps::new(changes);
    circle(rt, alloc, &mut visits, &mut changes);
    clusters(rt, alloc, &mut visits, &mut changes);
}

#[test]
fn bounded_rows_in_order(rt: HostRuntime) {
    run::<Brand, Brand>(&rt, rt.alloc(), Blank::new(1), Blank::new(1));
}
