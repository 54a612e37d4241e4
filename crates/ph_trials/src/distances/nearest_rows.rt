//! The nearest rows of small trees.

ghost use Rattle.std.specs.Prelude.{◌≡◌, ◌<◌};
ghost use Rattle.ph_specs.specs.TableNames.{IsPoint};

use crate::claims::holds;
use ph_coord::{Point, Row, Width};
use ph_near::{Hit, nearest};
use ph_steps::Steps;
use ph_tree::PhTree;
use std::alloc::Global;
use std::marker::Brand;
use std::process::Abort;
use std::sync::ledger::{Blank, Ledger};

fn width() -> Width
    ensures { result ≡ 32 }
{
    match Width::new(32) {
        Some(w) => w,
        None => unreachable!(),
    }
}

pub(super) fn point(rt: &impl Abort, coords: [i64; 2]) -> Point<2>
    ensures { IsPoint 32 2 result }
{
    let Some(p) = Point::from_slice(width(), &coords) else {
        panic!(rt; "no point")
    };
    p
}

pub(super) fn hit(rt: &impl Abort, coords: [i64; 2], value: u64, distance: u128) -> Hit<2> {
    let row = Row {
        point: point(rt, coords),
        value,
    };
    Hit { row, distance }
}

// The tree of these points, whose values count from 1 on.
pub(super) fn tree_of<V: Ledger, C: Ledger>(
    rt: &impl Abort,
    alloc: Global,
    points: &[[i64; 2]],
    visits: &mut Steps<V>,
    changes: &mut Steps<C>,
) -> PhTree<2>
    ensures { result.width ≡ 32 }
{
    let mut tree = PhTree::new(alloc, width(), u64::MAX);
    for (i, coords) in points.iter().enumerate() {
        let done = tree.put(point(rt, *coords), i as u64 + 1, visits, changes);
        holds(rt, done.is_ok());
    }
    tree
}

// Four rows at one distance.
fn cross<V: Ledger, C: Ledger>(
    rt: &impl Abort,
    alloc: Global,
    visits: &mut Steps<V>,
    changes: &mut Steps<C>,
) {
    let points = [[1, 0], [0, 1], [-1, 0], [0, -1]];
    let ranked = [
        hit(rt, [-1, 0], 3, 1),
        hit(rt, [0, -1], 4, 1),
        hit(rt, [0, 1], 2, 1),
        hit(rt, [1, 0], 1, 1),
    ];
    let tree = tree_of(rt, alloc, &points, visits, changes);
    for n in [0, 1, 3, 4, 9, u32::MAX] {
        let hits = nearest(alloc, &tree, point(rt, [0, 0]), n, visits).expect(rt, "memory");
        let most = ranked.len().min(n as usize);
        holds(rt, hits.as_slice() == &ranked[..most]);
    }
}

// The greatest point, from the least.
fn greatest_distance<V: Ledger, C: Ledger>(
    rt: &impl Abort,
    alloc: Global,
    visits: &mut Steps<V>,
    changes: &mut Steps<C>,
) {
    let greatest = [2147483647, 2147483647];
    let tree = tree_of(rt, alloc, &[greatest], visits, changes);
    let least = point(rt, [-2147483648, -2147483648]);
    let hits = nearest(alloc, &tree, least, 1, visits).expect(rt, "memory");
    assert!(rt; hits.len() == 1);
    holds(rt, hits[0] == hit(rt, greatest, 1, 36893488130239234050));
}

fn list<V: Ledger, C: Ledger>(rt: &impl Abort, alloc: Global, visits: Blank, changes: Blank)
    requires visits { (visits.name ≡ V.name) × (visits.parts ≡ V.parts) × (0 < visits.parts) }
    requires changes { (changes.name ≡ C.name) × (changes.parts ≡ C.parts) × (0 < changes.parts) }
{
    let mut visits: Steps<V> = Steps::new(visits);
    let mut changes: Steps<C> = Steps::new(changes);
    cross(rt, alloc, &mut visits, &mut changes);
    greatest_distance(rt, alloc, &mut visits, &mut changes);
}

#[test]
fn nearest_rows_in_order(rt: HostRuntime) {
    list::<Brand, Brand>(&rt, rt.alloc(), Blank::new(1), Blank::new(1));
}
