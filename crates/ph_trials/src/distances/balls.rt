ghost use Rattle.std.specs.Prelude.{◌≡◌, ◌<◌};
ghost use Rattle.ph_specs.specs.TableNames.{IsPoint};

use crate::claims::holds;
use ph_coord::{Point, Row, Width};
use ph_near::{Ball, Hit};
use ph_steps::Steps;
use ph_tree::PhTree;
use std::alloc::Global;
use std::marker::Brand;
use std::process::Abort;
use std::sync::ledger::{Blank, Ledger};

fn point(rt: &impl Abort, coords: [i64; 2]) -> Point<2>
    ensures { IsPoint 32 2 result }
{
    let Some(w) = Width::new(32) else {
        panic!(rt; "no width")
    };
    let Some(p) = Point::from_slice(w, &coords) else {
        panic!(rt; "no point")
    };
    p
}

fn tree_of<V: Ledger, C: Ledger>(
    rt: &impl Abort,
    alloc: Global,
    rows: &[([i64; 2], u64)],
    visits: &mut Steps<V>,
    changes: &mut Steps<C>,
) -> PhTree<2>
    ensures { result.width ≡ 32 }
{
    let Some(w) = Width::new(32) else {
        panic!(rt; "no width")
    };
    let mut tree = PhTree::new(alloc, w, 100);
    for (coords, value) in rows {
        let done = tree.put(point(rt, *coords), *value, visits, changes);
        holds(rt, done.is_ok());
    }
    tree
}

// Whether the next hit of a ball is this one, or there is none.
fn gives<V: Ledger>(ball: &mut Ball<'_, 2>, hit: Option<Hit<2>>, visits: &mut Steps<V>) -> bool {
    ball.next(visits) == hit
}

// Whether a ball lists these rows with these distances, and then nothing more.
fn lists<V: Ledger>(
    rt: &impl Abort,
    tree: &PhTree<2>,
    center: [i64; 2],
    radius: u128,
    wanted: &[([i64; 2], u64, u128)],
    visits: &mut Steps<V>,
)
    requires { tree.now.width ≡ 32 }
{
    let mut ball = Ball::new(tree, point(rt, center), radius);
    for (coords, value, distance) in wanted {
        let row = Row {
            point: point(rt, *coords),
            value: *value,
        };
        let hit = Hit {
            row,
            distance: *distance,
        };
        holds(rt, gives(&mut ball, Some(hit), visits));
    }
    holds(rt, gives(&mut ball, None, visits));
    holds(rt, gives(&mut ball, None, visits));
}

fn balls<V: Ledger, C: Ledger>(rt: &impl Abort, alloc: Global, visits: Blank, changes: Blank)
    requires visits { (visits.name ≡ V.name) × (visits.parts ≡ V.parts) × (0 < visits.parts) }
    requires changes { (changes.name ≡ C.name) × (changes.parts ≡ C.parts) × (0 < changes.parts) }
{
    let mut visits: Steps<V> = Steps::new(visits);
    let mut changes: Steps<C> = Steps::new(changes);
    let rows = [
        ([1, 0], 1),
        ([0, 1], 2),
        ([-1, 0], 3),
        ([0, -1], 4),
        ([1, 1], 5),
    ];
    let tree = tree_of(rt, alloc, &rows, &mut visits, &mut changes);
    let all = [
        ([-1, 0], 3, 1),
        ([0, -1], 4, 1),
        ([0, 1], 2, 1),
        ([1, 0], 1, 1),
        ([1, 1], 5, 2),
    ];
    lists(rt, &tree, [0, 0], 0, &[], &mut visits);
    lists(rt, &tree, [0, 0], 1, &all[..4], &mut visits);
    lists(rt, &tree, [0, 0], 2, &all, &mut visits);
    lists(rt, &tree, [0, 0], u128::MAX, &all, &mut visits);
    lists(rt, &tree, [0, -1], 0, &[([0, -1], 4, 0)], &mut visits);
}

#[test]
fn balls_of_a_small_tree(rt: HostRuntime) {
    balls::<Brand, Brand>(&rt, rt.alloc(), Blank::new(1), Blank::new(1));
}
