//! The nearest rows of a tree, and those within a radius, beside those of a table, between random edits.

ghost use Rattle.std.specs.Prelude.{◌≡◌, ◌<◌, ◌≤◌};
ghost use Rattle.ph_specs.specs.TableNames.{IsPoint};

use crate::claims::holds;
use crate::edits::{BINARY, GREATEST, LEAST, WIDEST, draw, edit};
use crate::pair::Pair;
use ph_coord::Point;
use ph_near::{Ball, Hit, nearest};
use ph_steps::{Counters, Steps};
use rand_core::SeedableRng;
use rand_xoshiro::Xoshiro256PlusPlus;
use std::alloc::Global;
use std::marker::Brand;
use std::process::Abort;
use std::sync::ledger::{Blank, Ledger};

const SEED: u64 = 1999;

const EDITS: u64 = 100;

// The nearest rows are to be those of the table, however many are asked for.
fn compare<const D: usize, const W: u32, V: Ledger, C: Ledger>(
    rt: &impl Abort,
    alloc: Global,
    pair: &Pair<D, W>,
    q: Point<D>,
    counters: &mut Counters<V, C>,
)
    requires few { D ≤ 16 }
    requires point { IsPoint W D q }
{
    let all = u32::try_from(pair.table.rows().len()).expect(rt, "few rows");
    for n in [0, 1, all / 2, all, u32::MAX] {
        let hits = nearest(alloc, &pair.tree, q, n, &mut counters.visits).expect(rt, "memory");
        let expected = pair.table.near(alloc, &q, n).expect(rt, "memory");
        holds(rt, hits == expected);
    }
}

// The square of the distance of two points.
fn square(p: &[i64], q: &[i64]) -> u128 {
    let mut sum: u128 = 0;
    for (a, b) in p.iter().zip(q) {
        let gap = u128::from(a.abs_diff(*b));
        sum = sum.saturating_add(gap.saturating_mul(gap));
    }
    sum
}

// Whether the next hit of a ball is this one, or there is none.
fn gives<const D: usize, V: Ledger>(
    ball: &mut Ball<'_, D>,
    hit: Option<Hit<D>>,
    visits: &mut Steps<V>,
) -> bool {
    ball.next(visits) == hit
}

// The rows within a radius are to be those of the table that are as near, in their order.
fn compare_ball<const D: usize, const W: u32, V: Ledger, C: Ledger>(
    rt: &impl Abort,
    pair: &Pair<D, W>,
    q: Point<D>,
    r: u128,
    counters: &mut Counters<V, C>,
)
    requires few { D ≤ 16 }
    requires point { IsPoint W D q }
{
    let mut ball = Ball::new(&pair.tree, q, r);
    for row in pair.table.rows() {
        let distance = square(row.point.as_slice(), q.as_slice());
        if distance <= r {
            let hit = Hit {
                row: *row,
                distance,
            };
            holds(rt, gives(&mut ball, Some(hit), &mut counters.visits));
        }
    }
    holds(rt, gives(&mut ball, None, &mut counters.visits));
    holds(rt, gives(&mut ball, None, &mut counters.visits));
}

// Compares the nearest rows of some points, and those within some radii, between edits.
fn compare_between_edits<const D: usize, const W: u32, V: Ledger, C: Ledger>(
    rt: &impl Abort,
    alloc: Global,
    choices: &[i64; 8],
    counters: &mut Counters<V, C>,
)
    requires some { 1 ≤ D }
    requires few { D ≤ 16 }
{
    let mut rng = Xoshiro256PlusPlus::seed_from_u64(SEED);
    let mut pair: Pair<D, W> = Pair::new(rt, alloc, u64::MAX);
    for v in 0..EDITS {
        edit(rt, &mut pair, &mut rng, choices, v, counters);
        let q = draw::<D, W, Xoshiro256PlusPlus>(rt, &mut rng, choices);
        compare(rt, alloc, &pair, q, counters);
        for r in [0, 1, 3, u128::MAX] {
            compare_ball(rt, &pair, q, r, counters);
        }
    }
}

fn all_dimensions<V: Ledger, C: Ledger>(
    rt: &impl Abort,
    alloc: Global,
    visits: Blank,
    changes: Blank,
)
    requires visits { (visits.name ≡ V.name) × (visits.parts ≡ V.parts) × (0 < visits.parts) }
    requires changes { (changes.name ≡ C.name) × (changes.parts ≡ C.parts) × (0 < changes.parts) }
{
    let mut counters: Counters<V, C> = Counters::new(visits, changes);
    let line = [LEAST, -3, -2, -1, 0, 1, 2, GREATEST];
    compare_between_edits::<1, 32, V, C>(rt, alloc, &line, &mut counters);
    let square = [LEAST, -2, -1, -1, 0, 0, 1, 2];
    compare_between_edits::<2, 32, V, C>(rt, alloc, &square, &mut counters);
    let cube = [-1, -1, -1, 0, 0, 0, 1, GREATEST];
    compare_between_edits::<3, 32, V, C>(rt, alloc, &cube, &mut counters);
    let mostly_zero = [-1, 0, 0, 0, 0, 0, 0, 1];
    compare_between_edits::<8, 32, V, C>(rt, alloc, &mostly_zero, &mut counters);
    compare_between_edits::<9, 1, V, C>(rt, alloc, &BINARY, &mut counters);
    compare_between_edits::<16, 62, V, C>(rt, alloc, &WIDEST, &mut counters);
}

#[test]
fn nearest_rows_between_edits(rt: HostRuntime) {
    all_dimensions::<Brand, Brand>(&rt, rt.alloc(), Blank::new(1), Blank::new(1));
}
