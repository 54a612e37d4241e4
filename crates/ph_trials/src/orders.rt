//! Points that are put and deleted in every order.

ghost use Rattle.std.specs.Prelude.{◌≡◌, ◌<◌};

use crate::claims::holds;
use crate::pair::{Pair, point};
use ph_steps::Counters;
use std::alloc::Global;
use std::marker::Brand;
use std::process::Abort;
use std::sync::ledger::{Blank, Ledger};

const POINTS: [[i64; 2]; 3] = [[0, 0], [1, 1], [0, 1]];

const ORDERS: [[usize; 3]; 6] = [
    [0, 1, 2],
    [0, 2, 1],
    [1, 0, 2],
    [1, 2, 0],
    [2, 0, 1],
    [2, 1, 0],
];

const CORNERS: [[i64; 2]; 4] = [[0, 0], [0, 1], [1, 0], [1, 1]];

// Puts points in one order, each with its place as the value, and deletes them in another.
fn put_and_delete<V: Ledger, C: Ledger>(
    rt: &impl Abort,
    alloc: Global,
    points: &[[i64; 2]],
    puts: &[usize],
    dels: &[usize],
    counters: &mut Counters<V, C>,
) {
    let mut pair: Pair<2, 32> = Pair::new(rt, alloc, puts.len() as u64);
    for i in puts {
        let coords = points.get(*i).expect(rt, "a point");
        pair.put(rt, point::<2, 32>(rt, coords), *i as u64, counters);
        pair.compare(rt, alloc, counters);
    }
    for i in dels {
        let coords = points.get(*i).expect(rt, "a point");
        pair.del(rt, &point::<2, 32>(rt, coords), counters);
        pair.compare(rt, alloc, counters);
    }
    holds(rt, pair.tree.root().is_none());
}

fn three_points<V: Ledger, C: Ledger>(
    rt: &impl Abort,
    alloc: Global,
    counters: &mut Counters<V, C>,
) {
    for puts in ORDERS {
        for dels in ORDERS {
            put_and_delete(rt, alloc, &POINTS, &puts, &dels, counters);
        }
    }
}

// The corners of the unit square, which are put and deleted in every order.
fn unit_square<V: Ledger, C: Ledger>(
    rt: &impl Abort,
    alloc: Global,
    counters: &mut Counters<V, C>,
) {
    for order in 0..64usize {
        let (a, b, c) = (order >> 4, order >> 2 & 3, order & 3);
        if a == b || b == c || a == c {
            continue;
        }
        let corners = [a, b, c, 6usize.saturating_sub(a + b + c)];
        put_and_delete(rt, alloc, &CORNERS, &corners, &corners, counters);
    }
}

fn every_order<V: Ledger, C: Ledger>(rt: &impl Abort, alloc: Global, visits: Blank, changes: Blank)
    requires visits { (visits.name ≡ V.name) × (visits.parts ≡ V.parts) × (0 < visits.parts) }
    requires changes { (changes.name ≡ C.name) × (changes.parts ≡ C.parts) × (0 < changes.parts) }
{
    let mut counters: Counters<V, C> = Counters::new(visits, changes);
    three_points(rt, alloc, &mut counters);
    unit_square(rt, alloc, &mut counters);
}

#[test]
fn points_in_every_order(rt: HostRuntime) {
    every_order::<Brand, Brand>(&rt, rt.alloc(), Blank::new(1), Blank::new(1));
}
