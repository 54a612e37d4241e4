//! Random edits of a tree and of a table.

ghost use Rattle.std.specs.Prelude.{◌≡◌, ◌<◌, ◌≤◌};
ghost use Rattle.ph_specs.specs.TableNames.{IsPoint};

use crate::claims::holds;
use crate::pair::{Pair, point};
use ph_coord::Point;
use ph_steps::Counters;
use rand_core::{Rng, SeedableRng};
use rand_xoshiro::Xoshiro256PlusPlus;
use std::alloc::Global;
use std::marker::Brand;
use std::process::Abort;
use std::sync::ledger::{Blank, Ledger};

const SEED: u64 = 2014;

const EDITS: u64 = 2000;

// With these, a node of nine dimensions and one bit becomes a cube.
const FEWER_EDITS: u64 = 400;

// The ends of 32 bits.
pub(crate) const LEAST: i64 = -(1 << 31);

pub(crate) const GREATEST: i64 = (1 << 31) - 1;

// Coordinates of one bit, of seven and of 62, the ends among them.
pub(crate) const BINARY: [i64; 8] = [-1, -1, -1, -1, 0, 0, 0, 0];

const SEVEN_BITS: [i64; 8] = [-64, -64, -2, -1, 0, 0, 1, 63];

pub(crate) const WIDEST: [i64; 8] = [-(1 << 61), 0, 0, 0, 0, 0, 1, (1 << 61) - 1];

// A point whose coordinates are some of eight numbers.
pub(crate) fn draw<const D: usize, const W: u32, R: Rng>(
    rt: &impl Abort,
    rng: &mut R,
    choices: &[i64; 8],
) -> Point<D>
    ensures { IsPoint W D result }
{
    let mut drawn = [0; D];
    for coord in drawn.iter_mut() {
        *coord = choices[(rng.next_u32() % 8) as usize];
    }
    point::<D, W>(rt, &drawn)
}

// One put, removal or move; puts are as many as both others.
pub(crate) fn edit<const D: usize, const W: u32, R: Rng, V: Ledger, C: Ledger>(
    rt: &impl Abort,
    pair: &mut Pair<D, W>,
    rng: &mut R,
    choices: &[i64; 8],
    v: u64,
    counters: &mut Counters<V, C>,
)
    requires { D ≤ 16 }
{
    let p = draw::<D, W, R>(rt, rng, choices);
    match rng.next_u32() % 4 {
        0 => pair.del(rt, &p, counters),
        1 => {
            let to = draw::<D, W, R>(rt, rng, choices);
            pair.relocate(rt, &p, &to, counters)
        }
        _ => pair.put(rt, p, v, counters),
    }
}

// So many edits, and then the removal of all rows.
fn edits<const D: usize, const W: u32, V: Ledger, C: Ledger>(
    rt: &impl Abort,
    alloc: Global,
    count: u64,
    max: u64,
    choices: &[i64; 8],
    counters: &mut Counters<V, C>,
)
    requires some { 1 ≤ D }
    requires few { D ≤ 16 }
{
    let mut rng = Xoshiro256PlusPlus::seed_from_u64(SEED);
    let mut pair: Pair<D, W> = Pair::new(rt, alloc, max);
    for v in 0..count {
        edit(rt, &mut pair, &mut rng, choices, v, counters);
        pair.compare(rt, alloc, counters);
    }
    empty(rt, alloc, &mut pair, &mut rng, counters);
}

// Deletes one row after the other.
fn empty<const D: usize, const W: u32, R: Rng, V: Ledger, C: Ledger>(
    rt: &impl Abort,
    alloc: Global,
    pair: &mut Pair<D, W>,
    rng: &mut R,
    counters: &mut Counters<V, C>,
)
    requires some { 1 ≤ D }
    requires few { D ≤ 16 }
{
    for left in (1..=pair.table.rows().len()).rev() {
        let i = rng.next_u64() % left as u64;
        let Some(row) = pair.table.rows().get(i as usize) else {
            panic!(rt; "no row");
        };
        let p = point::<D, W>(rt, row.point.as_slice());
        pair.del(rt, &p, counters);
        pair.compare(rt, alloc, counters);
    }
    holds(rt, pair.tree.root().is_none());
}

// A put that is refused, and a move in the full tree.
fn full_tree<V: Ledger, C: Ledger>(rt: &impl Abort, alloc: Global, counters: &mut Counters<V, C>) {
    let mut pair: Pair<2, 32> = Pair::new(rt, alloc, 2);
    let first = point::<2, 32>(rt, &[0, 0]);
    let third = point::<2, 32>(rt, &[0, 1]);
    pair.put(rt, first, 1, counters);
    pair.put(rt, point::<2, 32>(rt, &[1, 1]), 2, counters);
    pair.put(rt, third, 3, counters);
    holds(rt, (pair.tree.len(), pair.table.get(&third)) == (2, None));
    pair.relocate(rt, &first, &third, counters);
    holds(rt, pair.table.get(&third) == Some(1));
    pair.compare(rt, alloc, counters);
}

// The numbers that coordinates are drawn from are few, so that points meet.
fn all_edits<V: Ledger, C: Ledger>(rt: &impl Abort, alloc: Global, visits: Blank, changes: Blank)
    requires visits { (visits.name ≡ V.name) × (visits.parts ≡ V.parts) × (0 < visits.parts) }
    requires changes { (changes.name ≡ C.name) × (changes.parts ≡ C.parts) × (0 < changes.parts) }
{
    let mut counters: Counters<V, C> = Counters::new(visits, changes);
    let line = [LEAST, LEAST + 1, -2, -1, 0, 1, 2, GREATEST];
    edits::<1, 32, V, C>(rt, alloc, EDITS, u64::MAX, &line, &mut counters);
    let square = [LEAST, LEAST, -2, -1, 0, 0, 1, GREATEST];
    edits::<2, 32, V, C>(rt, alloc, EDITS, u64::MAX, &square, &mut counters);
    edits::<2, 32, V, C>(rt, alloc, EDITS, 6, &square, &mut counters);
    let cube = [LEAST, -1, -1, 0, 0, 1, 1, GREATEST];
    edits::<3, 32, V, C>(rt, alloc, EDITS, u64::MAX, &cube, &mut counters);
    let mostly_zero = [LEAST, 0, 0, 0, 0, 0, 0, 1];
    edits::<8, 32, V, C>(rt, alloc, EDITS, u64::MAX, &mostly_zero, &mut counters);
    full_tree(rt, alloc, &mut counters);
}

// Mostly zero, so that points of many dimensions meet.
fn rarely(coord: i64) -> [i64; 8] {
    [coord, 0, 0, 0, 0, 0, 0, 0]
}

fn edits_by_width<V: Ledger, C: Ledger>(
    rt: &impl Abort,
    alloc: Global,
    visits: Blank,
    changes: Blank,
)
    requires visits { (visits.name ≡ V.name) × (visits.parts ≡ V.parts) × (0 < visits.parts) }
    requires changes { (changes.name ≡ C.name) × (changes.parts ≡ C.parts) × (0 < changes.parts) }
{
    let mut counters: Counters<V, C> = Counters::new(visits, changes);
    let all = &mut counters;
    let (count, max) = (FEWER_EDITS, u64::MAX);
    edits::<1, 1, V, C>(rt, alloc, count, max, &BINARY, all);
    edits::<9, 1, V, C>(rt, alloc, count, max, &BINARY, all);
    edits::<16, 1, V, C>(rt, alloc, count, max, &rarely(-1), all);
    edits::<2, 7, V, C>(rt, alloc, count, max, &SEVEN_BITS, all);
    edits::<9, 7, V, C>(rt, alloc, count, max, &SEVEN_BITS, all);
    edits::<16, 7, V, C>(rt, alloc, count, max, &rarely(63), all);
    edits::<9, 32, V, C>(rt, alloc, count, max, &rarely(LEAST), all);
    edits::<16, 32, V, C>(rt, alloc, count, max, &rarely(GREATEST), all);
    edits::<1, 62, V, C>(rt, alloc, count, max, &WIDEST, all);
    edits::<2, 62, V, C>(rt, alloc, count, max, &WIDEST, all);
    edits::<9, 62, V, C>(rt, alloc, count, max, &WIDEST, all);
    edits::<16, 62, V, C>(rt, alloc, count, max, &rarely(-(1 << 61)), all);
}

#[test]
fn random_edits(rt: HostRuntime) {
    all_edits::<Brand, Brand>(&rt, rt.alloc(), Blank::new(1), Blank::new(1));
}

#[test]
fn random_edits_by_width(rt: HostRuntime) {
    edits_by_width::<Brand, Brand>(&rt, rt.alloc(), Blank::new(1), Blank::new(1));
}
