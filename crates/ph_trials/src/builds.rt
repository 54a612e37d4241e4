//! Trees that are built of rows at once, beside a tree to which the rows are put one by one.

ghost use Rattle.std.specs.Prelude.{◌≡◌, ◌<◌, ◌≤◌};
ghost use Rattle.std.specs.List.{AllByRecursion as Each};
ghost use Rattle.ph_specs.specs.TableNames.{IsPoint};

use crate::claims::holds;
use crate::edits::{BINARY, GREATEST, LEAST, WIDEST, draw};
use crate::pair::Pair;
use ph_bulk::{build, last_rows};
use ph_coord::Row;
use ph_steps::Counters;
use rand_core::SeedableRng;
use rand_xoshiro::Xoshiro256PlusPlus;
use std::alloc::Global;
use std::marker::Brand;
use std::process::Abort;
use std::sync::ledger::{Blank, Ledger};

const SEED: u64 = 1966;

// In one and two dimensions most points of eight coordinates then stand more than once.
const ROWS: u64 = 300;

const CHOICES: [i64; 8] = [LEAST, -4, -1, 0, 1, 2, 7, GREATEST];

// Puts random rows, and builds a tree of the same rows.
fn builds<const D: usize, const W: u32, V: Ledger, C: Ledger>(
    rt: &impl Abort,
    alloc: Global,
    choices: &[i64; 8],
    counters: &mut Counters<V, C>,
)
    requires some { 1 ≤ D }
    requires few { D ≤ 16 }
{
    let mut rng = Xoshiro256PlusPlus::seed_from_u64(SEED);
    let mut pair: Pair<D, W> = Pair::new(rt, alloc, u64::MAX);
    let mut rows = Vec::new(alloc);
    for value in 0..ROWS {
        let point = draw::<D, W, Xoshiro256PlusPlus>(rt, &mut rng, choices);
        pair.put(rt, point, value, counters);
        rows.push(Row { point, value }).expect(rt, "memory");
    }
    compare_built(rt, alloc, pair, rows, counters);
}

// The tree of rows is to be that of a pair, to which they were put in their order.
fn compare_built<const D: usize, const W: u32, V: Ledger, C: Ledger>(
    rt: &impl Abort,
    alloc: Global,
    pair: Pair<D, W>,
    rows: Vec<Row<D>>,
    counters: &mut Counters<V, C>,
)
    requires some { 1 ≤ D }
    requires few { D ≤ 16 }
    requires points { Each (λ r. IsPoint W D r.point) rows.items }
{
    let w = pair.table.width();
    let rows = last_rows(alloc, w, rows).expect(rt, "memory");
    holds(rt, rows.as_slice() == pair.table.rows());
    let tree = build(alloc, w, rows.as_slice(), &mut counters.changes).expect(rt, "memory");
    holds(rt, tree.same(&pair.tree, &mut counters.visits));
    let built: Pair<D, W> = Pair {
        tree,
        table: pair.table,
    };
    built.compare(rt, alloc, counters);
}

fn all_builds<V: Ledger, C: Ledger>(rt: &impl Abort, alloc: Global, visits: Blank, changes: Blank)
    requires visits { (visits.name ≡ V.name) × (visits.parts ≡ V.parts) × (0 < visits.parts) }
    requires changes { (changes.name ≡ C.name) × (changes.parts ≡ C.parts) × (0 < changes.parts) }
{
    let mut counters: Counters<V, C> = Counters::new(visits, changes);
    builds::<1, 32, V, C>(rt, alloc, &CHOICES, &mut counters);
    builds::<2, 32, V, C>(rt, alloc, &CHOICES, &mut counters);
    builds::<3, 1, V, C>(rt, alloc, &BINARY, &mut counters);
    builds::<4, 62, V, C>(rt, alloc, &WIDEST, &mut counters);
    builds::<5, 32, V, C>(rt, alloc, &CHOICES, &mut counters);
    builds::<6, 1, V, C>(rt, alloc, &BINARY, &mut counters);
    builds::<7, 32, V, C>(rt, alloc, &CHOICES, &mut counters);
    builds::<8, 62, V, C>(rt, alloc, &WIDEST, &mut counters);
    builds::<8, 1, V, C>(rt, alloc, &BINARY, &mut counters);
    builds::<9, 32, V, C>(rt, alloc, &CHOICES, &mut counters);
    builds::<10, 32, V, C>(rt, alloc, &CHOICES, &mut counters);
    builds::<11, 62, V, C>(rt, alloc, &WIDEST, &mut counters);
    builds::<12, 1, V, C>(rt, alloc, &BINARY, &mut counters);
    builds::<13, 32, V, C>(rt, alloc, &CHOICES, &mut counters);
    builds::<14, 32, V, C>(rt, alloc, &CHOICES, &mut counters);
    builds::<15, 32, V, C>(rt, alloc, &CHOICES, &mut counters);
    builds::<16, 32, V, C>(rt, alloc, &CHOICES, &mut counters);
}

#[test]
fn built_trees(rt: HostRuntime) {
    all_builds::<Brand, Brand>(&rt, rt.alloc(), Blank::new(1), Blank::new(1));
}
