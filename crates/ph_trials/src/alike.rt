//! Trees that were edited in different orders, compared with each other.

ghost use Rattle.std.specs.Prelude.{◌≡◌, ◌<◌, ◌≤◌};
ghost use Rattle.ph_specs.specs.TableNames.{IsPoint};

use crate::claims::holds;
use crate::edits::{GREATEST, LEAST, edit};
use crate::pair::{Pair, point};
use ph_coord::{Point, Row};
use ph_steps::Counters;
use rand_core::SeedableRng;
use rand_xoshiro::Xoshiro256PlusPlus;
use std::alloc::Global;
use std::marker::Brand;
use std::process::Abort;
use std::sync::ledger::{Blank, Ledger};

const SEED: u64 = 1975;

const EDITS: u64 = 48;

// A coordinate that no edit draws.
const UNUSED: i64 = 5;

// A tree and a table to which these rows are put from the last to the first.
fn backwards<const D: usize, const W: u32, V: Ledger, C: Ledger>(
    rt: &impl Abort,
    alloc: Global,
    rows: &[Row<D>],
    counters: &mut Counters<V, C>,
) -> Pair<D, W>
    requires some { 1 ≤ D }
    requires few { D ≤ 16 }
{
    let mut pair: Pair<D, W> = Pair::new(rt, alloc, u64::MAX);
    for row in rows.iter().rev() {
        let p = point::<D, W>(rt, row.point.as_slice());
        pair.put(rt, p, row.value, counters);
    }
    pair
}

// Whether the trees are the same, asked of each of them, is to be answered so.
fn assert_same<const D: usize, const W: u32, V: Ledger, C: Ledger>(
    rt: &impl Abort,
    a: &Pair<D, W>,
    b: &Pair<D, W>,
    expected: bool,
    counters: &mut Counters<V, C>,
) {
    holds(rt, a.tree.same(&b.tree, &mut counters.visits) == expected);
    holds(rt, b.tree.same(&a.tree, &mut counters.visits) == expected);
}

// Edits one of two trees at a point of both, each time in one respect, and takes that back.
fn edit_one<const D: usize, const W: u32, V: Ledger, C: Ledger>(
    rt: &impl Abort,
    a: &Pair<D, W>,
    b: &mut Pair<D, W>,
    p: Point<D>,
    v: u64,
    counters: &mut Counters<V, C>,
)
    requires few { D ≤ 16 }
    requires point { IsPoint W D p }
{
    let unused = point::<D, W>(rt, &[UNUSED; D]);
    b.put(rt, p, v ^ 1, counters);
    assert_same(rt, a, b, false, counters);
    b.put(rt, p, v, counters);
    assert_same(rt, a, b, true, counters);
    b.relocate(rt, &p, &unused, counters);
    assert_same(rt, a, b, false, counters);
    b.relocate(rt, &unused, &p, counters);
    assert_same(rt, a, b, true, counters);
    b.put(rt, unused, v, counters);
    assert_same(rt, a, b, false, counters);
    b.del(rt, &unused, counters);
    assert_same(rt, a, b, true, counters);
}

// Behind each random edit of a tree, another tree of the same rows.
fn pairs<const D: usize, const W: u32, V: Ledger, C: Ledger>(
    rt: &impl Abort,
    alloc: Global,
    choices: &[i64; 8],
    counters: &mut Counters<V, C>,
)
    requires some { 1 ≤ D }
    requires few { D ≤ 16 }
{
    let mut rng = Xoshiro256PlusPlus::seed_from_u64(SEED);
    let mut pair: Pair<D, W> = Pair::new(rt, alloc, u64::MAX);
    for v in 0..EDITS {
        edit(rt, &mut pair, &mut rng, choices, v, counters);
        let rows = pair.table.rows();
        let mut other = backwards(rt, alloc, rows, counters);
        assert_same(rt, &pair, &other, true, counters);
        if let Some(row) = rows.get((v % 8) as usize) {
            let p = point::<D, W>(rt, row.point.as_slice());
            edit_one(rt, &pair, &mut other, p, row.value, counters);
        }
    }
}

fn all_pairs<V: Ledger, C: Ledger>(rt: &impl Abort, alloc: Global, visits: Blank, changes: Blank)
    requires visits { (visits.name ≡ V.name) × (visits.parts ≡ V.parts) × (0 < visits.parts) }
    requires changes { (changes.name ≡ C.name) × (changes.parts ≡ C.parts) × (0 < changes.parts) }
{
    let mut counters: Counters<V, C> = Counters::new(visits, changes);
    let choices = [LEAST, -2, -1, 0, 0, 1, 2, GREATEST];
    pairs::<1, 32, V, C>(rt, alloc, &choices, &mut counters);
    pairs::<2, 32, V, C>(rt, alloc, &choices, &mut counters);
    pairs::<3, 32, V, C>(rt, alloc, &choices, &mut counters);
    pairs::<8, 32, V, C>(rt, alloc, &choices, &mut counters);
    pairs::<9, 7, V, C>(rt, alloc, &[-64, -2, -1, 0, 0, 1, 2, 63], &mut counters);
    pairs::<16, 62, V, C>(rt, alloc, &choices, &mut counters);
}

#[test]
fn trees_edited_in_different_orders(rt: HostRuntime) {
    all_pairs::<Brand, Brand>(&rt, rt.alloc(), Blank::new(1), Blank::new(1));
}
