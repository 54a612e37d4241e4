//! Rows that are imported into trees with room for few more.

ghost use Rattle.std.specs.Prelude.{◌≡◌};
ghost use Rattle.ph_specs.specs.TableNames.{IsPoint};

use crate::claims::{holds, holds_for};
use ph_coord::{Point, Row, Width};
use ph_import::{ImportFault, import_rows};
use ph_steps::{Counters, Counting, Steps, with_new_counters};
use ph_tree::PhTree;
use ph_undo::Kept;
use std::alloc::Global;
use std::process::Abort;
use std::sync::ledger::Ledger;

// A point of one dimension, and a value.
type Pair = (i64, u64);

// Rows that are imported into a tree of one row for at most so many, or of more rows far away for as many more.
#[derive(Clone, Copy)]
struct Case {
    max: u64,
    rows: [Pair; 3],
    outcome: Result<(), ImportFault>,
    len: u64,
    // What stands at the points 1 to 3 then.
    values: [Option<u64>; 3],
}

const BEFORE: Pair = (1, 5);

// Rows that stand far away. Without them the tree is made anew of its row and those that come, and with them the rows are put one by one.
const FAR_AWAY: [Pair; 3] = [(100, 0), (101, 1), (102, 2)];

const FULL: Result<(), ImportFault> = Err(ImportFault::Full);

const TWICE: [Pair; 3] = [(3, 30), (2, 20), (3, 31)];

const PUT: [Option<u64>; 3] = [Some(5), Some(20), Some(31)];

// All cases.
#[derive(Drop)]
struct NearlyFull<'r, A: Abort>(&'r A, Global);

impl Case {
    fn new(
        max: u64,
        rows: [Pair; 3],
        outcome: Result<(), ImportFault>,
        len: u64,
        values: [Option<u64>; 3],
    ) -> Case {
        Case {
            max,
            rows,
            outcome,
            len,
            values,
        }
    }
}

fn cases() -> [Case; 6] {
    let replaced = [(1, 10), (2, 20), (1, 11)];
    let in_place = [(1, 10), (1, 11), (1, 12)];
    let last_new = [(1, 10), (1, 11), (2, 20)];
    [
        Case::new(4, TWICE, Ok(()), 3, PUT),
        Case::new(3, TWICE, Ok(()), 3, PUT),
        Case::new(2, TWICE, FULL, 1, [Some(5), None, None]),
        Case::new(2, replaced, Ok(()), 2, [Some(11), Some(20), None]),
        Case::new(1, in_place, Ok(()), 1, [Some(12), None, None]),
        Case::new(1, last_new, FULL, 1, [Some(5), None, None]),
    ]
}

fn point(rt: &impl Abort, w: Width, x: i64) -> Point<1>
    ensures { IsPoint w 1 result }
{
    Point::from_slice(w, &[x]).expect(rt, "a point")
}

fn row(rt: &impl Abort, w: Width, pair: Pair) -> Row<1>
    ensures { IsPoint w 1 result.point }
{
    Row {
        point: point(rt, w, pair.0),
        value: pair.1,
    }
}

// The tree of one row and of others far away, for at most so many.
fn tree_before<V: Ledger, C: Ledger>(
    rt: &impl Abort,
    alloc: Global,
    max: u64,
    far_away: &[Pair],
    counters: &mut Counters<V, C>,
) -> Kept<1> {
    let w = Width::new(32).expect(rt, "a width");
    let mut kept = Kept::new(PhTree::new(alloc, w, max));
    put(rt, &mut kept, BEFORE, counters);
    for pair in far_away {
        put(rt, &mut kept, *pair, counters);
    }
    kept
}

fn put<V: Ledger, C: Ledger>(
    rt: &impl Abort,
    kept: &mut Kept<1>,
    pair: Pair,
    counters: &mut Counters<V, C>,
) {
    let first = row(rt, kept.tree().width(), pair);
    let Counters { visits, changes } = counters;
    let done = kept.put(first.point, first.value, visits, changes);
    holds(rt, done.is_ok());
}

fn import<V: Ledger, C: Ledger>(
    rt: &impl Abort,
    alloc: Global,
    kept: &mut Kept<1>,
    rows: [Pair; 3],
    counters: &mut Counters<V, C>,
) -> Result<(), ImportFault> {
    let w = kept.tree().width();
    let [a, b, c] = rows;
    let rows = [row(rt, w, a), row(rt, w, b), row(rt, w, c)];
    let rows = Vec::from_array(alloc, rows).expect(rt, "memory");
    let Counters { visits, changes } = counters;
    import_rows(alloc, kept, rows, visits, changes)
}

fn value_at<V: Ledger>(
    rt: &impl Abort,
    tree: &PhTree<1>,
    x: i64,
    visits: &mut Steps<V>,
) -> Option<u64> {
    tree.get(&point(rt, tree.width(), x), visits)
}

fn check<V: Ledger, C: Ledger>(
    rt: &impl Abort,
    alloc: Global,
    case: &Case,
    far_away: &[Pair],
    counters: &mut Counters<V, C>,
) {
    let more = far_away.len() as u64;
    let max = case.max.checked_add(more).expect(rt, "few rows");
    let len = case.len.checked_add(more).expect(rt, "few rows");
    let mut kept = tree_before(rt, alloc, max, far_away, counters);
    let outcome = import(rt, alloc, &mut kept, case.rows, counters);
    let tree = kept.tree();
    holds(rt, (outcome, tree.len()) == (case.outcome, len));
    for (x, value) in [1, 2, 3].into_iter().zip(case.values) {
        holds_for(rt, value_at(rt, tree, x, &mut counters.visits) == value, &x);
    }
}

impl<A: Abort> Counting for NearlyFull<'_, A> {
    type Outcome = ();

    fn run<V: Ledger, C: Ledger>(self, counters: &mut Counters<V, C>) {
        let NearlyFull(rt, alloc) = self;
        for case in cases() {
            check(rt, alloc, &case, &[], counters);
            check(rt, alloc, &case, &FAR_AWAY, counters);
        }
    }
}

#[test]
fn trees_nearly_full(rt: HostRuntime) {
    with_new_counters(NearlyFull(&rt, rt.alloc()));
}
