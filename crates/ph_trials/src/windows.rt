//! Windows and pages of a tree beside windows of a table, between random edits.

ghost use Rattle.std.specs.Prelude.{◌≡◌, ◌<◌, ◌≤◌};
ghost use Rattle.ph_specs.specs.TableNames.{IsPoint};
ghost use Rattle.ph_window.specs.Page.{IsLast};

use crate::claims::holds;
use crate::edits::{BINARY, GREATEST, LEAST, WIDEST, draw, edit};
use crate::pair::{Pair, point};
use ph_coord::{Point, Row, z_before};
use ph_steps::{Counters, Steps};
use ph_window::{Cursor, Page, Tail, Window};
use rand_core::SeedableRng;
use rand_xoshiro::Xoshiro256PlusPlus;
use std::alloc::Global;
use std::marker::Brand;
use std::process::Abort;
use std::sync::ledger::{Blank, Ledger};

const SEED: u64 = 1966;

const EDITS: u64 = 400;

// How many edits are made from one cursor on.
const CURSOR_EDITS: u64 = 16;

// The corners of the least window with both points. In one dimension, if there is such a one, the bounds are reversed.
pub(crate) fn corners<const D: usize, const W: u32>(
    rt: &impl Abort,
    a: &Point<D>,
    b: &Point<D>,
    reversed: usize,
) -> (Point<D>, Point<D>)
    ensures lo { IsPoint W D result.0 }
    ensures hi { IsPoint W D result.1 }
{
    let mut lo = [0; D];
    let mut hi = [0; D];
    for i in 0..D {
        let least = a.at(i).min(b.at(i));
        let greatest = a.at(i).max(b.at(i));
        if i == reversed {
            lo[i] = greatest;
            hi[i] = least;
        } else {
            lo[i] = least;
            hi[i] = greatest;
        }
    }
    (point::<D, W>(rt, &lo), point::<D, W>(rt, &hi))
}

// Whether the next row of a window is this one, or there is none.
fn gives<const D: usize, V: Ledger>(
    window: &mut Window<'_, D>,
    row: Option<Row<D>>,
    visits: &mut Steps<V>,
) -> bool {
    window.next(visits) == row
}

// Lists a window of the tree, which is to have these rows.
pub(crate) fn list<const D: usize, const W: u32, V: Ledger, C: Ledger>(
    rt: &impl Abort,
    pair: &Pair<D, W>,
    lo: Point<D>,
    hi: Point<D>,
    rows: &[Row<D>],
    counters: &mut Counters<V, C>,
)
    requires few { D ≤ 16 }
    requires lo { IsPoint W D lo }
    requires hi { IsPoint W D hi }
{
    let mut window = Window::new(&pair.tree, lo, hi);
    for row in rows {
        holds(rt, gives(&mut window, Some(*row), &mut counters.visits));
    }
    holds(rt, gives(&mut window, None, &mut counters.visits));
    holds(rt, gives(&mut window, None, &mut counters.visits));
}

// Whether the next row of a page is this one, or there is none.
fn page_gives<const D: usize, V: Ledger>(
    page: &mut Page<'_, D>,
    row: Option<Row<D>>,
    visits: &mut Steps<V>,
) -> bool {
    page.next(visits) == row
}

// Lists a page, which is to have the first of the rows that are left, and tells the last point behind it.
fn page<const D: usize, const W: u32, V: Ledger, C: Ledger>(
    rt: &impl Abort,
    pair: &Pair<D, W>,
    cursor: &Cursor<D>,
    left: &[Row<D>],
    n: u32,
    counters: &mut Counters<V, C>,
) -> Option<Point<D>>
    requires few { D ≤ 16 }
    requires lo { IsPoint W D cursor.now.lo }
    requires hi { IsPoint W D cursor.now.hi }
    requires last { IsLast W D cursor.now.last }
    ensures { IsLast W D result }
{
    let mut page = cursor.page(&pair.tree, n, &mut counters.visits);
    for row in left.iter().take(n as usize) {
        holds(rt, page_gives(&mut page, Some(*row), &mut counters.visits));
    }
    holds(rt, page_gives(&mut page, None, &mut counters.visits));
    let behind = page.cursor();
    let is_more = page.tail(&mut counters.visits) == Tail::More;
    holds(rt, is_more == ((n as usize) < left.len()));
    match behind.last {
        Some(last) => Some(point::<D, W>(rt, last.as_slice())),
        None => None,
    }
}

// Lists a window of the tree by pages, which are to have these rows together.
fn list_pages<const D: usize, const W: u32, V: Ledger, C: Ledger>(
    rt: &impl Abort,
    pair: &Pair<D, W>,
    lo: Point<D>,
    hi: Point<D>,
    rows: &[Row<D>],
    n: u32,
    counters: &mut Counters<V, C>,
)
    requires few { D ≤ 16 }
    requires lo { IsPoint W D lo }
    requires hi { IsPoint W D hi }
{
    let mut left = rows;
    let mut last = None;
    for _ in 0..=rows.len() {
        let cursor = Cursor { lo, hi, last };
        last = page(rt, pair, &cursor, left, n, counters);
        if left.len() <= n as usize {
            return;
        }
        left = &left[n as usize..];
    }
    panic!(rt; "pages without rows");
}

// The rows of the table's window behind a point.
fn rows_behind<const D: usize, const W: u32>(
    rt: &impl Abort,
    alloc: Global,
    pair: &Pair<D, W>,
    cursor: &Cursor<D>,
) -> Vec<Row<D>>
    requires few { D ≤ 16 }
    requires last { IsLast W D cursor.now.last }
{
    let rows = pair
        .table
        .window(alloc, &cursor.lo, &cursor.hi)
        .expect(rt, "memory");
    let Some(last) = cursor.last else {
        return rows;
    };
    let mut behind = Vec::new(alloc);
    for row in rows {
        let p = point::<D, W>(rt, row.point.as_slice());
        if z_before(pair.table.width(), &last, &p) {
            behind.push(row).expect(rt, "memory");
        }
    }
    behind
}

// Lists a window, at once and by pages of one, two and three rows.
fn compare<const D: usize, const W: u32, V: Ledger, C: Ledger>(
    rt: &impl Abort,
    alloc: Global,
    pair: &Pair<D, W>,
    lo: Point<D>,
    hi: Point<D>,
    counters: &mut Counters<V, C>,
)
    requires few { D ≤ 16 }
    requires lo { IsPoint W D lo }
    requires hi { IsPoint W D hi }
{
    let rows = pair.table.window(alloc, &lo, &hi).expect(rt, "memory");
    list(rt, pair, lo, hi, &rows, counters);
    for n in 1..=3 {
        list_pages(rt, pair, lo, hi, &rows, n, counters);
    }
}

// Compares the windows with two points as corners, the bounds reversed in one dimension or in none, and that of the first alone.
fn compare_between<const D: usize, const W: u32, V: Ledger, C: Ledger>(
    rt: &impl Abort,
    alloc: Global,
    pair: &Pair<D, W>,
    a: &Point<D>,
    b: &Point<D>,
    counters: &mut Counters<V, C>,
)
    requires few { D ≤ 16 }
    requires point { IsPoint W D a.now }
{
    for reversed in 0..=D {
        let (lo, hi) = corners::<D, W>(rt, a, b, reversed);
        compare(rt, alloc, pair, lo, hi, counters);
    }
    compare(rt, alloc, pair, *a, *a, counters);
}

// Compares windows and a page between edits.
fn windows<const D: usize, const W: u32, V: Ledger, C: Ledger>(
    rt: &impl Abort,
    alloc: Global,
    choices: &[i64; 8],
    counters: &mut Counters<V, C>,
)
    requires some { 1 ≤ D }
    requires few { D ≤ 16 }
{
    let mut rng = Xoshiro256PlusPlus::seed_from_u64(SEED);
    let mut pair: Pair<D, W> = Pair::new(rt, alloc, u64::MAX);
    let width = pair.table.width();
    let least = point::<D, W>(rt, &[width.least(); D]);
    let greatest = point::<D, W>(rt, &[width.greatest(); D]);
    let mut last = None;
    for v in 0..EDITS {
        edit(rt, &mut pair, &mut rng, choices, v, counters);
        let a = draw::<D, W, Xoshiro256PlusPlus>(rt, &mut rng, choices);
        let b = draw::<D, W, Xoshiro256PlusPlus>(rt, &mut rng, choices);
        compare_between(rt, alloc, &pair, &a, &b, counters);
        compare(rt, alloc, &pair, least, greatest, counters);
        if v % CURSOR_EDITS == 0 {
            last = None;
        }
        let cursor = Cursor {
            lo: least,
            hi: greatest,
            last,
        };
        let left = rows_behind(rt, alloc, &pair, &cursor);
        last = page(rt, &pair, &cursor, &left, 2, counters);
    }
}

fn all_windows<V: Ledger, C: Ledger>(rt: &impl Abort, alloc: Global, visits: Blank, changes: Blank)
    requires visits { (visits.name ≡ V.name) × (visits.parts ≡ V.parts) × (0 < visits.parts) }
    requires changes { (changes.name ≡ C.name) × (changes.parts ≡ C.parts) × (0 < changes.parts) }
{
    let mut counters: Counters<V, C> = Counters::new(visits, changes);
    let line = [LEAST, LEAST + 1, -2, -1, 0, 1, 2, GREATEST];
    windows::<1, 32, V, C>(rt, alloc, &line, &mut counters);
    let square = [LEAST, LEAST, -2, -1, 0, 0, 1, GREATEST];
    windows::<2, 32, V, C>(rt, alloc, &square, &mut counters);
    let cube = [LEAST, -1, -1, 0, 0, 1, 1, GREATEST];
    windows::<3, 32, V, C>(rt, alloc, &cube, &mut counters);
    let mostly_zero = [LEAST, 0, 0, 0, 0, 0, 0, 1];
    windows::<8, 32, V, C>(rt, alloc, &mostly_zero, &mut counters);
    windows::<2, 1, V, C>(rt, alloc, &BINARY, &mut counters);
    windows::<9, 62, V, C>(rt, alloc, &WIDEST, &mut counters);
}

#[test]
fn windows_between_edits(rt: HostRuntime) {
    all_windows::<Brand, Brand>(&rt, rt.alloc(), Blank::new(1), Blank::new(1));
}
