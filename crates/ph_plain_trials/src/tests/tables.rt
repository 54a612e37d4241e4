//! Rows of the plain index.
ghost use Rattle.std.specs.Prelude.{◌≡◌, ◌≤◌};

use super::claims::holds;
use super::{point, width};
use ph_coord::{Row, Width};
use ph_table::{Hit, Put, Table};
use std::alloc::Global;
use std::process::Abort;

// A row by its coordinates and its value.
type Given = ([i64; 2], u64);

// Puts rows at points where none is.
fn put_new(rt: &impl Abort, table: &mut Table<2>, rows: &[Given])
    requires { table.old.width ≡ 32 }
    ensures { table.new.width ≡ 32 }
{
    let w = width(rt, 32);
    for (coords, value) in rows {
        let put = table.put(point(rt, w, coords), *value).expect(rt, "memory");
        holds(rt, put == Put::New);
    }
}

fn is_row(row: &Row<2>, given: &Given) -> bool {
    row.point.as_slice() == given.0.as_slice() && row.value == given.1
}

fn check_rows(rt: &impl Abort, rows: &[Row<2>], expected: &[Given]) {
    holds(rt, rows.len() == expected.len());
    for (row, given) in rows.iter().zip(expected) {
        holds(rt, is_row(row, given));
    }
}

#[test]
fn unit_square_in_z_order(rt: HostRuntime) {
    let w = width(&rt, 32);
    let mut table: Table<2> = Table::new(rt.alloc(), w);
    let rows = [([1, 1], 4), ([1, 0], 3), ([0, 1], 2), ([0, 0], 1)];
    put_new(&rt, &mut table, &rows);
    let (lo, hi) = (point(&rt, w, &[0, 0]), point(&rt, w, &[1, 1]));
    let found = table.window(rt.alloc(), &lo, &hi).expect(&rt, "memory");
    holds(&rt, found.as_slice() == table.rows());
    let expected = [([0, 0], 1), ([0, 1], 2), ([1, 0], 3), ([1, 1], 4)];
    check_rows(&rt, found.as_slice(), &expected);
    let put = table.put(lo, 5).expect(&rt, "memory");
    holds(&rt, put == Put::Old(1));
}

// Rows at one distance from the origin, and one far away.
const ROWS: [Given; 5] = [
    ([1, 0], 1),
    ([0, 1], 2),
    ([-1, 0], 3),
    ([0, -1], 4),
    ([2147483647, 2147483647], 5),
];

// These rows by their distance from the origin, which comes behind each.
const FROM_ORIGIN: [(Given, u128); 5] = [
    (([-1, 0], 3), 1),
    (([0, -1], 4), 1),
    (([0, 1], 2), 1),
    (([1, 0], 1), 1),
    (([2147483647, 2147483647], 5), 9223372028264841218),
];

fn is_hit(hit: &Hit<2>, (given, distance): &(Given, u128)) -> bool {
    is_row(&hit.row, given) && hit.distance == *distance
}

// So many rows by their distance from the origin.
fn check_nearest(rt: &impl Abort, alloc: Global, table: &Table<2>, n: u32, many: usize)
    requires { table.now.width ≡ 32 }
{
    let origin = point(rt, width(rt, 32), &[0, 0]);
    let hits = table.near(alloc, &origin, n).expect(rt, "memory");
    holds(rt, hits.len() == many);
    for (hit, expected) in hits.iter().zip(&FROM_ORIGIN) {
        holds(rt, is_hit(hit, expected));
    }
}

#[test]
fn nearest_rows_in_order(rt: HostRuntime) {
    let w = width(&rt, 32);
    let mut table: Table<2> = Table::new(rt.alloc(), w);
    put_new(&rt, &mut table, &ROWS);
    check_nearest(&rt, rt.alloc(), &table, 0, 0);
    check_nearest(&rt, rt.alloc(), &table, 3, 3);
    check_nearest(&rt, rt.alloc(), &table, 9, 5);
    let corner = point(&rt, w, &[-2147483648, -2147483648]);
    let hits = table
        .near(rt.alloc(), &corner, u32::MAX)
        .expect(&rt, "memory");
    let farthest = hits.last().expect(&rt, "no hits");
    holds(&rt, farthest.row.value == 5);
    holds(&rt, farthest.distance == 36893488130239234050);
}
