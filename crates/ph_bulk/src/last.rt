//! Rows in any order as rows of a table.
ghost use Rattle.std.specs.Prelude.{◌≡◌, ◌≤◌, ◌<◌, ◌^◌, not, IfOk, OnOk, IsTrue};
ghost use Rattle.std.specs.List.{list_all, AllByRecursion as Each};
ghost use Rattle.std.specs.List.Sorted.{IsSortedBy};
ghost use Rattle.ph_specs.specs.TableNames.{is_point, IsPoint, table_of, put, is_value, IsTable, before};
ghost use Rattle.ph_model.specs.ModelNames.{IsRising};
ghost use Rattle.ph_bulk.specs.Order.{row_before, is_last, without_last};

use crate::NoMemory;
use crate::order::sort_rows;
use crate::rise::rising;
use ph_coord::{Point, Row, Width};
use std::alloc::Global;

/// The rows of the table that rows make, in Z-order: of equal points the last row stays.
///
/// Rows that rise are given back as they are. Others are sorted, by one comparison of D words for each step or, from eight dimensions on
/// and with at most 128 digits in all, by a code that is made once for each row. It takes the memory that the sort takes; only where a
/// point stands twice are rows copied. Nothing stands after an error.
pub fn last_rows<const D: usize>(
    alloc: Global,
    w: Width,
    rows: Vec<Row<D>>,
) -> Result<Vec<Row<D>>, NoMemory>
    requires dims { D ≤ 16 }
    requires points { Each (λ r. IsPoint w D r.point) rows.items }
    ensures rows { IfOk result (λ v. v.items ≡ table_of w rows.entry.items) }
    ensures table { IfOk result (λ v. IsTable w D v.items) }
{
    let _bits = w.bits();
    are_values(rows.as_slice());
    if rising(w, rows.as_slice()) {
        return Ok(rows);
    }
    let mut sorted = rows;
    sort_rows(w, &mut sorted)?;
    if rising(w, sorted.as_slice()) {
        return Ok(sorted);
    }
    last_of_each(alloc, w, sorted.as_slice())
}

// The values of rows are of 64 bits. It does nothing when it runs.
#[inline(always)]
fn are_values<const D: usize>(rows: &[Row<D>])
    ensures { IsTrue (list_all (λ r. is_value r.value) rows.now) }
{
    for row in rows {
        value_of(row);
    }
}

// The value of a row. It is of 64 bits.
#[inline(always)]
fn value_of<const D: usize>(row: &Row<D>) -> u64
    ensures value { result ≡ row.now.value }
    ensures limit { result < 2 ^ 64 }
{
    row.value
}

// The last of the rows at each point, of sorted rows.
fn last_of_each<const D: usize>(
    alloc: Global,
    w: Width,
    rows: &[Row<D>],
) -> Result<Vec<Row<D>>, NoMemory>
    requires dims { D ≤ 16 }
    requires points { Each (λ r. IsPoint w D r.point) rows.now }
    requires sorted { IsSortedBy (row_before w) rows.now }
    ensures { IfOk result (λ v. v.items ≡ table_of w rows.now) }
{
    let _bits = w.bits();
    let mut last = Vec::with_capacity(alloc, rows.len())?;
    for row in rows {
        put_last(w, &mut last, *row)?;
    }
    Ok(last)
}

// Puts a row that comes before none of some rows behind them, in place of one at its point.
fn put_last<const D: usize>(w: Width, rows: &mut Vec<Row<D>>, row: Row<D>) -> Result<(), NoMemory>
    requires dims { D ≤ 16 }
    requires point { IsPoint w D row.point }
    requires points { IsTrue (list_all (λ r. is_point w D r.point) rows.old.items) }
    requires rise { IsRising w rows.old.items }
    requires behind { IsTrue (list_all (λ r. not (before w row.point r.point)) rows.old.items) }
    ensures { OnOk result (rows.new.items ≡ put w rows.old.items row.entry.point row.entry.value) }
{
    let _bits = w.bits();
    drop_last(rows, &row.point);
    rows.push(row)?;
    Ok(())
}

// Drops the last row, where it is at a point.
fn drop_last<const D: usize>(rows: &mut Vec<Row<D>>, p: &Point<D>)
    requires { D ≤ 16 }
    ensures { rows.new.items ≡ without_last rows.old.items p.now }
{
    if has_last(rows.as_slice(), p) {
        rows.pop();
    }
}

// Whether the last row is at a point.
fn has_last<const D: usize>(rows: &[Row<D>], p: &Point<D>) -> bool
    ensures { result ≡ is_last rows.now p.now }
{
    match rows.last() {
        Some(row) => row.point == *p,
        None => false,
    }
}
