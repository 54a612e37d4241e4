//! The order in which rows are sorted.
ghost use Rattle.std.specs.Prelude.{◌≡◌, ◌≤◌, ◌*◌, length, map, IsTrue, OnOk};
ghost use Rattle.std.specs.List.{AllByRecursion as Each};
ghost use Rattle.std.specs.List.Sorted.{IsPermutation, IsSortedBy, IsStableBy};
ghost use Rattle.std.specs.Ordering.{is_lt};
ghost use Rattle.ph_bulk.specs.Order.{any_offset, row_before, code_of};

use crate::NoMemory;
use ph_coord::{Point, Row, Width};
use ph_digits::{body_address, digits_below, words_cmp};
use std::cmp::Ordering;

// With fewer dimensions a comparison is cheap, and codes save nothing.
const LEAST_CODED_DIMS: usize = 8;

// How many digits a code has room for.
const CODE_DIGITS: usize = 128;

/// Sorts rows by the Z-order of their points. Rows at one point keep their order.
///
/// Points of eight dimensions and more, and of few digits, are sorted by codes, with room for the codes and for the rows once more.
/// Rows that rise already would take several times as long by codes, so ask `rising` first.
pub(crate) fn sort_rows<const D: usize>(w: Width, rows: &mut Vec<Row<D>>) -> Result<(), NoMemory>
    requires { D ≤ 16 }
    ensures sorted { OnOk result (IsSortedBy (row_before w) rows.new.items) }
    ensures stable { OnOk result (IsStableBy (row_before w) rows.old.items rows.new.items) }
    ensures moved { IsPermutation rows.old.items rows.new.items }
{
    if has_codes::<D>(w) {
        sort_by_codes(w, rows)
    } else {
        sort_by_words(w, rows)
    }
}

// Whether points are sorted by codes.
fn has_codes<const D: usize>(w: Width) -> bool
    requires { D ≤ 16 }
    ensures { IsTrue result → D * w ≤ 128 }
{
    D >= LEAST_CODED_DIMS && D * w.bits() as usize <= CODE_DIGITS
}

// Sorts rows by the codes of their points, each made once.
fn sort_by_codes<const D: usize>(w: Width, rows: &mut Vec<Row<D>>) -> Result<(), NoMemory>
    requires dims { D ≤ 16 }
    requires digits { D * w ≤ 128 }
    ensures sorted { OnOk result (IsSortedBy (row_before w) rows.new.items) }
    ensures stable { OnOk result (IsStableBy (row_before w) rows.old.items rows.new.items) }
    ensures moved { IsPermutation rows.old.items rows.new.items }
{
    let _bits = w.bits();
    have_dims(rows.as_slice());
    rows.sort_by_cached_key(
        |row|
            requires dims { D ≤ 16 }
            requires digits { D * w ≤ 128 }
            ensures { result ≡ code_of w row.now.point }
        { code_of(w, &row.point) },
    )?;
    Ok(())
}

// Sorts rows by comparing their points.
fn sort_by_words<const D: usize>(w: Width, rows: &mut Vec<Row<D>>) -> Result<(), NoMemory>
    requires { D ≤ 16 }
    ensures sorted { OnOk result (IsSortedBy (row_before w) rows.new.items) }
    ensures stable { OnOk result (IsStableBy (row_before w) rows.old.items rows.new.items) }
    ensures moved { IsPermutation rows.old.items rows.new.items }
{
    rows.sort_by(
        |a, b|
            requires { D ≤ 16 }
            ensures { is_lt result ≡ row_before w a.now b.now }
        { row_cmp(w, a, b) },
    )?;
    Ok(())
}

// Points have a number for each dimension. It does nothing when it runs.
#[inline(always)]
fn have_dims<const D: usize>(rows: &[Row<D>])
    ensures { Each (λ r. length r.point ≡ D) rows.now }
{
    for row in rows {
        numbers_of(row);
    }
}

// The numbers of a row's point, one for each dimension.
#[inline(always)]
fn numbers_of<const D: usize>(row: &Row<D>) -> &[i64]
    ensures { length row.now.point ≡ D }
{
    row.point.as_slice()
}

// The digits of a point's offsets as one number: the addresses, from the greatest place down.
fn code_of<const D: usize>(w: Width, p: &Point<D>) -> u128
    requires dims { D ≤ 16 }
    requires digits { D * w ≤ 128 }
    ensures { result ≡ code_of w p.now }
{
    let offsets = any_offsets(w, p);
    let mut code = 0;
    for place in (0..w.bits()).rev() {
        code = (code << D) + u128::from(body_address(place, &offsets));
    }
    code
}

// How the point of a row stands to that of another.
fn row_cmp<const D: usize>(w: Width, a: &Row<D>, b: &Row<D>) -> Ordering
    requires { D ≤ 16 }
    ensures { is_lt result ≡ row_before w a.now b.now }
{
    words_cmp(&any_offsets(w, &a.point), &any_offsets(w, &b.point))
}

// The offsets of a point's coordinates.
fn any_offsets<const D: usize>(w: Width, p: &Point<D>) -> [u64; D]
    ensures { result ≡ map (any_offset w) p.now }
{
    let mut offsets = [0; D];
    for (i, c) in p.as_slice().iter().enumerate() {
        offsets[i] = any_offset(w, *c);
    }
    offsets
}

// The offset of a coordinate, with no test of its range: a sort may compare any two rows, so each number has to have one.
fn any_offset(w: Width, c: i64) -> u64
    ensures { result ≡ any_offset w c }
{
    let half = 1 << (w.bits() - 1);
    digits_below(w.bits(), c.cast_unsigned().wrapping_add(half))
}
