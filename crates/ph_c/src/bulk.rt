//! A tree of D dimensions of many rows at once.
ghost use Rattle.std.specs.Prelude.{◌≡◌, ◌↔◌, ◌+◌, ◌*◌, ◌<◌, ◌≤◌, ◌∷◌, [], true, length, take, drop, IfOk, IfErr, IsTrue, MatchResult};
ghost use Rattle.std.specs.List.{list_all};
ghost use Rattle.ph_specs.specs.TableNames.{fits, IsTable, table_of};
ghost use Rattle.ph_c.specs.Trees.{table_at};
ghost use Rattle.ph_c.specs.Answers.{IsOneOf};
ghost use Rattle.ph_c.specs.Builds.{IsBuilt, NotBuilt, rows_for, rows_of};

use crate::answers::{FULL, NO_MEMORY, NO_POINT, UNLIKE};
use ph_bulk::{NoMemory, build, last_rows};
use ph_coord::{Point, Row, Width};
use ph_steps::Steps;
use ph_tree::PhTree;
use std::alloc::Global;
use std::sync::ledger::Ledger;

// Whether there are D coordinates for each value.
fn are_paired<const D: usize>(points: &[i64], values: &[u64]) -> bool
    requires { 1 ≤ D }
    ensures { IsTrue result ↔ (length points.now ≡ length values.now * D) }
{
    points.len() % D == 0 && points.len() / D == values.len()
}

// Whether each number is a coordinate of a width.
fn are_coordinates(w: Width, numbers: &[i64]) -> bool
    ensures { result ≡ list_all (fits w) numbers.now }
{
    numbers.iter().all(|c| w.fits(*c))
}

// The i-th point of those whose coordinates stand one behind the other.
fn point_at<const D: usize>(points: &[i64], i: usize) -> Point<D>
    requires { i * D + D ≤ length points.now }
    ensures { result ≡ take D (drop (i * D) points.now) }
{
    let mut coords = [0; D];
    coords.copy_from_slice(&points[i * D..i * D + D]);
    Point::new(coords)
}

// The rows of points, whose coordinates stand one behind the other, and of values.
fn rows_of<const D: usize>(
    alloc: Global,
    points: &[i64],
    values: &[u64],
) -> Result<Vec<Row<D>>, NoMemory>
    requires { length points.now ≡ length values.now * D }
    ensures { IfOk result (λ rows. rows.items ≡ rows_of D points.now values.now) }
{
    let mut rows = Vec::with_capacity(alloc, values.len())?;
    for i in 0..values.len() {
        let point = point_at(points, i);
        let value = values[i];
        rows.push(Row { point, value })?;
    }
    Ok(rows)
}

// The rows of the table that rows make, in Z-order: of those at one point the last stays.
fn last_of_rows<const D: usize>(
    alloc: Global,
    w: Width,
    points: &[i64],
    values: &[u64],
) -> Result<Vec<Row<D>>, NoMemory>
    requires few { D ≤ 16 }
    requires paired { length points.now ≡ length values.now * D }
    requires coordinates { list_all (fits w) points.now ≡ true }
    ensures rows { IfOk result (λ rows. rows.items ≡ table_of w (rows_of D points.now values.now)) }
    ensures table { IfOk result (λ rows. IsTable w D rows.items) }
{
    let rows = rows_of(alloc, points, values)?;
    last_rows(alloc, w, rows)
}

// The tree of the rows of a table, for at most `most` of them.
fn tree_of_table<const D: usize, C: Ledger>(
    alloc: Global,
    w: Width,
    most: u64,
    rows: &[Row<D>],
    changes: &mut Steps<C>,
) -> Result<PhTree<D>, u32>
    requires some { 1 ≤ D }
    requires few { D ≤ 16 }
    requires table { IsTable w D rows.now }
    ensures fits { IfOk result (λ t. length rows.now ≤ most) }
    ensures tree { IfOk result (λ t. t ≡ record { table = rows.now; width = w; max = most }) }
    ensures known { IfErr result (IsOneOf (FULL ∷ NO_MEMORY ∷ [])) }
    ensures full { IfErr result (λ e. e ≡ FULL → most < length rows.now) }
{
    if rows.len() as u64 > most {
        return Err(FULL);
    }
    let Ok(mut tree) = build(alloc, w, rows, changes) else {
        return Err(NO_MEMORY);
    };
    let _set = tree.set_max(most);
    Ok(tree)
}

/// The tree of rows, for at most `most` of them, or the answer why there is none.
pub(crate) fn tree_of_rows<const D: usize, C: Ledger>(
    alloc: Global,
    w: Width,
    most: u64,
    points: &[i64],
    values: &[u64],
    changes: &mut Steps<C>,
) -> Result<PhTree<D>, u32>
    requires some { 1 ≤ D }
    requires few { D ≤ 16 }
    ensures { MatchResult result
        (λ t. IsBuilt (rows_for D w most points.now values.now) (table_at D t))
        (NotBuilt (rows_for D w most points.now values.now)) }
{
    // A use that makes the range of the width known.
    let _bits = w.bits();
    if !are_paired::<D>(points, values) {
        return Err(UNLIKE);
    }
    if !are_coordinates(w, points) {
        return Err(NO_POINT);
    }
    match last_of_rows(alloc, w, points, values) {
        Ok(rows) => tree_of_table(alloc, w, most, rows.as_slice(), changes),
        Err(_) => Err(NO_MEMORY),
    }
}
