//! Rows written into lent arrays.
ghost use Rattle.std.specs.Prelude.{◌≡◌, ◌+◌, ◌*◌, ◌<◌, ◌≤◌, ◌++◌, ◌∷◌, [], length, take, drop};
ghost use Rattle.std.specs.Option.{SomeIff};
ghost use Rattle.ph_c.specs.Trees.{table_at};
ghost use Rattle.ph_c.specs.Pages.{points_of, values_of, overlaid, IsRoom};
ghost use Rattle.ph_c.specs.Windows.{AreCorners, cursor_at, IsWindow, IsListed, IsLastIn, last_of};
ghost use Rattle.ph_c.specs.Arrays.{SamePage, on_page};
ghost use Rattle.ph_specs.specs.TableNames.{IsPoint, rest};
ghost use Rattle.ph_window.specs.Page.{IsLast};

use crate::answers::{DONE, NO_POINT};
use crate::arrays::PageArrays;
use crate::rows::point_in;
use ph_coord::Point;
use ph_steps::Steps;
use ph_tree::PhTree;
use ph_window::{Cursor, Window};
use std::sync::ledger::Ledger;

/// How many rows of D dimensions fit into arrays of so many coordinates and so many values.
pub(crate) fn room_for<const D: usize>(points: usize, values: usize) -> usize
    requires some { 1 ≤ D }
    requires few { D ≤ 16 }
    ensures { IsRoom D points values result }
{
    let rows = points / D;
    if rows < values { rows } else { values }
}

/// Writes numbers over those of an array from a place on.
pub(crate) fn overlay(array: &mut [i64], place: usize, numbers: &[i64])
    requires { place + length numbers.now ≤ length array.old }
    ensures { array.new ≡ take place array.old ++ numbers.now ++ drop (place + length numbers.now) array.old }
{
    array[place..place + numbers.len()].copy_from_slice(numbers);
}

/// Writes a number over that of an array at a place.
pub(crate) fn overlay_word(array: &mut [u64], place: usize, word: u64)
    requires { place < length array.old }
    ensures { array.new ≡ take place array.old ++ (word ∷ []) ++ drop (place + 1) array.old }
{
    array[place] = word;
}

/// Writes the first rows of a window, as many as there is room for, and tells how many.
pub(crate) fn fill<const D: usize, V: Ledger>(
    window: &mut Window<'_, D>,
    room: usize,
    points: &mut [i64],
    values: &mut [u64],
    visits: &mut Steps<V>,
) -> usize
    requires few { D ≤ 16 }
    requires values_room { room ≤ length values.old }
    requires points_room { room * D ≤ length points.old }
    ensures count { result ≡ length (take room window.old.rows) }
    ensures rest { window.new.rows ≡ drop room window.old.rows }
    ensures values { values.new ≡ overlaid (values_of (take room window.old.rows)) values.old }
    ensures points { points.new ≡ overlaid (points_of (take room window.old.rows)) points.old }
{
    for i in 0..room {
        let Some(row) = window.next(visits) else {
            return i;
        };
        overlay_word(values, i, row.value);
        overlay(points, i * D, row.point.as_slice());
    }
    room
}

/// Writes the first rows of a window, how many, and whether more are left.
pub(crate) fn list_rows<const D: usize, V: Ledger>(
    window: &mut Window<'_, D>,
    page: &mut PageArrays<'_>,
    visits: &mut Steps<V>,
)
    requires some { 1 ≤ D }
    requires few { D ≤ 16 }
    ensures listed { IsListed D window.old.rows (on_page page.old) (on_page page.new) }
    ensures same { SamePage page.old page.new }
{
    let room = room_for::<D>(page.points.len(), page.values.len());
    *page.count = fill(window, room, page.points, page.values, visits);
    *page.more = match window.next(visits) {
        Some(_) => 1,
        None => 0,
    };
}

/// Writes a page of a window: the rows between two corners behind the last point, or from the beginning where no numbers are given for it.
pub(crate) fn list_window<const D: usize, V: Ledger>(
    tree: &PhTree<D>,
    low: &[i64],
    high: &[i64],
    last: &[i64],
    page: &mut PageArrays<'_>,
    visits: &mut Steps<V>,
) -> u32
    ensures page { IsWindow (table_at D tree.now) low.now high.now last.now (on_page page.old) (on_page page.new) result }
    ensures same { SamePage page.old page.new }
{
    // A use that makes the number of dimensions known.
    let _root = tree.root();
    let Some(cursor) = cursor_in(tree, low, high, last) else {
        return NO_POINT;
    };
    let mut window = window_at(tree, &cursor, visits);
    list_rows(&mut window, page, visits);
    DONE
}

/// The window behind the last point that was listed.
pub(crate) fn window_at<'t, const D: usize, V: Ledger>(
    tree: &'t PhTree<D>,
    cursor: &Cursor<D>,
    visits: &mut Steps<V>,
) -> Window<'t, D>
    requires lo { IsPoint tree.now.width D cursor.now.lo }
    requires hi { IsPoint tree.now.width D cursor.now.hi }
    requires last { IsLast tree.now.width D cursor.now.last }
    ensures { result.rows ≡ rest tree.now.width cursor.now tree.now.table }
{
    match cursor.last {
        Some(last) => Window::after(tree, cursor.lo, cursor.hi, last, visits),
        None => Window::new(tree, cursor.lo, cursor.hi),
    }
}

// The cursor of these numbers, if its points are of the tree.
fn cursor_in<const D: usize>(
    tree: &PhTree<D>,
    low: &[i64],
    high: &[i64],
    last: &[i64],
) -> Option<Cursor<D>>
    requires { D ≤ 16 }
    ensures { SomeIff result (AreCorners (table_at D tree.now) low.now high.now last.now) (cursor_at low.now high.now last.now) }
{
    let (Some(lo), Some(hi)) = (point_in(tree, low), point_in(tree, high)) else {
        return None;
    };
    match last_in(tree, last) {
        Some(last) => Some(Cursor { lo, hi, last }),
        None => None,
    }
}

/// The last point that was listed, of numbers that are a point of the tree, or none where there are no numbers.
pub(crate) fn last_in<const D: usize>(tree: &PhTree<D>, last: &[i64]) -> Option<Option<Point<D>>>
    requires { D ≤ 16 }
    ensures { SomeIff result (IsLastIn (table_at D tree.now) last.now) (last_of last.now) }
{
    if last.len() == 0 {
        return Some(None);
    }
    match point_in(tree, last) {
        Some(point) => Some(Some(point)),
        None => None,
    }
}
