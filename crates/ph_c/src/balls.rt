//! Rows within a radius of a point, written into lent arrays.
ghost use Rattle.std.specs.Prelude.{◌≡◌, ◌*◌, ◌≤◌, length, take, drop, slice_get};
ghost use Rattle.std.specs.List.{AllByRecursion as Each};
ghost use Rattle.ph_specs.specs.TableNames.{IsPoint};
ghost use Rattle.ph_specs.specs.Window.{is_after};
ghost use Rattle.ph_window.specs.Page.{IsLast};
ghost use Rattle.ph_c.specs.Trees.{table_at};
ghost use Rattle.ph_c.specs.Pages.{overlaid, points_of, values_of};
ghost use Rattle.ph_c.specs.Windows.{IsListed};
ghost use Rattle.ph_c.specs.Arrays.{SamePage, on_page};
ghost use Rattle.ph_c.specs.Balls.{IsBall, behind};

use crate::answers::{DONE, NO_POINT};
use crate::arrays::PageArrays;
use crate::pages::{last_in, overlay, overlay_word, room_for};
use crate::rows::point_in;
use ph_coord::{Point, Row, Width, z_before};
use ph_near::Ball;
use ph_steps::Steps;
use ph_tree::PhTree;
use std::sync::ledger::Ledger;

// Whether a point comes after the last one that was listed, if there is one.
fn is_behind<const D: usize>(w: Width, last: &Option<Point<D>>, p: &Point<D>) -> bool
    requires few { D ≤ 16 }
    requires last { IsLast w D last.now }
    requires point { IsPoint w D p.now }
    ensures { result ≡ is_after w last.now p.now }
{
    match last {
        Some(last) => z_before(w, last, p),
        None => true,
    }
}

// The next row of a ball that comes after the last one that was listed.
fn next_behind<const D: usize, V: Ledger>(
    ball: &mut Ball<'_, D>,
    w: Width,
    last: &Option<Point<D>>,
    visits: &mut Steps<V>,
) -> Option<Row<D>>
    requires few { D ≤ 16 }
    requires last { IsLast w D last.now }
    requires points { Each (λ h. IsPoint w D h.row.point) ball.old.hits }
    ensures row { result ≡ slice_get (behind w last.now ball.old.hits) 0 }
    ensures rest { behind w last.now ball.new.hits ≡ drop 1 (behind w last.now ball.old.hits) }
    ensures points { Each (λ h. IsPoint w D h.row.point) ball.new.hits }
{
    'hits: while let Some(hit) = ball.next(visits) {
        if is_behind(w, last, &hit.row.point) {
            return Some(hit.row);
        }
    }
    None
}

// Writes the first rows of a ball that come after the last one that was listed, as many as there is room for, and tells how many.
fn fill_behind<const D: usize, V: Ledger>(
    ball: &mut Ball<'_, D>,
    w: Width,
    last: &Option<Point<D>>,
    room: usize,
    points: &mut [i64],
    values: &mut [u64],
    visits: &mut Steps<V>,
) -> usize
    requires few { D ≤ 16 }
    requires last { IsLast w D last.now }
    requires inside { Each (λ h. IsPoint w D h.row.point) ball.old.hits }
    requires values_room { room ≤ length values.old }
    requires points_room { room * D ≤ length points.old }
    ensures count { result ≡ length (take room (behind w last.now ball.old.hits)) }
    ensures rest { behind w last.now ball.new.hits ≡ drop room (behind w last.now ball.old.hits) }
    ensures values { values.new ≡ overlaid (values_of (take room (behind w last.now ball.old.hits))) values.old }
    ensures points { points.new ≡ overlaid (points_of (take room (behind w last.now ball.old.hits))) points.old }
    ensures inside { Each (λ h. IsPoint w D h.row.point) ball.new.hits }
{
    for i in 0..room {
        let Some(row) = next_behind(ball, w, last, visits) else {
            return i;
        };
        overlay_word(values, i, row.value);
        overlay(points, i * D, row.point.as_slice());
    }
    room
}

// Writes the first rows of a ball that come after the last one that was listed, how many, and whether more are left.
fn list_behind<const D: usize, V: Ledger>(
    ball: &mut Ball<'_, D>,
    w: Width,
    last: &Option<Point<D>>,
    page: &mut PageArrays<'_>,
    visits: &mut Steps<V>,
)
    requires some { 1 ≤ D }
    requires few { D ≤ 16 }
    requires last { IsLast w D last.now }
    requires inside { Each (λ h. IsPoint w D h.row.point) ball.old.hits }
    ensures listed { IsListed D (behind w last.now ball.old.hits) (on_page page.old) (on_page page.new) }
    ensures same { SamePage page.old page.new }
{
    let room = room_for::<D>(page.points.len(), page.values.len());
    *page.count = fill_behind(ball, w, last, room, page.points, page.values, visits);
    *page.more = match next_behind(ball, w, last, visits) {
        Some(_) => 1,
        None => 0,
    };
}

/// Writes a page of a ball: the rows whose distance from a point, squared, is at most `radius`, behind the last point, or from the beginning
/// where no numbers are given for it.
pub(crate) fn list_ball<const D: usize, V: Ledger>(
    tree: &PhTree<D>,
    center: &[i64],
    radius: u128,
    last: &[i64],
    page: &mut PageArrays<'_>,
    visits: &mut Steps<V>,
) -> u32
    ensures page { IsBall (table_at D tree.now) center.now radius last.now (on_page page.old) (on_page page.new) result }
    ensures same { SamePage page.old page.new }
{
    // A use that makes known that the rows are a table, and the number of dimensions.
    let _root = tree.root();
    let (Some(q), Some(last)) = (point_in(tree, center), last_in(tree, last)) else {
        return NO_POINT;
    };
    let w = tree.width();
    let mut ball = Ball::new(tree, q, radius);
    list_behind(&mut ball, w, &last, page, visits);
    DONE
}
