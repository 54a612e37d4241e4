//! The boxes that a question about a box lists, written into lent arrays.
ghost use Rattle.std.specs.Prelude.{◌/◌, ◌%◌, ◌≡◌, ◌≤◌, ◌++◌};
ghost use Rattle.std.specs.Option.{SomeIff};
ghost use Rattle.ph_specs.specs.TableNames.{IsPoint};
ghost use Rattle.ph_c.specs.Trees.{table_at};
ghost use Rattle.ph_c.specs.Windows.{last_of};
ghost use Rattle.ph_c.specs.Arrays.{SamePage, on_page};
ghost use Rattle.ph_c.specs.Asked.{AreAsked, IsAsked};

use crate::answers::{DONE, NO_BOXES, NO_POINT, REVERSED};
use crate::arrays::PageArrays;
use crate::pages::{last_in, list_rows, window_at};
use ph_box::{Question, bounds, join_corners};
use ph_coord::{Point, Width, is_at_most};
use ph_steps::Steps;
use ph_tree::PhTree;
use ph_window::Cursor;
use std::sync::ledger::Ledger;

// The numbers of two corners of a box, one after the other.
fn corners_in<const D: usize>(w: Width, low: &[i64], high: &[i64]) -> Option<Point<D>>
    requires even { D % 2 ≡ 0 }
    ensures { SomeIff result (IsPoint w (D / 2) low.now × IsPoint w (D / 2) high.now) (low.now ++ high.now) }
{
    if low.len() != D / 2 || high.len() != D / 2 {
        return None;
    }
    Point::from_slice(w, join_corners::<D>(low, high).as_slice())
}

// The asked box, of corners of half as many numbers as a point has, and the last point that was listed.
fn asked_in<const D: usize>(
    tree: &PhTree<D>,
    low: &[i64],
    high: &[i64],
    last: &[i64],
) -> Option<(Point<D>, Option<Point<D>>)>
    requires few { D ≤ 16 }
    requires even { D % 2 ≡ 0 }
    ensures { SomeIff result (AreAsked (table_at D tree.now) low.now high.now last.now) (low.now ++ high.now, last_of last.now) }
{
    match (corners_in(tree.width(), low, high), last_in(tree, last)) {
        (Some(asked), Some(last)) => Some((asked, last)),
        _ => None,
    }
}

/// Writes a page of the boxes that a question about the box between two corners lists.
pub(crate) fn list_boxes<const D: usize, V: Ledger>(
    tree: &PhTree<D>,
    question: Question,
    low: &[i64],
    high: &[i64],
    last: &[i64],
    page: &mut PageArrays<'_>,
    visits: &mut Steps<V>,
) -> u32
    ensures page { IsAsked question (table_at D tree.now) low.now high.now last.now (on_page page.old) (on_page page.new) result }
    ensures same { SamePage page.old page.new }
{
    if D % 2 != 0 {
        return NO_BOXES;
    }
    list_asked(tree, question, low, high, last, page, visits)
}

// The same where the points can be boxes.
fn list_asked<const D: usize, V: Ledger>(
    tree: &PhTree<D>,
    question: Question,
    low: &[i64],
    high: &[i64],
    last: &[i64],
    page: &mut PageArrays<'_>,
    visits: &mut Steps<V>,
) -> u32
    requires { D % 2 ≡ 0 }
    ensures page { IsAsked question (table_at D tree.now) low.now high.now last.now (on_page page.old) (on_page page.new) result }
    ensures same { SamePage page.old page.new }
{
    // A use that makes known that the rows are a table, and the number of dimensions.
    let _root = tree.root();
    let Some(given) = asked_in(tree, low, high, last) else {
        return NO_POINT;
    };
    let (asked, last) = given;
    if !is_at_most(low, high) {
        return REVERSED;
    }
    let (lo, hi) = bounds(question, tree.width(), &asked);
    let mut window = window_at(tree, &Cursor { lo, hi, last }, visits);
    list_rows(&mut window, page, visits);
    DONE
}
