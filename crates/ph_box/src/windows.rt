//! The windows that answer questions about boxes.
ghost use Rattle.std.specs.Prelude.{◌≡◌, ◌*◌, ◌%◌, ◌≤◌, ◌++◌, length, replicate};
ghost use Rattle.ph_specs.specs.TableNames.{IsWindowFor, greatest, high_corner, least, low_corner, IsPoint};
ghost use Rattle.ph_box.specs.Questions.{asks, low_bound, high_bound};

use crate::corners::{corners_of, join_corners};
use crate::question::Question;
use ph_coord::{Point, Width};

/// The corners of the window whose boxes are those that a question about a box lists.
///
/// A box overlaps the asked one where it begins at or before the end and ends at or after the start, in each dimension. The asked one may
/// have its corners exchanged: the clauses hold for any point. It takes no memory.
pub fn bounds<const D: usize>(
    question: Question,
    w: Width,
    asked: &Point<D>,
) -> (Point<D>, Point<D>)
    requires even { D % 2 ≡ 0 }
    requires few { D ≤ 16 }
    requires point { IsPoint w D asked.now }
    ensures from { result.0 ≡ low_bound question w (low_corner asked.now) (high_corner asked.now) }
    ensures to { result.1 ≡ high_bound question w (low_corner asked.now) (high_corner asked.now) }
    ensures points { IsPoint w D result.0 × IsPoint w D result.1 }
    ensures window { IsWindowFor w D (asks question asked.now) result.0 result.1 }
{
    let (low, high) = corners_of(w, asked);
    match question {
        Question::Overlap => (behind_least(w, low), before_greatest(w, high)),
        Question::Inside => (join_corners(low, low), join_corners(high, high)),
        Question::Cover => (behind_least(w, high), before_greatest(w, low)),
    }
}

// The least coordinate in each dimension, and then these coordinates.
fn behind_least<const D: usize>(w: Width, p: &[i64]) -> Point<D>
    requires half { length p.now * 2 ≡ D }
    ensures { result ≡ replicate (length p.now) (least w) ++ p.now }
{
    let mut coords = [w.least(); D];
    let (_, second) = coords.as_mut_slice().split_at_mut(D / 2);
    second.copy_from_slice(p);
    Point::new(coords)
}

// These coordinates, and then the greatest one in each dimension.
fn before_greatest<const D: usize>(w: Width, p: &[i64]) -> Point<D>
    requires half { length p.now * 2 ≡ D }
    ensures { result ≡ p.now ++ replicate (length p.now) (greatest w) }
{
    let mut coords = [w.greatest(); D];
    let (first, _) = coords.as_mut_slice().split_at_mut(D / 2);
    first.copy_from_slice(p);
    Point::new(coords)
}
