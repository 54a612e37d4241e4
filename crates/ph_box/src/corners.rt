//! Boxes as points: the coordinates of the low corner, and then those of the high corner.
ghost use Rattle.std.specs.Prelude.{◌≡◌, ◌*◌, ◌/◌, ◌%◌, ◌≤◌, ◌++◌, length, false, true, IfSome, MatchOption};
ghost use Rattle.ph_specs.specs.TableNames.{at_most, high_corner, low_corner, IsBox, IsPoint};

use ph_coord::{Point, Width, is_at_most};

/// The box from one corner to another, as a point. `None` where a coordinate of the first is above that of the second.
///
/// It takes no memory.
pub fn join_box<const K: usize, const D: usize>(
    w: Width,
    lo: &Point<K>,
    hi: &Point<K>,
) -> Option<Point<D>>
    requires dims { K * 2 ≡ D }
    requires few { D ≤ 16 }
    requires low { IsPoint w K lo.now }
    requires high { IsPoint w K hi.now }
    ensures value { MatchOption result (at_most lo.now hi.now ≡ false) (λ p. (at_most lo.now hi.now ≡ true) × (p ≡ lo.now ++ hi.now)) }
    ensures point { IfSome result (λ p. IsPoint w D p × IsBox p) }
{
    let (low, high) = (lo.as_slice(), hi.as_slice());
    if is_at_most(low, high) {
        Some(join_corners(low, high))
    } else {
        None
    }
}

/// The low and the high corner of a box that is given as a point.
///
/// It takes no memory.
pub fn split_box<const K: usize, const D: usize>(w: Width, p: &Point<D>) -> (Point<K>, Point<K>)
    requires dims { K * 2 ≡ D }
    requires few { D ≤ 16 }
    requires point { IsPoint w D p.now }
    ensures low { result.0 ≡ low_corner p.now }
    ensures high { result.1 ≡ high_corner p.now }
    ensures points { IsPoint w K result.0 × IsPoint w K result.1 }
{
    let (low, high) = corners_of(w, p);
    (point_of(low), point_of(high))
}

// The coordinates of the low and of the high corner of a box that is given as a point.
pub(crate) fn corners_of<const D: usize>(w: Width, p: &Point<D>) -> (&[i64], &[i64])
    requires even { D % 2 ≡ 0 }
    requires point { IsPoint w D p.now }
    ensures low { result.0.now ≡ low_corner p.now }
    ensures high { result.1.now ≡ high_corner p.now }
    ensures points { IsPoint w (D / 2) result.0.now × IsPoint w (D / 2) result.1.now }
{
    p.as_slice().split_at(D / 2)
}

// The point of these coordinates.
fn point_of<const K: usize>(coords: &[i64]) -> Point<K>
    requires { length coords.now ≡ K }
    ensures { result ≡ coords.now }
{
    let mut point = [0; K];
    point.copy_from_slice(coords);
    Point::new(point)
}

/// The coordinates of two corners, one after the other, as a point of twice as many dimensions. It need not be a box, nor of a width.
///
/// It takes no memory.
pub fn join_corners<const D: usize>(low: &[i64], high: &[i64]) -> Point<D>
    requires low { length low.now * 2 ≡ D }
    requires high { length high.now ≡ length low.now }
    ensures { result ≡ low.now ++ high.now }
{
    let mut coords = [0; D];
    let (first, second) = coords.as_mut_slice().split_at_mut(D / 2);
    first.copy_from_slice(low);
    second.copy_from_slice(high);
    Point::new(coords)
}
