//! Boxes: points whose first half is the least corner and whose second half is the greatest.
ghost use Rattle.std.specs.Prelude.{◌≡◌, ◌%◌, length};
ghost use Rattle.ph_specs.specs.TableNames.{at_most, is_box as the_is_box};

use crate::point::Point;

/// Whether a point is a box: the first half of its coordinates is at most the second, number by number.
pub fn is_box<const D: usize>(p: &Point<D>) -> bool
    requires even { D % 2 ≡ 0 }
    ensures { result ≡ the_is_box p.now }
{
    let (low, high) = p.as_slice().split_at(D / 2);
    is_at_most(low, high)
}

/// Whether each number is at most the other one at its place.
pub fn is_at_most(low: &[i64], high: &[i64]) -> bool
    requires { length low.now ≡ length high.now }
    ensures { result ≡ at_most low.now high.now }
{
    for (a, b) in low.iter().zip(high) {
        if *b < *a {
            return false;
        }
    }
    true
}
