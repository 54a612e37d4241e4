//! Points between two corners.
ghost use Rattle.std.specs.Prelude.{◌≡◌};
ghost use Rattle.ph_specs.specs.TableNames.{is_between as lies_between};

use ph_coord::{Point, is_at_most};

// Whether a point lies between two corners, in every coordinate.
pub fn is_between<const D: usize>(lo: &Point<D>, hi: &Point<D>, p: &Point<D>) -> bool
    ensures { result ≡ lies_between lo.now hi.now p.now }
{
    is_at_most(lo.as_slice(), p.as_slice()) && is_at_most(p.as_slice(), hi.as_slice())
}
