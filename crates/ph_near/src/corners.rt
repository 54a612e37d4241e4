//! The least numbers of the parts of a node's region, and how far these are from a point.

ghost use Rattle.std.specs.Prelude.{◌≡◌, ◌≤◌};
ghost use Rattle.ph_model.specs.ModelNames.{IsBody};
ghost use Rattle.ph_near.specs.Corners.{AreCorners};

use crate::beyond::squared_gap;
use crate::distances::Distances;
use ph_digits::{address_digit, digits_above};

// The parts of a region whose digits above a level are known, and a point.
#[derive(Clone, Copy)]
pub(crate) struct Corners<const D: usize> {
    pub level: u32,
    pub known: [u64; D],
    pub center: [u64; D],
}

impl<const D: usize> Corners<D> {
    #[inline(always)]
    pub(crate) fn new(level: u32, known: &[u64; D], center: &[u64; D]) -> Corners<D>
        requires few { D ≤ 16 }
        requires level { level ≤ 61 }
        requires known { IsBody D 62 known.now }
        requires center { IsBody D 62 center.now }
        ensures level { result.level ≡ level }
        ensures known { result.known ≡ known.now }
        ensures center { result.center ≡ center.now }
        ensures corners { AreCorners result }
    {
        Corners {
            level,
            known: *known,
            center: *center,
        }
    }
}

// Each sum is made anew, and no gap is told that it does not have.
impl<const D: usize> Distances<D> for Corners<D> {
    ghost use Rattle.ph_near.specs.Corners.{AreCorners};
    ghost use Rattle.ph_near.specs.Far.{corner_of, gaps_above};

    ghost told = { λ c addr. gaps_above c.level (corner_of c.level addr c.known) c.center };

    ghost IsSound = { λ c. AreCorners c };

    #[inline(always)]
    fn least(&self, addr: u32) -> u128 {
        let mut sum = 0;
        for i in 0..D {
            let digit = address_digit(addr, D - 1 - i, self.level);
            sum += squared_gap(
                self.level,
                digits_above(self.level, self.known[i]) + digit,
                self.center[i],
            );
        }
        sum
    }
}
