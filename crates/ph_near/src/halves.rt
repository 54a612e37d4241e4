//! The two halves of a node's region in each dimension, and how far they are from a point.

ghost use Rattle.std.specs.Prelude.{◌≡◌, ◌<◌, ◌≤◌, ◌^◌, slice_index};
ghost use Rattle.ph_model.specs.ModelNames.{IsBody};
ghost use Rattle.ph_node.specs.Apart.{greatest_square};
ghost use Rattle.ph_near.specs.Halves.{AreHalves, AreSmall, half_of};

use crate::beyond::squared_gap;
use crate::distances::Distances;
use ph_digits::{address_digit, digits_above};

// The squares of the gaps between a point and both halves of a region, in each dimension.
#[derive(Clone, Copy)]
pub(crate) struct Halves<const D: usize> {
    pub low: [u128; D],
    pub high: [u128; D],
}

impl<const D: usize> Halves<D> {
    // Of a region whose digits above a level are known.
    #[inline(always)]
    pub(crate) fn new(level: u32, known: &[u64; D], center: &[u64; D]) -> Halves<D>
        requires few { D ≤ 16 }
        requires level { level ≤ 61 }
        requires known { IsBody D 62 known.now }
        requires center { IsBody D 62 center.now }
        ensures halves { AreHalves level known.now center.now result }
        ensures small { AreSmall result }
    {
        let mut low = [0; D];
        let mut high = [0; D];
        for i in 0..D {
            let start = digits_above(level, known[i]);
            let middle = start + address_digit(1, 0, level);
            low[i] = squared_gap(level, start, center[i]);
            high[i] = squared_gap(level, middle, center[i]);
        }
        Halves { low, high }
    }

    // The square of the gap to one half in a dimension.
    #[inline(always)]
    fn half(&self, i: usize, digit: u64) -> u128
        requires dimension { i < D }
        requires small { AreSmall self.now }
        ensures value { result ≡ half_of digit (slice_index self.now.low i) (slice_index self.now.high i) }
        ensures limit { result ≤ greatest_square }
    {
        if digit == 0 {
            return self.low[i];
        }
        self.high[i]
    }
}

// Each sum is made anew.
impl<const D: usize> Distances<D> for Halves<D> {
    ghost use Rattle.ph_near.specs.Halves.{AreSmall, halves_sum};

    ghost told = { λ h addr. halves_sum addr h.low h.high };

    ghost IsSound = { λ h. AreSmall h };

    #[inline(always)]
    fn least(&self, addr: u32) -> u128 {
        let mut sum = 0;
        for place in 0..D {
            let digit = address_digit(addr, place, 0);
            sum += self.half(D - 1 - place, digit);
        }
        sum
    }
}
