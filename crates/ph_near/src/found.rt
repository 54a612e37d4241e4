//! Rows that were found, and which of two comes first.

ghost use Rattle.std.specs.Prelude.{refl, Some};
ghost use Rattle.std.specs.Cmp.{partial_order_from_agreeing_total, partial_equiv_from_equiv, eq_by_cmp_equiv};
ghost use Rattle.std.specs.Ordering.{eq_by_cmp};
ghost use Rattle.ph_near.specs.Found.{found_cmp, found_total};

use ph_digits::words_cmp;
use std::cmp::Ordering;

// A row by its offsets, and the square of its distance.
#[derive(Clone, Copy)]
pub(crate) struct Found<const D: usize> {
    pub distance: u128,
    pub known: [u64; D],
    pub value: u64,
}

impl<const D: usize> Ord for Found<D> {
    ghost cmp = { found_cmp };

    ghost total = { found_total };

    ghost matches_partial_cmp = { λ x y. refl };

    ghost matches_eq = { λ x y. refl };

    // The row that comes first is the lesser one.
    fn cmp(&self, other: &Found<D>) -> Ordering {
        if self.distance < other.distance {
            return Ordering::Less;
        }
        if other.distance < self.distance {
            return Ordering::Greater;
        }
        words_cmp(&self.known, &other.known)
    }
}

impl<const D: usize> PartialOrd for Found<D> {
    ghost partial_cmp = { λ x y. Some (found_cmp x y) };

    ghost laws = { partial_order_from_agreeing_total found_cmp found_total (λ x y. refl) (λ x y. refl) };

    fn partial_cmp(&self, other: &Found<D>) -> Option<Ordering> {
        Some(self.cmp(other))
    }
}

impl<const D: usize> PartialEq for Found<D> {
    ghost eq = { eq_by_cmp found_cmp };

    ghost laws = { partial_equiv_from_equiv (eq_by_cmp_equiv found_total) };

    fn eq(&self, other: &Found<D>) -> bool {
        self.cmp(other).is_eq()
    }
}

impl<const D: usize> Eq for Found<D> {
    ghost laws = { eq_by_cmp_equiv found_total };
}
