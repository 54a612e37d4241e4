//! Sums of the squares of gaps for each four digits of an address.

ghost use Rattle.std.specs.Prelude.{◌≡◌, ℕ, ◌+◌, ◌*◌, ◌<◌, ◌≤◌, length, slice_index};
ghost use Rattle.ph_node.specs.Apart.{greatest_square};
ghost use Rattle.ph_near.specs.Halves.{AreSmall};
ghost use Rattle.ph_near.specs.Tables.{AreTabled, IsDoubled};

use crate::distances::Distances;
use crate::halves::Halves;

// A table tells the sums of so many dimensions, the first one those of the last dimensions.
const TABLE_DIMS: usize = 4;

const TABLE_LEN: usize = 1 << TABLE_DIMS;

const TABLES_LEN: usize = 4 * TABLE_LEN;

// The halves, and their sums by the digits of addresses.
#[derive(Clone, Copy)]
pub(crate) struct Tables<const D: usize> {
    pub halves: Halves<D>,
    pub sums: [u128; TABLES_LEN],
}

impl<const D: usize> Tables<D> {
    #[inline(always)]
    pub(crate) fn new(halves: &Halves<D>) -> Tables<D>
        requires { AreSmall halves.now }
        ensures halves { result.halves ≡ halves.now }
        ensures tabled { AreTabled result }
    {
        let mut sums = [0; TABLES_LEN];
        for place in 0..D {
            let start = place / TABLE_DIMS * TABLE_LEN;
            let count = 1 << (place % TABLE_DIMS);
            let i = D - 1 - place;
            double(&mut sums, start, count, halves.low[i], halves.high[i]);
        }
        Tables {
            halves: *halves,
            sums,
        }
    }
}

// Takes one dimension more into the sums of a table.
#[inline(always)]
fn double(sums: &mut [u128; TABLES_LEN], start: usize, count: usize, low: u128, high: u128)
    requires long { length sums.old ≡ TABLES_LEN }
    requires room { start + 2 * count ≤ TABLES_LEN }
    requires low { low ≤ greatest_square }
    requires high { high ≤ greatest_square }
    requires small { (j : ℕ) → j < count → slice_index sums.old (start + j) ≤ 3 * greatest_square }
    ensures { IsDoubled start count low high sums.old sums.new }
{
    for j in 0..count {
        let sum = sums[start + j];
        sums[start + j] = sum + low;
        sums[start + count + j] = sum + high;
    }
}

impl<const D: usize> Distances<D> for Tables<D> {
    ghost use Rattle.ph_near.specs.Halves.{halves_sum};
    ghost use Rattle.ph_near.specs.Tables.{AreTabled};

    ghost told = { λ t addr. halves_sum addr t.halves.low t.halves.high };

    ghost IsSound = { λ t. AreTabled t };

    #[inline(always)]
    fn least(&self, addr: u32) -> u128 {
        let mut sum = 0;
        for table in 0..D.div_ceil(TABLE_DIMS) {
            let digits = (addr >> (TABLE_DIMS * table)) as usize % TABLE_LEN;
            sum += self.sums[TABLE_LEN * table + digits];
        }
        sum
    }
}
