//! Fields behind digits that are known, and how far they lie from other numbers.

ghost use Rattle.std.specs.Prelude.{◌≡◌, ◌+◌, ◌*◌, ◌^◌, ◌<◌, ◌≤◌, length};
ghost use Rattle.std.specs.Int.{abs_diff};
ghost use Rattle.ph_specs.specs.TreeNames.{put_together};
ghost use Rattle.ph_model.specs.ModelNames.{IsBody, body_above};
ghost use Rattle.ph_bits.specs.Apart.{IsDistanceWithin, greatest_square};
ghost use Rattle.ph_bits.specs.Fields.{digits_row};

use crate::joins::joined_number;

/// The sum of the squares of the differences between the numbers that [`join_row`](crate::join_row) would make of those that are
/// known, and others. None where it is more than `limit`: it stops at the first number that makes it so.
#[inline(always)]
pub fn row_distance(
    words: &[u64],
    at: u64,
    level: u32,
    addr: u32,
    known: &[u64],
    others: &[u64],
    limit: u128,
) -> Option<u128>
    requires few { length known.now ≤ 16 }
    requires level { level ≤ 61 }
    requires known { IsBody (length known.now) 62 known.now }
    requires others { IsBody (length known.now) 62 others.now }
    requires inside { at + length known.now * level ≤ 64 * length words.now }
    requires near { at ≤ 2 ^ 62 }
    ensures { IsDistanceWithin limit (put_together level addr (body_above level known.now) (digits_row words.now at level (length known.now))) others.now result }
{
    let mut sum = 0;
    for i in 0..known.len() {
        let number = joined_number(words, at, level, addr, known, i);
        sum += square_apart(number, others[i]);
        if sum > limit {
            return None;
        }
    }
    Some(sum)
}

// The square of the difference of two numbers.
#[inline(always)]
fn square_apart(number: u64, other: u64) -> u128
    requires number { number < 2 ^ 62 }
    requires other { other < 2 ^ 62 }
    ensures value { result ≡ abs_diff number other * abs_diff number other }
    ensures limit { result ≤ greatest_square }
{
    let gap = u128::from(number.abs_diff(other));
    gap * gap
}
