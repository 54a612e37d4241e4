//! Fields behind digits that are known, compared with bounds in place.

ghost use Rattle.std.specs.Prelude.{◌≡◌, ◌+◌, ◌*◌, ◌^◌, ◌≤◌, ◌&&◌, nat_le, length};
ghost use Rattle.ph_specs.specs.TreeNames.{put_together};
ghost use Rattle.ph_model.specs.ModelNames.{IsBody, body_above};
ghost use Rattle.ph_bits.specs.Between.{each_between};
ghost use Rattle.ph_bits.specs.Fields.{digits_row};

use crate::joins::joined_number;

/// Whether each number that [`join_row`](crate::join_row) would make of those that are known lies between two bounds. It stops at
/// the first that does not.
#[inline(always)]
pub fn is_row_between(
    words: &[u64],
    at: u64,
    level: u32,
    addr: u32,
    known: &[u64],
    low: &[u64],
    high: &[u64],
) -> bool
    requires few { length known.now ≤ 16 }
    requires level { level ≤ 61 }
    requires known { IsBody (length known.now) 62 known.now }
    requires low { length low.now ≡ length known.now }
    requires high { length high.now ≡ length known.now }
    requires inside { at + length known.now * level ≤ 64 * length words.now }
    requires near { at ≤ 2 ^ 62 }
    ensures { result ≡ each_between low.now high.now (put_together level addr (body_above level known.now) (digits_row words.now at level (length known.now))) }
{
    for i in 0..known.len() {
        let number = joined_number(words, at, level, addr, known, i);
        if !is_between(low[i], high[i], number) {
            return false;
        }
    }
    true
}

// Whether a number lies between two others.
#[inline(always)]
fn is_between(low: u64, high: u64, number: u64) -> bool
    ensures { result ≡ (nat_le low number && nat_le number high) }
{
    low <= number && number <= high
}
