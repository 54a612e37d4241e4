//! Fields that are put behind digits that are known.

ghost use Rattle.std.specs.Prelude.{◌≡◌, ◌+◌, ◌*◌, ◌^◌, ◌<◌, ◌≤◌, length, replicate, slice_index_or};
ghost use Rattle.ph_model.specs.ModelNames.{digits_at, IsBody, body_above};
ghost use Rattle.ph_specs.specs.TreeNames.{put_together};
ghost use Rattle.ph_bits.specs.Fields.{digits_row};

use crate::fields::field;
use ph_digits::{address_digit, digits_above};
use std::cmp::min;

/// Puts the digits of an address at a level, and the fields from digit `at` on below it, behind those that are known above
/// the level. What was known at the level and below it is lost.
#[inline(always)]
pub fn join_row(words: &[u64], at: u64, level: u32, addr: u32, known: &mut [u64])
    requires few { length known.old ≤ 16 }
    requires level { level ≤ 61 }
    requires known { IsBody (length known.old) 62 known.old }
    requires inside { at + length known.old * level ≤ 64 * length words.now }
    requires near { at ≤ 2 ^ 62 }
    ensures { known.new ≡ put_together level addr (body_above level known.old) (digits_row words.now at level (length known.old)) }
{
    let dims = known.len();
    let first = field(words, at, min(64, dims as u32 * level));
    for i in 0..dims {
        let below = piece(words, at, first, level, dims, i);
        known[i] = digits_above(level, known[i]) + address_digit(addr, dims - 1 - i, level) + below;
    }
}

/// Puts the digits of an address at a level behind those that are known above the level, and zeros below it. What was known
/// at the level and below it is lost.
#[inline(always)]
pub fn join_address(level: u32, addr: u32, known: &mut [u64])
    requires few { length known.old ≤ 16 }
    requires level { level ≤ 61 }
    requires known { IsBody (length known.old) 62 known.old }
    ensures { known.new ≡ put_together level addr (body_above level known.old) (replicate (length known.old) 0) }
{
    let dims = known.len();
    for i in 0..dims {
        known[i] = digits_above(level, known[i]) + address_digit(addr, dims - 1 - i, level);
    }
}

// Number `i` of those that `join_row` would make of those that are known.
#[inline(always)]
pub(crate) fn joined_number(
    words: &[u64],
    at: u64,
    level: u32,
    addr: u32,
    known: &[u64],
    i: usize,
) -> u64
    requires few { length known.now ≤ 16 }
    requires level { level ≤ 61 }
    requires known { IsBody (length known.now) 62 known.now }
    requires inside { at + length known.now * level ≤ 64 * length words.now }
    requires near { at ≤ 2 ^ 62 }
    requires within { i < length known.now }
    ensures value { result ≡ slice_index_or (put_together level addr (body_above level known.now) (digits_row words.now at level (length known.now))) i 0 }
    ensures limit { result < 2 ^ 62 }
{
    let below = field(words, at + i as u64 * level as u64, level);
    digits_above(level, known[i]) + address_digit(addr, known.len() - 1 - i, level) + below
}

// Field `i` of `count` fields, of which the first digits are read, up to 64 of them.
#[inline(always)]
fn piece(words: &[u64], at: u64, first: u64, width: u32, count: usize, i: usize) -> u64
    requires width { width ≤ 61 }
    requires few { count ≤ 16 }
    requires inside { at + count * width ≤ 64 * length words.now }
    requires near { at ≤ 2 ^ 62 }
    requires first { count * width ≤ 64 → first ≡ digits_at words.now at (count * width) }
    requires within { i < count }
    ensures value { result ≡ slice_index_or (digits_row words.now at width count) i 0 }
    ensures limit { result < 2 ^ width }
{
    if count as u32 * width <= 64 {
        (first >> (width * (count - 1 - i) as u32)) & ((1 << width) - 1)
    } else {
        field(words, at + i as u64 * width as u64, width)
    }
}
