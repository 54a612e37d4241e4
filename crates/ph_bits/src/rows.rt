//! Fields of one width, one behind the other.

ghost use Rattle.std.specs.Prelude.{◌≡◌, ◌+◌, ◌-◌, ◌*◌, ◌^◌, ◌≤◌, length, take, drop, replicate};
ghost use Rattle.ph_specs.specs.RecordNames.{pieces};
ghost use Rattle.ph_bits.specs.Fields.{IsRowIn, digits_row};

use crate::fields::field;

/// The numbers of `count` fields, and zeros behind them. Where the fields have no more than 64 digits
/// together, they are read at once.
#[inline(always)]
pub fn row(words: &[u64], at: u64, width: u32, count: usize) -> [u64; 16]
    requires width { width ≤ 63 }
    requires few { count ≤ 16 }
    requires inside { at + count * width ≤ 64 * length words.now }
    requires near { at ≤ 2 ^ 62 }
    ensures fields { take count result ≡ digits_row words.now at width count }
    ensures zeros { drop count result ≡ replicate (16 - count) 0 }
{
    let digits = count as u32 * width;
    if digits <= 64 {
        pieces_of(field(words, at, digits), width, count)
    } else {
        fields_of(words, at, width, count)
    }
}

// The numbers of fields that make a number together.
#[inline(always)]
fn pieces_of(all: u64, width: u32, count: usize) -> [u64; 16]
    requires width { width ≤ 63 }
    requires few { count ≤ 16 }
    requires inside { count * width ≤ 64 }
    ensures fields { take count result ≡ pieces width count all }
    ensures zeros { drop count result ≡ replicate (16 - count) 0 }
{
    let mut body = [0; 16];
    for i in 0..count {
        let behind = width * (count - 1 - i) as u32;
        body[i] = (all >> behind) & ((1 << width) - 1);
    }
    body
}

// The numbers of fields, each by itself.
#[inline(always)]
fn fields_of(words: &[u64], at: u64, width: u32, count: usize) -> [u64; 16]
    requires width { width ≤ 63 }
    requires few { count ≤ 16 }
    requires inside { at + count * width ≤ 64 * length words.now }
    requires near { at ≤ 2 ^ 62 }
    ensures { IsRowIn words.now at width count result }
{
    let mut body = [0; 16];
    for i in 0..count {
        body[i] = field(words, at + i as u64 * width as u64, width);
    }
    body
}
