//! Fields beside numbers, compared in place.

ghost use Rattle.std.specs.Prelude.{◌≡◌, ◌+◌, ◌*◌, ◌^◌, ◌<◌, ◌≤◌, length, map};
ghost use Rattle.ph_specs.specs.RecordNames.{field, number_of};
ghost use Rattle.ph_specs.specs.TreeNames.{same_digits};
ghost use Rattle.ph_bits.specs.Fields.{IsCut, cut, digits_row};

use crate::fields::field;

/// Whether the fields from digit `at` on are the last `width` digits of each of these numbers, of which the last `low` count
/// as zeros. Where the fields have no more than 64 digits together, they are read and compared at once.
#[inline(always)]
pub fn is_row(words: &[u64], at: u64, width: u32, low: u32, numbers: &[u64]) -> bool
    requires width { width ≤ 63 }
    requires low { low ≤ 63 }
    requires few { length numbers.now ≤ 16 }
    requires inside { at + length numbers.now * width ≤ 64 * length words.now }
    requires near { at ≤ 2 ^ 62 }
    ensures { result ≡ same_digits (digits_row words.now at width (length numbers.now)) (map (cut width low) numbers.now) }
{
    let digits = numbers.len() as u32 * width;
    if digits <= 64 {
        field(words, at, digits) == packed(width, low, numbers)
    } else {
        are_fields(words, at, width, low, numbers)
    }
}

// The number that the digits of the numbers make together.
#[inline(always)]
fn packed(width: u32, low: u32, numbers: &[u64]) -> u64
    requires cut { IsCut width low }
    requires inside { length numbers.now * width ≤ 64 }
    ensures { result ≡ number_of (map (field width) (map (cut width low) numbers.now)) }
{
    let mut all = 0;
    for i in 0..numbers.len() {
        all = (all << width) + cut(numbers[i], width, low);
    }
    all
}

// Whether the fields are the digits of the numbers, each by itself.
#[inline(always)]
fn are_fields(words: &[u64], at: u64, width: u32, low: u32, numbers: &[u64]) -> bool
    requires cut { IsCut width low }
    requires few { length numbers.now ≤ 16 }
    requires inside { at + length numbers.now * width ≤ 64 * length words.now }
    requires near { at ≤ 2 ^ 62 }
    ensures { result ≡ same_digits (digits_row words.now at width (length numbers.now)) (map (cut width low) numbers.now) }
{
    for i in 0..numbers.len() {
        let number = field(words, at + i as u64 * width as u64, width);
        if number != cut(numbers[i], width, low) {
            return false;
        }
    }
    true
}

// The last `width` digits of a number, of which the last `low` become zeros.
#[inline(always)]
fn cut(number: u64, width: u32, low: u32) -> u64
    requires { IsCut width low }
    ensures value { result ≡ cut width low number }
    ensures limit { result < 2 ^ width }
{
    ((number & ((1 << width) - 1)) >> low) << low
}
