//! Decimal digits, eight at a time where there are so many.
ghost use Rattle.std.specs.Prelude.{◌≡◌, ◌-◌, ◌*◌, ◌+◌, ◌≤◌, true, fold, length, IfSome};
ghost use Rattle.std.specs.Char.{is_ascii_digit};
ghost use Rattle.std.specs.List.{list_all};
ghost use Rattle.ph_script.specs.Words.{IsDigits};

// The digit 0 in each byte of a word.
const ZEROS: u64 = 0x3030_3030_3030_3030;

// What brings a number above 9 above 15, in each byte.
const SIXES: u64 = 0x0606_0606_0606_0606;

// The bits of 16 and more, in each byte.
const HIGH: u64 = 0xF0F0_F0F0_F0F0_F0F0;

// Each second byte, from the lowest on.
const PAIRS: u64 = 0x00FF_00FF_00FF_00FF;

// The lowest two bytes.
const FOUR: u64 = 0xFFFF;

/// The number that the digits from a place on make, where there are at most 18, and where they end.
#[inline(always)]
pub(crate) fn digits_at(text: &[u8], from: usize) -> (u64, usize)
    requires { from ≤ length text.now }
    ensures { IsDigits text.now from 0 result.1 result.0 }
{
    match first_eight(text, from) {
        Some(front) => digits_behind(text, from + 8, front),
        None => digits_behind(text, from, 0),
    }
}

// The number that eight digits at a place make, if there are so many.
#[inline(always)]
fn first_eight(text: &[u8], from: usize) -> Option<u64>
    requires { from ≤ length text.now }
    ensures { IfSome result (λ n. IsDigits text.now from 0 (from + 8) n) }
{
    let (_, behind) = text.split_at(from);
    match behind.first_chunk::<8>() {
        Some(bytes) => eight_digits(*bytes),
        None => None,
    }
}

// The number that eight bytes spell, if all are digits.
#[inline(always)]
fn eight_digits(bytes: [u8; 8]) -> Option<u64>
    ensures { IfSome result (λ n. (list_all is_ascii_digit bytes ≡ true) × (n ≡ fold (λ n b. n * 10 + (b - 48)) 0 bytes)) }
{
    // The first digit lies in the lowest byte. Each step joins neighbours, so that twice as many digits lie in twice as many bits.
    let digits = u64::from_le_bytes(bytes) ^ ZEROS;
    if (digits | digits.wrapping_add(SIXES)) & HIGH != 0 {
        return None;
    }
    let pairs = (digits * 10 + (digits >> 8)) & PAIRS;
    let fours = pairs * 100 + (pairs >> 16);
    Some((fours & FOUR) * 10_000 + ((fours >> 32) & FOUR))
}

// The number that the digits from a place on make behind one that was read, where both have at most 18 digits, and where they end.
#[inline(always)]
fn digits_behind(text: &[u8], from: usize, before: u64) -> (u64, usize)
    requires { from ≤ length text.now }
    ensures { IsDigits text.now from before result.1 result.0 }
{
    let mut size = before;
    for at in from..text.len() {
        let digit = digit_of(text[at]);
        if 9 < digit {
            return (size, at);
        }
        size = size.wrapping_mul(10).wrapping_add(digit);
    }
    (size, text.len())
}

// What a byte is as a digit, or more than 9 where it is none.
#[inline(always)]
fn digit_of(byte: u8) -> u64
    ensures digit { result ≤ 9 → is_ascii_digit byte ≡ true }
    ensures value { result ≤ 9 → result ≡ byte - 48 }
{
    u64::from(byte).wrapping_sub(48)
}
