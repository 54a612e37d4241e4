//! Numbers by their spelling.
ghost use Rattle.std.specs.Prelude.{◌≡◌, ◌<◌, ◌^◌, ◌&&◌, ◌==◌, not, length};
ghost use Rattle.std.specs.List.{list_all};
ghost use Rattle.std.specs.Char.{is_ascii_digit};
ghost use Rattle.std.specs.Option.{SomeIff};
ghost use Rattle.ph_coord.specs.Spelling.{number_of, signed_of, size_of};
ghost use Rattle.ph_coord.specs.declared.number.Number.TheVariants.{Whole};
ghost use Rattle.ph_coord.specs.Narrow.{Narrows};

/// What a text spells.
#[derive(Clone, Copy, Debug, PartialEq, Eq)]
pub enum Number {
    /// A whole number by its sign and its size, which is below `2^128`. 0 has no minus.
    Whole { minus: bool, size: u128 },
    /// A whole number whose size is `2^128` or more.
    Wide,
    /// No number.
    Not,
}

/// Reads an optional `+` or `-` and one or more decimal digits; leading zeros are allowed.
pub fn read_number(text: &[u8]) -> Number
    ensures { result ≡ number_of text.now }
{
    match text {
        [b'+', digits @ ..] => read_digits(false, digits),
        [b'-', digits @ ..] => read_digits(true, digits),
        _ => read_digits(false, text),
    }
}

fn read_digits(minus: bool, digits: &[u8]) -> Number
    ensures { result ≡ signed_of minus digits.now }
{
    if digits.is_empty() {
        return Number::Not;
    }
    match narrow_size(digits) {
        Narrow::Size(size) => whole(minus, u128::from(size)),
        Narrow::Other => Number::Not,
        Narrow::Long => read_long(minus, digits),
    }
}

// What one pass over digits finds, with 64 bits for their number.
#[derive(Clone, Copy)]
enum Narrow {
    Size(u64),
    // There is another byte than a digit.
    Other,
    // The number may be too large for that.
    Long,
}

// What is read in 64 bits stays below this until the last digit, so that ten times it and a digit do not overflow.
const NARROW: u64 = 1 << 60;

fn narrow_size(digits: &[u8]) -> Narrow
    ensures { Narrows digits.now result }
{
    let mut size = 0u64;
    for digit in digits {
        if !digit.is_ascii_digit() {
            return Narrow::Other;
        }
        if NARROW <= size {
            return Narrow::Long;
        }
        size = size * 10 + u64::from(*digit - b'0');
    }
    Narrow::Size(size)
}

// The same as `read_digits`, for digits of any number.
fn read_long(minus: bool, digits: &[u8]) -> Number
    requires { 0 < length digits.now }
    ensures { result ≡ signed_of minus digits.now }
{
    if !are_digits(digits) {
        return Number::Not;
    }
    match wide_size(digits) {
        Some(size) => whole(minus, size),
        None => Number::Wide,
    }
}

// The number of a sign and a size.
fn whole(minus: bool, size: u128) -> Number
    ensures { result ≡ Whole (minus && not (size == 0)) size }
{
    Number::Whole {
        minus: minus && size != 0,
        size,
    }
}

fn are_digits(text: &[u8]) -> bool
    ensures { result ≡ list_all is_ascii_digit text.now }
{
    text.iter().all(u8::is_ascii_digit)
}

// The number that digits spell, if it is below 2^128.
fn wide_size(digits: &[u8]) -> Option<u128>
    ensures { SomeIff result (size_of digits.now < 2 ^ 128) (size_of digits.now) }
{
    let mut size = 0u128;
    for digit in digits {
        let Some(tenfold) = size.checked_mul(10) else {
            return None;
        };
        let Some(sum) = tenfold.checked_add(u128::from(digit.saturating_sub(b'0'))) else {
            return None;
        };
        size = sum;
    }
    Some(size)
}
