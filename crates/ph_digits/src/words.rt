//! The digits of one word.

ghost use Rattle.std.specs.Prelude.{◌≡◌, ◌+◌, ◌*◌, ◌/◌, ◌%◌, ◌<◌, ◌≤◌, ◌^◌};

/// The digit at a place.
pub fn digit(place: u32, word: u64) -> u32
    requires { place < 64 }
    ensures value { result ≡ word / 2 ^ place % 2 }
    ensures limit { result < 2 }
{
    (word >> place & 1) as u32
}

/// The digits below a place.
pub fn digits_below(place: u32, word: u64) -> u64
    requires { place < 64 }
    ensures { result ≡ word % 2 ^ place }
{
    word & ((1 << place) - 1)
}

/// The digits above a place, with zeros from the place down.
#[inline(always)]
pub fn digits_above(place: u32, word: u64) -> u64
    requires { place < 63 }
    ensures value { result ≡ word / 2 ^ (place + 1) * 2 ^ (place + 1) }
    ensures limit { result ≤ word }
{
    word & (u64::MAX << (place + 1))
}

/// The digit of an address at a place, as a digit at a level.
#[inline(always)]
pub fn address_digit(addr: u32, place: usize, level: u32) -> u64
    requires place { place < 32 }
    requires level { level ≤ 61 }
    ensures value { result ≡ addr / 2 ^ place % 2 * 2 ^ level }
    ensures limit { result ≤ 2 ^ 61 }
{
    u64::from(addr >> place & 1) << level
}
