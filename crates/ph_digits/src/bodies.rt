//! The digits of the fields of a body, a field for each dimension.

ghost use Rattle.std.specs.Prelude.{◌≡◌, ◌<◌, ◌≤◌, ◌^◌, length};
ghost use Rattle.ph_specs.specs.TreeNames.{put_together};
ghost use Rattle.ph_model.specs.ModelNames.{IsBody, body_above, body_address, body_below};

use crate::words::{address_digit, digit, digits_above, digits_below};

/// The digits of the fields at one place as a number, the first field's the most significant.
pub fn body_address(place: u32, fields: &[u64]) -> u32
    requires place { place < 64 }
    requires few { length fields.now ≤ 16 }
    ensures value { result ≡ body_address place fields.now }
    ensures limit { result < 2 ^ length fields.now }
{
    let mut address = 0;
    for field in fields {
        address = address * 2 + digit(place, *field);
    }
    address
}

/// The fields below a place. Zeros stay zeros.
pub fn body_below(place: u32, mut body: [u64; 16]) -> [u64; 16]
    requires { place < 64 }
    ensures { result ≡ body_below place body }
{
    for field in &mut body {
        *field = digits_below(place, *field);
    }
    body
}

/// The fields above a place, with zeros from the place down.
pub fn body_above(place: u32, mut body: [u64; 16]) -> [u64; 16]
    requires { place < 63 }
    ensures { result ≡ body_above place body }
{
    for field in &mut body {
        *field = digits_above(place, *field);
    }
    body
}

/// Puts the digits of an address at a level and of a body below it behind those that are known above the level.
///
/// What was known at the level and below it is lost.
pub fn join(known: &mut [u64], level: u32, addr: u32, body: &[u64])
    requires few { length known.old ≤ 16 }
    requires level { level ≤ 61 }
    requires known { IsBody (length known.old) 62 known.old }
    requires body { IsBody (length known.old) level body.now }
    ensures { known.new ≡ put_together level addr (body_above level known.old) body.now }
{
    let dims = known.len();
    for i in 0..dims {
        known[i] = digits_above(level, known[i])
            + address_digit(addr, dims - 1 - i, level)
            + body[i];
    }
}
