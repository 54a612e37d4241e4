//! The Z-order (G. M. Morton, 1966), read place by place.
ghost use Rattle.std.specs.Prelude.{◌≡◌, ◌<◌, ◌≤◌, ◌^◌, length, IsTrue};
ghost use Rattle.std.specs.List.{list_all};
ghost use Rattle.ph_specs.specs.TableNames.{fits, digit, IsPoint, address, before};

use crate::point::Point;
use crate::width::Width;

// The binary digit of a coordinate's offset at a place.
fn digit_at(w: Width, c: i64, place: u32) -> u32
    requires fits { IsTrue (fits w c) }
    requires place { place < w }
    ensures value { result ≡ digit w c place }
    ensures limit { result < 2 }
{
    let _bits = w.bits();
    ((w.offset(c) >> place) & 1) as u32
}

// The digits of the coordinates at a place as one number, the first coordinate's the most significant.
fn address_of(w: Width, coords: &[i64], place: u32) -> u32
    requires fits { IsTrue (list_all (fits w) coords.now) }
    requires dims { length coords.now ≤ 16 }
    requires place { place < w }
    ensures value { result ≡ address w coords.now place }
    ensures limit { result < 2 ^ length coords.now }
{
    let mut digits = 0u32;
    for c in coords {
        digits = digits * 2 + digit_at(w, *c, place);
    }
    digits
}

/// Whether p comes before q in Z-order: of the greatest place at which their addresses differ, p has the smaller one.
///
/// The work is that of all places above the deciding one, D digits each.
pub fn z_before<const D: usize>(w: Width, p: &Point<D>, q: &Point<D>) -> bool
    requires dims { D ≤ 16 }
    requires first { IsPoint w D p.now }
    requires second { IsPoint w D q.now }
    ensures { result ≡ before w p.now q.now }
{
    let mut place = w.bits();
    while 0 < place {
        place -= 1;
        let at_p = address_of(w, p.as_slice(), place);
        let at_q = address_of(w, q.as_slice(), place);
        if at_p != at_q {
            return at_p < at_q;
        }
    }
    false
}
