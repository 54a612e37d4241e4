//! Regions, and the masks by which a window tells their parts apart.
ghost use Rattle.std.specs.Prelude.{◌≡◌, ◌↔◌, ◌+◌, ◌-◌, ◌<◌, ◌≤◌, ◌^◌, ◌&&◌, ℕ, ℤ, List, true, None, nat_le, length, IfSome, if◌then◌else◌};
ghost use Rattle.std.specs.List.{AllByRecursion as Each};
ghost use Rattle.ph_specs.specs.TableNames.{IsPoint};
ghost use Rattle.ph_model.specs.ModelNames.{fits_some, masks as the_masks, InPart, InBoth};
ghost use Rattle.ph_zorder.specs.Sides.{side_masks};

use ph_coord::{Point, Width};
use ph_digits::digits_above;
use std::marker::Model;

/// The points that agree with a corner at every place above a level.
#[derive(Clone, Copy, Debug, PartialEq, Eq)]
pub struct Region<const D: usize> {
    pub corner: Point<D>,
    pub level: u32,
}

impl<const D: usize> Model for Region<D> {
    ghost use Rattle.ph_specs.specs.WorkNames.{Region as TheRegion};

    ghost Value = { TheRegion };

    ghost view = { λ r. record { corner = r.corner; level = r.level } };

    ghost inverse = { λ r. record { corner = r.corner; level = r.level } };
}

/// The lower and the upper mask of a window in a region at its level; None where no point of the region is in the window.
///
/// In a dimension the lower mask has a 1 where the half with digit 0 is not in the window, and the upper mask a 1 where the
/// half with digit 1 is. The work is one pass over the dimensions.
pub fn masks<const D: usize>(
    w: Width,
    r: &Region<D>,
    lo: &Point<D>,
    hi: &Point<D>,
) -> Option<(u32, u32)>
    requires dims { D ≤ 16 }
    requires corner { IsPoint w D r.now.corner }
    requires level { r.now.level < w }
    requires lo { IsPoint w D lo.now }
    requires hi { IsPoint w D hi.now }
    ensures value { result ≡ the_masks w r.now lo.now hi.now }
    ensures part { (h : ℕ) → h < 2 ^ D → fits_some result h ≡ true ↔ ((p : List ℤ) × InPart w D r.now h lo.now hi.now p) }
    ensures none { result ≡ None ↔ ((p : List ℤ) → InBoth w D r.now lo.now hi.now p → ⊥) }
    ensures small { IfSome result (λ m. (m.0 < 2 ^ D) × (m.1 < 2 ^ D)) }
{
    let _bits = w.bits();
    offset_masks(
        r.level,
        &r.corner.offsets(w),
        &lo.offsets(w),
        &hi.offsets(w),
    )
}

/// The masks of a window in a region, where all are given by the offsets of coordinates.
pub fn offset_masks(level: u32, corner: &[u64], lo: &[u64], hi: &[u64]) -> Option<(u32, u32)>
    requires level { level ≤ 61 }
    requires dims { length corner.now ≤ 16 }
    requires low { length lo.now ≡ length corner.now }
    requires high { length hi.now ≡ length corner.now }
    requires small { Each (λ x. x < 2 ^ 62) corner.now }
    ensures { result ≡ side_masks level corner.now lo.now hi.now }
{
    let size = ones_below(level + 1);
    let half = 1 << level;
    let mut lower = 0;
    let mut upper = 0;
    for i in 0..corner.len() {
        let start = digits_above(level, corner[i]);
        if !is_met(start, start + size, lo[i], hi[i]) {
            return None;
        }
        lower = lower * 2 + digit(start + half <= lo[i]);
        upper = upper * 2 + digit(start + half <= hi[i]);
    }
    Some((lower, upper))
}

pub(crate) fn ones_below(place: u32) -> u64
    requires { place ≤ 62 }
    ensures { result ≡ 2 ^ place - 1 }
{
    (1 << place) - 1
}

// Whether a region from `start` to `last` and the bounds have an offset in common.
fn is_met(start: u64, last: u64, a: u64, b: u64) -> bool
    ensures { result ≡ ((nat_le a b && nat_le a last) && nat_le start b) }
{
    a <= b && a <= last && start <= b
}

fn digit(is_one: bool) -> u32
    ensures value { result ≡ (if is_one then 1 else 0) }
    ensures limit { result < 2 }
{
    u32::from(is_one)
}
