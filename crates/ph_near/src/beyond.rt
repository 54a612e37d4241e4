//! Entries that are too far, told before their digits are joined.
ghost use Rattle.std.specs.Prelude.{◌≡◌, ◌<◌, ◌≤◌, ◌*◌, ◌^◌, ◌-◌, ◌+◌, true, false, length};
ghost use Rattle.ph_model.specs.ModelNames.{what_at, IsBody, entries};
ghost use Rattle.ph_node.specs.Apart.{greatest_square};
ghost use Rattle.ph_node.specs.Shown.{shown};
ghost use Rattle.ph_node.specs.Spots.{IsSpot, joined_digits};
ghost use Rattle.ph_near.specs.Far.{corner_of, gap_above, gaps_squared, entry_gap};

use ph_coord::Dims;
use ph_digits::{address_digit, digits_above};
use ph_node::Spot;
use ph_path::VisitOf;

// Whether an entry is a point that is farther from a center than a limit, which is a squared distance. Of a child it answers no.
#[inline(always)]
pub(crate) fn is_point_beyond<P: Dims>(
    node: VisitOf<'_, P>,
    spot: Spot,
    known: &[u64],
    center: &[u64],
    limit: u128,
) -> bool
    requires spot { IsSpot (entries (shown node)) spot }
    requires known { IsBody P.D 62 known.now }
    requires center { IsBody P.D 62 center.now }
    ensures { result ≡ true
        → limit
        < entry_gap (shown node.entry).level (joined_digits (shown node.entry) spot known.now) center.now
        (what_at (entries (shown node.entry)) spot.place) }
{
    !node.is_child(spot) && node.distance_within(spot, known, center, limit).is_none()
}

// Whether the region of a child with an address is farther from a center than a limit. It stops at the first dimension that makes it so.
#[inline(always)]
pub(crate) fn is_region_beyond(
    level: u32,
    addr: u32,
    known: &[u64],
    center: &[u64],
    limit: u128,
) -> bool
    requires few { length known.now ≤ 16 }
    requires level { level ≤ 61 }
    requires known { IsBody (length known.now) 62 known.now }
    requires center { IsBody (length known.now) 62 center.now }
    ensures beyond { result ≡ true → (1 ≤ level) × (limit < gaps_squared (level - 1) (corner_of level addr known.now) center.now) }
    ensures within { result ≡ false → 1 ≤ level → gaps_squared (level - 1) (corner_of level addr known.now) center.now ≤ limit }
{
    if level == 0 {
        return false;
    }
    let mut sum = 0;
    for i in 0..known.len() {
        let digit = address_digit(addr, known.len() - 1 - i, level);
        sum += squared_gap(level, digits_above(level, known[i]) + digit, center[i]);
        if sum > limit {
            return true;
        }
    }
    false
}

// The square of the distance of a number from those that begin at another one and differ from it below a level alone.
#[inline(always)]
pub(crate) fn squared_gap(level: u32, low: u64, number: u64) -> u128
    requires level { level ≤ 61 }
    requires low { low + 2 ^ level ≤ 2 ^ 62 }
    requires number { number < 2 ^ 62 }
    ensures value { result ≡ gap_above level low number * gap_above level low number }
    ensures limit { result ≤ greatest_square }
{
    let high = low + ((1 << level) - 1);
    let gap = u128::from(low.saturating_sub(number) + number.saturating_sub(high));
    gap * gap
}
