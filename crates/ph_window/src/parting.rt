//! Where two points part, by the offsets of their coordinates.
ghost use Rattle.std.specs.Prelude.{◌≡◌, ◌≤◌, length};
ghost use Rattle.ph_window.specs.Parting.{IsParting};

use ph_digits::{body_address, top_difference};

// The greatest place at which two lists of words differ, and whether the second has the greater address there; None where
// they are the same.
pub(crate) fn parting(first: &[u64], second: &[u64]) -> Option<(u32, bool)>
    requires few { length first.now ≤ 16 }
    requires same { length first.now ≡ length second.now }
    ensures { IsParting first.now second.now result }
{
    let Some(place) = top_difference(first, second) else {
        return None;
    };
    Some((
        place,
        body_address(place, first) < body_address(place, second),
    ))
}
