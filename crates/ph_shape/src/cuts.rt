//! The rows of a node, cut into groups of one address.
ghost use Rattle.std.specs.Prelude.{◌≡◌, ◌<◌, ◌≤◌, ◌+◌, map};
ghost use Rattle.ph_shape.specs.Groups.{IsGroup, IsCut};

use crate::space::Space;
use ph_coord::Width;

/// How many rows in front have an address at a place, where the rows are in Z-order and agree at all places above.
///
/// Takes no memory. The work is one address for each of these rows, and one more.
pub fn group_len<P: Space>(w: Width, place: u32, addr: u32, rows: &[P::Row]) -> usize
    requires dims { P.D ≤ 16 }
    requires place { place < w }
    requires rows { IsGroup w P.D (place + 1) (map P.row_of rows.now) }
    ensures { IsCut w place addr (map P.row_of rows.now) result }
{
    for (i, row) in rows.iter().enumerate() {
        if P::address(w, row, place) != addr {
            return i;
        }
    }
    rows.len()
}
