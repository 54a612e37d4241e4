//! The offsets of coordinates.
ghost use Rattle.std.specs.Prelude.{◌≡◌, ◌≤◌, ◌-◌, length, take, drop, map, replicate, IsTrue};
ghost use Rattle.std.specs.List.{list_all};
ghost use Rattle.ph_specs.specs.TableNames.{fits, offset};

use crate::width::Width;

/// How far each coordinate lies above the least one, with zeros behind.
pub fn offsets_of<const N: usize>(w: Width, coords: &[i64]) -> [u64; N]
    requires few { length coords.now ≤ N }
    requires fits { IsTrue (list_all (fits w) coords.now) }
    ensures values { take (length coords.now) result ≡ map (offset w) coords.now }
    ensures zeros { drop (length coords.now) result ≡ replicate (N - length coords.now) 0 }
{
    let mut offsets = [0; N];
    for (i, c) in coords.iter().enumerate() {
        offsets[i] = w.offset(*c);
    }
    offsets
}
