//! The numbers that the fields of a record spell.
ghost use Rattle.std.specs.Prelude.{◌≡◌, ◌≤◌, [], length, take};
ghost use Rattle.csv.specs.Records.{fields_of};
ghost use Rattle.ph_csv.specs.Spelled.{IsCoord, IsValue, AreCoords};

use arrayvec::ArrayVec;
use csv::ByteRecord;
use ph_coord::{Number, read_number};

/// The most coordinates of a point.
pub(crate) const MOST: usize = 16;

// What a field spells as a coordinate.
enum Coord {
    // No number.
    Not,
    // A number that no width has.
    Far,
    Near(i64),
}

fn read_coord(text: &[u8]) -> Coord
    ensures { IsCoord text.now result }
{
    match read_number(text) {
        Number::Whole { minus, size } => {
            if minus && size <= 1 << 63 {
                Coord::Near(-(size as i128) as i64)
            } else if !minus && size < 1 << 63 {
                Coord::Near(size as i64)
            } else {
                Coord::Far
            }
        }
        Number::Wide => Coord::Far,
        Number::Not => Coord::Not,
    }
}

/// The value that a field spells, if it spells one.
pub(crate) fn read_value(text: &[u8]) -> Option<u64>
    ensures { IsValue text.now result }
{
    match read_number(text) {
        Number::Whole { minus, size } if !minus && size < 1 << 64 => Some(size as u64),
        _ => None,
    }
}

/// What fields spell as coordinates.
#[derive(Clone, Copy)]
pub(crate) enum Spelled {
    /// One of them is no number.
    Not,
    /// All are numbers, and no width has all of them.
    Far,
    /// All are numbers, and these were kept.
    Near,
}

/// Reads the first fields of a record as coordinates. All are tried as numbers before any is tried for its range.
pub(crate) fn read_coords(
    fields: &ByteRecord,
    count: usize,
    coords: &mut ArrayVec<i64, MOST>,
) -> Spelled
    requires count { count ≤ 16 }
    requires fields { count ≤ length (fields_of fields.now) }
    requires empty { coords.old.items ≡ [] }
    ensures { AreCoords (take count (fields_of fields.now)) coords.new.items result }
{
    let mut far = false;
    for i in 0..count {
        let Some(text) = fields.get(i) else {
            unreachable!();
        };
        match read_coord(text) {
            Coord::Not => return Spelled::Not,
            Coord::Far => far = true,
            Coord::Near(c) => coords.push(c),
        }
    }
    if far { Spelled::Far } else { Spelled::Near }
}
