//! The line of a row.
ghost use Rattle.std.specs.Prelude.{◌≡◌, ◌≤◌, ◌+◌, ◌++◌, length};
ghost use Rattle.ph_specs.specs.ProgramNames.{csv_line};
ghost use Rattle.ph_csv.specs.LineText.{coords_text};

use arrayvec::ArrayString;
use itoa::Buffer;
use ph_coord::{Point, Row};

/// The most bytes of a line: 16 coordinates, each with a comma, a value of 64 bits and a line feed.
pub const LINE_BYTES: usize = 16 * (20 + 1) + 20 + 1;

/// The line of a row: its coordinates and its value, separated by commas, and a line feed. It takes no memory.
pub fn row_line<const D: usize>(row: &Row<D>) -> ArrayString<LINE_BYTES>
    requires { D ≤ 16 }
    ensures { result.bytes ≡ csv_line row.now }
{
    let mut line = ArrayString::new();
    push_coords(&mut line, &row.point);
    line.push_str(Buffer::new().format(row.value));
    line.push_str("\n");
    line
}

// Appends each coordinate with a comma behind it.
fn push_coords<const D: usize>(line: &mut ArrayString<LINE_BYTES>, point: &Point<D>)
    requires limit { D ≤ 16 }
    requires room { length line.old.bytes + 336 ≤ LINE_BYTES }
    ensures text { line.new.bytes ≡ line.old.bytes ++ coords_text point.now }
    ensures size { length line.new.bytes ≤ length line.old.bytes + 336 }
{
    for coord in point.as_slice() {
        line.push_str(Buffer::new().format(*coord));
        line.push_str(",");
    }
}
