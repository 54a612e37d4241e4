//! Where a point stands among rows.
ghost use Rattle.std.specs.Prelude.{◌≡◌, ◌≤◌};
ghost use Rattle.ph_specs.specs.TableNames.{IsPoint, IsTable};
ghost use Rattle.ph_table.specs.Place.{IsCut, IsPlace};

use ph_coord::{Point, Row, Width, z_before};

// The place of a point, as std's binary search tells it: `Ok` of the row that stands there, or `Err` of where
// a new row goes in.
pub fn place_of<const D: usize>(w: Width, rows: &[Row<D>], p: &Point<D>) -> Result<usize, usize>
    requires dims { D ≤ 16 }
    requires table { IsTable w D rows.now }
    requires point { IsPoint w D p.now }
    ensures { IsPlace w rows.now p.now result }
{
    let _bits = w.bits();
    let i = rows_before(w, rows, p);
    if i == rows.len() {
        return Err(i);
    }
    let row = &rows[i];
    if row.point == *p { Ok(i) } else { Err(i) }
}

// How many rows come before the point. std's `partition_point` wants a test that any row passes or fails, and the
// Z-order is known of points in range alone.
fn rows_before<const D: usize>(w: Width, rows: &[Row<D>], p: &Point<D>) -> usize
    requires dims { D ≤ 16 }
    requires table { IsTable w D rows.now }
    requires point { IsPoint w D p.now }
    ensures { IsCut w rows.now p.now result }
{
    let mut low = 0;
    let mut high = rows.len();
    while low < high {
        let middle = low + (high - low) / 2;
        let row = &rows[middle];
        if z_before(w, &row.point, p) {
            low = middle + 1;
        } else {
            high = middle;
        }
    }
    low
}
