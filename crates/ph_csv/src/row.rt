//! The row of one record.
ghost use Rattle.std.specs.Prelude.{◌≡◌, ◌≤◌, Ok, length, not, ◌&&◌, IfOk, IfErr};
ghost use Rattle.csv.specs.Records.{fields_of};
ghost use Rattle.ph_specs.specs.TableNames.{IsPoint, IsBox, is_box as the_is_box, row};
ghost use Rattle.ph_specs.specs.declared.Kind.TheVariants.{Boxes};
ghost use Rattle.ph_specs.specs.ProgramNames.{read_record, is_boxes};
ghost use Rattle.ph_csv.specs.Faults.{IsFault, row_answer};

use crate::fault::CsvFault;
use crate::fields::{Spelled, read_coords, read_value};
use arrayvec::ArrayVec;
use csv::ByteRecord;
use ph_coord::{Kind, Point, Row, Width, is_box};

/// The row of the n-th record, or its first fault.
pub(crate) fn read_row<const D: usize>(
    w: Width,
    kind: Kind,
    n: u64,
    fields: &ByteRecord,
) -> Result<Row<D>, CsvFault>
    requires { D ≤ 16 }
    ensures ok { IfOk result (λ r. read_record w D kind n (fields_of fields.now) ≡ Ok r) }
    ensures err { IfErr result (λ f. IsFault (read_record w D kind n (fields_of fields.now)) f) }
    ensures point { IfOk result (λ r. IsPoint w D r.point) }
    ensures boxed { IfOk result (λ r. kind ≡ Boxes → IsBox r.point) }
{
    let _bits = w.bits();
    if fields.len() != D + 1 {
        return Err(CsvFault::Fields(n));
    }
    let mut coords = ArrayVec::new();
    let spelled = read_coords(fields, D, &mut coords);
    let Some(text) = fields.get(D) else {
        unreachable!();
    };
    let Some(value) = read_value(text) else {
        return Err(CsvFault::Number(n));
    };
    match spelled {
        Spelled::Not => Err(CsvFault::Number(n)),
        Spelled::Far => Err(CsvFault::Range(n)),
        Spelled::Near => row_of(w, kind, n, coords.as_slice(), value),
    }
}

// The row of these numbers, or the fault of the n-th record, which has them.
fn row_of<const D: usize>(
    w: Width,
    kind: Kind,
    n: u64,
    coords: &[i64],
    value: u64,
) -> Result<Row<D>, CsvFault>
    requires { length coords.now ≡ D }
    ensures ok { IfOk result (λ r. row_answer w kind n (row coords.now value) ≡ Ok r) }
    ensures err { IfErr result (λ f. IsFault (row_answer w kind n (row coords.now value)) f) }
    ensures point { IfOk result (λ r. IsPoint w D r.point) }
    ensures boxed { IfOk result (λ r. kind ≡ Boxes → IsBox r.point) }
{
    let Some(point) = Point::from_slice(w, coords) else {
        return Err(CsvFault::Range(n));
    };
    if is_reversed(kind, &point) {
        return Err(CsvFault::Reversed(n));
    }
    Ok(Row { point, value })
}

// Whether the kind is that of boxes, and the point is none. No odd number of coordinates is a box.
fn is_reversed<const D: usize>(kind: Kind, point: &Point<D>) -> bool
    ensures { result ≡ (is_boxes kind && not (the_is_box point.now)) }
{
    let coords = point.as_slice();
    match kind {
        Kind::Points => false,
        Kind::Boxes => coords.len() % 2 != 0 || !is_box(point),
    }
}
