//! The rows of a text.
ghost use Rattle.std.specs.Prelude.{◌≡◌, ◌≤◌, ◌<◌, ◌+◌, ◌^◌, Some, length, Ok, IfOk, IfErr};
ghost use Rattle.std.specs.List.{AllByRecursion as Each};
ghost use Rattle.ph_specs.specs.TableNames.{IsPoint, IsBox};
ghost use Rattle.ph_specs.specs.declared.Kind.TheVariants.{Boxes};
ghost use Rattle.ph_specs.specs.ProgramNames.{csv_rows, read_records};
ghost use Rattle.ph_csv.specs.Faults.{IsFault};
ghost use Rattle.ph_csv.specs.Left.{IsReading, left_in, rest_in};

use crate::fault::CsvFault;
use crate::records::{read_next, reader_of};
use crate::row::read_row;
use csv::{ByteRecord, Reader};
use ph_coord::{Kind, Row, Width};
use std::alloc::Global;

/// The rows of a text, or the first fault of its first faulty record. With `header` the first record is passed over unread.
///
/// Each other record has D coordinates and a value, separated by commas. Records are those that the crate `csv` reads, of any length
/// and with nothing trimmed; a blank line is none. It takes memory for the rows, for one record at a time and for a buffer.
pub fn read_rows<const D: usize>(
    alloc: Global,
    bytes: &[u8],
    w: Width,
    kind: Kind,
    header: bool,
) -> Result<Vec<Row<D>>, CsvFault>
    requires { D ≤ 16 }
    ensures ok { IfOk result (λ rows. csv_rows w D kind header bytes.now ≡ Ok rows.items) }
    ensures err { IfErr result (λ f. IsFault (csv_rows w D kind header bytes.now) f) }
    ensures points { IfOk result (λ rows. Each (λ r. IsPoint w D r.point) rows.items) }
    ensures boxes { IfOk result (λ rows. kind ≡ Boxes → Each (λ r. IsBox r.point) rows.items) }
{
    // A use that makes known that a slice has fewer bytes than there are addresses.
    let _size = bytes.len();
    let mut reader = reader_of(alloc, bytes);
    let mut fields = ByteRecord::new(alloc);
    if !header {
        return read_from(alloc, reader, fields, w, kind, 1);
    }
    if !read_next(&mut reader, &mut fields)? {
        return Ok(Vec::new(alloc));
    }
    read_from(alloc, reader, fields, w, kind, 2)
}

// The rows of the records that a reader has left, which are numbered from `first` on.
fn read_from<const D: usize>(
    alloc: Global,
    mut reader: Reader<&[u8]>,
    mut fields: ByteRecord,
    w: Width,
    kind: Kind,
    first: u64,
) -> Result<Vec<Row<D>>, CsvFault>
    requires limit { D ≤ 16 }
    requires reading { IsReading (λ s. Some s.now) reader }
    requires small { first + length (left_in (λ s. Some s.now) reader) < 2 ^ 64 }
    ensures ok { IfOk result (λ rows. read_records w D kind first (rest_in (λ s. Some s.now) reader.entry) ≡ Ok rows.items) }
    ensures err { IfErr result (λ f. IsFault (read_records w D kind first (rest_in (λ s. Some s.now) reader.entry)) f) }
    ensures points { IfOk result (λ rows. Each (λ r. IsPoint w D r.point) rows.items) }
    ensures boxes { IfOk result (λ rows. kind ≡ Boxes → Each (λ r. IsBox r.point) rows.items) }
{
    let mut rows = Vec::new(alloc);
    let mut n = first;
    'records: loop {
        if !read_next(&mut reader, &mut fields)? {
            return Ok(rows);
        }
        let row = read_row(w, kind, n, &fields)?;
        if rows.push(row).is_err() {
            return Err(CsvFault::NoMemory);
        }
        n += 1;
    }
}
