//! The records of a text, one after another.
ghost use Rattle.std.specs.Prelude.{◌≡◌, ◌≤◌, length, Some, IfOk};
ghost use Rattle.csv.specs.Records.{fields_of};
ghost use Rattle.ph_specs.specs.ProgramNames.{records};
ghost use Rattle.ph_csv.specs.Left.{IsReading, ReadsNext, left_in, rest_in};

use crate::NoMemory;
use csv::{ByteRecord, Reader, ReaderBuilder};
use std::alloc::{AllocError, Global};

/// A reader in front of the first record of a text. Records may have any length, and none of them is a header of the reader's.
pub(crate) fn reader_of(alloc: Global, text: &[u8]) -> Reader<&[u8]>
    ensures reading { IsReading (λ s. Some s.now) result }
    ensures rest { rest_in (λ s. Some s.now) result ≡ records text.now }
    ensures size { length (left_in (λ s. Some s.now) result) ≤ length text.now }
{
    ReaderBuilder::new()
        .has_headers(false)
        .flexible(true)
        .from_reader(alloc, text)
}

/// Reads the next record, if there is one.
pub(crate) fn read_next(
    reader: &mut Reader<&[u8]>,
    fields: &mut ByteRecord,
) -> Result<bool, NoMemory>
    requires { IsReading (λ s. Some s.now) reader.old }
    ensures { IfOk result (λ found. ReadsNext (λ s. Some s.now) reader.old reader.new found (fields_of fields.new)) }
{
    // Reading a slice never fails and records may have any length, so an error is want of memory.
    let Ok(found) = reader.read_byte_record(fields) else {
        return Err(AllocError);
    };
    Ok(found)
}
