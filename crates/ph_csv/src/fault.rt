//! Why a text has no rows.
ghost use Rattle.std.specs.Prelude.{◌≡◌};

use crate::NoMemory;
use thiserror::Error;

/// What is wrong with the first faulty record, with its number. All records are counted from 1, a header too. Of the faults of
/// one record the first in this order is told.
#[derive(Clone, Copy, Debug, PartialEq, Eq, Error)]
pub enum CsvFault {
    /// It has not D + 1 fields.
    #[error("Fields")]
    Fields(u64),
    /// A field is no number, or the value is outside 0 to `2^64 - 1`.
    #[error("Number")]
    Number(u64),
    /// A coordinate is outside the width.
    #[error("Range")]
    Range(u64),
    /// The rows are boxes, and it is none.
    #[error("Reversed")]
    Reversed(u64),
    /// There was no memory for a record or for the rows.
    #[error("NoMemory")]
    NoMemory,
}

impl From<NoMemory> for CsvFault {
    ghost use Rattle.ph_csv.specs.declared.fault.CsvFault.TheVariants.{NoMemory};

    ghost from_gives = { λ _ fault. fault ≡ NoMemory };

    fn from(_: NoMemory) -> CsvFault {
        CsvFault::NoMemory
    }
}
