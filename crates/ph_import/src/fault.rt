//! Why rows were not all put.
ghost use Rattle.std.specs.Prelude.{◌≡◌};

use ph_tree::NoMemory;
use thiserror::Error;

/// Why rows were not all put.
#[derive(Clone, Copy, Debug, PartialEq, Eq, Error)]
pub enum ImportFault {
    /// With all of them the tree would have more rows than it may have. It is as it was.
    #[error("Full")]
    Full,
    /// There was no memory to count the new points, or for a row. The rows before that one are in the tree.
    #[error("NoMemory")]
    NoMemory,
}

impl From<NoMemory> for ImportFault {
    ghost use Rattle.ph_import.specs.declared.fault.ImportFault.TheVariants.{NoMemory};

    ghost from_gives = { λ _ fault. fault ≡ NoMemory };

    fn from(_: NoMemory) -> ImportFault {
        ImportFault::NoMemory
    }
}
