//! What the words of a command are read into.
ghost use Rattle.std.specs.Prelude.{◌≡◌, [], None, false};

use crate::file_name::FileName;
use crate::name::Name;
use arrayvec::ArrayVec;

/// The parts of a command beside its coordinates: its other numbers in their order, its name, that of its file, and
/// whether it has the second of two words where it has one of two.
#[derive(Drop)]
pub(crate) struct Parts<'c> {
    pub counts: ArrayVec<u128, 3>,
    pub name: Option<Name>,
    pub file: Option<FileName<'c>>,
    pub is_second: bool,
}

impl<'c> Parts<'c> {
    pub(crate) fn new() -> Parts<'c>
        ensures { (result.counts.items ≡ []) × (result.name ≡ None) × (result.file ≡ None) × (result.is_second ≡ false) }
    {
        Parts {
            counts: ArrayVec::new(),
            name: None,
            file: None,
            is_second: false,
        }
    }
}
