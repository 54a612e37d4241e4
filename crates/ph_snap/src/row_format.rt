//! What all records of a snapshot have in common.

use ph_coord::Kind;

/// The kind of the rows, their dimensions, and the width of their coordinates.
#[derive(Clone, Copy)]
pub(crate) struct RowFormat {
    pub(crate) kind: Kind,
    pub(crate) dims: usize,
    pub(crate) width: u32,
}
