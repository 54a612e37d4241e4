//! One edit of the entries of a record.

use crate::entries::Packed;

/// One edit: `less` entries from a place on are left out, and `more` new ones, at most one, are put there.
/// The value is that of the new entry where it is a point. Where there is no new entry, `entry` has the address of the one that is
/// left out, and what else it has is not written.
#[derive(Clone, Copy)]
pub struct Edit {
    pub place: usize,
    pub less: usize,
    pub more: usize,
    pub entry: Packed,
    pub value: u64,
}
