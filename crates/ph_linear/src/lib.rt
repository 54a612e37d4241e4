//! Linear records of nodes: the kinds, the addresses and the bodies of the entries in rising address order, packed one
//! behind the other, and then the values.
#![tactic(auto)]

mod copies;
mod edits;
mod heads;
mod inserts;
mod outlines;
mod parts;
mod reads;
mod removes;
mod searches;
mod tables;
mod writes;

pub use copies::Column;
pub use heads::{children_in, count_in, first_of, level_in};
pub use outlines::{Outline, drop_value, put_value};
pub use writes::{begin, close, put_values};

/// The calls of records. The number of dimensions is an argument; all are inlined, so that it is a constant where the caller
/// knows it.
pub mod by_dims {
    pub use crate::edits::{put_child, put_point};
    pub use crate::inserts::insert_point;
    pub use crate::parts::rank_of;
    pub use crate::reads::{address, bits_of, body_at, entry, find_entry, is_child, rank};
    pub use crate::removes::remove_point;
    pub use crate::searches::{find, next_at_or_after, next_behind, search};
    pub use crate::writes::write;
}
