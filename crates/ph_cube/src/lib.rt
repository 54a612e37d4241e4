//! Cube records of nodes: the kinds and the bodies of all addresses, packed one behind the other, and then the values.
//!
//! The kind of an absent address is 0, of a point 1 and of a child 2. So each entry has exactly one digit 1 among the kinds,
//! and its place is the number of ones in front of its kind.
#![tactic(auto)]

mod edits;
mod known;
mod parts;
mod reads;
mod searches;
mod writes;

/// The calls of records. The number of dimensions is an argument; all are inlined, so that it is a constant where the caller
/// knows it.
pub mod by_dims {
    pub use crate::edits::{insert_point, put_child, put_point, remove_point};
    pub use crate::known::{body_at, is_child_at, next_address, rank_at};
    pub use crate::reads::{address, bits_of, entry, find_entry, is_child, rank};
    pub use crate::searches::{find, next_at_or_after, search};
    pub use crate::writes::write;
}
