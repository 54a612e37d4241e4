//! Plain trees: what a PH-tree (T. Zäschke, C. Zimmerli, M. C. Norrie, 2014) holds, owned and unpacked, with the shape of a
//! table and the rows of a tree.
//!
//! A tree is at most as many nodes deep as its coordinates have bits, so that no call recurses deeper than 62 nodes.
#![tactic(auto)]

mod cuts;
mod plain;
mod rows;
mod shape;
mod space;

pub use cuts::group_len;
pub use plain::{Plain, PlainOf};
pub use rows::rows_of;
pub use shape::shape_of;
pub use space::Space;
pub use std::alloc::AllocError as NoMemory;
