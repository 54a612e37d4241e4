//! A tree of many rows at once: rows are sorted, and each node is made once.
//!
//! A tree is at most as many nodes deep as its coordinates have bits, so that no call recurses deeper than 62 nodes.
#![tactic(auto)]

mod entries;
mod last;
mod nodes;
mod order;
mod parts;
mod rise;
mod trees;

pub use last::last_rows;
pub use ph_node::NoMemory;
pub use rise::rising;
pub use trees::build;
