//! Union, common rows and difference of two trees.
//!
//! Both trees are descended at once, and what is kept is listed in Z-order and built. A node is opened exactly where its region
//! holds a point of the other tree, or where its rows are kept whatever the other tree has. A tree is at most as many nodes
//! deep as its coordinates have bits, so that no call recurses deeper than 124 pairs of nodes.
#![tactic(auto)]

mod error;
mod lists;
mod meet;
mod operations;
mod part;
mod plan;
mod roots;
mod side;
mod sink;
mod trees;

pub use error::SetFault;
pub use std::alloc::AllocError as NoMemory;
pub use trees::{common, minus, union};
