//! The PH-tree (T. Zäschke, C. Zimmerli, M. C. Norrie, "The PH-Tree: A Space-Efficient Storage Structure and
//! Multi-Dimensional Index", SIGMOD 2014): a table whose rows stand in a tree of hypercube nodes.
#![tactic(auto)]

mod compare;
mod error;
mod find;
mod key;
mod moves;
mod puts;
mod records;
mod removals;
mod spare;
mod stats;
mod step;
mod tree;

pub use error::PutError;
pub use moves::Moved;
pub use ph_node::NoMemory;
pub use ph_table::Put;
pub use stats::Stats;
pub use tree::PhTree;
