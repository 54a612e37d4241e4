//! Many rows at once into a tree.
#![tactic(auto)]

mod fault;
mod fills;
mod imports;
mod merges;
mod room;
mod rows;

pub use fault::ImportFault;
pub use imports::import_rows;
