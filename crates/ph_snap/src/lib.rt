//! Snapshots: trees as bytes.
#![tactic(auto)]

mod block;
mod boxes;
mod entries;
mod fault;
mod first;
mod header;
mod loading;
mod nodes;
mod places;
mod records;
mod row_format;
mod saves;
mod tables;

pub use fault::LoadFault;
pub use header::{Header, read_header};
pub use loading::load;
pub use saves::save;
pub use std::alloc::AllocError as NoMemory;
