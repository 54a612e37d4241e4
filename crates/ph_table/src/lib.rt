//! The plain index: a table as a vector of rows in Z-order.
#![tactic(auto)]

mod between;
mod hit;
mod place;
mod table;

pub use hit::Hit;
pub use std::alloc::AllocError as NoMemory;
pub use table::{Put, Table};
