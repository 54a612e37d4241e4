//! Rows as records of comma-separated fields.
#![tactic(auto)]

mod fault;
mod fields;
mod line;
mod records;
mod row;
mod rows;

pub use fault::CsvFault;
pub use line::{LINE_BYTES, row_line};
pub use rows::read_rows;
pub use std::alloc::AllocError as NoMemory;
