//! Bytes in and bytes out, with counts of faults.
//!
//! [`Source`] and [`Sink`] say what a call does to the bytes, where those are known, and that a
//! failure comes only where a count of faults rose. So a caller that reports a fault had one.
//! [`Files`] says the same of files by their names.
#![tactic(auto)]

mod clean;
mod clean_files;
mod copying;
mod count_sink;
mod files;
mod memory_files;
mod memory_sink;
mod memory_source;
mod sending;
mod stored;
mod streams;

pub use clean::CleanSource;
pub use clean_files::CleanFiles;
pub use count_sink::CountSink;
pub use files::{FetchFault, Files};
pub use memory_files::MemoryFiles;
pub use memory_sink::MemorySink;
pub use memory_source::MemorySource;
pub use sending::write_piece;
pub use std::alloc::AllocError as NoMemory;
pub use streams::{Failed, Sink, Source};
