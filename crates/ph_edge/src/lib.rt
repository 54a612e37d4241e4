//! The edge of the program: the standard input and output, with replies that are gathered until the program reads on, and the files of a
//! file system.
//!
//! What std and the operating system do is trusted here, and known only as what they claim.
#![tactic(auto)]

mod dir_files;
mod gathered;
mod interrupted;
mod standard;

pub use dir_files::DirFiles;
pub use gathered::{Gathered, ReadAfter, Replies};
pub use standard::{StdSink, StdSource};
