//! Why the tour ended early.

use ph_io::Failed;
use ph_snap::{LoadFault, NoMemory};
use ph_tree::PutError;
use std::io;
use thiserror::Error;

/// Why the tour ended early.
#[derive(Debug, Drop, Error)]
pub enum TourError {
    /// A number is no coordinate of the width.
    #[error("a number is too large for its width")]
    Range,
    #[error("a row was not put: {0}")]
    Put(#[from] PutError),
    #[error("the snapshot was not written")]
    Write(#[from] Failed),
    #[error("the bytes were not loaded: {0}")]
    Load(#[from] LoadFault),
    #[error("there was no memory")]
    Memory(#[from(alloc)] NoMemory),
    #[error("a line was not printed: {0}")]
    Print(#[from] io::Error),
}
