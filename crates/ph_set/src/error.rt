//! Why there is no union of two trees.

use thiserror::Error;

/// Why there is no union of two trees. Both are as they were.
#[derive(Clone, Copy, Debug, PartialEq, Eq, Error)]
pub enum SetFault {
    /// It has more rows than it was to have.
    #[error("Full")]
    Full,
    /// There was no memory for its rows or for its nodes.
    #[error("NoMemory")]
    NoMemory,
}
