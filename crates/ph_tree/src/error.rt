//! Why a put was refused.

use thiserror::Error;

/// Why a put was refused. The tree is then as it was.
#[derive(Clone, Copy, Debug, PartialEq, Eq, Error)]
pub enum PutError {
    /// The point is new, and the tree has as many rows as it may have.
    #[error("Full")]
    Full,
    /// There was no memory for the node that was to be made or to grow.
    #[error("NoMemory")]
    NoMemory,
}
