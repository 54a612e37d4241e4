//! Why bytes are not the tree that was asked for.

use thiserror::Error;

/// The first fault of bytes that were to be a tree. Numbers are the offset of the byte or of the record that shows it.
#[derive(Clone, Copy, Debug, PartialEq, Eq, Error)]
pub enum LoadFault {
    /// Their first four bytes are neither `PHT1` nor `PHT2`.
    #[error("Magic")]
    Magic,
    /// A byte of the header, from 4 to 7, is missing or none of those that may stand there in its version.
    #[error("Header")]
    Header(u64),
    /// The header is that of another kind, of another number of dimensions or of another width than was asked for.
    #[error("Dims")]
    Dims,
    /// They end before the record that begins here does.
    #[error("Short")]
    Short(u64),
    /// The record that begins here is of no node that may stand there.
    #[error("Node")]
    Node(u64),
    /// The last record ended here, and there are more bytes.
    #[error("Extra")]
    Extra(u64),
    /// There was no memory for the tree.
    #[error("NoMemory")]
    NoMemory,
}
