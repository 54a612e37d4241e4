//! How much a script and a file may have.

/// How much a call of `top` takes.
#[derive(Clone, Copy, Debug, PartialEq, Eq)]
pub struct Limits {
    /// The bytes of a script, at most; below `2^63`.
    pub script_bytes: u64,
    /// The bytes of a file that is read, at most; below `2^63`.
    pub file_bytes: u64,
}
