//! How a command is answered, and why it has no whole answer.

/// How a command is answered.
#[derive(Clone, Copy, Debug, PartialEq, Eq)]
pub enum Answer {
    Good,
    /// The reply begins with `error` or `bad`.
    Refused,
}

/// Why a command has no whole answer.
#[derive(Clone, Copy, Debug, PartialEq, Eq)]
pub enum Stop {
    /// A write failed: a front of the replies was written, and the command is done, but a page leaves its cursor as it was.
    WriteFault,
    /// Memory was missing: nothing was written or done, but of an import some first rows may be in the table, and of edits that were to
    /// be taken back some last ones may be.
    NoMemory,
}
