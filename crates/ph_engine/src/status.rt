//! How a call of the program ends.

/// How a call of `top` ends. The number of a status is that with which the program ends.
#[derive(Clone, Copy, Debug, PartialEq, Eq)]
pub enum Status {
    /// The script was read to its end, and no line was refused.
    Clean = 0,
    /// The script was read to its end, and some line was refused.
    Refused = 1,
    /// The words are of no form. The usage line was written.
    Usage = 2,
    /// A read failed.
    ReadFault = 3,
    /// A write failed.
    WriteFault = 4,
    /// Memory was missing.
    Memory = 5,
    /// The script has more bytes than its limit.
    TooLong = 6,
}
