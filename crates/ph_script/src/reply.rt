//! The replies to commands.
use ph_specs::Which;

/// The answer to a command, but for the rows and the pairs of rows that it lists and the sizes of a tree. Each is one line of the output.
///
/// It is small, since one is made for each command.
#[derive(Clone, Copy)]
pub enum Reply {
    Opened,
    New,
    /// The former value.
    Old(u64),
    Value(u64),
    /// No row is at the point; its line is `none`.
    Absent,
    /// The value that was deleted.
    Gone(u64),
    Moved,
    /// A row is at the point that another was to be moved to.
    Taken,
    /// The number of rows; its line begins with `count`.
    Rows(u64),
    Cleared,
    /// The end of what was found, with the number of rows that the reply has listed.
    End(u128),
    /// The end of a page behind which there are more rows, with the number of rows that it has listed.
    More(u32),
    /// The cursor is there.
    Ready,
    /// The number of bytes that were written.
    Saved(u128),
    /// The number of rows that were read.
    Loaded(u64),
    /// The number of rows that were read from records.
    Imported(u64),
    /// The number of rows that were written as records.
    Exported(u64),
    /// The slot that commands are about from now on.
    Using(Which),
    /// Both slots have the same rows, of the same kind and dimensions.
    Same,
    Differ,
    /// The number of rows of the table that was made of both slots' tables; its line begins with `result`.
    Combined(u64),
    /// The number of edits that are kept at most.
    Keeping(u32),
    /// The number of edits that were taken back; its line begins with `back`.
    WentBack(u32),
    ErrorLong,
    ErrorWord,
    ErrorCount,
    ErrorNumber,
    ErrorName,
    ErrorDims,
    /// A question about boxes in a table of points, or the other way round.
    ErrorKind,
    ErrorRange,
    /// A box with a low bound above its high one.
    ErrorReversed,
    /// No cursor has the name.
    ErrorCursor,
    /// There are as many cursors as may be.
    ErrorCursors,
    /// No file has the name, it is too long, or it could not be read or written.
    ErrorFile,
    ErrorFull,
    /// Fewer edits are kept than were to be taken back.
    ErrorPast,
    /// A file that does not begin as a saved table does.
    BadMagic,
    /// The place of a byte in the head of a saved table that cannot be there.
    BadHeader(u64),
    /// A saved table of another kind or of other dimensions.
    BadDims,
    /// The place of the record in which a saved table ends too early.
    BadShort(u64),
    /// The place of a record of a saved table that cannot be there.
    BadNode(u64),
    /// The place of the first byte behind a saved table.
    BadExtra(u64),
    /// The number of a record that has not as many fields as a row has numbers. Records are counted from 1, a header too.
    BadFields(u64),
    /// The number of a record with a field that is no number, or a value that is none of 64 bits.
    BadNumber(u64),
    /// The number of a record with a coordinate out of range.
    BadRange(u64),
    /// The number of a record of a box with a low bound above its high one.
    BadReversed(u64),
}
