//! Commands, and what is wrong with a line that is none.
use crate::coords::Coords;
use crate::file_name::FileName;
use crate::name::Name;
use ph_coord::Kind;
use ph_specs::{SetOperation, Which};

/// What a line asks for. Its coordinates and the name of its file lie elsewhere, so that it is small.
#[derive(Debug, Drop)]
pub enum Command<'c> {
    /// A new table for points or boxes of k dimensions, whose coordinates have a width of so many bits, with at most so many
    /// rows. Not each of these numbers is one that a table can have: its width is 1 to 62 and its dimensions are 1 to 16.
    Begin {
        kind: Kind,
        k: u32,
        width: u32,
        max: u64,
    },
    Put {
        at: Coords<'c>,
        value: u64,
    },
    Get {
        at: Coords<'c>,
    },
    Del {
        at: Coords<'c>,
    },
    Relocate {
        from: Coords<'c>,
        to: Coords<'c>,
    },
    Count,
    Clear,
    /// The rows between two corners.
    Window {
        lo: Coords<'c>,
        hi: Coords<'c>,
    },
    /// A cursor over the rows between two corners.
    Cursor {
        name: Name,
        lo: Coords<'c>,
        hi: Coords<'c>,
    },
    /// The next rows of a cursor, at most so many.
    Page {
        name: Name,
        n: u32,
    },
    /// The rows nearest to a point, at most so many, each with its distance.
    Near {
        q: Coords<'c>,
        n: u32,
    },
    /// The rows whose distance from a point, squared, is at most so much.
    Within {
        q: Coords<'c>,
        r: u128,
    },
    /// The boxes that overlap the one with these bounds, the low corner and then the high one.
    Overlap {
        bounds: Coords<'c>,
    },
    /// The boxes that lie inside it.
    Inside {
        bounds: Coords<'c>,
    },
    /// The boxes that cover it.
    Covers {
        bounds: Coords<'c>,
    },
    /// The rows of the table, into a file.
    Save {
        file: FileName<'c>,
    },
    /// The rows of a saved table, in place of those of the table.
    Load {
        file: FileName<'c>,
    },
    /// The rows of a file of records, beside those of the table. Its first record may be a header.
    Import {
        file: FileName<'c>,
        header: bool,
    },
    /// The rows of the table, as records into a file.
    Export {
        file: FileName<'c>,
    },
    /// The sizes of the tree.
    Stats,
    /// The other table, or the same again.
    Select {
        slot: Which,
    },
    /// Whether both tables are the same.
    Same,
    /// The pairs of a box of slot a and one of slot b that overlap.
    Join,
    /// In place of the current table, what is made of it and the other one.
    Combine {
        operation: SetOperation,
    },
    /// The last edits of the table are kept from now on, at most so many, 0 to 65,536, and those that were are forgotten.
    Keep {
        n: u32,
    },
    /// So many of the last edits are taken back.
    Back {
        n: u32,
    },
}

/// The first fault of a line, in the order in which they are looked for.
#[derive(Clone, Copy, Debug, PartialEq, Eq)]
pub enum Bad {
    /// The first word is no command.
    Word,
    /// No form of the command has so many words.
    Count,
    /// A word is not such a number as its place asks for.
    Number,
    /// A word is not the name or the fixed word that its place asks for.
    Name,
}
