//! Files by their names, by what is known of them.
ghost use Rattle.std.specs.Prelude.{◌≡◌, ℕ, ◌≤◌, Bool, true, false, length, IsSome, OnOk, OnErr};
ghost use Rattle.std.specs.declared.option.Option.{Option};
ghost use Rattle.ph_io.specs.Shelf.{Map, Draft, Stays, Begins, Grows, Gains, Fetches, FetchCounts, Counts};

use crate::streams::Failed;
use thiserror::Error;

/// Why a file was not fetched.
#[derive(Clone, Copy, Debug, PartialEq, Eq, Error)]
pub enum FetchFault {
    /// The call failed.
    #[error("Failed")]
    Failed,
    /// There is no file of this name.
    #[error("Absent")]
    Absent,
    /// The file has more bytes than it may have.
    #[error("Over")]
    Over,
    /// There was no memory for the file's bytes, of which there are no more than there may be.
    #[error("NoMemory")]
    NoMemory,
}

/// Files by their names, which have at most 255 bytes each.
///
/// One file at a time is begun, appended to and finished. Until it is finished it is not among the
/// files, and one that stands there under its name stays as it was.
pub trait Files {
    /// The files, where they are known.
    ghost files: { Self → Option Map };

    /// The draft, where it is known: the name that was begun last, with the bytes that were
    /// appended to it. It stays when it is finished or dropped.
    ghost draft: { Self → Option Draft };

    /// Whether the draft is begun, and not finished or dropped.
    ghost is_begun: { Self → Bool };

    /// How often a call has failed. A count that stands at 2^64 - 1 may stay there.
    ghost faults: { Self → ℕ };

    /// Makes `into` the bytes of a file, which may be `most`. It grows as the file is read. A file
    /// that is absent or too long wants no memory. After an error it holds any bytes, and the files
    /// are as they were.
    fn fetch(&mut self, name: &str, most: u64, into: &mut Vec<u8>) -> Result<(), FetchFault>
        requires { length name.now ≤ 255 }
        ensures fetches { Fetches (files self.old) name.now most into.new.items result }
        ensures within { OnOk result (length into.new.items ≤ most) }
        ensures counts { FetchCounts (faults self.old) (faults self.new) result }
        ensures files { Stays (files self.old) (files self.new) }
        ensures draft { Stays (draft self.old) (draft self.new) }
        ensures is_begun { is_begun self.new ≡ is_begun self.old };

    /// Begins a file, which is empty. One that was begun before is dropped. After an error nothing
    /// is begun, and the files are as they were.
    fn begin(&mut self, name: &str) -> Result<(), Failed>
        requires { length name.now ≤ 255 }
        ensures ok { OnOk result (Begins (draft self.old) (draft self.new) name.now) }
        ensures begun { OnOk result (is_begun self.new ≡ true) }
        ensures err { OnErr result (Stays (draft self.old) (draft self.new)) }
        ensures none { OnErr result (is_begun self.new ≡ false) }
        ensures counts { Counts (faults self.old) (faults self.new) result }
        ensures files { Stays (files self.old) (files self.new) };

    /// Appends a whole piece to the file that is begun. After an error nothing is begun, and the
    /// files are as they were.
    fn append(&mut self, piece: &[u8]) -> Result<(), Failed>
        requires { is_begun self.old ≡ true }
        ensures ok { OnOk result (Grows (draft self.old) (draft self.new) piece.now) }
        ensures begun { OnOk result (is_begun self.new ≡ true) }
        ensures err { OnErr result (Stays (draft self.old) (draft self.new)) }
        ensures none { OnErr result (is_begun self.new ≡ false) }
        ensures counts { Counts (faults self.old) (faults self.new) result }
        ensures files { Stays (files self.old) (files self.new) };

    /// Puts the file that is begun among the files, in place of one of its name. Nothing is begun
    /// then, nor after an error, which leaves the files as they were.
    fn finish(&mut self) -> Result<(), Failed>
        requires { is_begun self.old ≡ true }
        ensures ok { OnOk result (Gains (files self.old) (draft self.old) (files self.new)) }
        ensures err { OnErr result (Stays (files self.old) (files self.new)) }
        ensures none { is_begun self.new ≡ false }
        ensures draft { Stays (draft self.old) (draft self.new) }
        ensures counts { Counts (faults self.old) (faults self.new) result };

    /// Where the files are known, so is the draft.
    ghost draft_known: { (s : Self) → IsSome (files s) → IsSome (draft s) };
}
