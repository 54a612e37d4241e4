//! A sink that appends to the file that is begun.
ghost use Rattle.std.specs.Prelude.{◌≡◌, ◌<◌, true, None, length, IfOk};
ghost use Rattle.std.specs.Io.{WritesAtMost};
ghost use Rattle.std.specs.Io.KnownBytes.{WriteAppends};
ghost use Rattle.ph_io.specs.Amounts.{WriteAdds};
ghost use Rattle.ph_io.specs.Causes.{HasCause};
ghost use Rattle.ph_slot.specs.Drafting.{draft_bytes, failed_writes, Follows};
ghost use Rattle.ph_slot.specs.DraftLaws.{follows_itself, follows_on};
ghost use Rattle.ph_slot.specs.Told.{drafted_by};

use ph_io::{Failed, Files, Sink};

// Appends each write to the file that is begun. After one that failed none is made, and each counts as late.
#[derive(Drop)]
pub(crate) struct FileSink<'f, F: Files> {
    pub(crate) files: &'f mut F,
    pub(crate) late: u64,
    pub(crate) works: bool,
    ghost begun: { F.is_begun files.now ≡ works },
}

impl<'f, F: Files> FileSink<'f, F> {
    pub(crate) fn new(files: &'f mut F) -> FileSink<'f, F>
        requires { F.is_begun files.old ≡ true }
        ensures same_reference { result.files.ghost_name ≡ files.entry.ghost_name }
        ensures files { result.files.now ≡ files.old }
        ensures late { result.late ≡ 0 }
        ensures works { result.works ≡ true }
    {
        FileSink {
            files,
            late: 0,
            works: true,
        }
    }
}

impl<'f, F: Files> Sink for FileSink<'f, F> {
    ghost written = { λ s. draft_bytes (F.draft s.files.now) };

    ghost amount = { λ _. None };

    ghost faults = { λ s. failed_writes s.works s.late };

    ghost follows = { λ a b. Follows
        (drafted_by F.Files a.files.ghost_name a.files.now a.late a.works)
        (drafted_by F.Files b.files.ghost_name b.files.now b.late b.works) };

    ghost follows_itself = { λ _. follows_itself _ };

    ghost follows_on = { λ _ _ _. follows_on _ _ _ };

    fn write(&mut self, piece: &[u8]) -> Result<usize, Failed>
        ensures bound { WritesAtMost result piece.now }
        ensures some { IfOk result (λ n. 0 < length piece.now → 0 < n) }
        ensures bytes { WriteAppends (draft_bytes (F.draft self.old.files.now)) (draft_bytes (F.draft self.new.files.now)) result piece.now }
        ensures amount { WriteAdds None None result }
        ensures cause { HasCause (failed_writes self.old.works self.old.late) (failed_writes self.new.works self.new.late) result }
        ensures follows { Follows
            (drafted_by F.Files self.old.files.ghost_name self.old.files.now self.old.late self.old.works)
            (drafted_by F.Files self.new.files.ghost_name self.new.files.now self.new.late self.new.works) }
    {
        if !self.works {
            self.late = self.late.saturating_add(1);
            return Err(Failed);
        }
        match self.files.append(piece) {
            Ok(()) => Ok(piece.len()),
            Err(Failed) => {
                self.works = false;
                Err(Failed)
            }
        }
    }
}
