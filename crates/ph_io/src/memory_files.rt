//! Files in memory, that fail where they are told to and where their room is used up.
ghost use Rattle.std.specs.Prelude.{◌≡◌, ◌≤◌, ◌⊎◌, ◌↔◌, ◌++◌, true, false, Some, [], length};
ghost use Rattle.std.specs.Prelude.{option_map, IfOk, IsErr, OnOk, MatchResult, IsTrue, IsFalse, Err, if◌then◌else◌, refl};
ghost use Rattle.ph_specs.specs.ProgramNames.{lookup};
ghost use Rattle.ph_io.specs.Causes.{Rose};
ghost use Rattle.ph_io.specs.Shelf.{Fetches, FetchCounts, Counts};
ghost use Rattle.ph_io.specs.Shelved.{CallFails, called, failed, faulted, HasNoRoom, IsOneMore, HasRoomFor, with_file, drafting, dropping, filing, finishing, is_failure};
ghost use Rattle.ph_io.specs.declared.files.FetchFault.TheVariants as fault;

use crate::NoMemory;
use crate::files::{FetchFault, Files};
use crate::stored::{Stored, bytes_of, keep};
use crate::streams::Failed;
use std::alloc::Global;
use std::marker::Model;

/// Keeps files up to its room. The calls of `fetch`, `begin`, `append` and `finish` whose numbers,
/// counted together from 1, are in `fails` fail. So does an `append` that passes the room for a
/// file, and a `finish` that needs a name more than there is room for.
#[derive(Drop)]
pub struct MemoryFiles {
    stored: Vec<Stored>,
    spare: Vec<Stored>,
    draft: Stored,
    is_begun: bool,
    most: usize,
    room: usize,
    fails: Vec<u64>,
    calls: u64,
    faults: u64,
}

impl Model for MemoryFiles {
    ghost use Rattle.std.specs.Prelude.{◌≡◌, ◌+◌, ◌≤◌, All, map, vec_len, vec_capacity};
    ghost use Rattle.ph_io.specs.Shelved.{Shelved};
    ghost use Rattle.ph_io.specs.Storing.{file_of, IsRoomy};

    ghost Value = { Shelved };

    ghost view = { λ s. record {
      files = map file_of s.stored.items;
      draft = file_of s.draft;
      is_begun = s.is_begun;
      most = s.most;
      room = s.room;
      fails = s.fails.items;
      calls = s.calls;
      faults = s.faults;
    } };

    ghost invariant = { λ s.
        All (IsRoomy s.room) s.stored.items × All (IsRoomy s.room) s.spare.items × IsRoomy s.room s.draft
        × (vec_len s.draft.bytes ≤ s.room) × (vec_len s.stored + vec_len s.spare ≡ s.most) × (s.most ≤ vec_capacity s.stored) };
}

impl MemoryFiles {
    /// No files, with room for `files` of them, of `room` bytes each, and for one that is begun.
    /// All its memory is taken here, and no other call takes any, but for what `fetch` puts into
    /// the vector that it is given.
    pub fn new(
        alloc: Global,
        files: usize,
        room: usize,
        fails: Vec<u64>,
    ) -> Result<MemoryFiles, NoMemory>
        ensures { IfOk result (λ new. new ≡ record {
          files = [];
          draft = ([], []);
          is_begun = false;
          most = files;
          room = room;
          fails = fails.items;
          calls = 0;
          faults = 0;
        }) }
    {
        let stored = Vec::with_capacity(alloc, files)?;
        let mut spare = Vec::with_capacity(alloc, files)?;
        for _ in 0..files {
            spare.push(Stored::empty(alloc, room)?)?;
        }
        Ok(MemoryFiles {
            stored,
            spare,
            draft: Stored::empty(alloc, room)?,
            is_begun: false,
            most: files,
            room,
            fails,
            calls: 0,
            faults: 0,
        })
    }

    /// The bytes of a file, if there is one of this name.
    pub fn get(&self, name: &str) -> Option<&[u8]>
        ensures { option_map (λ s. s.now) result ≡ lookup name.now self.now.files }
    {
        bytes_of(&self.stored, name)
    }

    /// Puts a file among the files, in place of one of its name, without counting as a call.
    /// False, with all as before, exactly where there is no room for its bytes or its name.
    pub fn preset(&mut self, name: &str, bytes: &[u8]) -> bool
        requires { length name.now ≤ 255 }
        ensures room { IsTrue result ↔ HasRoomFor self.old name.now bytes.now }
        ensures files { self.new ≡ (if result then with_file self.old name.now bytes.now else self.old) }
    {
        if self.room < bytes.len() {
            return false;
        }
        keep(&mut self.stored, &mut self.spare, self.room, name, bytes)
    }

    /// Puts the draft among the files. False, with all as before, where its name has no room.
    fn keep_draft(&mut self) -> bool
        ensures room { IsFalse result ↔ IsOneMore self.old }
        ensures files { self.new ≡ (if result then filing self.old else self.old) }
    {
        let name = self.draft.name.as_str();
        let bytes = self.draft.bytes.as_slice();
        keep(&mut self.stored, &mut self.spare, self.room, name, bytes)
    }

    /// Counts a call, and tells whether it is one of those that fail.
    fn fails(&mut self) -> bool
        ensures fails { IsTrue result ↔ CallFails self.old }
        ensures counts { self.new ≡ called self.old }
    {
        self.calls = self.calls.saturating_add(1);
        self.fails.contains(&self.calls)
    }

    /// Counts a fault.
    fn fault(&mut self) -> Failed
        ensures faulted { self.new ≡ faulted self.old }
        ensures later { self.old.faults ≤ self.new.faults }
        ensures rose { Rose self.old.faults self.new.faults }
    {
        self.faults = self.faults.saturating_add(1);
        Failed
    }

    /// Counts a fault, and drops what is begun.
    fn drop_draft(&mut self) -> Failed
        ensures dropped { self.new ≡ dropping (faulted self.old) }
        ensures later { self.old.faults ≤ self.new.faults }
        ensures rose { Rose self.old.faults self.new.faults }
    {
        self.is_begun = false;
        self.fault()
    }
}

impl Files for MemoryFiles {
    ghost files = { λ s. Some s.files };

    ghost draft = { λ s. Some s.draft };

    ghost is_begun = { λ s. s.is_begun };

    ghost faults = { λ s. s.faults };

    ghost draft_known = { λ _ _. refl };

    /// A failure counts as a call and as a fault, and changes nothing else. Both counts stand still
    /// at 2^64 - 1, here and in the other calls.
    fn fetch(&mut self, name: &str, most: u64, into: &mut Vec<u8>) -> Result<(), FetchFault>
        requires { length name.now ≤ 255 }
        ensures fetches { Fetches (Some self.old.files) name.now most into.new.items result }
        ensures within { OnOk result (length into.new.items ≤ most) }
        ensures counts { FetchCounts self.old.faults self.new.faults result }
        ensures fails { (result ≡ Err fault.Failed) ↔ CallFails self.old }
        ensures shelved { self.new ≡ (if is_failure result then failed self.old else called self.old) }
    {
        if self.fails() {
            self.fault();
            return Err(FetchFault::Failed);
        }
        let Some(bytes) = bytes_of(&self.stored, name) else {
            return Err(FetchFault::Absent);
        };
        if most < bytes.len() as u64 {
            return Err(FetchFault::Over);
        }
        into.clear();
        match into.extend_from_slice(bytes) {
            Ok(()) => Ok(()),
            Err(_) => Err(FetchFault::NoMemory),
        }
    }

    fn begin(&mut self, name: &str) -> Result<(), Failed>
        requires { length name.now ≤ 255 }
        ensures counts { Counts self.old.faults self.new.faults result }
        ensures fails { IsErr result ↔ CallFails self.old }
        ensures shelved { MatchResult result
            (λ _. self.new ≡ drafting (called self.old) (name.now, []))
            (λ _. self.new ≡ dropping (failed self.old)) }
    {
        if self.fails() {
            return Err(self.drop_draft());
        }
        self.draft.fill(name, &[]);
        self.is_begun = true;
        Ok(())
    }

    fn append(&mut self, piece: &[u8]) -> Result<(), Failed>
        requires { self.old.is_begun ≡ true }
        ensures counts { Counts self.old.faults self.new.faults result }
        ensures fails { IsErr result ↔ (CallFails self.old ⊎ HasNoRoom self.old (length piece.now)) }
        ensures shelved { MatchResult result
            (λ _. self.new ≡ drafting (called self.old) (self.old.draft.0, self.old.draft.1 ++ piece.now))
            (λ _. self.new ≡ dropping (failed self.old)) }
    {
        if self.fails() || self.room - self.draft.bytes.len() < piece.len() {
            return Err(self.drop_draft());
        }
        self.draft.bytes.extend_from_slice(piece).unwrap();
        Ok(())
    }

    fn finish(&mut self) -> Result<(), Failed>
        requires { self.old.is_begun ≡ true }
        ensures counts { Counts self.old.faults self.new.faults result }
        ensures fails { IsErr result ↔ (CallFails self.old ⊎ IsOneMore self.old) }
        ensures shelved { MatchResult result
            (λ _. self.new ≡ finishing (called self.old))
            (λ _. self.new ≡ dropping (failed self.old)) }
    {
        if self.fails() {
            return Err(self.drop_draft());
        }
        if !self.keep_draft() {
            return Err(self.drop_draft());
        }
        self.is_begun = false;
        Ok(())
    }
}
