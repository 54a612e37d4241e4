//! Files that never fail and keep nothing.
ghost use Rattle.std.specs.Prelude.{◌≡◌, ◌≤◌, true, false, None, length, IsOk, Err};
ghost use Rattle.ph_io.specs.declared.files.FetchFault.TheVariants.{Absent};

use crate::files::{FetchFault, Files};
use crate::streams::Failed;
use std::marker::Model;

/// No files. What is appended is let go, and no call fails.
#[derive(Drop)]
pub struct CleanFiles {
    is_begun: bool,
}

impl Model for CleanFiles {
    ghost use Rattle.std.specs.Prelude.{Bool};

    ghost Value = { Bool };

    ghost view = { λ s. s.is_begun };
}

impl CleanFiles {
    /// No files, and nothing begun. It takes no memory.
    pub fn new() -> CleanFiles
        ensures { result ≡ false }
    {
        CleanFiles { is_begun: false }
    }
}

impl Files for CleanFiles {
    ghost files = { λ _. None };

    ghost draft = { λ _. None };

    ghost is_begun = { λ s. s };

    ghost faults = { λ _. 0 };

    ghost draft_known = { λ _ known. known };

    fn fetch(&mut self, _name: &str, _most: u64, _into: &mut Vec<u8>) -> Result<(), FetchFault>
        requires { length _name.now ≤ 255 }
        ensures absent { result ≡ Err Absent }
        ensures begun { self.new ≡ self.old }
    {
        Err(FetchFault::Absent)
    }

    fn begin(&mut self, _name: &str) -> Result<(), Failed>
        requires { length _name.now ≤ 255 }
        ensures always { IsOk result }
        ensures begun { self.new ≡ true }
    {
        self.is_begun = true;
        Ok(())
    }

    fn append(&mut self, _piece: &[u8]) -> Result<(), Failed>
        requires { self.old ≡ true }
        ensures always { IsOk result }
        ensures begun { self.new ≡ true }
    {
        Ok(())
    }

    fn finish(&mut self) -> Result<(), Failed>
        requires { self.old ≡ true }
        ensures always { IsOk result }
        ensures begun { self.new ≡ false }
    {
        self.is_begun = false;
        Ok(())
    }
}
