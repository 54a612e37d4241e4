//! A sink that counts.
ghost use Rattle.std.specs.Prelude.{◌≡◌, ◌<◌, ◌+◌, ◌-◌, ◌^◌, min, None, Some, length, IfOk, IsOk};
ghost use Rattle.std.specs.Io.{WritesAtMost};
ghost use Rattle.std.specs.Io.KnownBytes.{WriteAppends};
ghost use Rattle.ph_io.specs.Amounts.{WriteAdds};
ghost use Rattle.ph_io.specs.Causes.{HasCause};

use crate::streams::{Failed, Sink};
use std::marker::Model;

/// Takes whole pieces, keeps only how many bytes came, and never fails.
#[derive(Drop)]
pub struct CountSink {
    taken: u64,
}

impl Model for CountSink {
    ghost use Rattle.std.specs.Prelude.{ℕ};

    ghost Value = { ℕ };

    ghost view = { λ s. s.taken };
}

impl CountSink {
    /// A sink that has taken nothing. It takes no memory.
    pub fn new() -> CountSink
        ensures { result ≡ 0 }
    {
        CountSink { taken: 0 }
    }

    /// How many bytes came, or 2^64 - 1 where it is more.
    pub fn taken(&self) -> u64
        ensures { result ≡ self.now }
    {
        self.taken
    }
}

impl Sink for CountSink {
    ghost written = { λ _. None };

    ghost amount = { λ s. Some s };

    ghost faults = { λ _. 0 };

    ghost follows_itself = { λ _. tt };

    ghost follows_on = { λ _ _ _ _ _. tt };

    fn write(&mut self, piece: &[u8]) -> Result<usize, Failed>
        ensures bound { WritesAtMost result piece.now }
        ensures some { IfOk result (λ n. 0 < length piece.now → 0 < n) }
        ensures bytes { WriteAppends None None result piece.now }
        ensures amount { WriteAdds (Some self.old) (Some self.new) result }
        ensures cause { HasCause 0 0 result }
        ensures always { IfOk result (λ n. n ≡ length piece.now) }
        ensures ok { IsOk result }
        ensures count { self.new ≡ min (self.old + length piece.now) (2 ^ 64 - 1) }
    {
        self.taken = self.taken.saturating_add(piece.len() as u64);
        Ok(piece.len())
    }
}
