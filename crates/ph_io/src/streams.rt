//! A source of bytes and a sink for bytes, by what is known of them.
ghost use Rattle.std.specs.Prelude.{◌≡◌, ℕ, ◌<◌, List, length, IfOk};
ghost use Rattle.std.specs.declared.option.Option.{Option};
ghost use Rattle.std.specs.Io.{ReadsAtMost, WritesAtMost};
ghost use Rattle.std.specs.Io.KnownBytes.{IsAtEnd, ReadConsumes, WriteAppends};
ghost use Rattle.ph_io.specs.Amounts.{WriteAdds};
ghost use Rattle.ph_io.specs.Causes.{HasCause};

/// A read or a write failed.
#[derive(Clone, Copy, Debug, PartialEq, Eq)]
pub struct Failed;

/// Where bytes come from.
pub trait Source {
    /// The bytes still to come, where they are known.
    ghost left: { Self → Option (List ℕ) };

    /// How often a read has failed. A count that stands at 2^64 - 1 may stay there.
    ghost faults: { Self → ℕ };

    /// Takes some bytes. `Ok(0)` comes only at the end of input, and a failure takes none.
    fn read(&mut self, into: &mut [u8]) -> Result<usize, Failed>
        requires { 0 < length into.old }
        ensures bound { ReadsAtMost result into.new }
        ensures bytes { ReadConsumes (left self.old) (left self.new) result into.new }
        ensures end { IfOk result (λ n. n ≡ 0 → IsAtEnd (left self.new)) }
        ensures cause { HasCause (faults self.old) (faults self.new) result };
}

/// Where bytes go.
pub trait Sink {
    /// The bytes taken, where they are known.
    ghost written: { Self → Option (List ℕ) };

    /// Their number, or 2^64 - 1 where that is more, where it is known.
    ghost amount: { Self → Option ℕ };

    /// How often a write has failed. A count that stands at 2^64 - 1 may stay there.
    ghost faults: { Self → ℕ };

    /// What stays, and what may change, from a state of the sink to a later one.
    ghost follows: { Self → Self → Type 0 } = { λ _ _. Unit {0} };

    /// Gives some of the bytes of a piece, at least one where there is one. A failure gives none.
    fn write(&mut self, piece: &[u8]) -> Result<usize, Failed>
        ensures bound { WritesAtMost result piece.now }
        ensures some { IfOk result (λ n. 0 < length piece.now → 0 < n) }
        ensures bytes { WriteAppends (written self.old) (written self.new) result piece.now }
        ensures amount { WriteAdds (amount self.old) (amount self.new) result }
        ensures cause { HasCause (faults self.old) (faults self.new) result }
        ensures follows { follows self.old self.new };

    /// A state follows itself.
    ghost follows_itself: { (s : Self) → follows s s };

    /// What follows a later state follows the earlier one.
    ghost follows_on: { (r s t : Self) → follows r s → follows s t → follows r t };
}
