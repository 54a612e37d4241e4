//! A sink that writes to a lent array.
ghost use Rattle.std.specs.Prelude.{◌≡◌, ◌<◌, ◌≤◌, Some, take, length, IfOk};
ghost use Rattle.std.specs.Io.{WritesAtMost};
ghost use Rattle.std.specs.Io.KnownBytes.{WriteAppends};
ghost use Rattle.ph_io.specs.Amounts.{WriteAdds, amount_of};
ghost use Rattle.ph_io.specs.Causes.{HasCause};
ghost use Rattle.ph_c.specs.Slices.{slice_of, Follows};
ghost use Rattle.ph_c.specs.SliceLaws.{follows_itself, follows_on};

use ph_io::{Failed, Sink};

// Writes from the front of an array on. Where that is full each write of some bytes fails, and counts.
#[derive(Drop)]
pub(crate) struct SliceSink<'b> {
    pub(crate) bytes: &'b mut [u8],
    pub(crate) count: usize,
    pub(crate) faults: u64,
    ghost within: { count ≤ length bytes.now },
}

impl<'b> SliceSink<'b> {
    // A sink that has written nothing yet.
    pub(crate) fn new(bytes: &'b mut [u8]) -> SliceSink<'b>
        ensures same_reference { result.bytes.ghost_name ≡ bytes.entry.ghost_name }
        ensures bytes { result.bytes.now ≡ bytes.old }
        ensures count { result.count ≡ 0 }
        ensures faults { result.faults ≡ 0 }
    {
        SliceSink {
            bytes,
            count: 0,
            faults: 0,
        }
    }
}

impl<'b> Sink for SliceSink<'b> {
    ghost written = { λ s. Some (take s.count s.bytes.now) };

    ghost amount = { λ s. Some (amount_of (take s.count s.bytes.now)) };

    ghost faults = { λ s. s.faults };

    ghost follows = { λ a b. Follows
        (slice_of a.bytes.ghost_name a.bytes.now a.count a.faults)
        (slice_of b.bytes.ghost_name b.bytes.now b.count b.faults) };

    ghost follows_itself = { λ _. follows_itself _ };

    ghost follows_on = { λ _ _ _. follows_on _ _ _ };

    fn write(&mut self, piece: &[u8]) -> Result<usize, Failed>
        ensures bound { WritesAtMost result piece.now }
        ensures some { IfOk result (λ n. 0 < length piece.now → 0 < n) }
        ensures bytes { WriteAppends (Some (take self.old.count self.old.bytes.now)) (Some (take self.new.count self.new.bytes.now)) result piece.now }
        ensures amount { WriteAdds
            (Some (amount_of (take self.old.count self.old.bytes.now)))
            (Some (amount_of (take self.new.count self.new.bytes.now))) result }
        ensures cause { HasCause self.old.faults self.new.faults result }
        ensures follows { Follows
            (slice_of self.old.bytes.ghost_name self.old.bytes.now self.old.count self.old.faults)
            (slice_of self.new.bytes.ghost_name self.new.bytes.now self.new.count self.new.faults) }
    {
        let room = self.bytes.len() - self.count;
        if room == 0 && !piece.is_empty() {
            self.faults = self.faults.saturating_add(1);
            return Err(Failed);
        }
        let count = piece.len().min(room);
        let end = self.count + count;
        self.bytes[self.count..end].copy_from_slice(&piece[..count]);
        self.count = end;
        Ok(count)
    }
}
