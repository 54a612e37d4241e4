//! Records that differ from an old record in one entry: one more, one less, or one changed.

ghost use Rattle.std.specs.Prelude.{◌≡◌, ◌+◌, ◌^◌, ◌<◌, ◌≤◌, true, false};
ghost use Rattle.ph_specs.specs.RecordNames.{first_in};
ghost use Rattle.ph_bits.specs.Packed.{IsPadded};
ghost use Rattle.ph_node.specs.Recorded.{IsSource};

use crate::marks::{entry_at, marked};
use crate::records;
use ph_bits::{Edit, Entries, Mark, Packed};
use ph_coord::Dims;
use std::marker::PhantomData;

/// The entries of an old record with an edit.
#[derive(Drop)]
pub(crate) struct EditedOf<'t, P: Dims> {
    pub(crate) old: &'t [u64],
    pub(crate) edit: Edit,
    pub(crate) dims: PhantomData<P>,
    ghost source: { IsSource P.D old.now },
    ghost within: { edit.place + edit.less ≤ (first_in old.now).entries },
    ghost few: { edit.more ≤ 1 },
    ghost padded: { IsPadded P.D edit.entry.body },
}

impl<'t, P: Dims> Entries<P> for EditedOf<'t, P> {
    ghost use Rattle.ph_bits.specs.Edits.{edit_of};
    ghost use Rattle.ph_node.specs.Marks.{IsMarkIn};

    ghost list = { λ s. edit_of P.D s.old.now s.edit.place s.edit.less s.edit.more s.edit.entry s.edit.value };

    ghost stands = { λ s. IsMarkIn P.D s.old.now };

    #[inline(always)]
    fn count(&self) -> usize {
        records::count(self.old) - self.edit.less + self.edit.more
    }

    #[inline(always)]
    fn at(&self, i: usize, mark: &mut Option<Mark>) -> Packed {
        if is_new(self.edit.place, self.edit.more, i) {
            return self.edit.entry;
        }
        let k = old_place(self.edit.place, self.edit.less, self.edit.more, i);
        let found = marked(self.old, P::D, k, mark);
        entry_at(self.old, P::D, found)
    }

    #[inline(always)]
    fn value(&self, i: usize, mark: &mut Option<Mark>) -> u64 {
        if is_new(self.edit.place, self.edit.more, i) {
            return self.edit.value;
        }
        let k = old_place(self.edit.place, self.edit.less, self.edit.more, i);
        let found = marked(self.old, P::D, k, mark);
        records::value(self.old, P::D, found.points)
    }
}

// Whether entry `i` is a new one.
#[inline(always)]
fn is_new(place: usize, more: usize, i: usize) -> bool
    requires { more ≤ 1 }
    ensures yes { result ≡ true → (place ≤ i) × (i < place + more) }
    ensures no { result ≡ false → place ≤ i → place + more ≤ i }
{
    if i < place {
        return false;
    }
    i - place < more
}

// The place in the old record of entry `i`, which is not a new one.
#[inline(always)]
fn old_place(place: usize, less: usize, more: usize, i: usize) -> usize
    requires behind { place ≤ i → place + more ≤ i }
    requires fits { i + less < 2 ^ 32 }
    ensures front { i < place → result ≡ i }
    ensures back { place ≤ i → result + more ≡ i + less }
{
    if i < place { i } else { i - more + less }
}
