//! The cursors of a slot, by their names.
ghost use Rattle.std.specs.Prelude.{◌≡◌, ◌<◌, ◌≤◌, true, length, IsTrue, MatchResult};
ghost use Rattle.std.specs.Ordering.{nat_cmp};
ghost use Rattle.std.specs.Cmp.Lexicographic.{slice_cmp};
ghost use Rattle.std.specs.FinMap.Entries.{is_sorted};
ghost use Rattle.ph_specs.specs.ProgramNames.{has_name};
ghost use Rattle.ph_slot.specs.Naming.{place};
ghost use Rattle.ph_slot.specs.Slots.{named, entered};

use arrayvec::ArrayVec;
use ph_coord::Point;
use ph_script::Name;
use ph_window::Cursor;
use std::cmp::Ordering;

// The most cursors of a slot.
pub(crate) const CURSORS: usize = 16;

/// A cursor with its name.
#[derive(Clone, Copy)]
pub struct Held<const D: usize> {
    pub name: Name,
    pub cursor: Cursor<D>,
}

// What stands in the places of a slot's list that no cursor has.
impl<const D: usize> Default for Held<D> {
    fn default() -> Held<D> {
        let origin = Point::new([0; D]);
        let Some(name) = Name::new("-") else {
            unreachable!()
        };
        Held {
            name,
            cursor: Cursor {
                lo: origin,
                hi: origin,
                last: None,
            },
        }
    }
}

// The place of the cursor of this name, or else the place where it would stand.
pub(crate) fn place_of<const D: usize>(held: &[Held<D>], name: &Name) -> Result<usize, usize>
    ensures place { result ≡ place name.now (named held.now) }
    ensures within { MatchResult result (λ i. i < length held.now) (λ i. i ≤ length held.now) }
{
    for (i, one) in held.iter().enumerate() {
        match name.cmp(&one.name) {
            Ordering::Less => return Err(i),
            Ordering::Equal => return Ok(i),
            Ordering::Greater => {}
        }
    }
    Err(held.len())
}

// Puts a cursor under its name, in place of one that has it.
pub(crate) fn enter<const D: usize>(cursors: &mut ArrayVec<Held<D>, CURSORS>, held: Held<D>)
    requires limit { D ≤ 16 }
    requires sorted { IsTrue (is_sorted (slice_cmp nat_cmp) (named cursors.old.items)) }
    requires room { length cursors.old.items ≡ 16 → has_name held.name (named cursors.old.items) ≡ true }
    ensures { cursors.new.items ≡ entered held.entry cursors.old.items }
{
    match place_of(cursors.as_slice(), &held.name) {
        Ok(i) => cursors.as_mut_slice()[i] = held,
        Err(i) => cursors.insert(i, held),
    }
}
