//! A block that an edit takes before its first change, for a change behind it.

ghost use Rattle.std.specs.Prelude.{◌≡◌, ◌+◌, ◌^◌, ◌<◌, ◌≤◌, None, Some, IsTrue};
ghost use Rattle.ph_specs.specs.TreeNames.{count};
ghost use Rattle.ph_model.specs.ModelNames.{IsLawfulFrom};
ghost use Rattle.ph_specs.specs.RecordNames.{is_cube};
ghost use Rattle.ph_bits.specs.Block.{empty};
ghost use Rattle.ph_node.specs.Shown.{shown};
ghost use Rattle.ph_tree.specs.Rooms.{is_relaid_near, spare_room, more_words};
ghost use Rattle.ph_tree.specs.Spare.{IsRoomy};

use crate::records::record_room;
use ph_bits::Words;
use ph_coord::Dims;
use ph_node::{NodeOf, NodeRefOf};
use std::alloc::Global;

// A block that is taken once it is known to be wanted.
#[derive(Drop)]
pub(crate) struct Spare {
    // Where it is taken from.
    alloc: Global,
    // For how many words it is to have room, and 0 where none is wanted.
    pub(crate) room: usize,
    // The block, once it is taken.
    pub(crate) block: Option<Words>,
}

impl Spare {
    // One with room for so many words, or none for 0. Takes no memory yet.
    #[inline(always)]
    pub(crate) fn new(alloc: Global, room: usize) -> Spare
        ensures room { result.room ≡ room }
        ensures block { result.block ≡ None }
    {
        Spare {
            alloc,
            room,
            block: None,
        }
    }

    // Takes the block, where one is wanted, and tells whether there was memory for it.
    #[inline(always)]
    pub(crate) fn take(&mut self) -> bool
        requires limit { self.old.room < 2 ^ 21 }
        ensures room { IsTrue result → IsRoomy self.new.block self.old.room }
        ensures taken { IsTrue result → 0 < self.old.room → self.new.block ≡ Some (empty self.old.alloc self.old.room) }
        ensures idle { self.old.room ≡ 0 → self.new ≡ self.old }
        ensures lean { self.old.room ≡ 0 → IsTrue result }
    {
        if self.room == 0 {
            return true;
        }
        match Words::with_room(self.alloc, self.room) {
            Ok(block) => {
                self.block = Some(block);
                true
            }
            Err(_) => false,
        }
    }
}

// The room that a removal may want of a visited node once a put at a point of a width is behind it, which may have added an entry.
pub(crate) fn spare_room<P: Dims>(node: NodeRefOf<'_, NodeOf<P>>, width: u32) -> usize
    requires few { P.D ≤ 16 }
    requires width { width ≤ 62 }
    requires lawful { IsLawfulFrom P.D (shown node).level 0 (shown node).chain }
    ensures room { result ≡ spare_room width P.D (shown node.entry).level (shown node.entry).chain }
    ensures limit { result < 2 ^ 21 }
{
    if is_relaid_near(node) {
        record_room(node) + more_words(width, P::D)
    } else {
        0
    }
}

// Whether the record of a visited node, or that of one with an entry more, changes its layout when an entry goes.
fn is_relaid_near<P: Dims>(node: NodeRefOf<'_, NodeOf<P>>) -> bool
    requires few { P.D ≤ 16 }
    requires lawful { IsLawfulFrom P.D (shown node).level 0 (shown node).chain }
    ensures { result ≡ is_relaid_near P.D (shown node.entry).level (count (shown node.entry).chain) }
{
    if node.is_relaid() {
        return true;
    }
    node.is_cube() != wants_cube(P::D, node.level(), node.len() + 1)
}

// Whether a record of so many entries at a level is smaller as a cube.
fn wants_cube(dims: usize, level: u32, entries: usize) -> bool
    requires few { dims ≤ 16 }
    requires low { level ≤ 61 }
    requires entries { entries ≤ 2 ^ 16 + 1 }
    ensures { result ≡ is_cube dims level entries }
{
    let fields = dims as u64 * level as u64;
    (1 << dims) * (2 + fields) < entries as u64 * (1 + dims as u64 + fields)
}

// By how many words a put at a point of a width lets the room grow, at most, that a removal wants.
fn more_words(width: u32, dims: usize) -> usize
    requires width { width ≤ 62 }
    requires dims { dims ≤ 16 }
    ensures value { result ≡ more_words width dims }
    ensures limit { result ≤ 17 }
{
    (1 + dims + dims * width as usize + 63) / 64 + 1
}
