//! A point into the record of a block, or out of it.

ghost use Rattle.std.specs.Prelude.{◌≡◌, ◌+◌, ◌^◌, ◌≤◌, true, false, Some, MatchOption, length, map, slice_get, OnOk};
ghost use Rattle.ph_specs.specs.RecordNames.{is_cube, first_in, has_cube, entries_in};
ghost use Rattle.ph_model.specs.ModelNames.{is_child};
ghost use Rattle.ph_bits.specs.Block.{room_of};
ghost use Rattle.ph_node.specs.PointEdit.{IsNewPoint, IsPointPut, less_edit, more_edit};
ghost use Rattle.ph_node.specs.RecordEdit.{IsRecordEdit, with_edit, words_with, record_with};
ghost use Rattle.ph_node.specs.Relaid.{is_relaid};
ghost use Rattle.ph_node.specs.Rooms.{IsFitting, IsRoomFor, IsUsed, places_of};

use crate::moves::{give_back, make_room, move_into};
use crate::node::ChildOf;
use crate::spots::Spot;
use crate::{NoMemory, records, rewrites};
use ph_bits::{Block, Edit, Packed, Words};
use ph_coord::Dims;
use ph_linear::level_in;

/// A point that comes to place `i`, as an edit.
#[inline(always)]
pub(crate) fn more_edit(i: usize, addr: u32, body: [u64; 16], v: u64) -> Edit
    ensures { result ≡ more_edit i addr body v }
{
    Edit {
        place: i,
        less: 0,
        more: 1,
        entry: Packed {
            addr,
            child: false,
            body,
            rank: 0,
        },
        value: v,
    }
}

/// A point that goes, as an edit.
#[inline(always)]
pub(crate) fn less_edit(spot: Spot) -> Edit
    ensures { result ≡ less_edit spot }
{
    Edit {
        place: spot.place,
        less: 1,
        more: 0,
        entry: Packed {
            addr: spot.addr,
            child: false,
            body: [0; 16],
            rank: 0,
        },
        value: 0,
    }
}

/// Puts a new point into the record of a block: where the record lies, or entry by entry into another block where its layout changes.
///
/// Takes memory only where the layout changes or the block has too few spare places, before the first change. Without it nothing has
/// changed.
#[inline(always)]
pub(crate) fn add_point<P: Dims>(block: &mut Block<ChildOf<P>>, edit: &Edit) -> Result<(), NoMemory>
    requires { IsNewPoint P.D block.old.words (length block.old.values) edit.now }
    ensures put { IsPointPut P.D block.old edit.now result block.new }
    ensures room { IsRoomFor P.D block.old edit.now result block.new }
{
    let dims = P::D;
    let words = block.words();
    let more = records::count(words) + 1;
    if records::changes_layout(words, dims, more) {
        add_anew(block, edit)
    } else {
        add_there(block, edit)
    }
}

// Puts the point in where the record lies.
#[inline(always)]
fn add_there<P: Dims>(block: &mut Block<ChildOf<P>>, edit: &Edit) -> Result<(), NoMemory>
    requires new { IsNewPoint P.D block.old.words (length block.old.values) edit.now }
    requires layout { is_cube P.D (first_in block.old.words).level (length (with_edit P.D block.old.words edit.now))
        ≡ has_cube P.D (first_in block.old.words) }
    ensures put { IsPointPut P.D block.old edit.now result block.new }
    ensures room { IsRoomFor P.D block.old edit.now result block.new }
{
    let dims = P::D;
    let long = length_with(block, edit);
    make_room(block, long)?;
    rewrites::insert_entry(block, dims, long, edit);
    Ok(())
}

/// Lays the record with the point out in another block.
#[inline(never)]
pub(crate) fn add_anew<P: Dims>(block: &mut Block<ChildOf<P>>, edit: &Edit) -> Result<(), NoMemory>
    requires { IsNewPoint P.D block.old.words (length block.old.values) edit.now }
    ensures put { IsPointPut P.D block.old edit.now result block.new }
    ensures most { OnOk result (IsFitting P.D block.old edit.now block.new) }
    ensures used { OnOk result (IsUsed block.new) }
{
    let room = length_with(block, edit) + block.count();
    let words = records::roomy(block.allocator(), room)?;
    lay_out(block, edit, words);
    Ok(())
}

// How many words the record has with the point.
#[inline(always)]
fn length_with<P: Dims>(block: &Block<ChildOf<P>>, edit: &Edit) -> usize
    requires { IsNewPoint P.D block.now.words (length block.now.values) edit.now }
    ensures value { result ≡ words_with P.D block.now.words edit.now }
    ensures limit { result + length block.now.values ≤ 2 ^ 20 + 2 ^ 16 }
{
    let _ = edit;
    let dims = P::D;
    let words = block.words();
    let children = block.count();
    let n = records::count(words) + 1;
    let points = n - children;
    records::size(dims, level_in(words), n, points)
}

/// Takes a point out of the record of a block: where the record lies, or entry by entry into another block where its layout changes,
/// which is handed in. Then a block that has much more room than it wants gives some back, and an error says only that there was no memory to do
/// so: the point is out.
#[inline(always)]
pub(crate) fn take_point<P: Dims>(
    block: &mut Block<ChildOf<P>>,
    edit: &Edit,
    spare: Option<Words>,
) -> Result<(), NoMemory>
    requires edit { IsRecordEdit P.D block.old.words edit.now }
    requires less { edit.now.less ≡ 1 }
    requires more { edit.now.more ≡ 0 }
    requires was { slice_get (map is_child (entries_in P.D block.old.words)) edit.now.place ≡ Some false }
    requires room { is_relaid P.D (first_in block.old.words).level (first_in block.old.words).entries ≡ true
        → MatchOption spare ⊥ (λ w. length block.old.words + length block.old.values ≤ room_of w) }
    ensures words { block.new.words ≡ record_with P.D block.old.words edit.now }
    ensures values { block.new.values ≡ block.old.values }
    ensures used { OnOk result (IsUsed block.new) }
{
    let dims = P::D;
    let words = block.words();
    let left = records::count(words) - 1;
    if records::changes_layout(words, dims, left) {
        match spare {
            Some(words) => lay_out(block, edit, words),
            None => unreachable!(),
        }
    } else {
        rewrites::remove_entry(block, dims, edit);
    }
    give_back(block)
}

/// Lays the record with the edit out in other words, and moves the children behind it.
#[inline(never)]
pub(crate) fn lay_out<P: Dims>(block: &mut Block<ChildOf<P>>, edit: &Edit, words: Words)
    requires edit { IsRecordEdit P.D block.old.words edit.now }
    requires room { words_with P.D block.old.words edit.now + length block.old.values ≤ room_of words }
    ensures words { block.new.words ≡ record_with P.D block.old.words edit.now }
    ensures values { block.new.values ≡ block.old.values }
    ensures places { places_of block.new ≡ room_of words }
{
    let mut words = words;
    rewrites::lay_out::<P>(&mut words, block.words(), edit);
    move_into(block, words);
}
