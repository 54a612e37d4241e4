//! Words and children that go from one block to another.

ghost use Rattle.std.specs.Prelude.{◌≡◌, ◌+◌, ◌*◌, ◌^◌, ◌<◌, ◌≤◌, [], true, false, length, take, drop, if◌then◌else◌, IsOk, OnOk, OnErr};
ghost use Rattle.std.specs.List.{remove};
ghost use Rattle.ph_bits.specs.Kids.{IsWord};
ghost use Rattle.ph_node.specs.Rooms.{places_of, is_used, IsUsed};

use crate::{NoMemory, records};
use ph_bits::{Block, Words};

/// Puts words in place of those of a block, in the memory of the new ones. The values move there, and the old memory is given back.
pub(crate) fn move_into<T: Drop>(old: &mut Block<T>, words: Words)
    requires room { length old.old.values ≤ words.spare }
    requires sized { IsWord T.row }
    ensures words { old.new.words ≡ words.words }
    ensures values { old.new.values ≡ old.old.values }
    ensures spare { words.spare ≡ old.new.spare + length old.old.values }
{
    let mut block = Block::of(words);
    block.take_values(old);
    *old = block;
}

/// Sees to it that a block has places for so many words. Where it has too few, its words and its values go to other memory, with more
/// room, and the old memory is given back. Without memory nothing has changed.
#[inline(always)]
pub(crate) fn make_room<T: Drop>(block: &mut Block<T>, long: usize) -> Result<(), NoMemory>
    requires sized { IsWord T.row }
    requires limit { long + length block.old.values ≤ 2 ^ 20 + 2 ^ 16 }
    ensures room { OnOk result (long ≤ length block.new.words + block.new.spare) }
    ensures words { block.new.words ≡ block.old.words }
    ensures values { block.new.values ≡ block.old.values }
    ensures lean { long ≤ length block.old.words + block.old.spare → IsOk result × (block.new ≡ block.old) }
    ensures most { length block.old.words + block.old.spare < long
        → OnOk result (4 * places_of block.new ≤ 5 * (long + length block.old.values)) }
    ensures used { length block.old.words ≤ long → IsUsed block.old
        → OnOk result (2 * places_of block.new ≤ 3 * (long + length block.old.values) + 4) }
{
    if long <= block.len() + block.spare() {
        return Ok(());
    }
    widen(block, long)
}

// Moves a block to other memory, with more room.
#[inline(never)]
fn widen<T: Drop>(block: &mut Block<T>, long: usize) -> Result<(), NoMemory>
    requires sized { IsWord T.row }
    requires limit { long + length block.old.values ≤ 2 ^ 20 + 2 ^ 16 }
    requires more { length block.old.words ≤ long }
    ensures room { OnOk result (long ≤ length block.new.words + block.new.spare) }
    ensures words { block.new.words ≡ block.old.words }
    ensures values { block.new.values ≡ block.old.values }
    ensures most { OnOk result (4 * places_of block.new ≤ 5 * (long + length block.old.values)) }
{
    let mut words = records::roomy(block.allocator(), long + block.count())?;
    words.extend(block.words());
    move_into(block, words);
    Ok(())
}

/// Sees to it that a block has at most half as many places more than its words and its values want, and a few: else they go to other memory, with about the
/// room that they want, and the old memory is given back. Without memory nothing has changed.
#[inline(always)]
pub(crate) fn give_back<T: Drop>(block: &mut Block<T>) -> Result<(), NoMemory>
    requires { IsWord T.row }
    ensures used { OnOk result (IsUsed block.new) }
    ensures words { block.new.words ≡ block.old.words }
    ensures values { block.new.values ≡ block.old.values }
    ensures lean { IsUsed block.old → IsOk result × (block.new ≡ block.old) }
    ensures kept { OnErr result (block.new ≡ block.old) }
{
    if is_used(block) {
        return Ok(());
    }
    narrow(block)
}

// Whether most places of a block are in use.
#[inline(always)]
fn is_used<T>(block: &Block<T>) -> bool
    ensures { result ≡ is_used block.now }
{
    let wanted = block.len() + block.count();
    2 * (wanted + block.spare()) <= 3 * wanted + 4
}

// Moves a block to other memory, with less room.
#[inline(never)]
fn narrow<T: Drop>(block: &mut Block<T>) -> Result<(), NoMemory>
    requires sized { IsWord T.row }
    requires much { 3 * (length block.old.words + length block.old.values) + 4 < 2 * places_of block.old }
    ensures used { OnOk result (IsUsed block.new) }
    ensures words { block.new.words ≡ block.old.words }
    ensures values { block.new.values ≡ block.old.values }
    ensures kept { OnErr result (block.new ≡ block.old) }
{
    let mut words = records::roomy(block.allocator(), block.len() + block.count())?;
    words.extend(block.words());
    move_into(block, words);
    Ok(())
}

/// Moves the value with a number into a block that has none, where there is one to move.
pub(crate) fn take_child<T: Drop>(from: &mut Block<T>, k: usize, child: bool, to: &mut Block<T>)
    requires within { child ≡ true → k < length from.old.values }
    requires empty { to.old.values ≡ [] }
    requires room { child ≡ true → 0 < to.old.spare }
    requires free { child ≡ false → 0 < from.old.spare }
    requires sized { IsWord T.row }
    ensures taken { to.new.values ≡ (if child then take 1 (drop k from.old.values) else []) }
    ensures left { from.new.values ≡ (if child then remove from.old.values k else from.old.values) }
    ensures same { from.new.words ≡ from.old.words }
    ensures words { to.new.words ≡ to.old.words }
    ensures free { 0 < from.new.spare }
{
    if child {
        to.put_first(from.remove(k));
    }
}
