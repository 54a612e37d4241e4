//! The record of an old record with one edit: changed where the old one lies, or laid out anew.

ghost use Rattle.std.specs.Prelude.{◌≡◌, ◌+◌, ◌-◌, ◌<◌, ◌≤◌, ◌++◌, length, map, take, replicate, slice_get, true, false, Some};
ghost use Rattle.ph_specs.specs.RecordNames.{is_cube, first_in, has_cube, entries_in};
ghost use Rattle.ph_model.specs.ModelNames.{read_address, is_child};
ghost use Rattle.ph_bits.specs.Block.{room_of, IsSamePlaces};
ghost use Rattle.ph_bits.specs.Filled.{IsSameValues};
ghost use Rattle.ph_node.specs.RecordEdit.{IsRecordEdit, with_edit, words_with, record_with};

use crate::edited::EditedOf;
use crate::records;
use ph_bits::{Block, Edit, Words};
use ph_coord::Dims;
use ph_cube::by_dims as cube;
use ph_linear::{by_dims as linear, level_in};
use std::marker::PhantomData;

/// Writes the record of the entries of an old record with one edit, in the smaller layout, entry by entry into the room of other
/// words, whatever they held before. It takes no memory.
#[inline(never)]
pub(crate) fn lay_out<P: Dims>(words: &mut Words, old: &[u64], edit: &Edit)
    requires edit { IsRecordEdit P.D old.now edit.now }
    requires room { words_with P.D old.now edit.now ≤ room_of words.old }
    ensures words { words.new.words ≡ record_with P.D old.now edit.now }
    ensures places { IsSamePlaces words.old words.new }
{
    let from: EditedOf<'_, P> = EditedOf {
        old,
        edit: *edit,
        dims: PhantomData,
    };
    records::write::<P, EditedOf<'_, P>>(words, level_in(old), &from);
}

/// Puts a new point into the record of a block where it lies, which has `long` words then. The layout stays. The words that are more
/// take spare places. It takes no memory.
#[inline(always)]
pub(crate) fn insert_entry<T>(block: &mut Block<T>, dims: usize, long: usize, edit: &Edit)
    requires edit { IsRecordEdit dims block.old.words edit.now }
    requires less { edit.now.less ≡ 0 }
    requires more { edit.now.more ≡ 1 }
    requires point { edit.now.entry.child ≡ false }
    requires layout { is_cube dims (first_in block.old.words).level (length (with_edit dims block.old.words edit.now)) ≡ has_cube dims (first_in block.old.words) }
    requires long { long ≡ words_with dims block.old.words edit.now }
    requires room { long ≤ length block.old.words + block.old.spare }
    ensures words { block.new.words ≡ record_with dims block.old.words edit.now }
    ensures places { length block.new.words + block.new.spare ≡ length block.old.words + block.old.spare }
    ensures same { IsSameValues block.old block.new }
{
    let len = block.len();
    let more = long - len;
    push_zeros(block, more);
    insert_point(block.words_mut(), dims, len, edit);
}

// Writes so many zeros behind the words of a block, into its spare places.
#[inline(always)]
fn push_zeros<T>(block: &mut Block<T>, more: usize)
    requires { more ≤ block.old.spare }
    ensures words { block.new.words ≡ block.old.words ++ replicate more 0 }
    ensures spare { block.old.spare ≡ block.new.spare + more }
    ensures same { IsSameValues block.old block.new }
{
    for _ in 0..more {
        block.push(0);
    }
}

// Puts a new point into the record that is the first `len` words, where it lies. Behind it there are as many words more as it grows
// by, whatever they hold. The layout stays.
#[inline(always)]
fn insert_point(words: &mut [u64], dims: usize, len: usize, edit: &Edit)
    requires front { len ≤ length words.old }
    requires edit { IsRecordEdit dims (take len words.old) edit.now }
    requires less { edit.now.less ≡ 0 }
    requires more { edit.now.more ≡ 1 }
    requires point { edit.now.entry.child ≡ false }
    requires layout { is_cube dims (first_in (take len words.old)).level (length (with_edit dims (take len words.old) edit.now))
        ≡ has_cube dims (first_in (take len words.old)) }
    requires long { length words.old ≡ words_with dims (take len words.old) edit.now }
    ensures { words.new ≡ record_with dims (take len words.old) edit.now }
{
    if records::has_cube(&words[..len], dims) {
        cube::insert_point(words, dims, edit, edit.entry.addr);
    } else {
        linear::insert_point(words, dims, len, edit);
    }
}

/// Takes a point out of the record of a block where it lies. The layout stays, and the words that are left over are spare places then.
/// It takes no memory.
#[inline(always)]
pub(crate) fn remove_entry<T>(block: &mut Block<T>, dims: usize, edit: &Edit)
    requires edit { IsRecordEdit dims block.old.words edit.now }
    requires less { edit.now.less ≡ 1 }
    requires more { edit.now.more ≡ 0 }
    requires was { slice_get (map is_child (entries_in dims block.old.words)) edit.now.place ≡ Some false }
    requires layout { is_cube dims (first_in block.old.words).level (length (with_edit dims block.old.words edit.now)) ≡ has_cube dims (first_in block.old.words) }
    ensures words { block.new.words ≡ record_with dims block.old.words edit.now }
    ensures same { IsSameValues block.old block.new }
{
    let len = remove_point(block.words_mut(), dims, edit);
    block.truncate(len);
}

// Takes a point out of a record where it lies. The layout stays. Gives how many words the record has then: those that are left over
// behind them have no meaning.
#[inline(always)]
fn remove_point(words: &mut [u64], dims: usize, edit: &Edit) -> usize
    requires edit { IsRecordEdit dims words.old edit.now }
    requires less { edit.now.less ≡ 1 }
    requires more { edit.now.more ≡ 0 }
    requires was { slice_get (map is_child (entries_in dims words.old)) edit.now.place ≡ Some false }
    requires layout { is_cube dims (first_in words.old).level (length (with_edit dims words.old edit.now)) ≡ has_cube dims (first_in words.old) }
    ensures words { take result words.new ≡ record_with dims words.old edit.now }
    ensures len { result ≤ length words.new }
    ensures same { length words.new ≡ length words.old }
{
    if records::has_cube(words, dims) {
        cube::remove_point(words, dims, edit, edit.entry.addr)
    } else {
        linear::remove_point(words, dims, edit)
    }
}

/// Puts a child in place of an entry of the record of a block, or a point in place of a child, where the entry lies. A point wants
/// a spare place for its value, and a child leaves one where it was a point. It takes no memory.
#[inline(always)]
pub(crate) fn put_entry<T>(block: &mut Block<T>, dims: usize, edit: &Edit)
    requires edit { IsRecordEdit dims block.old.words edit.now }
    requires less { edit.now.less ≡ 1 }
    requires more { edit.now.more ≡ 1 }
    requires address { slice_get (map read_address (entries_in dims block.old.words)) edit.now.place ≡ Some edit.now.entry.addr }
    requires was { edit.now.entry.child ≡ false → slice_get (map is_child (entries_in dims block.old.words)) edit.now.place ≡ Some true }
    requires long { edit.now.entry.child ≡ true → length (record_with dims block.old.words edit.now) ≤ length block.old.words }
    requires spare { edit.now.entry.child ≡ false → 0 < block.old.spare }
    ensures words { block.new.words ≡ record_with dims block.old.words edit.now }
    ensures places { length block.new.words + block.new.spare ≡ length block.old.words + block.old.spare }
    ensures same { IsSameValues block.old block.new }
{
    if edit.entry.child {
        let len = put_child(block.words_mut(), dims, edit);
        block.truncate(len);
    } else {
        block.push(0);
        put_point(block.words_mut(), dims, edit);
    }
}

// Makes the entry at an address of a record a child, or gives a child another body, where the entry lies. The level and the number
// of entries stay, and so does the layout. Gives how many words the record has then: the one that is left over behind them has no
// meaning.
#[inline(always)]
fn put_child(words: &mut [u64], dims: usize, edit: &Edit) -> usize
    requires edit { IsRecordEdit dims words.old edit.now }
    requires less { edit.now.less ≡ 1 }
    requires more { edit.now.more ≡ 1 }
    requires child { edit.now.entry.child ≡ true }
    requires address { slice_get (map read_address (entries_in dims words.old)) edit.now.place ≡ Some edit.now.entry.addr }
    ensures words { take result words.new ≡ record_with dims words.old edit.now }
    ensures len { result ≡ length (record_with dims words.old edit.now) }
    ensures same { length words.new ≡ length words.old }
{
    if records::has_cube(words, dims) {
        cube::put_child(words, dims, edit, edit.entry.addr)
    } else {
        linear::put_child(words, dims, edit)
    }
}

// Makes the child at an address of a record a point, where the entry lies. There is one word more behind the record, whatever it
// holds. The level and the number of entries stay, and so does the layout.
#[inline(always)]
fn put_point(words: &mut [u64], dims: usize, edit: &Edit)
    requires some { 1 ≤ length words.old }
    requires edit { IsRecordEdit dims (take (length words.old - 1) words.old) edit.now }
    requires was { slice_get (map is_child (entries_in dims (take (length words.old - 1) words.old))) edit.now.place ≡ Some true }
    requires less { edit.now.less ≡ 1 }
    requires more { edit.now.more ≡ 1 }
    requires point { edit.now.entry.child ≡ false }
    requires address { slice_get (map read_address (entries_in dims (take (length words.old - 1) words.old))) edit.now.place
        ≡ Some edit.now.entry.addr }
    ensures { words.new ≡ record_with dims (take (length words.old - 1) words.old) edit.now }
{
    let len = words.len() - 1;
    if records::has_cube(&words[..len], dims) {
        cube::put_point(words, dims, edit, edit.entry.addr);
    } else {
        linear::put_point(words, dims, edit);
    }
}
