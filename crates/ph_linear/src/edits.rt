//! Changing one entry of a linear record where the record lies.

ghost use Rattle.std.specs.Prelude.{◌≡◌, ◌+◌, ◌-◌, ◌*◌, ◌<◌, ◌≤◌, true, false, Some, length, map, take, slice_get};
ghost use Rattle.ph_specs.specs.RecordNames.{words_for, linear_digits, record_in, first_in};
ghost use Rattle.ph_model.specs.ModelNames.{IsRecord, AreRising, entries_as, read_address, is_child, points_in};
ghost use Rattle.ph_bits.specs.Edits.{edited_as};
ghost use Rattle.ph_linear.specs.Edited.{IsChanged, IsColumn, IsOutline, IsPut, with_table};

use crate::copies::Column;
use crate::heads::{children_in, count_in, level_in};
use crate::outlines::{Outline, drop_value, put_value};
use ph_bits::{Edit, ones_before};

// The column of the kinds of a record.
#[inline(always)]
pub(crate) fn kinds_of(old: &[u64], dims: usize) -> Column
    requires { IsRecord false dims old.now }
    ensures column { IsColumn old.now result }
    ensures at { result.at ≡ 64 }
    ensures width { result.width ≡ 1 }
    ensures count { result.count ≡ (first_in old.now).entries }
{
    Column {
        at: 64,
        width: 1,
        count: count_in(old),
    }
}

// The column of the addresses.
#[inline(always)]
pub(crate) fn addresses_of(old: &[u64], dims: usize) -> Column
    requires { IsRecord false dims old.now }
    ensures column { IsColumn old.now result }
    ensures at { result.at ≡ 64 + (first_in old.now).entries }
    ensures width { result.width ≡ dims }
    ensures count { result.count ≡ (first_in old.now).entries }
{
    let count = count_in(old);
    Column {
        at: 64 + count,
        width: dims as u64,
        count,
    }
}

// The column of the bodies.
#[inline(always)]
pub(crate) fn bodies_of(old: &[u64], dims: usize) -> Column
    requires { IsRecord false dims old.now }
    ensures column { IsColumn old.now result }
    ensures at { result.at ≡ 64 + (first_in old.now).entries + (first_in old.now).entries * dims }
    ensures width { result.width ≡ dims * (first_in old.now).level }
    ensures count { result.count ≡ (first_in old.now).entries }
{
    let count = count_in(old);
    Column {
        at: 64 + count + count * dims as u64,
        width: dims as u64 * level_in(old) as u64,
        count,
    }
}

// How many of the first `i` entries are points.
fn points_before(old: &[u64], dims: usize, i: usize) -> usize
    requires record { IsRecord false dims old.now }
    requires within { i ≤ (first_in old.now).entries }
    ensures { result ≡ points_in (take i (entries_as false dims old.now)) }
{
    i - ones_before(old, 64, i as u64) as usize
}

/// Makes an entry of a record a child, or gives a child another body, where the entry lies. It keeps its address. The value of a
/// point is taken out, and what else the record has stays. Gives how many words the record has then: the one that is left over
/// behind them has no meaning. It takes no memory.
#[inline(always)]
pub fn put_child(words: &mut [u64], dims: usize, edit: &Edit) -> usize
    requires record { IsRecord false dims words.old }
    requires within { edit.now.place < (first_in words.old).entries }
    requires less { edit.now.less ≡ 1 }
    requires more { edit.now.more ≡ 1 }
    requires child { edit.now.entry.child ≡ true }
    requires address { slice_get (map read_address (entries_as false dims words.old)) edit.now.place ≡ Some edit.now.entry.addr }
    requires entries { AreRising dims (first_in words.old).level 0 (edited_as false dims words.old edit.now) }
    ensures words { take result words.new ≡ record_in false dims (first_in words.old).level (edited_as false dims words.old edit.now) }
    ensures len { result ≡ length (record_in false dims (first_in words.old).level (edited_as false dims words.old edit.now)) }
    ensures same { length words.new ≡ length words.old }
{
    let outline = put_table(words, dims, edit);
    drop_value(words, 0, outline)
}

/// Makes a child of a record a point, where the entry lies. It keeps its address. There is one word more behind the record,
/// whatever it holds. The value is put in, and what else the record has stays. It takes no memory.
#[inline(always)]
pub fn put_point(words: &mut [u64], dims: usize, edit: &Edit)
    requires some { 1 ≤ length words.old }
    requires record { IsRecord false dims (take (length words.old - 1) words.old) }
    requires was { slice_get (map is_child (entries_as false dims (take (length words.old - 1) words.old))) edit.now.place ≡ Some true }
    requires less { edit.now.less ≡ 1 }
    requires more { edit.now.more ≡ 1 }
    requires point { edit.now.entry.child ≡ false }
    requires address { slice_get (map read_address (entries_as false dims (take (length words.old - 1) words.old))) edit.now.place
        ≡ Some edit.now.entry.addr }
    requires entries { AreRising dims (first_in (take (length words.old - 1) words.old)).level 0
        (edited_as false dims (take (length words.old - 1) words.old) edit.now) }
    ensures { words.new
        ≡ record_in false dims (first_in (take (length words.old - 1) words.old)).level
        (edited_as false dims (take (length words.old - 1) words.old) edit.now) }
{
    let len = words.len() - 1;
    let outline = put_table(&mut words[..len], dims, edit);
    put_value(words, 0, outline, edit.value);
}

// Puts the kind and the body. Gives what the end of the change has to know of the record before it.
#[inline(always)]
fn put_table(words: &mut [u64], dims: usize, edit: &Edit) -> Outline
    requires { IsPut dims words.old edit.now }
    ensures { IsChanged false dims words.old edit.now result words.new }
{
    let outline = outline_of(words, dims, edit);
    put_columns(words, dims, edit);
    outline
}

// What the end of the change has to know of the record before it.
#[inline(always)]
pub(crate) fn outline_of(old: &[u64], dims: usize, edit: &Edit) -> Outline
    requires record { IsRecord false dims old.now }
    requires within { edit.now.place + edit.now.less ≤ (first_in old.now).entries }
    ensures { IsOutline false dims old.now edit.now result }
{
    Outline {
        level: level_in(old),
        count: count_in(old) as usize,
        values: values_place(old, dims),
        front: points_before(old, dims, edit.place),
        until: points_before(old, dims, edit.place + edit.less),
    }
}

// The kind and the body.
#[inline(always)]
fn put_columns(words: &mut [u64], dims: usize, edit: &Edit)
    requires { IsPut dims words.old edit.now }
    ensures { words.new ≡ with_table false dims words.old edit.now }
{
    let kinds = kinds_of(words, dims);
    let bodies = bodies_of(words, dims);
    let level = level_in(words);
    kinds.put_field(words, edit, edit.entry.child as u64);
    bodies.put_row(words, edit, level, dims);
}

// The place of the first value among the words.
fn values_place(old: &[u64], dims: usize) -> usize
    requires { IsRecord false dims old.now }
    ensures { result ≡ 1 + words_for (linear_digits dims (first_in old.now).level (first_in old.now).entries) }
{
    let points = (count_in(old) - children_in(old)) as usize;
    old.len() - points
}
