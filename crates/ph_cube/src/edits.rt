//! Changing what stands at one address of a cube record where the record lies.

ghost use Rattle.std.specs.Prelude.{◌≡◌, ◌+◌, ◌-◌, ◌*◌, ◌^◌, ◌<◌, ◌≤◌, true, false, Some, length, map, take, replicate, slice_get, if◌then◌else◌};
ghost use Rattle.ph_specs.specs.RecordNames.{words_for, cube_digits, record_in, first_in};
ghost use Rattle.ph_model.specs.ModelNames.{IsRecord, AreRising, entries_as, is_child, points_in};
ghost use Rattle.ph_bits.specs.Edits.{edited_as};
ghost use Rattle.ph_linear.specs.Edited.{IsChanged, IsColumn, IsOutline, with_table};
ghost use Rattle.ph_cube.specs.Edited.{IsEditAt, entries_below};

use crate::parts::{addresses, children_before};
use ph_bits::{Edit, Packed};
use ph_linear::{Column, Outline, children_in, count_in, drop_value, level_in, put_value};

// The column of the kinds of a record.
#[inline(always)]
fn kinds_of(old: &[u64], dims: usize) -> Column
    requires { IsRecord true dims old.now }
    ensures column { IsColumn old.now result }
    ensures at { result.at ≡ 64 }
    ensures width { result.width ≡ 2 }
    ensures count { result.count ≡ 2 ^ dims }
{
    Column {
        at: 64,
        width: 2,
        count: addresses(dims),
    }
}

// The column of the bodies.
#[inline(always)]
fn bodies_of(old: &[u64], dims: usize) -> Column
    requires { IsRecord true dims old.now }
    ensures column { IsColumn old.now result }
    ensures at { result.at ≡ 64 + 2 ^ dims * 2 }
    ensures width { result.width ≡ dims * (first_in old.now).level }
    ensures count { result.count ≡ 2 ^ dims }
{
    let count = addresses(dims);
    Column {
        at: 64 + count * 2,
        width: dims as u64 * level_in(old) as u64,
        count,
    }
}

// The edit as one of columns, which have a body for each address.
#[inline(always)]
fn at_address(edit: &Edit, addr: u32) -> Edit
    ensures place { result.place ≡ addr }
    ensures less { result.less ≡ 1 }
    ensures more { result.more ≡ 1 }
    ensures some { 0 < edit.now.more → result.entry.body ≡ edit.now.entry.body }
    ensures none { edit.now.more ≡ 0 → result.entry.body ≡ replicate 16 0 }
{
    let body = if edit.more > 0 {
        edit.entry.body
    } else {
        [0; 16]
    };
    Edit {
        place: addr as usize,
        less: 1,
        more: 1,
        entry: Packed {
            addr,
            child: false,
            body,
            rank: 0,
        },
        value: 0,
    }
}

// The kind that stands at the address then.
#[inline(always)]
fn new_kind(edit: &Edit) -> u64
    ensures some { 0 < edit.now.more → result ≡ 1 + (if edit.now.entry.child then 1 else 0) }
    ensures none { edit.now.more ≡ 0 → result ≡ 0 }
    ensures limit { result ≤ 2 }
{
    if edit.more == 0 {
        return 0;
    }
    if edit.entry.child { 2 } else { 1 }
}

// How many of the first `i` entries, which are those in front of an address, are points.
fn points_before(old: &[u64], dims: usize, i: usize, addr: u64) -> usize
    requires record { IsRecord true dims old.now }
    requires limit { addr ≤ 2 ^ dims }
    requires place { i ≡ entries_below dims old.now addr }
    ensures { result ≡ points_in (take i (entries_as true dims old.now)) }
{
    i - children_before(old, addr) as usize
}

/// Makes the entry at an address of a record a child, or gives a child another body, where the entry lies. The value of a point is
/// taken out, and what else the record has stays. Gives how many words the record has then: the one that is left over behind them
/// has no meaning. It takes no memory.
#[inline(always)]
pub fn put_child(words: &mut [u64], dims: usize, edit: &Edit, addr: u32) -> usize
    requires record { IsRecord true dims words.old }
    requires edit { IsEditAt dims words.old edit.now addr }
    requires less { edit.now.less ≡ 1 }
    requires more { edit.now.more ≡ 1 }
    requires child { edit.now.entry.child ≡ true }
    requires entries { AreRising dims (first_in words.old).level 0 (edited_as true dims words.old edit.now) }
    ensures words { take result words.new ≡ record_in true dims (first_in words.old).level (edited_as true dims words.old edit.now) }
    ensures len { result ≡ length (record_in true dims (first_in words.old).level (edited_as true dims words.old edit.now)) }
    ensures same { length words.new ≡ length words.old }
{
    let outline = put_table(words, dims, edit, addr);
    drop_value(words, 1, outline)
}

/// Makes the child at an address of a record a point, where the entry lies. There is one word more behind the record, whatever it
/// holds. The value is put in, and what else the record has stays. It takes no memory.
#[inline(always)]
pub fn put_point(words: &mut [u64], dims: usize, edit: &Edit, addr: u32)
    requires some { 1 ≤ length words.old }
    requires record { IsRecord true dims (take (length words.old - 1) words.old) }
    requires edit { IsEditAt dims (take (length words.old - 1) words.old) edit.now addr }
    requires was { slice_get (map is_child (entries_as true dims (take (length words.old - 1) words.old))) edit.now.place ≡ Some true }
    requires less { edit.now.less ≡ 1 }
    requires more { edit.now.more ≡ 1 }
    requires point { edit.now.entry.child ≡ false }
    requires entries { AreRising dims (first_in (take (length words.old - 1) words.old)).level 0
        (edited_as true dims (take (length words.old - 1) words.old) edit.now) }
    ensures { words.new
        ≡ record_in true dims (first_in (take (length words.old - 1) words.old)).level
        (edited_as true dims (take (length words.old - 1) words.old) edit.now) }
{
    let len = words.len() - 1;
    let outline = put_table(&mut words[..len], dims, edit, addr);
    put_value(words, 1, outline, edit.value);
}

/// Puts a point in at an address of a record where nothing stands, where the record lies. There is one word more behind the record,
/// whatever it holds. The value is put in, and what else the record has stays. It takes no memory.
#[inline(always)]
pub fn insert_point(words: &mut [u64], dims: usize, edit: &Edit, addr: u32)
    requires some { 1 ≤ length words.old }
    requires record { IsRecord true dims (take (length words.old - 1) words.old) }
    requires edit { IsEditAt dims (take (length words.old - 1) words.old) edit.now addr }
    requires less { edit.now.less ≡ 0 }
    requires more { edit.now.more ≡ 1 }
    requires point { edit.now.entry.child ≡ false }
    requires entries { AreRising dims (first_in (take (length words.old - 1) words.old)).level 0
        (edited_as true dims (take (length words.old - 1) words.old) edit.now) }
    ensures { words.new
        ≡ record_in true dims (first_in (take (length words.old - 1) words.old)).level
        (edited_as true dims (take (length words.old - 1) words.old) edit.now) }
{
    let len = words.len() - 1;
    let old = put_table(&mut words[..len], dims, edit, addr);
    let outline = Outline {
        count: old.count + 1,
        ..old
    };
    put_value(words, 1, outline, edit.value);
}

/// Takes the point at an address out of a record, where the record lies. Its value is taken out, and what else the record has stays.
/// Gives how many words the record has then: the one that is left over behind them has no meaning. It takes no memory.
#[inline(always)]
pub fn remove_point(words: &mut [u64], dims: usize, edit: &Edit, addr: u32) -> usize
    requires record { IsRecord true dims words.old }
    requires edit { IsEditAt dims words.old edit.now addr }
    requires less { edit.now.less ≡ 1 }
    requires more { edit.now.more ≡ 0 }
    requires was { slice_get (map is_child (entries_as true dims words.old)) edit.now.place ≡ Some false }
    requires entries { AreRising dims (first_in words.old).level 0 (edited_as true dims words.old edit.now) }
    ensures words { take result words.new ≡ record_in true dims (first_in words.old).level (edited_as true dims words.old edit.now) }
    ensures len { result ≡ length (record_in true dims (first_in words.old).level (edited_as true dims words.old edit.now)) }
    ensures same { length words.new ≡ length words.old }
{
    let old = put_table(words, dims, edit, addr);
    let outline = Outline {
        count: old.count - 1,
        ..old
    };
    drop_value(words, 1, outline)
}

// Puts the kind and the body. Gives what the end of the change has to know of the record before it.
#[inline(always)]
fn put_table(words: &mut [u64], dims: usize, edit: &Edit, addr: u32) -> Outline
    requires record { IsRecord true dims words.old }
    requires edit { IsEditAt dims words.old edit.now addr }
    requires entries { AreRising dims (first_in words.old).level 0 (edited_as true dims words.old edit.now) }
    ensures { IsChanged true dims words.old edit.now result words.new }
{
    let outline = outline_of(words, dims, edit, addr);
    put_columns(words, dims, edit, addr);
    outline
}

// What the end of the change has to know of the record before it.
#[inline(always)]
fn outline_of(old: &[u64], dims: usize, edit: &Edit, addr: u32) -> Outline
    requires record { IsRecord true dims old.now }
    requires edit { IsEditAt dims old.now edit.now addr }
    ensures { IsOutline true dims old.now edit.now result }
{
    Outline {
        level: level_in(old),
        count: count_in(old) as usize,
        values: values_place(old, dims),
        front: points_before(old, dims, edit.place, addr as u64),
        until: points_before(old, dims, edit.place + edit.less, addr as u64 + 1),
    }
}

// The kind and the body.
#[inline(always)]
fn put_columns(words: &mut [u64], dims: usize, edit: &Edit, addr: u32)
    requires record { IsRecord true dims words.old }
    requires edit { IsEditAt dims words.old edit.now addr }
    requires entries { AreRising dims (first_in words.old).level 0 (edited_as true dims words.old edit.now) }
    ensures { words.new ≡ with_table true dims words.old edit.now }
{
    let kinds = kinds_of(words, dims);
    let bodies = bodies_of(words, dims);
    let level = level_in(words);
    let there = at_address(edit, addr);
    kinds.put_field(words, &there, new_kind(edit));
    bodies.put_row(words, &there, level, dims);
}

// The place of the first value among the words.
fn values_place(old: &[u64], dims: usize) -> usize
    requires { IsRecord true dims old.now }
    ensures { result ≡ 1 + words_for (cube_digits dims (first_in old.now).level) }
{
    let points = (count_in(old) - children_in(old)) as usize;
    old.len() - points
}
