//! Writing a linear record: a column of kinds, one of addresses, one of bodies, and then the values.

ghost use Rattle.std.specs.Prelude.{◌≡◌, ◌+◌, ◌*◌, ◌<◌, ◌≤◌, [], ◌∷◌, ◌++◌, false, length};
ghost use Rattle.ph_specs.specs.RecordNames.{digits_of, number_after, words_for, children as children_of, values, bodies, linear_digits, record_in, table};
ghost use Rattle.ph_model.specs.ModelNames.{AreRising};
ghost use Rattle.ph_bits.specs.Block.{room_of, IsSamePlaces};
ghost use Rattle.ph_bits.specs.Fields.{number_in};
ghost use Rattle.ph_bits.specs.Written.{IsPen, digits_by, number_by};
ghost use Rattle.ph_linear.specs.Written.{kind_fields, address_fields, body_list};

use crate::heads::first_of;
use ph_bits::{Entries, Pen, Words};
use ph_coord::Dims;

/// Writes the record of these entries and values into the room of a block, whatever it held before. Each word is stored once
/// it is full, and the first word, which has the number of children, at the end. It takes no memory.
pub fn write<P: Dims, E: Entries<P>>(words: &mut Words, level: u32, from: &E)
    requires few { P.D ≤ 16 }
    requires low { level ≤ 61 }
    requires entries { AreRising P.D level 0 (E.list from.now) }
    requires room { 1 + words_for (linear_digits P.D level (length (E.list from.now))) + length (values (E.list from.now)) ≤ room_of words.old }
    ensures words { words.new.words ≡ record_in false P.D level (E.list from.now) }
    ensures places { IsSamePlaces words.old words.new }
{
    let mut pen = begin(words);
    let children = put_kinds::<P, E>(&mut pen, words, from);
    put_addresses::<P, E>(&mut pen, words, from);
    put_bodies::<P, E>(&mut pen, words, from, level);
    close::<P, E>(pen, words, from, level, false, children);
}

/// Begins a record in the room of a block, whatever it held before: a place for the first word, and a pen behind it.
#[inline(always)]
pub fn begin(words: &mut Words) -> Pen
    requires { 0 < room_of words.old }
    ensures pen { IsPen result }
    ensures digits { digits_by words.new.words result ≡ 64 }
    ensures number { number_by words.new.words result ≡ number_in (0 ∷ []) }
    ensures places { IsSamePlaces words.old words.new }
{
    words.reset(0);
    words.push(0);
    Pen::new()
}

/// Ends a record whose tables a pen has written, which is a cube where the test is true: it puts the values behind them, and then
/// the first word, which has the number of children.
#[inline(always)]
pub fn close<P: Dims, E: Entries<P>>(
    pen: Pen,
    words: &mut Words,
    from: &E,
    level: u32,
    cube: bool,
    children: u64,
)
    requires pen { IsPen pen }
    requires few { P.D ≤ 16 }
    requires low { level ≤ 61 }
    requires entries { AreRising P.D level 0 (E.list from.now) }
    requires digits { digits_by words.old.words pen ≡ 64 + digits_of (table cube P.D level (E.list from.now)) }
    requires number { number_by words.old.words pen ≡ number_after (number_in (0 ∷ [])) (table cube P.D level (E.list from.now)) }
    requires children { children ≡ children_of (E.list from.now) }
    requires room { 1 + words_for (digits_of (table cube P.D level (E.list from.now))) + length (values (E.list from.now)) ≤ room_of words.old }
    ensures words { words.new.words ≡ record_in cube P.D level (E.list from.now) }
    ensures places { IsSamePlaces words.old words.new }
{
    pen.finish(words);
    put_values::<P, E>(words, from);
    let first = first_of(level, cube as u64, from.count(), children);
    words.set(0, first);
}

// The kinds. Gives how many are children.
fn put_kinds<P: Dims, E: Entries<P>>(pen: &mut Pen, words: &mut Words, from: &E) -> u64
    requires pen { IsPen pen.old }
    requires inside { digits_by words.old.words pen.old + length (E.list from.now) ≤ 64 * room_of words.old }
    ensures pen { IsPen pen.new }
    ensures digits { digits_by words.new.words pen.new ≡ digits_by words.old.words pen.old + length (E.list from.now) }
    ensures number { number_by words.new.words pen.new ≡ number_after (number_by words.old.words pen.old) (kind_fields (E.list from.now)) }
    ensures places { IsSamePlaces words.old words.new }
    ensures children { result ≡ children_of (E.list from.now) }
{
    let mut children = 0;
    let mut mark = None;
    for i in 0..from.count() {
        let kind = from.at(i, &mut mark).child as u64;
        pen.put(words, 1, kind);
        children += kind;
    }
    children
}

// The addresses.
fn put_addresses<P: Dims, E: Entries<P>>(pen: &mut Pen, words: &mut Words, from: &E)
    requires pen { IsPen pen.old }
    requires few { P.D ≤ 16 }
    requires inside { digits_by words.old.words pen.old + length (E.list from.now) * P.D ≤ 64 * room_of words.old }
    requires entries { (level : _) × AreRising P.D level 0 (E.list from.now) }
    ensures pen { IsPen pen.new }
    ensures digits { digits_by words.new.words pen.new ≡ digits_by words.old.words pen.old + length (E.list from.now) * P.D }
    ensures number { number_by words.new.words pen.new ≡ number_after (number_by words.old.words pen.old) (address_fields P.D (E.list from.now)) }
    ensures places { IsSamePlaces words.old words.new }
{
    let mut mark = None;
    for i in 0..from.count() {
        pen.put(words, P::D as u32, from.at(i, &mut mark).addr as u64);
    }
}

// The bodies. At level 0 they have no digits.
fn put_bodies<P: Dims, E: Entries<P>>(pen: &mut Pen, words: &mut Words, from: &E, level: u32)
    requires pen { IsPen pen.old }
    requires few { P.D ≤ 16 }
    requires low { level ≤ 61 }
    requires inside { digits_by words.old.words pen.old + length (E.list from.now) * (P.D * level) ≤ 64 * room_of words.old }
    requires entries { AreRising P.D level 0 (E.list from.now) }
    ensures pen { IsPen pen.new }
    ensures digits { digits_by words.new.words pen.new ≡ digits_by words.old.words pen.old + length (E.list from.now) * (P.D * level) }
    ensures number { number_by words.new.words pen.new ≡ number_after (number_by words.old.words pen.old) (bodies level (body_list (E.list from.now))) }
    ensures places { IsSamePlaces words.old words.new }
{
    if level == 0 {
        return;
    }
    let mut mark = None;
    for i in 0..from.count() {
        let entry = from.at(i, &mut mark);
        pen.put_row(words, level, P::D, &entry.body);
    }
}

/// Writes the values of the points behind the words of a block. It takes no memory.
pub fn put_values<P: Dims, E: Entries<P>>(words: &mut Words, from: &E)
    requires room { length words.old.words + length (values (E.list from.now)) ≤ room_of words.old }
    ensures words { words.new.words ≡ words.old.words ++ values (E.list from.now) }
    ensures places { IsSamePlaces words.old words.new }
{
    let mut mark = None;
    for i in 0..from.count() {
        if !from.at(i, &mut mark).child {
            words.push(from.value(i, &mut mark));
        }
    }
}
