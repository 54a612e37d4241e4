//! Writing a cube record: the kinds of all addresses, their bodies, and then the values.

ghost use Rattle.std.specs.Prelude.{◌≡◌, ◌+◌, ◌*◌, ◌^◌, ◌≤◌, true, length, map};
ghost use Rattle.ph_specs.specs.RecordNames.{number_after, words_for, children, values, bodies, cube_digits, record_in, places, place_kind, place_body};
ghost use Rattle.ph_model.specs.ModelNames.{AreRising};
ghost use Rattle.ph_bits.specs.Block.{room_of, IsSamePlaces};
ghost use Rattle.ph_bits.specs.Written.{IsPen, digits_by, number_by};

use crate::parts::addresses;
use ph_bits::{Entries, Pen, Words};
use ph_coord::Dims;
use ph_linear::{begin, close};

/// Writes the record of these entries and values into the room of a block, whatever it held before. Each word is stored once
/// it is full, and the first word, which has the number of children, at the end. It takes no memory.
pub fn write<P: Dims, E: Entries<P>>(words: &mut Words, level: u32, from: &E)
    requires few { P.D ≤ 16 }
    requires low { level ≤ 61 }
    requires entries { AreRising P.D level 0 (E.list from.now) }
    requires room { 1 + words_for (cube_digits P.D level) + length (values (E.list from.now)) ≤ room_of words.old }
    ensures words { words.new.words ≡ record_in true P.D level (E.list from.now) }
    ensures places { IsSamePlaces words.old words.new }
{
    let mut pen = begin(words);
    let children = put_kinds::<P, E>(&mut pen, words, from);
    put_bodies::<P, E>(&mut pen, words, from, level);
    close::<P, E>(pen, words, from, level, true, children);
}

// The kinds of all addresses: zeros for those between two entries, and those behind the last. Gives how many are children.
fn put_kinds<P: Dims, E: Entries<P>>(pen: &mut Pen, words: &mut Words, from: &E) -> u64
    requires pen { IsPen pen.old }
    requires few { P.D ≤ 16 }
    requires entries { (level : _) × AreRising P.D level 0 (E.list from.now) }
    requires inside { digits_by words.old.words pen.old + 2 ^ P.D * 2 ≤ 64 * room_of words.old }
    ensures pen { IsPen pen.new }
    ensures digits { digits_by words.new.words pen.new ≡ digits_by words.old.words pen.old + 2 ^ P.D * 2 }
    ensures number { number_by words.new.words pen.new ≡ number_after (number_by words.old.words pen.old) (map place_kind (places (2 ^ P.D) 0 (E.list from.now))) }
    ensures places { IsSamePlaces words.old words.new }
    ensures children { result ≡ children (E.list from.now) }
{
    let mut passed = 0;
    let mut children = 0;
    let mut mark = None;
    for i in 0..from.count() {
        let entry = from.at(i, &mut mark);
        let addr = entry.addr as u64;
        pen.put_zeros(words, 2 * (addr - passed));
        pen.put(words, 2, 1 + entry.child as u64);
        passed = addr + 1;
        children += entry.child as u64;
    }
    pen.put_zeros(words, 2 * (addresses(P::D) - passed));
    children
}

// The bodies of all addresses, in the same way. At level 0 they have no digits.
fn put_bodies<P: Dims, E: Entries<P>>(pen: &mut Pen, words: &mut Words, from: &E, level: u32)
    requires pen { IsPen pen.old }
    requires few { P.D ≤ 16 }
    requires low { level ≤ 61 }
    requires entries { AreRising P.D level 0 (E.list from.now) }
    requires inside { digits_by words.old.words pen.old + 2 ^ P.D * (P.D * level) ≤ 64 * room_of words.old }
    ensures pen { IsPen pen.new }
    ensures digits { digits_by words.new.words pen.new ≡ digits_by words.old.words pen.old + 2 ^ P.D * (P.D * level) }
    ensures number { number_by words.new.words pen.new
        ≡ number_after (number_by words.old.words pen.old)
        (bodies level (map (place_body P.D) (places (2 ^ P.D) 0 (E.list from.now)))) }
    ensures places { IsSamePlaces words.old words.new }
{
    if level == 0 {
        return;
    }
    let dims = P::D;
    let width = dims as u64 * level as u64;
    let mut passed = 0;
    let mut mark = None;
    for i in 0..from.count() {
        let entry = from.at(i, &mut mark);
        let addr = entry.addr as u64;
        pen.put_zeros(words, width * (addr - passed));
        pen.put_row(words, level, dims, &entry.body);
        passed = addr + 1;
    }
    pen.put_zeros(words, width * (addresses(dims) - passed));
}
