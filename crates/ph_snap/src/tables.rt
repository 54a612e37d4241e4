//! The rules on the tables of a record.

ghost use Rattle.std.specs.Prelude.{◌≡◌, ◌+◌, ◌*◌, ◌%◌, ◌^◌, ◌<◌, ◌≤◌, ◌==◌, ◌&&◌, true, false, length};
ghost use Rattle.std.specs.List.{list_all};
ghost use Rattle.ph_specs.specs.RecordNames.{first_in, has_cube, table_digits, table_number, tables_of, padding, rises_from, absent_are_zero};
ghost use Rattle.ph_model.specs.ModelNames.{tables_as};
ghost use Rattle.ph_bits.specs.Fields.{digits_row};
ghost use Rattle.ph_snap.specs.Columns.{body_rows, kinds_fit as the_kinds_fit, place_fits as the_place_fits};
ghost use Rattle.ph_snap.specs.Frames.{said_by, IsFramed};

use crate::first::First;
use ph_bits::{field, ones_before, row};

/// Whether kinds, addresses and bodies keep the rules of the layout.
pub(crate) fn tables_fit(words: &[u64], dims: usize, first: &First) -> bool
    requires framed { IsFramed dims words.now }
    requires first { said_by first.now ≡ first_in words.now }
    ensures { result ≡ (tables_of dims (first_in words.now) words.now).is_lawful }
{
    if first.layout == 1 {
        cube_fits(words, dims, first)
    } else {
        linear_fits(words, dims, first)
    }
}

/// Whether the digits behind the tables in their last word are zeros.
pub(crate) fn padding_is_zero(words: &[u64], dims: usize, first: &First) -> bool
    requires framed { IsFramed dims words.now }
    requires first { said_by first.now ≡ first_in words.now }
    ensures { result ≡ (table_number dims (first_in words.now) words.now % 2 ^ padding (table_digits dims (first_in words.now)) == 0) }
{
    let digits = first.table_digits(dims);
    let padding = (64 - digits % 64) % 64;
    field(words, 64 + digits, padding as u32) == 0
}

fn linear_fits(words: &[u64], dims: usize, first: &First) -> bool
    requires framed { IsFramed dims words.now }
    requires first { said_by first.now ≡ first_in words.now }
    requires layout { has_cube dims (first_in words.now) ≡ false }
    ensures { result ≡ (tables_as false dims words.now).is_lawful }
{
    let count = u64::from(first.entries);
    ones_before(words, 64, count) == u64::from(first.children)
        && addresses_rise(words, 64 + count, dims as u32, count)
}

// Whether each of so many addresses is greater than the one in front of it.
fn addresses_rise(words: &[u64], at: u64, width: u32, count: u64) -> bool
    requires width { width ≤ 16 }
    requires few { count ≤ 2 ^ 16 }
    requires near { at ≤ 2 ^ 32 }
    requires inside { at + count * width ≤ 64 * length words.now }
    ensures { result ≡ rises_from 0 (digits_row words.now at width count) }
{
    let mut least = 0;
    for i in 0..count {
        let addr = field(words, at + i * u64::from(width), width);
        if addr < least {
            return false;
        }
        least = addr + 1;
    }
    true
}

fn cube_fits(words: &[u64], dims: usize, first: &First) -> bool
    requires framed { IsFramed dims words.now }
    requires first { said_by first.now ≡ first_in words.now }
    requires layout { has_cube dims (first_in words.now) ≡ true }
    ensures { result ≡ (tables_as true dims words.now).is_lawful }
{
    kinds_fit(words, 1 << dims, first) && absent_bodies_are_zero(words, dims, first.level)
}

// Whether the kinds of so many places are known ones, with as many entries and children as there are to be.
fn kinds_fit(words: &[u64], places: u64, first: &First) -> bool
    requires few { places ≤ 2 ^ 16 }
    requires inside { 64 + places * 2 ≤ 64 * length words.now }
    ensures { result ≡ the_kinds_fit (digits_row words.now 64 2 places) first.now.entries first.now.children }
{
    let mut entries = 0;
    let mut children = 0;
    for i in 0..places {
        let kind = field(words, 64 + i * 2, 2);
        if kind > 2 {
            return false;
        }
        entries += u64::from(kind > 0);
        children += u64::from(kind == 2);
    }
    entries == u64::from(first.entries) && children == u64::from(first.children)
}

// Whether the body of each place without an entry is zeros.
fn absent_bodies_are_zero(words: &[u64], dims: usize, level: u32) -> bool
    requires few { dims ≤ 16 }
    requires low { level ≤ 61 }
    requires inside { 64 + 2 ^ dims * (2 + dims * level) ≤ 64 * length words.now }
    ensures { result ≡ absent_are_zero (digits_row words.now 64 2 (2 ^ dims)) (body_rows words.now (64 + 2 ^ dims * 2) level dims (2 ^ dims)) }
{
    let places = 1 << dims;
    let size = dims as u64 * u64::from(level);
    for i in 0..places {
        let kind = field(words, 64 + i * 2, 2);
        if !place_fits(words, kind, 64 + places * 2 + i * size, level, dims) {
            return false;
        }
    }
    true
}

// Whether the body that begins at a digit may stand at a place of a kind.
fn place_fits(words: &[u64], kind: u64, at: u64, level: u32, dims: usize) -> bool
    requires few { dims ≤ 16 }
    requires low { level ≤ 61 }
    requires inside { at + dims * level ≤ 64 * length words.now }
    requires near { at ≤ 2 ^ 62 }
    ensures { result ≡ the_place_fits kind (digits_row words.now at level dims) }
{
    0 < kind || is_zero(words, at, level, dims)
}

// Whether the body that begins at a digit is zeros.
fn is_zero(words: &[u64], at: u64, level: u32, dims: usize) -> bool
    requires few { dims ≤ 16 }
    requires low { level ≤ 61 }
    requires inside { at + dims * level ≤ 64 * length words.now }
    requires near { at ≤ 2 ^ 62 }
    ensures { result ≡ list_all (λ x. x == 0) (digits_row words.now at level dims) }
{
    let body = row(words, at, level, dims);
    body[..dims].iter().all(|x| *x == 0)
}
