//! One record of the bytes of a snapshot.

ghost use Rattle.std.specs.Prelude.{◌≡◌, ◌+◌, ◌*◌, ◌^◌, ◌<◌, ◌≤◌, true, None, length, map, take, drop, IfOk, IfErr};
ghost use Rattle.ph_specs.specs.RecordNames.{field, number_of, record_fault, next_record, next_first, words_in, rest_fits as the_rest_fits};
ghost use Rattle.ph_specs.specs.RecordNames.{first_fits as the_first_fits, first_in};
ghost use Rattle.ph_node.specs.Recorded.{IsLaidOut};
ghost use Rattle.ph_snap.specs.Faults.{IsLoadFault};
ghost use Rattle.ph_snap.specs.RowFormats.{IsRowFormat};
ghost use Rattle.ph_snap.specs.Frames.{said_by, IsFramed};
ghost use Rattle.ph_snap.specs.RecordPlaces.{place_of, ceiling, IsStanding, IsClear};

use crate::NoMemory;
use crate::boxes::boxes_fit;
use crate::fault::LoadFault;
use crate::first::First;
use crate::places::Place;
use crate::row_format::RowFormat;
use crate::tables::{padding_is_zero, tables_fit};
use ph_bits::Words;
use std::alloc::Global;

/// The record that begins at a place of the bytes, in a block with room for its children too, if it keeps all rules where it stands.
pub(crate) fn read_record(
    alloc: Global,
    bytes: &[u8],
    at: usize,
    format: &RowFormat,
    place: &Place,
) -> Result<Words, LoadFault>
    requires format { IsRowFormat format.now }
    requires standing { IsStanding format.now.width format.now.dims place.now }
    requires at { at ≤ length bytes.now }
    ensures none { IfOk result (λ w.
        record_fault format.now.kind format.now.width format.now.dims (place_of format.now.dims place.now) at (drop at bytes.now) ≡ None) }
    ensures words { IfOk result (λ w. w.words ≡ next_record format.now.dims (drop at bytes.now)) }
    ensures room { IfOk result (λ w. w.spare ≡ (first_in w.words).children) }
    ensures laid { IfOk result (λ w. IsLaidOut format.now.dims w.words) }
    ensures clear { IfOk result (λ w. IsClear (first_in w.words).level format.now.dims place.now) }
    ensures low { IfOk result (λ w. (first_in w.words).level < ceiling format.now.width (place_of format.now.dims place.now)) }
    ensures err { IfErr result (λ f.
        IsLoadFault (record_fault format.now.kind format.now.width format.now.dims (place_of format.now.dims place.now) at (drop at bytes.now)) f) }
{
    let rest = &bytes[at..];
    if rest.len() < 8 {
        return Err(LoadFault::Short(at as u64));
    }
    let first = First::new(word_at(rest, 0));
    if !first.fits(format, place) {
        return Err(LoadFault::Node(at as u64));
    }
    let len = first.words(format.dims);
    if rest.len() < 8 * len {
        return Err(LoadFault::Short(at as u64));
    }
    let Ok(words) = read_words(alloc, rest, len, first.children as usize) else {
        return Err(LoadFault::NoMemory);
    };
    if !rest_fits(words.as_slice(), &first, format, place) {
        return Err(LoadFault::Node(at as u64));
    }
    Ok(words)
}

// Whether what stands behind the first word keeps the rules.
fn rest_fits(words: &[u64], first: &First, format: &RowFormat, place: &Place) -> bool
    requires format { IsRowFormat format.now }
    requires framed { IsFramed format.now.dims words.now }
    requires first { said_by first.now ≡ first_in words.now }
    requires standing { IsStanding format.now.width format.now.dims place.now }
    requires clear { IsClear (first_in words.now).level format.now.dims place.now }
    ensures fits { result ≡ the_rest_fits format.now.kind format.now.width format.now.dims (place_of format.now.dims place.now) words.now }
    ensures laid { result ≡ true → IsLaidOut format.now.dims words.now }
{
    if !tables_fit(words, format.dims, first) {
        return false;
    }
    if !padding_is_zero(words, format.dims, first) {
        return false;
    }
    boxes_fit(words, format, place)
}

// So many words, from the first byte on, and room for some more.
fn read_words(alloc: Global, bytes: &[u8], len: usize, more: usize) -> Result<Words, NoMemory>
    requires small { len + more < 2 ^ 21 }
    requires inside { 8 * len ≤ length bytes.now }
    ensures words { IfOk result (λ w. w.words ≡ words_in len bytes.now) }
    ensures room { IfOk result (λ w. w.spare ≡ more) }
{
    let mut words = Words::with_room(alloc, len + more)?;
    for i in 0..len {
        words.push(word_at(bytes, 8 * i));
    }
    Ok(words)
}

// The word that begins at a byte, whose most significant byte comes first.
fn word_at(bytes: &[u8], at: usize) -> u64
    requires { at + 8 ≤ length bytes.now }
    ensures { result ≡ number_of (map (field 8) (take 8 (drop at bytes.now))) }
{
    let mut word = 0;
    for i in 0..8 {
        word = (word << 8) + u64::from(bytes[at + i]);
    }
    word
}
