//! The points of a record, by what is known of them behind it.

ghost use Rattle.std.specs.Prelude.{◌≡◌, ◌+◌, ◌*◌, ◌^◌, ◌%◌, ◌<◌, ◌≤◌, ◌++◌, ℕ, true, length, map, take, Some, slice_get, IfSome};
ghost use Rattle.std.specs.List.{list_all};
ghost use Rattle.ph_specs.specs.TableNames.{at_most, coordinate};
ghost use Rattle.ph_specs.specs.RecordNames.{known, box_fits as the_box_fits, boxes_fit as the_boxes_fit, has_zeros_from, places_under, Read, first_in, entries_in};
ghost use Rattle.ph_bits.specs.Fields.{digits_row};
ghost use Rattle.ph_node.specs.Recorded.{IsLaidOut};
ghost use Rattle.ph_snap.specs.RowFormats.{IsRowFormat};
ghost use Rattle.ph_snap.specs.Frames.{IsEntry};
ghost use Rattle.ph_snap.specs.RecordPlaces.{place_of, places_in, ceiling, IsStanding, IsClear, IsJoined};

use crate::entries::{Entry, entry_at};
use crate::places::Place;
use crate::row_format::RowFormat;
use ph_bits::join_row;
use ph_coord::Kind;
use ph_linear::{count_in, level_in};

/// Whether each point of a record is a box, where rows are boxes.
pub(crate) fn boxes_fit(words: &[u64], format: &RowFormat, place: &Place) -> bool
    requires format { IsRowFormat format.now }
    requires laid { IsLaidOut format.now.dims words.now }
    requires standing { IsStanding format.now.width format.now.dims place.now }
    requires clear { IsClear (first_in words.now).level format.now.dims place.now }
    ensures { result ≡ the_boxes_fit format.now.kind format.now.width (first_in words.now).level
        (known format.now.dims (place_of format.now.dims place.now))
        (entries_in format.now.dims words.now) }
{
    match format.kind {
        Kind::Points => true,
        Kind::Boxes => are_boxes(words, format, place),
    }
}

fn are_boxes(words: &[u64], format: &RowFormat, place: &Place) -> bool
    requires format { IsRowFormat format.now }
    requires kind { format.now.kind ≡ Kind.Boxes }
    requires laid { IsLaidOut format.now.dims words.now }
    requires standing { IsStanding format.now.width format.now.dims place.now }
    requires clear { IsClear (first_in words.now).level format.now.dims place.now }
    ensures { result ≡ list_all
        (the_box_fits format.now.width (first_in words.now).level (known format.now.dims (place_of format.now.dims place.now)))
        (entries_in format.now.dims words.now) }
{
    for i in 0..count_in(words) as usize {
        if !box_fits(words, format, place, i) {
            return false;
        }
    }
    true
}

// Whether entry `i` is a box, or a child.
fn box_fits(words: &[u64], format: &RowFormat, place: &Place, i: usize) -> bool
    requires format { IsRowFormat format.now }
    requires kind { format.now.kind ≡ Kind.Boxes }
    requires laid { IsLaidOut format.now.dims words.now }
    requires standing { IsStanding format.now.width format.now.dims place.now }
    requires clear { IsClear (first_in words.now).level format.now.dims place.now }
    requires within { i < (first_in words.now).entries }
    ensures { (r : Read) × (slice_get (entries_in format.now.dims words.now) i ≡ Some r)
        × (result ≡ the_box_fits format.now.width (first_in words.now).level (known format.now.dims (place_of format.now.dims place.now)) r) }
{
    let entry = entry_at(words, format.dims, i);
    if entry.child {
        return true;
    }
    let point = joined(words, format, place, &entry);
    let (low, high) = point[..format.dims].split_at(format.dims / 2);
    is_at_most(low, high)
}

/// The place of the child that entry `i` is, if it is one.
pub(crate) fn place_under(
    words: &[u64],
    format: &RowFormat,
    place: &Place,
    i: usize,
) -> Option<Place>
    requires format { IsRowFormat format.now }
    requires laid { IsLaidOut format.now.dims words.now }
    requires standing { IsStanding format.now.width format.now.dims place.now }
    requires clear { IsClear (first_in words.now).level format.now.dims place.now }
    requires low { (first_in words.now).level < format.now.width }
    requires within { i < (first_in words.now).entries }
    ensures place { let level = (first_in words.now).level in
        let above = known format.now.dims (place_of format.now.dims place.now) in
        let es = entries_in format.now.dims words.now in
        places_under level above (take (i + 1) es) ≡ places_under level above (take i es) ++ places_in format.now.dims result }
    ensures standing { IfSome result (λ p. IsStanding format.now.width format.now.dims p) }
    ensures level { IfSome result (λ p. ceiling format.now.width (place_of format.now.dims p) ≡ (first_in words.now).level) }
{
    let entry = entry_at(words, format.dims, i);
    if !entry.child {
        return None;
    }
    Some(Place::Under {
        level: level_in(words),
        known: joined(words, format, place, &entry),
    })
}

// What is known behind an entry, with zeros behind it.
fn joined(words: &[u64], format: &RowFormat, place: &Place, entry: &Entry) -> [u64; 16]
    requires format { IsRowFormat format.now }
    requires laid { IsLaidOut format.now.dims words.now }
    requires standing { IsStanding format.now.width format.now.dims place.now }
    requires clear { IsClear (first_in words.now).level format.now.dims place.now }
    requires inside { entry.now.body + format.now.dims * (first_in words.now).level ≤ 64 * length words.now }
    requires near { entry.now.body ≤ 2 ^ 62 }
    ensures { IsJoined format.now.dims (first_in words.now).level entry.now.addr (known format.now.dims (place_of format.now.dims place.now))
        (digits_row words.now entry.now.body (first_in words.now).level format.now.dims) result }
{
    let mut known = place.known(format);
    join_row(
        words,
        entry.body,
        level_in(words),
        entry.addr,
        &mut known[..format.dims],
    );
    known
}

// Whether each number is at most the other one at its place.
fn is_at_most(low: &[u64], high: &[u64]) -> bool
    requires { length low.now ≡ length high.now }
    ensures { (width : ℕ) → result ≡ at_most (map (coordinate width) low.now) (map (coordinate width) high.now) }
{
    for (a, b) in low.iter().zip(high) {
        if *b < *a {
            return false;
        }
    }
    true
}
