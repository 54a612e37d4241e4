//! The words of a line, read in the places of a form.
ghost use Rattle.std.specs.Prelude.{◌≡◌, ◌≤◌, ◌+◌, ◌==◌, ◌++◌, [], length, true, false, None, MatchResult};
ghost use Rattle.std.specs.List.{sum_by};
ghost use Rattle.std.specs.Cmp.Lexicographic.{pointwise};
ghost use Rattle.arrayvec.specs.ArrayVec.{array_vec_len};
ghost use Rattle.ph_specs.specs.ProgramNames.{words, number_fits, name_fits, fixed_fits};
ghost use Rattle.ph_script.specs.Forms.{place_of, spread_of};
ghost use Rattle.ph_script.specs.Parts.{coords_in, counts_in, coords_room, counts_room, named, filed, second_in};
ghost use Rattle.ph_script.specs.Fit.{IsFault, IsRead};
ghost use Rattle.ph_script.specs.Words.{IsNumbered};

use crate::command::Bad;
use crate::coords::{CoordBuffer, MOST_OF_COMMAND};
use crate::file_name::FileName;
use crate::forms::Place;
use crate::name::Name;
use crate::numbers::{read_coord, read_count};
use crate::parts::Parts;
use crate::spread::Spread;
use crate::words::{Word, has_word, next_word};

// Reads a word in its place: a number or a name, which is then among the parts, or a fixed word.
fn read_word<'c>(
    place: Place,
    word: Word<'c>,
    coords: &mut CoordBuffer,
    parts: &mut Parts<'c>,
) -> Result<(), Bad>
    requires number { IsNumbered word.text.now word.number }
    requires coords { length coords.old + coords_room (place_of place) ≤ MOST_OF_COMMAND }
    requires counts { array_vec_len parts.old.counts + counts_room (place_of place) ≤ 3 }
    ensures fits { MatchResult result
        (λ _. (number_fits (place_of place) word.entry.text.now ≡ true) × (name_fits (place_of place) word.entry.text.now ≡ true))
        (λ b. IsFault b true (number_fits (place_of place) word.entry.text.now) (name_fits (place_of place) word.entry.text.now)) }
    ensures coords { coords.new ≡ coords.old ++ coords_in (place_of place) word.entry.text.now }
    ensures counts { parts.new.counts.items ≡ parts.old.counts.items ++ counts_in (place_of place) word.entry.text.now }
    ensures name { name_fits (place_of place) word.entry.text.now ≡ true → parts.new.name ≡ named parts.old.name (place_of place) word.entry.text.now }
    ensures file { name_fits (place_of place) word.entry.text.now ≡ true → parts.new.file ≡ filed parts.old.file (place_of place) word.entry.text.now }
    ensures second { parts.new.is_second ≡ second_in parts.old.is_second (place_of place) word.entry.text.now }
{
    match place {
        Place::Coordinate => {
            let Some(coord) = read_coord(word) else {
                return Err(Bad::Number);
            };
            coords.push(coord);
        }
        Place::UpTo(most) => {
            let Some(count) = read_count(word, most) else {
                return Err(Bad::Number);
            };
            parts.counts.push(count);
        }
        Place::Name => {
            let Some(name) = Name::from_bytes(word.text) else {
                return Err(Bad::Name);
            };
            parts.name = Some(name);
        }
        Place::FileName => {
            let Some(file) = FileName::from_bytes(word.text) else {
                return Err(Bad::Name);
            };
            parts.file = Some(file);
        }
        Place::Fixed(fixed) => {
            if word.text != fixed {
                return Err(Bad::Name);
            }
        }
        Place::Either(first, second) => {
            parts.is_second = word.text == second;
            if !parts.is_second && word.text != first {
                return Err(Bad::Name);
            }
        }
    }
    Ok(())
}

/// Reads the words of a text in places, and adds what they tell to the coordinates and the parts, if there are as many words
/// as places and each is as its place asks.
///
/// Another number of words is told before a wrong number, and this before a wrong name, wherever they stand.
pub(crate) fn read_places<'c>(
    mut places: Spread,
    text: &'c [u8],
    coords: &mut CoordBuffer,
    parts: &mut Parts<'c>,
) -> Result<(), Bad>
    requires empty { (coords.old ≡ []) × (parts.old.counts.items ≡ []) × (parts.old.name ≡ None) × (parts.old.file ≡ None) × (parts.old.is_second ≡ false) }
    requires coords { sum_by coords_room (spread_of places) ≤ MOST_OF_COMMAND }
    requires counts { sum_by counts_room (spread_of places) ≤ 3 }
    ensures { MatchResult result
        (λ _. IsRead (spread_of places) (words text.now) coords.new parts.new.counts.items parts.new.name parts.new.file parts.new.is_second)
        (λ b. IsFault b (length (spread_of places) == length (words text.now))
        (pointwise number_fits (spread_of places) (words text.now))
        (pointwise name_fits (spread_of places) (words text.now))) }
{
    let mut numbers_fit = true;
    let mut names_fit = true;
    let mut rest = text;
    while let Some(place) = places.next_place() {
        let Some((word, behind)) = next_word(rest) else {
            return Err(Bad::Count);
        };
        rest = behind;
        match read_word(place, word, coords, parts) {
            Ok(()) => {}
            Err(Bad::Name) => names_fit = false,
            Err(_) => numbers_fit = false,
        }
    }
    if has_word(rest) {
        return Err(Bad::Count);
    }
    if !numbers_fit {
        return Err(Bad::Number);
    }
    if !names_fit {
        return Err(Bad::Name);
    }
    Ok(())
}

/// Whether each word is there that the places ask for by itself, in a text that has as many words as there are places.
pub(crate) fn has_own_words(mut places: Spread, text: &[u8]) -> bool
    requires { length (spread_of places) ≡ length (words text.now) }
    ensures { result ≡ pointwise fixed_fits (spread_of places) (words text.now) }
{
    let mut rest = text;
    while let Some(place) = places.next_place() {
        let Some((word, behind)) = next_word(rest) else {
            return false;
        };
        rest = behind;
        if !is_own(place, word.text) {
            return false;
        }
    }
    true
}

// Whether a word is the one that its place asks for, if it asks for one word.
fn is_own(place: Place, word: &[u8]) -> bool
    ensures { result ≡ fixed_fits (place_of place) word.now }
{
    match place {
        Place::Fixed(fixed) => word == fixed,
        Place::Coordinate | Place::UpTo(_) | Place::Name | Place::FileName | Place::Either(..) =>
            true,
    }
}
