//! The numbers that words spell.
ghost use Rattle.std.specs.Prelude.{◌≡◌, ◌+◌, ◌<◌, ◌≤◌, ◌^◌, ◌==◌, ◌&&◌, ◌||◌, not, if◌then◌else◌, true, false};
ghost use Rattle.std.specs.Prelude.{length, slice_index, pos, neg_ℤ, Some, IfSome};
ghost use Rattle.ph_coord.specs.declared.number.Number.TheVariants.{Whole};
ghost use Rattle.ph_coord.specs.Spelling.{number_of};
ghost use Rattle.ph_specs.specs.ProgramNames.{is_blank};
ghost use Rattle.ph_script.specs.declared.coords.Coord.TheVariants.{Whole as WholeCoord};
ghost use Rattle.ph_script.specs.Parts.{coord_of, count_of};
ghost use Rattle.ph_script.specs.Words.{IsNumbered, IsNumberAt};

use crate::coords::Coord;
use crate::digits::digits_at;
use crate::words::{Word, is_blank};
use ph_coord::{Number, read_number};

// The most digits of a number that is read while the end of its word is looked for.
const MOST_DIGITS: usize = 18;

/// A number of at most 18 digits, by its sign and its size.
#[derive(Clone, Copy)]
pub(crate) struct Short {
    pub minus: bool,
    pub size: u64,
}

impl Short {
    fn number(self) -> Number
        ensures { result ≡ Whole (self.minus && not (self.size == 0)) self.size }
    {
        Number::Whole {
            minus: self.minus && self.size != 0,
            size: u128::from(self.size),
        }
    }

    /// The coordinate.
    #[inline(always)]
    pub(crate) fn coord(self) -> Coord
        requires { self.size < 10 ^ 18 }
        ensures { result ≡ WholeCoord (if self.minus then neg_ℤ (pos self.size) else pos self.size) }
    {
        let size = self.size as i64;
        Coord::Whole(if self.minus { -size } else { size })
    }
}

/// The number that the word at a place of a text spells, and where the word ends, if it spells one of at most 18 digits.
#[inline(always)]
pub(crate) fn number_at(text: &[u8], from: usize) -> Option<(Short, usize)>
    requires { from < length text.now }
    ensures { IfSome result (λ r. IsNumberAt text.now from r.1 r.0) }
{
    let (minus, len) = sign(text[from]);
    let start = from + len;
    let (size, end) = digits_at(text, start);
    let count = end - start;
    if 0 < count && count <= MOST_DIGITS && is_end(text, end) {
        return Some((Short { minus, size }, end));
    }
    None
}

// Whether a number that begins with this byte has a minus, and how many bytes its sign has. No branch depends on the sign, which comes in no
// order.
fn sign(first: u8) -> (bool, usize)
    ensures minus { result.0 ≡ (first == 45) }
    ensures len { result.1 ≡ (if (first == 45) || (first == 43) then 1 else 0) }
{
    let minus = first == b'-';
    (minus, usize::from(minus || first == b'+'))
}

// Whether there is a blank at a place, or the end.
fn is_end(text: &[u8], at: usize) -> bool
    requires { at ≤ length text.now }
    ensures { result ≡ true → at < length text.now → is_blank (slice_index text.now at) ≡ true }
{
    at == text.len() || is_blank(text[at])
}

// The number that a word spells.
#[inline(always)]
fn number_in(word: Word<'_>) -> Number
    requires { IsNumbered word.text.now word.number }
    ensures { result ≡ number_of word.entry.text.now }
{
    match word.number {
        Some(short) => short.number(),
        None => read_number(word.text),
    }
}

/// The coordinate that a word spells, if it spells a number.
pub(crate) fn read_coord(word: Word<'_>) -> Option<Coord>
    requires { IsNumbered word.text.now word.number }
    ensures { result ≡ coord_of (number_of word.entry.text.now) }
{
    match number_in(word) {
        Number::Whole { minus, size } => Some(if minus {
            below_zero(size)
        } else {
            from_zero(size)
        }),
        Number::Wide => Some(Coord::Far),
        Number::Not => None,
    }
}

fn from_zero(size: u128) -> Coord
    ensures { coord_of (Whole false size) ≡ Some result }
{
    if size < 1 << 63 {
        Coord::Whole(size as i64)
    } else {
        Coord::Far
    }
}

fn below_zero(size: u128) -> Coord
    ensures { coord_of (Whole true size) ≡ Some result }
{
    if size <= 1 << 63 {
        Coord::Whole(-(size as i128) as i64)
    } else {
        Coord::Far
    }
}

/// The number that a word spells, if it spells one from 0 to the most.
pub(crate) fn read_count(word: Word<'_>, most: u128) -> Option<u128>
    requires { IsNumbered word.text.now word.number }
    ensures { result ≡ count_of (most + 1) (number_of word.entry.text.now) }
{
    match number_in(word) {
        Number::Whole { minus, size } if !minus && size <= most => Some(size),
        _ => None,
    }
}
