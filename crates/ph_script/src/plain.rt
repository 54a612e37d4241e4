//! The plain lines: a command's word, its coordinates, and a number or none behind them.
ghost use Rattle.std.specs.Prelude.{◌≡◌, ◌≤◌, ◌+◌, ◌++◌, ◌∷◌, [], ℕ, List, length, drop, map, pos, None, IfSome};
ghost use Rattle.ph_specs.specs.ProgramNames.{words};
ghost use Rattle.ph_script.specs.Meaning.{command_of, numbers_of};
ghost use Rattle.ph_script.specs.Forms.{command_by};
ghost use Rattle.ph_script.specs.Fit.{IsFit, HasDims};
ghost use Rattle.ph_script.specs.Plain.{word_of, verb_of, coords_of, most_of, number_by, IsNext, IsSpelled, IsLast, IsPlain};

use crate::command::Command;
use crate::coords::{Coord, CoordBuffer, Coords, MOST_OF_COMMAND};
use crate::numbers::{Short, number_at};

/// A command of one form, whose places are those of coordinates and of a number or none.
#[derive(Clone, Copy)]
pub(crate) enum Plain {
    Put,
    Get,
    Del,
    Relocate,
    Window,
    Near,
    Within,
    Overlap,
    Inside,
    Covers,
}

impl Plain {
    // How many coordinates it has.
    fn coords(self, dims: usize) -> usize
        requires { dims ≤ 16 }
        ensures { result ≡ coords_of self dims }
    {
        match self {
            Plain::Relocate | Plain::Window => dims + dims,
            _ => dims,
        }
    }

    // The most that the number behind its coordinates may be here, if it has one there.
    fn most(self) -> Option<u64>
        ensures { result ≡ most_of self }
    {
        match self {
            Plain::Put | Plain::Within => Some(u64::MAX),
            Plain::Near => Some(u64::from(u32::MAX)),
            _ => None,
        }
    }

    /// The command, of its coordinates and the number behind them.
    #[inline(always)]
    pub(crate) fn command<'c>(self, dims: usize, coords: &'c [Coord], number: u64) -> Command<'c>
        requires limit { dims ≤ 16 }
        requires fit { IsFit (verb_of self) dims coords.now (number_by self number) None None }
        ensures meaning { (texts : List (List ℕ))
            → command_of result ≡ command_by (verb_of self) dims (numbers_of coords.now ++ map pos (number_by self number)) texts }
        ensures dims { HasDims dims result }
    {
        match self {
            Plain::Put => Command::Put {
                at: Coords::new(coords),
                value: number,
            },
            Plain::Get => Command::Get {
                at: Coords::new(coords),
            },
            Plain::Del => Command::Del {
                at: Coords::new(coords),
            },
            Plain::Relocate => {
                let (from, to) = coords.split_at(dims);
                Command::Relocate {
                    from: Coords::new(from),
                    to: Coords::new(to),
                }
            }
            Plain::Window => {
                let (lo, hi) = coords.split_at(dims);
                Command::Window {
                    lo: Coords::new(lo),
                    hi: Coords::new(hi),
                }
            }
            Plain::Near => Command::Near {
                q: Coords::new(coords),
                n: number as u32,
            },
            Plain::Within => Command::Within {
                q: Coords::new(coords),
                r: u128::from(number),
            },
            Plain::Overlap => Command::Overlap {
                bounds: Coords::new(coords),
            },
            Plain::Inside => Command::Inside {
                bounds: Coords::new(coords),
            },
            Plain::Covers => Command::Covers {
                bounds: Coords::new(coords),
            },
        }
    }
}

// The command whose word and one space stand at the front of a line, and how many bytes these are.
#[inline(always)]
fn plain_word(line: &[u8]) -> Option<(Plain, usize)>
    ensures { IfSome result (λ r. line.now ≡ word_of r.0 ++ 32 ∷ drop r.1 line.now) }
{
    if line.starts_with(b"put ") {
        return Some((Plain::Put, 4));
    }
    if line.starts_with(b"get ") {
        return Some((Plain::Get, 4));
    }
    if line.starts_with(b"del ") {
        return Some((Plain::Del, 4));
    }
    if line.starts_with(b"move ") {
        return Some((Plain::Relocate, 5));
    }
    if line.starts_with(b"window ") {
        return Some((Plain::Window, 7));
    }
    if line.starts_with(b"near ") {
        return Some((Plain::Near, 5));
    }
    if line.starts_with(b"within ") {
        return Some((Plain::Within, 7));
    }
    if line.starts_with(b"overlap ") {
        return Some((Plain::Overlap, 8));
    }
    if line.starts_with(b"inside ") {
        return Some((Plain::Inside, 7));
    }
    if line.starts_with(b"covers ") {
        return Some((Plain::Covers, 7));
    }
    None
}

// The number of few digits that the word at a place spells, and the place behind the word and one blank. At the end of the line no blank
// is there, and the place lies one behind the end.
#[inline(always)]
fn next_number(line: &[u8], from: usize) -> Option<(Short, usize)>
    ensures { IfSome result (λ r. IsNext (drop from line.now) r.0 (drop r.1 line.now)) }
{
    if line.len() <= from {
        return None;
    }
    match number_at(line, from) {
        Some((short, end)) => Some((short, end + 1)),
        None => None,
    }
}

// Reads the next words as so many coordinates, and tells the place behind them and one blank.
#[inline(always)]
fn read_coords(line: &[u8], from: usize, count: usize, coords: &mut CoordBuffer) -> Option<usize>
    requires empty { coords.old ≡ [] }
    requires room { count ≤ MOST_OF_COMMAND }
    ensures spelled { IfSome result (λ end. IsSpelled (drop from line.now) coords.new (drop end line.now)) }
    ensures count { IfSome result (λ _. length coords.new ≡ count) }
{
    let mut at = from;
    for _ in 0..count {
        let Some((short, end)) = next_number(line, at) else {
            return None;
        };
        coords.push(short.coord());
        at = end;
    }
    Some(at)
}

// The number behind the coordinates, if the command has one, and the place behind it and one blank.
#[inline(always)]
fn read_last(plain: Plain, line: &[u8], from: usize) -> Option<(u64, usize)>
    ensures { IfSome result (λ r. IsLast plain (drop from line.now) r.0 (drop r.1 line.now)) }
{
    let Some(most) = plain.most() else {
        return Some((0, from));
    };
    match next_number(line, from) {
        Some((short, end)) if !short.minus && short.size <= most => Some((short.size, end)),
        _ => None,
    }
}

/// The command that a line spells plainly, and the number behind its coordinates, which are read into a buffer.
///
/// It is plain if its word stands first, with one space behind it, each number has at most 18 digits, and one blank behind it where
/// it is not the last, and the number behind the coordinates has no minus.
#[inline(always)]
pub(crate) fn read_plain(line: &[u8], dims: usize, coords: &mut CoordBuffer) -> Option<(Plain, u64)>
    requires { dims ≤ 16 }
    ensures { IfSome result (λ r. IsPlain r.0 dims (words line.now) coords.new r.1) }
{
    let Some((plain, from)) = plain_word(line) else {
        return None;
    };
    coords.clear();
    let Some(end) = read_coords(line, from, plain.coords(dims), coords) else {
        return None;
    };
    match read_last(plain, line, end) {
        Some((number, end)) if line.len() <= end => Some((plain, number)),
        _ => None,
    }
}
