//! The reading of a line.
ghost use Rattle.std.specs.Prelude.{◌≡◌, ◌≤◌, ◌<◌, ◌^◌, ◌==◌, ◌++◌, [], ℕ, List, length, map, slice_index, pos, false, None, Some, IfSome, IsSome, MatchResult};
ghost use Rattle.std.specs.Cmp.Lexicographic.{pointwise};
ghost use Rattle.ph_specs.specs.ProgramNames.{words, form, forms, number_fits, name_fits, read_form as by_form, read_words, Reading};
ghost use Rattle.ph_script.specs.Forms.{places_by, command_by, read_among, spread_of, counted, IsPassed, IsRefusing};
ghost use Rattle.ph_script.specs.declared.command.Bad.TheVariants.{Word as BadWord};
ghost use Rattle.ph_script.specs.declared.command.Command.TheVariants.{Begin};
ghost use Rattle.ph_script.specs.Parts.{kind_by, slot_by};
ghost use Rattle.ph_script.specs.Meaning.{reading_of, command_of, numbers_of, bad_reply};
ghost use Rattle.ph_script.specs.Fit.{IsFault, IsFit, IsNamed, IsRead, HasDims, ReadsDims};

use crate::command::{Bad, Command};
use crate::coords::{Coord, CoordBuffer, Coords};
use crate::file_name::FileName;
use crate::forms::{Verb, forms};
use crate::name::Name;
use crate::parts::Parts;
use crate::places::{has_own_words, read_places};
use crate::plain::read_plain;
use crate::spread::Spread;
use crate::words::next_word;
use ph_coord::Kind;
use ph_specs::Which;

// The first byte of a comment.
const COMMENT: u8 = b'#';

// The bits of a coordinate where a line does not say how many.
const WIDTH: u32 = 32;

// Reads the words behind a command's word in the places of a form of that word that has as many, and tells the form. Of several such forms
// the first counts whose own words are there, and else the last.
fn read_form<'c>(
    word: &[u8],
    text: &'c [u8],
    dims: usize,
    coords: &mut CoordBuffer,
    parts: &mut Parts<'c>,
) -> Result<Verb, Bad>
    requires dims { dims ≤ 16 }
    requires empty { (coords.old ≡ []) × (parts.old.counts.items ≡ []) × (parts.old.name ≡ None) × (parts.old.file ≡ None) × (parts.old.is_second ≡ false) }
    ensures { MatchResult result
        (λ verb. (read_among BadWord word.now (words text.now) (forms dims)
        ≡ by_form (form word.now (places_by verb dims) (command_by verb dims)) (words text.now))
        × IsRead (places_by verb dims) (words text.now) coords.new parts.new.counts.items parts.new.name parts.new.file parts.new.is_second)
        (λ b. read_among BadWord word.now (words text.now) (forms dims) ≡ Reading.Refused (bad_reply b)) }
{
    let mut refused = Bad::Word;
    'forms: for form in forms() {
        if form.word != word {
            continue;
        }
        let places = Spread::new(form.places, dims);
        match read_places(places, text, coords, parts) {
            Ok(()) => return Ok(form.verb),
            Err(bad) => match refused_by(places, text, refused, bad) {
                Ok(next) => refused = next,
                Err(bad) => return Err(bad),
            },
        }
        coords.clear();
        *parts = Parts::new();
    }
    Err(refused)
}

// What is wrong with words behind a form of these places, by which so much is wrong; as an error, if no other form may count.
fn refused_by(places: Spread, text: &[u8], refused: Bad, bad: Bad) -> Result<Bad, Bad>
    requires { IsFault bad (length (spread_of places) == length (words text.now))
        (pointwise number_fits (spread_of places) (words text.now))
        (pointwise name_fits (spread_of places) (words text.now)) }
    ensures { MatchResult result
        (λ next. IsPassed refused next (spread_of places) (words text.now))
        (λ b. IsRefusing refused b (spread_of places) (words text.now)) }
{
    match bad {
        Bad::Count => Ok(miscounted(refused)),
        _ => {
            if has_own_words(places, text) {
                Err(bad)
            } else {
                Ok(bad)
            }
        }
    }
}

// What is wrong once a form of the word was seen that has another number of words.
fn miscounted(refused: Bad) -> Bad
    ensures { result ≡ counted refused }
{
    match refused {
        Bad::Word => Bad::Count,
        _ => refused,
    }
}

// The command of a form, of its coordinates and of the other parts that its places have.
fn command<'c>(verb: Verb, dims: usize, coords: &'c [Coord], parts: Parts<'c>) -> Command<'c>
    requires limit { dims ≤ 16 }
    requires fit { IsFit verb dims coords.now parts.counts.items parts.name parts.file }
    ensures meaning { (texts : List (List ℕ)) → IsNamed verb parts.entry.name parts.entry.file parts.entry.is_second texts
        → command_of result ≡ command_by verb dims (numbers_of coords.now ++ map pos parts.entry.counts.items) texts }
    ensures dims { HasDims dims result }
{
    let counts = parts.counts.as_slice();
    match verb {
        Verb::Open => begin(&parts, WIDTH, u64::MAX),
        Verb::OpenBits => begin(&parts, counts[1] as u32, u64::MAX),
        Verb::OpenMax => begin(&parts, WIDTH, counts[1] as u64),
        Verb::OpenBitsMax => begin(&parts, counts[1] as u32, counts[2] as u64),
        Verb::Put => Command::Put {
            at: Coords::new(coords),
            value: counts[0] as u64,
        },
        Verb::Get => Command::Get {
            at: Coords::new(coords),
        },
        Verb::Del => Command::Del {
            at: Coords::new(coords),
        },
        Verb::Relocate => {
            let (from, to) = coords.split_at(dims);
            Command::Relocate {
                from: Coords::new(from),
                to: Coords::new(to),
            }
        }
        Verb::Count => Command::Count,
        Verb::Clear => Command::Clear,
        Verb::Window => {
            let (lo, hi) = coords.split_at(dims);
            Command::Window {
                lo: Coords::new(lo),
                hi: Coords::new(hi),
            }
        }
        Verb::Cursor => {
            let (lo, hi) = coords.split_at(dims);
            Command::Cursor {
                name: name_in(&parts),
                lo: Coords::new(lo),
                hi: Coords::new(hi),
            }
        }
        Verb::Page => Command::Page {
            name: name_in(&parts),
            n: counts[0] as u32,
        },
        Verb::Near => Command::Near {
            q: Coords::new(coords),
            n: counts[0] as u32,
        },
        Verb::Within => Command::Within {
            q: Coords::new(coords),
            r: counts[0],
        },
        Verb::Overlap => Command::Overlap {
            bounds: Coords::new(coords),
        },
        Verb::Inside => Command::Inside {
            bounds: Coords::new(coords),
        },
        Verb::Covers => Command::Covers {
            bounds: Coords::new(coords),
        },
        Verb::Save => Command::Save {
            file: file_in(parts),
        },
        Verb::Load => Command::Load {
            file: file_in(parts),
        },
        Verb::Import => Command::Import {
            file: file_in(parts),
            header: false,
        },
        Verb::ImportHeader => Command::Import {
            file: file_in(parts),
            header: true,
        },
        Verb::Export => Command::Export {
            file: file_in(parts),
        },
        Verb::Stats => Command::Stats,
        Verb::Select => Command::Select {
            slot: slot_in(&parts),
        },
        Verb::Same => Command::Same,
        Verb::Join => Command::Join,
        Verb::Combine(operation) => Command::Combine { operation },
        Verb::Keep => Command::Keep {
            n: counts[0] as u32,
        },
        Verb::Back => Command::Back {
            n: counts[0] as u32,
        },
    }
}

// A new table of the kind and of the dimensions that the parts say.
fn begin<'c>(parts: &Parts<'_>, width: u32, max: u64) -> Command<'c>
    requires some { 0 < length parts.now.counts.items }
    requires small { slice_index parts.now.counts.items 0 < 2 ^ 32 }
    ensures { result ≡ Begin (kind_by parts.now.is_second) (slice_index parts.now.counts.items 0) width max }
{
    Command::Begin {
        kind: kind_in(parts),
        k: parts.counts.as_slice()[0] as u32,
        width,
        max,
    }
}

fn name_in(parts: &Parts<'_>) -> Name
    requires { IsSome parts.now.name }
    ensures { parts.now.name ≡ Some result }
{
    match parts.name {
        Some(name) => name,
        None => unreachable!(),
    }
}

fn file_in<'c>(parts: Parts<'c>) -> FileName<'c>
    requires { IsSome parts.file }
    ensures { parts.entry.file ≡ Some result }
{
    match parts.file {
        Some(file) => file,
        None => unreachable!(),
    }
}

// What the word `points` or `boxes` says.
fn kind_in(parts: &Parts<'_>) -> Kind
    ensures { result ≡ kind_by parts.now.is_second }
{
    if parts.is_second {
        Kind::Boxes
    } else {
        Kind::Points
    }
}

// What the word `a` or `b` says.
fn slot_in(parts: &Parts<'_>) -> Which
    ensures { result ≡ slot_by parts.now.is_second }
{
    if parts.is_second { Which::B } else { Which::A }
}

/// Reads a line that has lost its line feed and a carriage return before it; points have so many dimensions, from 1 to 16. The
/// coordinates of the command are read into a buffer, whatever it had before.
///
/// `None` is a line with no command: one without a word, or a comment, whose first word begins with `#`.
/// A refusal names the first fault in the order of `Bad`; the numbers of a line are tried before its names. It takes no memory.
pub fn read_command<'c>(
    line: &'c [u8],
    dims: u32,
    coords: &'c mut CoordBuffer,
) -> Result<Option<Command<'c>>, Bad>
    requires dims { (1 ≤ dims) × (dims ≤ 16) }
    requires limit { length line.now ≤ 4096 }
    ensures meaning { reading_of result ≡ read_words dims (words line.now) }
    ensures dims { ReadsDims dims result }
{
    let dims = dims as usize;
    if let Some((plain, number)) = read_plain(line, dims, coords) {
        return Ok(Some(plain.command(dims, coords.as_slice(), number)));
    }
    read_other(line, dims, coords)
}

/// The command of a line of one of the most common kinds, plainly written. Where there is none, the line may still have a command.
///
/// It is that of `read_command`, without a place for the larger commands: what is done with it can be compiled with its reading.
#[inline(always)]
pub fn read_plain_command<'c>(
    line: &'c [u8],
    dims: u32,
    coords: &'c mut CoordBuffer,
) -> Option<Command<'c>>
    requires dims { (1 ≤ dims) × (dims ≤ 16) }
    ensures meaning { IfSome result (λ command. Reading.Do (command_of command) ≡ read_words dims (words line.now)) }
    ensures dims { IfSome result (λ command. HasDims dims command) }
{
    let dims = dims as usize;
    match read_plain(line, dims, coords) {
        Some((plain, number)) => Some(plain.command(dims, coords.as_slice(), number)),
        None => None,
    }
}

// Reads a line that is not plain. What it answers lies in a place of its own first, so that the command of a plain line needs no place.
#[inline(always)]
fn read_other<'c>(
    line: &'c [u8],
    dims: usize,
    coords: &'c mut CoordBuffer,
) -> Result<Option<Command<'c>>, Bad>
    requires { dims ≤ 16 }
    ensures meaning { reading_of result ≡ read_words dims (words line.now) }
    ensures dims { ReadsDims dims result }
{
    let command = read_any(line, dims, coords)?;
    Ok(command)
}

// The same by the forms of all commands.
#[inline(never)]
fn read_any<'c>(
    line: &'c [u8],
    dims: usize,
    coords: &'c mut CoordBuffer,
) -> Result<Option<Command<'c>>, Bad>
    requires { dims ≤ 16 }
    ensures meaning { reading_of result ≡ read_words dims (words line.now) }
    ensures dims { ReadsDims dims result }
{
    let Some((word, rest)) = next_word(line) else {
        return Ok(None);
    };
    if word.text[0] == COMMENT {
        return Ok(None);
    }
    let mut parts = Parts::new();
    coords.clear();
    match read_form(word.text, rest, dims, coords, &mut parts) {
        Ok(verb) => Ok(Some(command(verb, dims, coords.as_slice(), parts))),
        Err(bad) => Err(bad),
    }
}
