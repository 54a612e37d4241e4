//! Why a slot refuses a command, where that is told without files.
ghost use Rattle.std.specs.Prelude.{◌≡◌, ◌&&◌, nat_le, length};
ghost use Rattle.std.specs.List.{list_all};
ghost use Rattle.ph_specs.specs.TableNames.{at_most, fits, is_box};
ghost use Rattle.ph_specs.specs.Command.Command.{Begin as AskBegin, Get as AskGet, Relocate as AskRelocate};
ghost use Rattle.ph_specs.specs.ProgramNames.{most_dims, has_wrong_dims as asks_wrong_dims, has_wrong_kind as asks_wrong_kind};
ghost use Rattle.ph_specs.specs.RecordNames.{is_width};
ghost use Rattle.ph_script.specs.Meaning.{command_of, number_of_coord, numbers_of, reply_of};
ghost use Rattle.ph_slot.specs.Causes.{refusal_reply};
ghost use Rattle.ph_slot.specs.Refusing.{names_points_outside, names_reversed};

use ph_coord::{Kind, Width};
use ph_script::{Command, Coord, Coords, Reply};

// Why a slot refuses a command. It takes a byte, where a reply takes a hundred.
#[derive(Clone, Copy)]
pub(crate) enum Refusal {
    Dims,
    Kind,
    Range,
    Reversed,
    Cursor,
    Cursors,
}

impl Refusal {
    // What is replied.
    pub(crate) fn reply(self) -> Reply
        ensures { reply_of result ≡ refusal_reply self }
    {
        match self {
            Refusal::Dims => Reply::ErrorDims,
            Refusal::Kind => Reply::ErrorKind,
            Refusal::Range => Reply::ErrorRange,
            Refusal::Reversed => Reply::ErrorReversed,
            Refusal::Cursor => Reply::ErrorCursor,
            Refusal::Cursors => Reply::ErrorCursors,
        }
    }
}

// Whether a slot is opened with a number of dimensions or a width that none has.
pub(crate) fn has_wrong_dims(kind: Kind, k: u32, width: u32) -> bool
    ensures { result ≡ asks_wrong_dims (AskBegin kind k width 0) }
{
    !dims_fit(kind, k) || !is_width(width)
}

fn dims_fit(kind: Kind, k: u32) -> bool
    ensures { result ≡ (nat_le 1 k && nat_le k (most_dims kind)) }
{
    1 <= k && k <= most_dims(kind)
}

fn is_width(width: u32) -> bool
    ensures { result ≡ is_width width }
{
    1 <= width && width <= 62
}

// The most dimensions that points or boxes have.
fn most_dims(kind: Kind) -> u32
    ensures { result ≡ most_dims kind }
{
    match kind {
        Kind::Points => 16,
        Kind::Boxes => 8,
    }
}

// Whether the command asks about boxes in a slot of points, or about distances in one of boxes.
pub(crate) fn has_wrong_kind(kind: Kind, cmd: &Command<'_>) -> bool
    ensures { result ≡ asks_wrong_kind kind (command_of cmd.now) }
{
    match cmd {
        Command::Overlap { .. } | Command::Inside { .. } | Command::Covers { .. } => {
            kind == Kind::Points
        }
        Command::Near { .. } | Command::Within { .. } => kind == Kind::Boxes,
        _ => false,
    }
}

// Whether a point of the command has a coordinate outside of the width.
pub(crate) fn is_out_of_range(w: Width, cmd: &Command<'_>) -> bool
    ensures { result ≡ names_points_outside w (command_of cmd.now) }
{
    match cmd {
        Command::Put { at, .. }
        | Command::Get { at }
        | Command::Del { at }
        | Command::Near { q: at, .. }
        | Command::Within { q: at, .. }
        | Command::Overlap { bounds: at }
        | Command::Inside { bounds: at }
        | Command::Covers { bounds: at } => is_outside(w, at),
        Command::Relocate { from: p, to: q }
        | Command::Window { lo: p, hi: q }
        | Command::Cursor { lo: p, hi: q, .. } => are_outside(w, p, q),
        Command::Begin { .. }
        | Command::Count
        | Command::Clear
        | Command::Page { .. }
        | Command::Save { .. }
        | Command::Load { .. }
        | Command::Import { .. }
        | Command::Export { .. }
        | Command::Stats
        | Command::Select { .. }
        | Command::Same
        | Command::Join
        | Command::Combine { .. }
        | Command::Keep { .. }
        | Command::Back { .. } => false,
    }
}

// Whether a point of the command that has to be a box has a low bound above its high one.
pub(crate) fn is_reversed(kind: Kind, cmd: &Command<'_>) -> bool
    ensures { result ≡ names_reversed kind (command_of cmd.now) }
{
    match cmd {
        Command::Put { at, .. } | Command::Get { at } | Command::Del { at } => {
            kind == Kind::Boxes && !is_box(at)
        }
        Command::Relocate { from, to } => kind == Kind::Boxes && !(is_box(from) && is_box(to)),
        Command::Overlap { bounds } | Command::Inside { bounds } | Command::Covers { bounds } => {
            !is_box(bounds)
        }
        _ => false,
    }
}

// Whether a point is none of the kind.
#[inline(always)]
pub(crate) fn is_no_box(kind: Kind, at: &Coords<'_>) -> bool
    ensures { result ≡ names_reversed kind (AskGet (numbers_of at.now)) }
{
    kind == Kind::Boxes && !is_box(at)
}

// Whether one of two points is none of the kind.
#[inline(always)]
pub(crate) fn are_no_boxes(kind: Kind, from: &Coords<'_>, to: &Coords<'_>) -> bool
    ensures { result ≡ names_reversed kind (AskRelocate (numbers_of from.now) (numbers_of to.now)) }
{
    kind == Kind::Boxes && !(is_box(from) && is_box(to))
}

fn is_box(at: &Coords<'_>) -> bool
    ensures { result ≡ is_box (numbers_of at.now) }
{
    let coords = at.as_slice();
    let (low, high) = coords.split_at(coords.len() / 2);
    low.len() == high.len() && are_at_most(low, high)
}

// Whether each coordinate is at most the other one at its place.
fn are_at_most(low: &[Coord], high: &[Coord]) -> bool
    requires { length low.now ≡ length high.now }
    ensures { result ≡ at_most (numbers_of low.now) (numbers_of high.now) }
{
    for (a, b) in low.iter().zip(high) {
        if number(b) < number(a) {
            return false;
        }
    }
    true
}

// A coordinate as a number; one number stands for all that are far.
fn number(coord: &Coord) -> i128
    ensures { result ≡ number_of_coord coord.now }
{
    match coord {
        Coord::Whole(n) => i128::from(*n),
        Coord::Far => 1 << 63,
    }
}

// Whether a point has a coordinate outside of the width.
#[inline(always)]
pub(crate) fn is_outside(w: Width, at: &Coords<'_>) -> bool
    ensures { result ≡ names_points_outside w (AskGet (numbers_of at.now)) }
{
    !are_in_range(w, at)
}

// Whether one of two points has one.
#[inline(always)]
pub(crate) fn are_outside(w: Width, from: &Coords<'_>, to: &Coords<'_>) -> bool
    ensures { result ≡ names_points_outside w (AskRelocate (numbers_of from.now) (numbers_of to.now)) }
{
    !(are_in_range(w, from) && are_in_range(w, to))
}

#[inline(always)]
fn are_in_range(w: Width, at: &Coords<'_>) -> bool
    ensures { result ≡ list_all (fits w) (numbers_of at.now) }
{
    all_fit(w, at.as_slice())
}

#[inline(always)]
fn all_fit(w: Width, coords: &[Coord]) -> bool
    ensures { result ≡ list_all (λ c. fits w (number_of_coord c)) coords.now }
{
    coords.iter().all(|coord| is_in_range(w, coord))
}

#[inline(always)]
fn is_in_range(w: Width, coord: &Coord) -> bool
    ensures { result ≡ fits w (number_of_coord coord.now) }
{
    // A use that makes known how wide a coordinate can be.
    let _bits = w.bits();
    match coord {
        Coord::Whole(c) => w.fits(*c),
        Coord::Far => false,
    }
}
