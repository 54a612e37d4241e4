//! The entries of a node that fit the masks of a window.
ghost use Rattle.std.specs.Prelude.{◌≡◌, ◌<◌, ◌^◌, nat_le, Some, length, position, MatchOption, IfSome};
ghost use Rattle.ph_model.specs.ModelNames.{entries, fits_masks};
ghost use Rattle.ph_node.specs.Shown.{shown};
ghost use Rattle.ph_window.specs.Seek.{AreShut, IsPassed, CanSeek, IsSought};

use ph_coord::Dims;
use ph_node::{NodeOf, Spot};
use ph_path::{FrameOf, VisitOf};
use ph_walk::Masks;
use ph_zorder::next_address;

// Whether an address has every digit of the lower mask and none that the upper mask has not.
pub(crate) fn fits(addr: u32, lower: u32, upper: u32) -> bool
    ensures { result ≡ fits_masks addr lower upper }
{
    addr | lower == addr && addr & upper == addr
}

// The first entry at or behind the frame's place whose address fits.
#[inline(always)]
pub(crate) fn seek<P: Dims>(frame: FrameOf<'_, NodeOf<P>, Masks>) -> Option<Spot>
    requires { CanSeek P.D frame.note.lower frame.note.upper (shown frame.node) }
    ensures { IsSought frame.entry.note.lower frame.entry.note.upper (entries (shown frame.entry.node)) frame.entry.place result }
{
    let Some(place) = first_place(frame) else {
        return None;
    };
    seek_from(frame, place)
}

// The frame's place, or a later one before which no address has the digits of the lower mask.
#[inline(always)]
fn first_place<P: Dims>(frame: FrameOf<'_, NodeOf<P>, Masks>) -> Option<usize>
    requires { frame.note.lower < 2 ^ P.D }
    ensures { MatchOption result
        (AreShut frame.entry.note.lower frame.entry.note.upper (entries (shown frame.entry.node))
        frame.entry.place (length (entries (shown frame.entry.node))))
        (λ i.
        IsPassed frame.entry.note.lower frame.entry.note.upper (entries (shown frame.entry.node))
        frame.entry.place i) }
{
    if frame.place > 0 {
        return Some(frame.place);
    }
    if frame.note.lower == 0 {
        return Some(frame.place);
    }
    frame.node.next_at_or_after(frame.note.lower)
}

// The same, from a place on before which nothing fits. The first entry stands before the loop, since it is mostly the one.
#[inline(always)]
fn seek_from<P: Dims>(frame: FrameOf<'_, NodeOf<P>, Masks>, place: usize) -> Option<Spot>
    requires ready { CanSeek P.D frame.note.lower frame.note.upper (shown frame.node) }
    requires passed { IsPassed frame.note.lower frame.note.upper (entries (shown frame.node)) frame.place place }
    ensures { IsSought frame.entry.note.lower frame.entry.note.upper (entries (shown frame.entry.node)) frame.entry.place result }
{
    let node = frame.node;
    if place >= node.len() {
        return None;
    }
    let spot = node.spot(place);
    if fits(spot.addr, frame.note.lower, frame.note.upper) {
        return Some(spot);
    }
    let Some(next) = next_address(spot.addr, frame.note.lower, frame.note.upper) else {
        return None;
    };
    let Some(found) = node.next_behind(spot, next) else {
        return None;
    };
    seek_on(frame, found)
}

// The same by a loop.
#[inline(always)]
fn seek_on<P: Dims>(frame: FrameOf<'_, NodeOf<P>, Masks>, mut place: usize) -> Option<Spot>
    requires ready { CanSeek P.D frame.note.lower frame.note.upper (shown frame.node) }
    requires passed { IsPassed frame.note.lower frame.note.upper (entries (shown frame.node)) frame.place place }
    ensures { IsSought frame.entry.note.lower frame.entry.note.upper (entries (shown frame.entry.node)) frame.entry.place result }
{
    let node = frame.node;
    while place < node.len() {
        let spot = node.spot(place);
        if fits(spot.addr, frame.note.lower, frame.note.upper) {
            return Some(spot);
        }
        let Some(next) = next_address(spot.addr, frame.note.lower, frame.note.upper) else {
            return None;
        };
        let Some(found) = node.next_behind(spot, next) else {
            return None;
        };
        place = found;
    }
    None
}
