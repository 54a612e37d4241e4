//! The path of a walk that goes on behind a point.
ghost use Rattle.std.specs.Prelude.{◌≡◌, ◌+◌, ◌≤◌};
ghost use Rattle.ph_node.specs.Shown.{shown};
ghost use Rattle.ph_window.specs.Resumed.{IsReady, IsResumed, way_below};

use crate::corners::CornersOf;
use crate::mark::{MarkOf, Stand};
use crate::seek::fits;
use ph_coord::Dims;
use ph_node::{NodeOf, WhatOf};
use ph_path::{FrameOf, KnownOf, VisitOf};
use ph_steps::Steps;
use ph_walk::{Area, WayOf, enter};
use std::sync::ledger::Ledger;

// Goes down to the point, from a node whose region holds it, and leaves on the path what comes behind it.
pub(crate) fn resume<'t, P: Dims, V: Ledger>(
    path: &mut WayOf<'t, NodeOf<P>>,
    known: &mut KnownOf<P>,
    corners: &CornersOf<P>,
    mark: &MarkOf<P>,
    node: VisitOf<'t, P>,
    visits: &mut Steps<V>,
)
    requires { IsReady P.D mark.now corners.now known.old path.old (shown node) }
    ensures done { IsResumed P.D mark.now corners.now (shown node.entry) known.old path.old known.new path.new }
    ensures way { visits.new ≤ visits.old + way_below mark.now corners.now known.old (shown node.entry) }
    ensures cost { visits.new ≤ visits.old + (shown node.entry).level }
    ensures grows { visits.old ≤ visits.new }
{
    let level = node.level();
    // A use that makes known that there is a place behind each entry.
    let _many = node.len();
    let Some(note) = corners.note(known, level) else {
        return;
    };
    let address = mark.address(level);
    let Some(place) = node.next_at_or_after(address) else {
        return;
    };
    let frame = FrameOf { node, place, note };
    let spot = node.spot(place);
    if spot.addr != address {
        path.push(frame);
        return;
    }
    let next = FrameOf {
        place: place + 1,
        ..frame
    };
    known.join(node, spot);
    match node.what(spot) {
        WhatOf::Value(_) => {
            if mark.is_before(known) {
                path.push(frame);
            } else {
                path.push(next);
            }
        }
        WhatOf::Child(child) => {
            path.push(next);
            if !fits(address, note.lower, note.upper) {
                return;
            }
            let below = child.visit(visits);
            match mark.stand(known, below.level()) {
                Stand::Holds => resume(path, known, corners, mark, below, visits),
                Stand::Later => enter(path, below, corners.note(known, below.level())),
                Stand::Earlier => {}
            }
        }
    }
}
