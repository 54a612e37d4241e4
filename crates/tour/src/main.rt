//! Shows the calls of a tree on the points of docs/tree.md; docs/library.md goes through it.
#![tactic(auto)]

ghost use Rattle.std.specs.Prelude.{◌≡◌, ◌<◌};

mod calls;
mod error;
mod points;
mod stages;

use error::TourError;
use ph_steps::Steps;
use stages::Tour;
use std::marker::Brand;
use std::sync::ledger::{Blank, Ledger};

fn main(rt: HostRuntime) -> Result<(), TourError> {
    show_all::<Brand, Brand>(&rt, Blank::new(1), Blank::new(1))
}

// All stages, over an empty tree and new counters.
fn show_all<V: Ledger, C: Ledger>(
    rt: &HostRuntime,
    visits: Blank,
    changes: Blank,
) -> Result<(), TourError>
    requires visits { (visits.name ≡ V.name) × (visits.parts ≡ V.parts) × (0 < visits.parts) }
    requires changes { (changes.name ≡ C.name) × (changes.parts ≡ C.parts) × (0 < changes.parts) }
{
    let mut tour: Tour<V, C> = Tour::new(rt.alloc(), Steps::new(visits), Steps::new(changes));
    tour.put_rows(rt)?;
    tour.refuse_row(rt)?;
    tour.get_rows(rt)?;
    tour.list_window(rt)?;
    tour.list_nearest(rt)?;
    tour.remove_row(rt)?;
    tour.save_and_load(rt)?;
    tour.refuse_bytes(rt)
}
