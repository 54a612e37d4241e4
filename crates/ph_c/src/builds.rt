//! The call that opens a tree with many rows.
ghost use Rattle.std.specs.Prelude.{◌≡◌, ◌<◌};
ghost use Rattle.ph_c.specs.Calls.{table_in};
ghost use Rattle.ph_c.specs.Builds.{IsBuilt, NotBuilt, rows_for};
ghost use Rattle.ph_c.specs.Openings.{BoxedOr, Opening};

use crate::answers::NO_MEMORY;
use crate::frames::width_for;
use crate::handle::Handle;
use crate::openings::give_made;
use crate::trees::Tree;
use ph_steps::Steps;
use std::alloc::Global;
use std::marker::Brand;
use std::sync::ledger::{Blank, Ledger};

/// Opens a tree with rows: the coordinates of the first point, then those of the second and so on, and a value for each. Where a point comes
/// twice, the later value stands.
#[unsafe(no_mangle)]
pub extern "C" fn ph_build(
    alloc: Global,
    h: &mut Handle,
    dims: u32,
    width: u32,
    most: u64,
    points: &[i64],
    values: &[u64],
) -> u32
    ensures { Opening (IsBuilt (rows_for dims width most points.now values.now)) (NotBuilt (rows_for dims width most points.now values.now))
        (table_in h.old.tree) (table_in h.new.tree) result }
{
    let made = build_in::<Brand>(alloc, dims, width, most, points, values, Blank::new(1));
    give_made(alloc, h, made)
}

// The tree in a box, with a counter that nobody reads, made of a blank.
fn build_in<C: Ledger>(
    alloc: Global,
    dims: u32,
    width: u32,
    most: u64,
    points: &[i64],
    values: &[u64],
    changes: Blank,
) -> Result<Box<Tree>, u32>
    requires changes { (changes.name ≡ C.name) × (changes.parts ≡ C.parts) × (0 < changes.parts) }
    ensures { BoxedOr (IsBuilt (rows_for dims width most points.now values.now)) (NotBuilt (rows_for dims width most points.now values.now)) result }
{
    let mut changes: Steps<C> = Steps::new(changes);
    let w = width_for(dims, width)?;
    let tree = Tree::of_rows(alloc, dims, w, most, points, values, &mut changes)?;
    match Box::new(alloc, tree) {
        Ok(tree) => Ok(tree),
        Err(_) => Err(NO_MEMORY),
    }
}
