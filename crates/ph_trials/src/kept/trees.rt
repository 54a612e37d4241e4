//! Trees whose edits are kept.

ghost use Rattle.std.specs.Prelude.{◌≡◌, ◌≤◌};
ghost use Rattle.ph_specs.specs.TableNames.{IsPoint};

use ph_coord::{Point, Width};
use ph_tree::PhTree;
use ph_undo::Kept;
use std::alloc::Global;
use std::process::Abort;

// The empty tree of width 32, of which nothing is kept.
pub(super) fn empty<const D: usize>(rt: &impl Abort, alloc: Global, max: u64) -> Kept<D>
    requires some { 1 ≤ D }
    requires few { D ≤ 16 }
    ensures { result.width ≡ 32 }
{
    let Some(width) = Width::new(32) else {
        panic!(rt; "no width");
    };
    Kept::new(PhTree::new(alloc, width, max))
}

pub(super) fn point<const D: usize>(rt: &impl Abort, w: Width, coords: &[i64]) -> Point<D>
    requires { D ≤ 16 }
    ensures { IsPoint w D result }
{
    let Some(p) = Point::from_slice(w, coords) else {
        panic!(rt; "no point");
    };
    p
}
