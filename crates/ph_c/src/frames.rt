//! What a tree is for: how many dimensions and rows, and which width.
ghost use Rattle.std.specs.Prelude.{◌≡◌, MatchResult};
ghost use Rattle.ph_c.specs.Trees.{table_at};
ghost use Rattle.ph_c.specs.Opens.{AreDimensions, IsFrameOf, IsWidth};
ghost use Rattle.ph_c.specs.Openings.{NoFrame};

use crate::answers::{NO_DIMENSIONS, NO_WIDTH};
use ph_coord::Width;
use ph_tree::PhTree;

/// What a tree is for, and how many rows it has.
#[derive(Clone, Copy)]
pub(crate) struct Frame {
    /// 1 to 16.
    pub(crate) dims: u32,
    pub(crate) width: Width,
    /// How many rows it may have.
    pub(crate) most: u64,
    pub(crate) rows: u64,
}

pub(crate) fn frame_of<const D: usize>(tree: &PhTree<D>) -> Frame
    ensures { IsFrameOf (table_at D tree.now) result }
{
    // A use that makes the number of dimensions known.
    let _root = tree.root();
    Frame {
        dims: D as u32,
        width: tree.width(),
        most: tree.max(),
        rows: tree.len(),
    }
}

/// The width of so many bits, where it is one and there may be so many dimensions, or the answer why not.
pub(crate) fn width_for(dims: u32, width: u32) -> Result<Width, u32>
    ensures { MatchResult result (λ w. AreDimensions dims × IsWidth width × (w ≡ width)) (NoFrame dims width) }
{
    if dims < 1 || 16 < dims {
        return Err(NO_DIMENSIONS);
    }
    Width::new(width).ok_or(NO_WIDTH)
}
