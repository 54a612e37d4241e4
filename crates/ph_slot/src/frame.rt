//! What the rows of a slot are.

use ph_coord::{Kind, Width};

/// What the rows of a slot are: points or boxes, their number of dimensions, and the width of their coordinates.
#[derive(Clone, Copy)]
pub struct Frame {
    pub kind: Kind,
    pub dims: u32,
    pub width: Width,
}
