//! Values that the index is made of: widths, points, rows, their Z-order, and numbers by their spelling.
#![tactic(auto)]

mod boxes;
mod dims;
mod number;
mod offsets;
mod order;
mod point;
mod width;

pub use boxes::{is_at_most, is_box};
pub use dims::{Dim, Dims};
pub use number::{Number, read_number};
pub use offsets::offsets_of;
pub use order::z_before;
pub use ph_specs::Kind;
pub use point::{Point, Row};
pub use width::Width;
