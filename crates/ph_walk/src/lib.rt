//! A walk over the rows of a tree whose points belong to a set, as a window or a ball.
#![tactic(auto)]

mod area;
mod walk;

pub use area::{Area, Masks};
pub use walk::{WalkOf, WayOf, enter};
