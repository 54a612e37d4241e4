//! Rows near a point of a tree: the nearest ones, and those within a radius.
#![tactic(auto)]

mod ball;
mod best;
mod beyond;
mod corners;
mod distances;
mod found;
mod halves;
mod opening;
mod ranking;
mod sphere;
mod tables;
mod waiting;

pub use ball::{Ball, BallOf};
pub use best::nearest;
pub use ph_node::NoMemory;
pub use ph_table::Hit;
