//! Words of the Z-order (G. M. Morton, 1966): addresses, the place that decides between two points, their order, and the
//! masks by which a window tells the parts of a region apart; and how far points and regions are from a point.
#![tactic(auto)]

mod distances;
mod order;
mod regions;
mod steps;

pub use distances::{distance, least_distance, offset_distance};
pub use order::{address, top_difference, z_cmp};
pub use regions::{Region, masks, offset_masks};
pub use steps::next_address;
