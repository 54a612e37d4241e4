//! Questions about boxes, as windows on points of twice as many dimensions.
#![tactic(auto)]

mod corners;
mod question;
mod windows;

pub use corners::{join_box, join_corners, split_box};
pub use question::Question;
pub use windows::bounds;
