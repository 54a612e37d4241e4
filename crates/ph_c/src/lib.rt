//! The tree for programs in C, C++, Python and Rust: a static library whose calls `bindings/c/phtree.h` declares.
#![tactic(auto)]

mod answers;
mod arrays;
mod asked;
mod balls;
mod builds;
mod bulk;
mod combining;
mod edits;
mod frames;
mod handle;
mod hits;
mod listing;
mod listings;
mod loose;
mod nears;
mod openings;
mod opens;
mod pages;
mod rows;
mod saves;
mod sets;
mod sizes;
mod slice_sink;
mod snapshots;
mod trees;

pub use builds::ph_build;
pub use edits::{ph_get, ph_move, ph_put, ph_remove};
pub use handle::Handle;
pub use listings::{ph_ball, ph_covering, ph_inside, ph_overlapping, ph_window};
pub use nears::ph_nearest;
pub use opens::{ph_close, ph_dimensions, ph_length, ph_most, ph_open, ph_width};
pub use saves::{ph_load, ph_save};
pub use sets::{ph_common, ph_minus, ph_union};
pub use sizes::{TreeSizes, ph_sizes};
