//! The pairs of overlapping boxes of two trees, one after another.
#![tactic(auto)]

mod join;
mod partners;
mod seen;

pub use join::{Join, JoinOf};
