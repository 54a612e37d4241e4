//! The way of a walk down a tree: the nodes from the root to the one in which the walk stands, and the digits that are known there.
#![tactic(auto)]

mod frame;
mod known;
mod path;

pub use frame::{FrameOf, VisitOf};
pub use known::KnownOf;
pub use path::PathOf;
