//! Joins of small trees.

mod boxes;
mod known_pairs;
