//! Queries of small trees.

mod balls;
mod bounded_rows;
mod nearest_rows;
