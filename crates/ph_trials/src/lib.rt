//! The tree beside the plain table and beside the shape of the table's rows: a comparison of the two forms of a tree, and
//! tests that need both.
#![tactic(auto)]

#[cfg(test)]
mod alike;
#[cfg(test)]
mod boxes;
#[cfg(test)]
mod builds;
#[cfg(test)]
mod claims;
#[cfg(test)]
mod crowded;
#[cfg(test)]
mod distances;
#[cfg(test)]
mod edits;
#[cfg(test)]
mod imports;
#[cfg(test)]
mod joins;
#[cfg(test)]
mod kept;
#[cfg(test)]
mod known;
#[cfg(test)]
mod nearest_rows;
#[cfg(test)]
mod nodes;
#[cfg(test)]
mod orders;
#[cfg(test)]
mod pair;
#[cfg(test)]
mod records;
mod same;
#[cfg(test)]
mod windows;

pub use ph_shape::NoMemory;
pub use same::{is_same, is_shape};
