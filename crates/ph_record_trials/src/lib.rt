//! Records of at most two dimensions: lists of entries that are written as records and compared with what is read of them.
#![tactic(auto)]

mod backs;
mod items;
mod records;
#[cfg(test)]
mod tests;
#[cfg(test)]
mod words;

pub use backs::{is_cube_back, is_linear_back};
pub use items::{Item, Items};
pub use records::record_of;
