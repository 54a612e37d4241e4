//! The binary digits of words and of lists of words, by shifts and masks.
//!
//! Places are counted from 0 for the least digits.
#![tactic(auto)]

mod bodies;
mod differences;
mod order;
mod words;

pub use bodies::{body_above, body_address, body_below, join};
pub use differences::top_difference;
pub use order::words_cmp;
pub use words::{address_digit, digit, digits_above, digits_below};
