//! The bottom of a packed node: blocks of words with values behind them, and fields of binary digits in the words.
//!
//! The digits of each word are counted from its most significant end, so a list of words is a list of digits, and a
//! field may begin in one word and end in the next.
#![tactic(auto)]

mod apart;
mod beside;
mod between;
mod block;
mod edits;
mod entries;
mod fields;
mod joins;
mod kids;
mod moves;
mod pens;
mod places;
mod rows;
mod words;

pub use apart::row_distance;
pub use beside::is_row;
pub use between::is_row_between;
pub use block::Block;
pub use edits::Edit;
pub use entries::{Entries, Mark, Packed};
pub use fields::{field, ones_before, part_of, set_field};
pub use joins::{join_address, join_row};
pub use moves::{move_down, move_up};
pub use pens::{Pen, are_words};
pub use rows::row;
pub use std::alloc::AllocError as NoMemory;
pub use words::Words;
