//! Edits that are kept and taken back.

mod known_edits;
mod trees;
