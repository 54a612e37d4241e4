//! The script language: lines, the commands that they spell, and the texts of replies; and commands that are drawn.
#![tactic(auto)]

mod command;
mod coords;
mod digits;
mod file_name;
mod forms;
mod generator;
mod lines;
mod name;
mod numbers;
mod parts;
mod places;
mod plain;
mod read;
mod reply;
mod spread;
mod text;
mod words;

pub use command::{Bad, Command};
pub use coords::{Coord, CoordBuffer, Coords};
pub use file_name::FileName;
pub use generator::Gen;
pub use lines::{Line, Lines, NoMemory};
pub use name::Name;
pub use ph_specs::{SetOperation, Which};
pub use read::{read_command, read_plain_command};
pub use reply::Reply;
pub use text::{Text, reply_text, write_hit, write_pair, write_row, write_text};
