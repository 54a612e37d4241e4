//! A slot: a table of any number of dimensions with its cursors, and what a command does to it.
#![tactic(auto)]

mod cursors;
mod desk;
mod file_sink;
mod filing;
mod frame;
mod limits;
mod records;
mod refusals;
mod slot;
mod slot_of;

pub use cursors::Held;
pub use desk::Desk;
pub use filing::{fault_reply, fetch_reply};
pub use frame::Frame;
pub use limits::Limits;
pub use slot::Slot;
pub use slot_of::SlotOf;
