//! The engine: a script in, replies out.
#![tactic(auto)]

mod checking;
mod engine;
mod program;
mod run;
mod soaking;
mod status;
mod task;

pub use engine::Engine;
pub use ph_commands::{Answer, Stop};
pub use ph_slot::{Desk, Frame, Held, Limits, Slot, SlotOf};
pub use program::top;
pub use status::Status;
