//! Tests by the kind of what is read or written.
ghost use Rattle.std.specs.Prelude.{◌≤◌};

mod claims;
mod commands;
mod lines;
mod names;
mod plain;
mod refusals;
mod replies;

use claims::holds_for;
use ph_script::{Bad, Command, CoordBuffer, read_command};
use std::alloc::Global;
use std::process::Abort;

// What is read of a line, as `Debug` shows it.
fn shown(rt: &impl Abort, alloc: Global, read: Result<Option<Command>, Bad>) -> String {
    let text = match read {
        Ok(Some(command)) => format!(in alloc; "{command:?}"),
        Ok(None) => String::from_str(alloc, "nothing"),
        Err(bad) => format!(in alloc; "{bad:?}"),
    };
    text.expect(rt, "memory")
}

// What is read of each of the lines is shown so. One buffer serves for all of them.
fn check_shown(rt: &impl Abort, alloc: Global, dims: u32, lines: &[(&[u8], &str)])
    requires { (1 ≤ dims) × (dims ≤ 16) }
{
    let mut coords = CoordBuffer::new();
    for (line, wanted) in lines {
        assert!(rt; line.len() <= 4096);
        let read = shown(rt, alloc, read_command(line, dims, &mut coords));
        holds_for(rt, read.as_str() == *wanted, &(wanted, read.as_str()));
    }
}
