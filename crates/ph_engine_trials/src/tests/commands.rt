//! Commands that an engine does, one by one.
ghost use Rattle.std.specs.Prelude.{◌≡◌, ◌<◌};

use super::claims::holds_for;
use ph_engine::{Answer, Desk, Engine, Limits};
use ph_io::{MemoryFiles, MemorySink};
use ph_script::{CoordBuffer, read_command};
use ph_steps::Counters;
use std::alloc::Global;
use std::marker::Brand;
use std::process::Abort;
use std::sync::ledger::{Blank, Ledger};

// Does the command of a line. It is refused where its reply is an error.
fn check_line<V: Ledger, C: Ledger>(
    rt: &impl Abort,
    alloc: Global,
    engine: &mut Engine,
    line: &str,
    reply: &str,
    counters: &mut Counters<V, C>,
) {
    let limits = Limits {
        script_bytes: 4096,
        file_bytes: 4096,
    };
    let mut sink = MemorySink::with_room(alloc, 100, 100, Vec::new(alloc)).expect(rt, "memory");
    let mut files = MemoryFiles::new(alloc, 0, 0, Vec::new(alloc)).expect(rt, "memory");
    let mut coords = CoordBuffer::new();
    assert!(rt; line.len() <= 4096);
    let command = read_command(line.as_bytes(), engine.dims(), &mut coords);
    let Ok(Some(command)) = command else {
        assert!(rt; false, "{line} is no command");
        return;
    };
    let done = engine.exec(
        &command,
        &mut Desk::new(
            alloc,
            &mut sink,
            &mut files,
            &limits,
            &mut counters.visits,
            &mut counters.changes,
        ),
    );
    let answer = if reply.as_bytes().starts_with(b"error") {
        Answer::Refused
    } else {
        Answer::Good
    };
    holds_for(rt, done == Ok(answer), &line);
    holds_for(rt, sink.bytes() == reply.as_bytes(), &line);
}

fn check_each<V: Ledger, C: Ledger>(
    rt: &impl Abort,
    alloc: Global,
    cases: &[(&str, &str)],
    visits: Blank,
    changes: Blank,
)
    requires visits { (visits.name ≡ V.name) × (visits.parts ≡ V.parts) × (0 < visits.parts) }
    requires changes { (changes.name ≡ C.name) × (changes.parts ≡ C.parts) × (0 < changes.parts) }
{
    let mut counters: Counters<V, C> = Counters::new(visits, changes);
    let mut engine = Engine::new(alloc);
    check_lines(rt, alloc, &mut engine, cases, &mut counters);
    drop(engine);
}

fn check_lines<V: Ledger, C: Ledger>(
    rt: &impl Abort,
    alloc: Global,
    engine: &mut Engine,
    cases: &[(&str, &str)],
    counters: &mut Counters<V, C>,
) {
    for (line, reply) in cases {
        check_line(rt, alloc, engine, line, reply, counters);
    }
}

// Those of a full table.
#[test]
fn each_command_by_itself(rt: HostRuntime) {
    let cases = [
        ("open points 2 max 1", "opened\n"),
        ("put 0 0 1", "new\n"),
        ("put 1 1 1", "error full\n"),
        ("put 0 0 2", "old 1\n"),
        ("move 0 0 1 1", "moved\n"),
        ("count", "count 1\n"),
        ("del 0 0", "none\n"),
        ("del 1 1", "gone 2\n"),
        ("put 1 1 1", "new\n"),
        ("clear", "cleared\n"),
        ("put 5 5 1", "new\n"),
        ("put 6 6 1", "error full\n"),
    ];
    check_each::<Brand, Brand>(&rt, rt.alloc(), &cases, Blank::new(1), Blank::new(1));
}
