//! Scripts and what is answered to them, over a source and a sink in memory.
ghost use Rattle.std.specs.Prelude.{◌≡◌, ◌<◌};

mod boxes;
mod checks;
mod claims;
mod commands;
mod cursors;
mod devices;
mod distances;
mod files;
mod kept;
mod pairs;
mod records;
mod sizes;
mod soaks;
mod undos;
mod widths;

use boxes::BOXES;
use claims::holds_for;
use distances::DISTANCES;
use pairs::PAIRS;
use ph_engine::{Engine, Limits, Status, top};
use ph_io::{MemoryFiles, MemorySink, MemorySource};
use ph_steps::Steps;
use sizes::SIZES;
use std::alloc::Global;
use std::marker::Brand;
use std::process::Abort;
use std::sync::ledger::{Blank, Ledger};
use undos::UNDOS;
use widths::WIDTHS;

#[derive(Drop)]
struct Case<'a> {
    words: &'a str,
    script: &'a str,
    piece: usize,
    written_piece: usize,
    failing_read: u64,
    failing_write: u64,
    script_bytes: u64,
    file_bytes: u64,
    output: &'a str,
    status: Status,
}

// A script, what is answered to it, and how it ends.
type Trial = (&'static str, &'static str, Status);

// A run in pieces of 4,096 bytes, whose replies are taken whole, without a fault.
fn run<'a>(script: &'a str, output: &'a str, status: Status) -> Case<'a> {
    Case {
        words: "run",
        script,
        piece: 4096,
        written_piece: 1000,
        failing_read: 0,
        failing_write: 0,
        script_bytes: 4096,
        file_bytes: 4096,
        output,
        status,
    }
}

// Checks scripts, each over no files.
fn check_each(rt: &impl Abort, alloc: Global, trials: &[Trial]) {
    for (script, output, status) in trials {
        check(rt, alloc, &run(script, output, *status));
    }
}

// Checks a case over no files.
fn check(rt: &impl Abort, alloc: Global, case: &Case<'_>) {
    let mut files = MemoryFiles::new(alloc, 0, 0, Vec::new(alloc)).expect(rt, "memory");
    check_over(rt, alloc, case, &mut files)
}

fn check_over(rt: &impl Abort, alloc: Global, case: &Case<'_>, files: &mut MemoryFiles) {
    let (status, sink) = answer_over(rt, alloc, case, files);
    let script = case.script;
    holds_for(rt, sink.bytes() == case.output.as_bytes(), &script);
    holds_for(rt, status == case.status, &script);
}

// Runs a case, and gives its status and what was written.
fn answer_over(
    rt: &impl Abort,
    alloc: Global,
    case: &Case<'_>,
    files: &mut MemoryFiles,
) -> (Status, MemorySink) {
    answer_counted::<Brand, Brand>(rt, alloc, case, files, Blank::new(1), Blank::new(1))
}

fn answer_counted<V: Ledger, C: Ledger>(
    rt: &impl Abort,
    alloc: Global,
    case: &Case<'_>,
    files: &mut MemoryFiles,
    visits: Blank,
    changes: Blank,
) -> (Status, MemorySink)
    requires visits { (visits.name ≡ V.name) × (visits.parts ≡ V.parts) × (0 < visits.parts) }
    requires changes { (changes.name ≡ C.name) × (changes.parts ≡ C.parts) × (0 < changes.parts) }
{
    let mut visits: Steps<V> = Steps::new(visits);
    let mut changes: Steps<C> = Steps::new(changes);
    let mut words = Vec::new(alloc);
    for word in case.words.split_whitespace() {
        words
            .push(String::from_str(alloc, word).expect(rt, "memory"))
            .expect(rt, "memory");
    }
    assert!(rt; 0 < case.piece);
    assert!(rt; 0 < case.written_piece);
    assert!(rt; case.script_bytes < 1 << 63);
    assert!(rt; case.file_bytes < 1 << 63);
    let script = Vec::from_slice(alloc, case.script.as_bytes()).expect(rt, "memory");
    let failing_reads = vec![in alloc; case.failing_read].expect(rt, "memory");
    let failing_writes = vec![in alloc; case.failing_write].expect(rt, "memory");
    let mut source = MemorySource::new(script, case.piece, failing_reads);
    let mut sink = MemorySink::with_room(alloc, 2000, case.written_piece, failing_writes).expect(
        rt, "memory",
    );
    let mut engine = Engine::new(alloc);
    let limits = Limits {
        script_bytes: case.script_bytes,
        file_bytes: case.file_bytes,
    };
    let status = top(
        alloc,
        words.as_slice(),
        &mut source,
        &mut sink,
        files,
        &mut engine,
        &limits,
        &mut visits,
        &mut changes,
    );
    // What lets an engine go is proved where it is passed to, and not step by step here.
    drop(engine);
    (status, sink)
}

// Scripts about points.
const POINTS: [Trial; 15] = [
    // Empty script.
    ("", "", Status::Clean),
    // Put then get.
    (
        "put 3 4 17\nget 3 4\nget 4 3\n",
        "new\nvalue 17\nnone\n",
        Status::Clean,
    ),
    // Put replaces.
    (
        "put 3 4 17\nput 3 4 18\nget 3 4\n",
        "new\nold 17\nvalue 18\n",
        Status::Clean,
    ),
    // Extreme coordinates.
    (
        "put -2147483648 2147483647 18446744073709551615\n\
        get -2147483648 +2147483647\n",
        "new\nvalue 18446744073709551615\n",
        Status::Clean,
    ),
    // Each line has several faults, and the first in the order of the refusals is told.
    (
        "fly 1 x\nput 1 2\nput 1 x 2\nput 1 2 -1\nopen boxes x\nopen boxes 9\n\
        open points 17 max 1\nopen points 0\nput 1 2147483648 2\nmove 1 1 2\n\
        move 1 1 2 x\nmove 1 1 2 -2147483649\nget 1\n\
        open points 3 max 0\nput 1 1 9999999999 1\nput 1 1 1 1\nget 1 1\n\
        page c/d 1\n",
        "error word\nerror count\nerror number\nerror number\nerror number\n\
        error dims\nerror dims\nerror dims\nerror range\nerror count\n\
        error number\nerror range\nerror count\n\
        opened\nerror range\nerror full\nerror count\nerror name\n",
        Status::Refused,
    ),
    // Full table.
    (
        "open points 2 max 1\nput 0 0 1\nput 1 1 1\nput 0 0 2\n\
        move 0 0 1 1\ncount\ndel 0 0\ndel 1 1\nput 1 1 1\nclear\nput 5 5 1\nput 6 6 1\n",
        "opened\nnew\nerror full\nold 1\nmoved\ncount 1\nnone\ngone 2\nnew\ncleared\n\
        new\nerror full\n",
        Status::Refused,
    ),
    // Moves.
    (
        "put 0 0 1\nput 1 1 2\nmove 5 5 6 6\nmove 0 0 1 1\nmove 0 0 0 0\nmove 5 5 5 5\n\
        move 0 0 -7 7\nget 0 0\nget -7 7\n",
        "new\nnew\nnone\ntaken\nmoved\nnone\nmoved\nnone\nvalue 1\n",
        Status::Clean,
    ),
    // Unit square in z order.
    (
        "put 1 1 4\nput 1 0 3\nput 0 1 2\nput 0 0 1\nwindow 0 0 1 1\n",
        "new\nnew\nnew\nnew\nrow 0 0 1\nrow 0 1 2\nrow 1 0 3\nrow 1 1 4\nend 4\n",
        Status::Clean,
    ),
    // Z order across signs.
    (
        "put 0 0 1\nput 0 -1 2\nput -1 0 3\nput -1 -1 4\nwindow -9 -9 9 9\n",
        "new\nnew\nnew\nnew\nrow -1 -1 4\nrow -1 0 3\nrow 0 -1 2\nrow 0 0 1\nend 4\n",
        Status::Clean,
    ),
    // Reversed and single windows.
    (
        "put 5 5 1\nwindow 5 5 4 9\nwindow 5 5 5 5\n",
        "new\nend 0\nrow 5 5 1\nend 1\n",
        Status::Clean,
    ),
    // Pages resume between edits.
    (
        "put 1 1 4\nput 1 0 3\nput 0 1 2\nput 0 0 1\ncursor c -5 -5 5 5\npage c 2\n\
        put -1 -1 8\nput 2 2 9\npage c 10\npage c 10\n",
        "new\nnew\nnew\nnew\nready\nrow 0 0 1\nrow 0 1 2\nmore 2\n\
        new\nnew\nrow 1 0 3\nrow 1 1 4\nrow 2 2 9\nend 3\nend 0\n",
        Status::Clean,
    ),
    // Cursor limit.
    (
        "page q 1\n\
        cursor c1 0 0 1 1\ncursor c2 0 0 1 1\ncursor c3 0 0 1 1\ncursor c4 0 0 1 1\n\
        cursor c5 0 0 1 1\ncursor c6 0 0 1 1\ncursor c7 0 0 1 1\ncursor c8 0 0 1 1\n\
        cursor c9 0 0 1 1\ncursor c10 0 0 1 1\ncursor c11 0 0 1 1\ncursor c12 0 0 1 1\n\
        cursor c13 0 0 1 1\ncursor c14 0 0 1 1\ncursor c15 0 0 1 1\ncursor c16 0 0 1 1\n\
        cursor c17 0 0 1 1\ncursor c1 0 0 2 2\n",
        "error cursor\n\
        ready\nready\nready\nready\nready\nready\nready\nready\n\
        ready\nready\nready\nready\nready\nready\nready\nready\n\
        error cursors\nready\n",
        Status::Refused,
    ),
    // Each number of dimensions.
    (
        "open points 1\nput 1 7\nget 1\n",
        "opened\nnew\nvalue 7\n",
        Status::Clean,
    ),
    (
        "open points 3\nput 1 2 3 7\ncursor c 0 0 0 9 9 9\npage c 1\npage c 1\ndel 1 2 3\n",
        "opened\nnew\nready\nrow 1 2 3 7\nend 1\nend 0\ngone 7\n",
        Status::Clean,
    ),
    (
        "open points 8\nput 1 2 3 4 5 6 7 8 9\nwindow 0 0 0 0 0 0 0 0 9 9 9 9 9 9 9 9\ncount\n",
        "opened\nnew\nrow 1 2 3 4 5 6 7 8 9\nend 1\ncount 1\n",
        Status::Clean,
    ),
];

// The tables of this file and of those below it.
#[test]
fn scripts(rt: HostRuntime) {
    check_each(&rt, rt.alloc(), &POINTS);
    check_each(&rt, rt.alloc(), &BOXES);
    check_each(&rt, rt.alloc(), &DISTANCES);
    check_each(&rt, rt.alloc(), &PAIRS);
    check_each(&rt, rt.alloc(), &SIZES);
    check_each(&rt, rt.alloc(), &UNDOS);
    check_each(&rt, rt.alloc(), &WIDTHS);
}

#[test]
fn blank_lines_and_carriage_returns(rt: HostRuntime) {
    let script = "# start\r\n\r\n\tput  3 4\t17 \r\nget 3 4";
    let mut case = run(script, "new\nvalue 17\n", Status::Clean);
    case.piece = 1;
    check(&rt, rt.alloc(), &case);
}

// Checks words that are answered by one line, over a sink that takes it and over one that fails.
fn check_line(
    rt: &impl Abort,
    alloc: Global,
    words: &'static str,
    line: &'static str,
    status: Status,
) {
    let mut case = run("put 3 4 17\n", line, status);
    case.words = words;
    check(rt, alloc, &case);
    case.failing_write = 1;
    case.output = "";
    case.status = Status::WriteFault;
    check(rt, alloc, &case)
}

#[test]
fn usage_line(rt: HostRuntime) {
    let usage = "usage: phq run | phq check FILE | phq soak N START\n";
    check_line(&rt, rt.alloc(), "run now", usage, Status::Usage);
    check_line(&rt, rt.alloc(), "", usage, Status::Usage);
}

#[test]
fn script_too_long(rt: HostRuntime) {
    for (bytes, output, status) in [
        (8, "count 0\n", Status::TooLong),
        (12, "count 0\ncount 0\n", Status::Clean),
    ] {
        let mut case = run("count\ncount\n", output, status);
        case.script_bytes = bytes;
        check(&rt, rt.alloc(), &case);
    }
}

#[test]
fn read_and_write_faults(rt: HostRuntime) {
    let mut read_fault = run("count\ncount\n", "count 0\n", Status::ReadFault);
    read_fault.piece = 6;
    read_fault.failing_read = 2;
    check(&rt, rt.alloc(), &read_fault);
    let script = "put 3 4 17\nput 3 4 18\nget 3 4\n";
    let mut write_fault = run(script, "new\nold 17\n", Status::WriteFault);
    write_fault.failing_write = 3;
    check(&rt, rt.alloc(), &write_fault);
}

#[test]
fn longest_line(rt: HostRuntime) {
    let longer = [b'#'; 4097];
    for (bytes, output, status) in [
        (4096, "", Status::Clean),
        (4097, "error long\n", Status::Refused),
    ] {
        assert!(rt; bytes <= longer.len());
        let mut case = run(
            str::from_utf8(&longer[..bytes]).expect(&rt, "text"),
            output,
            status,
        );
        case.script_bytes = 5000;
        check(&rt, rt.alloc(), &case);
    }
}
