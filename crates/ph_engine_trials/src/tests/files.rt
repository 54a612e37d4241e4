//! Scripts that save tables to files, and load them.
use super::checks::check_of;
use super::claims::{holds, holds_for};
use super::records::TWO_RECORDS;
use super::{Trial, check_over, run};
use ph_engine::Status;
use ph_io::MemoryFiles;
use std::alloc::Global;
use std::process::Abort;

// A table of points of two dimensions without rows, as it is saved.
pub(super) const EMPTY: &[u8] = b"PHT2\x00\x02\x20\x00";

// The header of what is saved of other such tables.
const HEADER: &[u8] = b"PHT2\x00\x02\x20\x01";

// Of version 1, as are those below: the row (3, 4) with 17.
pub(super) const ONE: &[u8] = b"PHT1\x00\x02\x01\x00\
    \x1f\x00\x00\x00\x01\x00\x00\x00\
    \x60\x00\x00\x00\xc0\x00\x00\x02\
    \x00\x00\x00\x00\x00\x00\x00\x00\
    \x00\x00\x00\x00\x00\x00\x00\x11";

// The rows (0, 0) with 1 and (1, 1) with 2.
pub(super) const TWO: &[u8] = b"PHT1\x00\x02\x01\x00\
    \x1f\x00\x00\x00\x01\x00\x00\x01\
    \xe0\x00\x00\x00\x00\x00\x00\x00\
    \x00\x00\x00\x00\x00\x00\x00\x00\
    \x00\x00\x00\x00\x02\x00\x00\x00\
    \x0c\x00\x00\x00\x00\x00\x00\x00\
    \x00\x00\x00\x00\x00\x00\x00\x01\
    \x00\x00\x00\x00\x00\x00\x00\x02";

// The same and (0, 1) with 3.
pub(super) const THREE: &[u8] = b"PHT1\x00\x02\x01\x00\
    \x1f\x00\x00\x00\x01\x00\x00\x01\
    \xe0\x00\x00\x00\x00\x00\x00\x00\
    \x00\x00\x00\x00\x00\x00\x00\x00\
    \x00\x01\x00\x00\x03\x00\x00\x00\
    \x51\x00\x00\x00\x00\x00\x00\x00\
    \x00\x00\x00\x00\x00\x00\x00\x01\
    \x00\x00\x00\x00\x00\x00\x00\x03\
    \x00\x00\x00\x00\x00\x00\x00\x02";

// Of boxes, one whose low bound, 7, is above its high one, 3.
pub(super) const REVERSED: &[u8] = b"PHT1\x01\x02\x01\x00\
    \x1f\x00\x00\x00\x01\x00\x00\x00\
    \x60\x00\x00\x01\xc0\x00\x00\x01\
    \x80\x00\x00\x00\x00\x00\x00\x00\
    \x00\x00\x00\x00\x00\x00\x00\x01";

// Of version 2: in 62 bits, -1 with 7.
pub(super) const WIDEST: &[u8] = b"PHT2\x00\x01\x3e\x01\
    \x3d\x00\x00\x00\x01\x00\x00\x00\
    \x3f\xff\xff\xff\xff\xff\xff\xfe\
    \x00\x00\x00\x00\x00\x00\x00\x07";

// In one bit, 0 with 5 and -1 with 6.
pub(super) const BINARY: &[u8] = b"PHT2\x00\x01\x01\x01\
    \x00\x00\x00\x00\x02\x00\x00\x00\
    \x10\x00\x00\x00\x00\x00\x00\x00\
    \x00\x00\x00\x00\x00\x00\x00\x06\
    \x00\x00\x00\x00\x00\x00\x00\x05";

// The same in each of sixteen dimensions.
pub(super) const SIXTEEN: &[u8] = b"PHT2\x00\x10\x01\x01\
    \x00\x00\x00\x00\x02\x00\x00\x00\
    \x00\x00\x3f\xff\xc0\x00\x00\x00\
    \x00\x00\x00\x00\x00\x00\x00\x06\
    \x00\x00\x00\x00\x00\x00\x00\x05";

// A box of eight dimensions, from -1 to 0 in each of them, with 7.
pub(super) const EIGHT_BY_EIGHT: &[u8] = b"PHT2\x01\x10\x01\x01\
    \x00\x00\x00\x00\x01\x00\x00\x00\
    \x00\x7f\x80\x00\x00\x00\x00\x00\
    \x00\x00\x00\x00\x00\x00\x00\x07";

// The same bytes but for one.
pub(super) fn altered(
    rt: &impl Abort,
    alloc: Global,
    bytes: &[u8],
    at: usize,
    byte: u8,
) -> Vec<u8> {
    let mut altered = Vec::from_slice(alloc, bytes).expect(rt, "memory");
    for (i, old) in altered.as_mut_slice().iter_mut().enumerate() {
        if i == at {
            *old = byte;
        }
    }
    altered
}

// The same records behind the header of version 2, where they stand behind one of version 1, and else the same bytes.
pub(super) fn migrated(rt: &impl Abort, alloc: Global, bytes: &[u8]) -> Vec<u8> {
    if !bytes.starts_with(b"PHT1") {
        return Vec::from_slice(alloc, bytes).expect(rt, "memory");
    }
    let mut second = Vec::from_slice(alloc, HEADER).expect(rt, "memory");
    for byte in bytes.iter().skip(8) {
        second.push(*byte).expect(rt, "memory");
    }
    second
}

// Room for a few files, of whose calls one fails; none where its number is 0.
pub(super) fn files_failing(rt: &impl Abort, alloc: Global, call: u64) -> MemoryFiles {
    MemoryFiles::new(alloc, 6, 4096, vec![in alloc; call].expect(rt, "memory")).expect(rt, "memory")
}

pub(super) fn preset(rt: &impl Abort, files: &mut MemoryFiles, name: &str, bytes: &[u8]) {
    assert!(rt; name.len() <= 255);
    holds(rt, files.preset(name, bytes));
}

// Such room that holds these files.
pub(super) fn files_holding(
    rt: &impl Abort,
    alloc: Global,
    call: u64,
    held: &[(&str, &[u8])],
) -> MemoryFiles {
    let mut files = files_failing(rt, alloc, call);
    for (name, bytes) in held {
        preset(rt, &mut files, name, bytes);
    }
    files
}

// Checks scripts, each over these files.
pub(super) fn check_each_over(
    rt: &impl Abort,
    alloc: Global,
    held: &[(&str, &[u8])],
    trials: &[Trial],
) {
    for (script, output, status) in trials {
        let mut files = files_holding(rt, alloc, 0, held);
        check_over(rt, alloc, &run(script, output, *status), &mut files);
    }
}

// What a load and what a check say of two rows with one byte of the header changed. A check asks for no kind, dimensions or width.
#[test]
fn altered_headers(rt: HostRuntime) {
    let second = migrated(&rt, rt.alloc(), TWO);
    let cases = [
        (TWO, 3, 0x32, "bad dims\n", "bad extra 8\n"),
        (TWO, 3, 0x33, "bad magic\n", "bad magic\n"),
        (TWO, 6, 0x20, "bad header 6\n", "bad header 6\n"),
        (&second, 3, 0x31, "bad header 6\n", "bad header 6\n"),
        (&second, 5, 0x11, "bad header 5\n", "bad header 5\n"),
        (&second, 5, 0x10, "bad dims\n", "bad short 8\n"),
        (&second, 6, 0x00, "bad header 6\n", "bad header 6\n"),
        (&second, 6, 0x3f, "bad header 6\n", "bad header 6\n"),
        (&second, 6, 0x1f, "bad dims\n", "bad node 8\n"),
        (&second, 7, 0x02, "bad header 7\n", "bad header 7\n"),
        (&second, 7, 0x00, "bad extra 8\n", "bad extra 8\n"),
    ];
    for (bytes, at, byte, loaded, checked) in cases {
        let changed = altered(&rt, rt.alloc(), bytes, at, byte);
        let held = [("x.pht", changed.as_slice())];
        let mut files = files_holding(&rt, rt.alloc(), 0, &held);
        let case = run("load x.pht\n", loaded, Status::Refused);
        check_over(&rt, rt.alloc(), &case, &mut files);
        let case = check_of("check x.pht", checked, Status::Refused);
        check_over(&rt, rt.alloc(), &case, &mut files);
    }
}

#[test]
fn refused_loads_keep_the_table(rt: HostRuntime) {
    let padded = altered(&rt, rt.alloc(), ONE, 31, 1);
    let mut longer = Vec::from_slice(rt.alloc(), ONE).expect(&rt, "memory");
    longer.push(0).expect(&rt, "memory");
    let mut shorter = Vec::from_slice(rt.alloc(), ONE).expect(&rt, "memory");
    shorter.truncate(39);
    let held: [(&str, &[u8]); 5] = [
        ("cut.pht", shorter.as_slice()),
        ("pad.pht", padded.as_slice()),
        ("more.pht", longer.as_slice()),
        ("none.pht", b""),
        ("one.pht", ONE),
    ];
    let trials = [(
        "put 9 9 9\nload cut.pht\nload pad.pht\nload more.pht\nload none.pht\ncount\n\
        load one.pht\nget 3 4\nget 9 9\n",
        "new\nbad short 8\nbad node 8\nbad extra 40\nbad magic\ncount 1\n\
        loaded 1\nvalue 17\nnone\n",
        Status::Refused,
    )];
    check_each_over(&rt, rt.alloc(), &held, &trials);
}

// Of other kinds, of other dimensions, and with more rows than there may be.
#[test]
fn loads_into_other_slots(rt: HostRuntime) {
    let points = altered(&rt, rt.alloc(), REVERSED, 4, 0);
    let held = [
        ("rev.pht", REVERSED),
        ("points.pht", points.as_slice()),
        ("two.pht", TWO),
    ];
    let trials = [
        (
            "open boxes 1\nput 1 5 1\nload rev.pht\nload points.pht\ncount\n",
            "opened\nnew\nbad node 8\nbad dims\ncount 1\n",
            Status::Refused,
        ),
        (
            "cursor c 0 0 9 9\nload points.pht\nget 7 3\npage c 1\nopen points 3\nload two.pht\n",
            "ready\nloaded 1\nvalue 1\nrow 7 3 1\nend 1\nopened\nbad dims\n",
            Status::Refused,
        ),
        (
            "open points 2 max 1\nput 5 5 5\nload two.pht\nput 6 6 6\nload points.pht\nput 0 0 1\n",
            "opened\nnew\nerror full\nerror full\nloaded 1\nerror full\n",
            Status::Refused,
        ),
    ];
    check_each_over(&rt, rt.alloc(), &held, &trials);
}

#[test]
fn file_too_long(rt: HostRuntime) {
    let mut files = files_holding(&rt, rt.alloc(), 0, &[("one.pht", ONE)]);
    let mut case = run("load one.pht\n", "error file\n", Status::Refused);
    case.file_bytes = 39;
    check_over(&rt, rt.alloc(), &case, &mut files);
    case.file_bytes = 40;
    case.output = "loaded 1\n";
    case.status = Status::Clean;
    check_over(&rt, rt.alloc(), &case, &mut files);
}

// How many of the first calls of files are to fail, one in each run, and a script and what is answered to it in each.
const FAILING: [(u64, &str, &str); 4] = [
    (
        1,
        "save x.pht\nload gone.pht\nsave x.pht\nload one.pht\n",
        "error file\nerror file\nsaved 8\nloaded 1\n",
    ),
    (
        3,
        "save one.pht\ncount\nload one.pht\n",
        "error file\ncount 0\nloaded 1\n",
    ),
    (
        1,
        "put 9 9 9\nimport b.csv\ncount\nimport b.csv\n",
        "new\nerror file\ncount 1\nimported 2\n",
    ),
    (
        3,
        "put 3 4 17\nexport b.csv\nimport b.csv\n",
        "new\nerror file\nimported 2\n",
    ),
];

// Whichever call fails, the files that are there stay as they were, and so does the table.
#[test]
fn failing_calls(rt: HostRuntime) {
    let held: [(&str, &[u8]); 2] = [("one.pht", ONE), ("b.csv", TWO_RECORDS)];
    for (calls, script, output) in FAILING {
        let case = run(script, output, Status::Refused);
        for call in 1..=calls {
            let mut files = files_holding(&rt, rt.alloc(), call, &held);
            check_over(&rt, rt.alloc(), &case, &mut files);
            for (name, bytes) in &held {
                holds_for(&rt, files.get(name) == Some(*bytes), &(name, call));
            }
        }
    }
}
