//! Scripts over devices that refuse each call in turn, and files that end at each byte.
use super::claims::{holds, holds_for};
use super::files::{EMPTY, ONE, THREE, TWO, files_failing, migrated, preset};
use super::{answer_over, check, check_over, run};
use ph_engine::Status;
use std::alloc::Global;
use std::process::Abort;

// Pages that resume between edits: each line, and what is answered to it.
const PAGES: [(&str, &str); 10] = [
    ("put 1 1 4\n", "new\n"),
    ("put 1 0 3\n", "new\n"),
    ("put 0 1 2\n", "new\n"),
    ("put 0 0 1\n", "new\n"),
    ("cursor c -5 -5 5 5\n", "ready\n"),
    ("page c 2\n", "row 0 0 1\nrow 0 1 2\nmore 2\n"),
    ("put -1 -1 8\n", "new\n"),
    ("put 2 2 9\n", "new\n"),
    ("page c 10\n", "row 1 0 3\nrow 1 1 4\nrow 2 2 9\nend 3\n"),
    ("page c 10\n", "end 0\n"),
];

// How many bytes a read gives.
const PIECE: usize = 16;

// The row (0, 1) with 3, as it is saved.
const ALONE: &[u8] = b"PHT2\x00\x02\x20\x01\
    \x1f\x00\x00\x00\x01\x00\x00\x00\
    \x60\x00\x00\x00\x00\x00\x00\x00\
    \x80\x00\x00\x00\x00\x00\x00\x00\
    \x00\x00\x00\x00\x00\x00\x00\x03";

// The lines of the pages whose last byte is among so many, and their replies.
fn pages_within(rt: &impl Abort, alloc: Global, bytes: usize) -> (String, String) {
    let (mut script, mut output) = (String::new(alloc), String::new(alloc));
    for (line, reply) in PAGES {
        if bytes.saturating_sub(script.len()) < line.len() {
            break;
        }
        script.push_str(line).expect(rt, "memory");
        output.push_str(reply).expect(rt, "memory");
    }
    (script, output)
}

// The lines that came whole are answered. The last read is the one that finds the end, and behind it there is none to fail.
#[test]
fn each_read_fails_in_turn(rt: HostRuntime) {
    let (script, _) = pages_within(&rt, rt.alloc(), usize::MAX);
    let reads = script.len().div_ceil(PIECE).saturating_add(1);
    for read in 1..=reads.saturating_add(1) {
        let came = read.saturating_sub(1).saturating_mul(PIECE);
        let (_, front) = pages_within(&rt, rt.alloc(), came);
        let status = if read <= reads {
            Status::ReadFault
        } else {
            Status::Clean
        };
        let mut case = run(script.as_str(), front.as_str(), status);
        case.piece = PIECE;
        case.failing_read = read as u64;
        check(&rt, rt.alloc(), &case);
    }
}

// What was written is a front of the replies, and longer by 1 to 3 bytes than in the run before.
#[test]
fn each_write_fails_in_turn(rt: HostRuntime) {
    let (script, output) = pages_within(&rt, rt.alloc(), usize::MAX);
    let mut case = run(script.as_str(), "", Status::WriteFault);
    case.written_piece = 3;
    let (mut written, mut last) = (0, Status::WriteFault);
    'writes: for write in 1..=output.len() {
        case.failing_write = write as u64;
        let mut files = files_failing(&rt, rt.alloc(), 0);
        let (status, sink) = answer_over(&rt, rt.alloc(), &case, &mut files);
        let front = sink.bytes();
        holds_for(&rt, output.as_bytes().starts_with(front), &write);
        last = status;
        if status == Status::Clean {
            holds(&rt, front.len() == output.len());
            break 'writes;
        }
        holds_for(&rt, status == Status::WriteFault, &write);
        let more = front.len().saturating_sub(written);
        holds_for(&rt, more <= 3 && (0 < more || write == 1), &write);
        written = front.len();
    }
    holds(&rt, last == Status::Clean);
}

// A load that fails leaves the table without rows, and a save that fails the file as it was. Of the calls the first is the
// load, those of either save come one behind the other, and the run behind the last one has no fault.
#[test]
fn each_call_of_the_files_fails_in_turn(rt: HostRuntime) {
    let (two, three) = (
        migrated(&rt, rt.alloc(), TWO),
        migrated(&rt, rt.alloc(), THREE),
    );
    let script = "load two.pht\nput 0 1 3\nsave three.pht\ndel 0 1\nsave two2.pht\n";
    let cases: [(&str, &[u8], &[u8], Status); 4] = [
        (
            "error file\nnew\nsaved 40\ngone 3\nsaved 8\n",
            ALONE,
            EMPTY,
            Status::Refused,
        ),
        (
            "loaded 2\nnew\nerror file\ngone 3\nsaved 64\n",
            ONE,
            &two,
            Status::Refused,
        ),
        (
            "loaded 2\nnew\nsaved 72\ngone 3\nerror file\n",
            &three,
            ONE,
            Status::Refused,
        ),
        (
            "loaded 2\nnew\nsaved 72\ngone 3\nsaved 64\n",
            &three,
            &two,
            Status::Clean,
        ),
    ];
    let mut call = 1;
    for (output, first, second, status) in cases {
        let case = run(script, output, status);
        let mut is_met = false;
        'calls: for next in call..100 {
            let mut files = files_failing(&rt, rt.alloc(), next);
            preset(&rt, &mut files, "two.pht", TWO);
            preset(&rt, &mut files, "three.pht", ONE);
            preset(&rt, &mut files, "two2.pht", ONE);
            let (ended, sink) = answer_over(&rt, rt.alloc(), &case, &mut files);
            if sink.bytes() != output.as_bytes() {
                call = next;
                break 'calls;
            }
            holds_for(&rt, ended == status, &next);
            holds_for(&rt, files.get("three.pht") == Some(first), &next);
            holds_for(&rt, files.get("two2.pht") == Some(second), &next);
            is_met = true;
            if ended == Status::Clean {
                break 'calls;
            }
        }
        holds_for(&rt, is_met, &output);
    }
}

// A file of version 1 and one of version 2, of 64 bytes each.
#[test]
fn each_cut_of_a_snapshot(rt: HostRuntime) {
    let second = migrated(&rt, rt.alloc(), TWO);
    for bytes in [TWO, second.as_slice()] {
        for length in 0..=64 {
            let mut files = files_failing(&rt, rt.alloc(), 0);
            let cut = &bytes[..length.min(bytes.len())];
            preset(&rt, &mut files, "x.pht", cut);
            let header = format!(in rt.alloc(); "bad header {length}\n").expect(&rt, "memory");
            let (output, status) = match length {
                0..=3 => ("bad magic\n", Status::Refused),
                4..=7 => (header.as_str(), Status::Refused),
                8..=31 => ("bad short 8\n", Status::Refused),
                32..=63 => ("bad short 32\n", Status::Refused),
                _ => ("loaded 2\n", Status::Clean),
            };
            let case = run("load x.pht\n", output, status);
            check_over(&rt, rt.alloc(), &case, &mut files);
        }
    }
}
