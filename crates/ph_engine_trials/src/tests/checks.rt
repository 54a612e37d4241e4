//! Checks of files, by the words of the program.
use super::files::{
    BINARY, EIGHT_BY_EIGHT, ONE, REVERSED, SIXTEEN, TWO, WIDEST, altered, files_failing,
    files_holding, migrated,
};
use super::{Case, check_over, run};
use ph_engine::Status;

// A check in place of a run.
pub(super) fn check_of<'a>(words: &'a str, output: &'a str, status: Status) -> Case<'a> {
    let mut case = run("", output, status);
    case.words = words;
    case
}

#[test]
fn check_of_snapshots(rt: HostRuntime) {
    let boxes = altered(&rt, rt.alloc(), TWO, 4, 1);
    let mut cut = Vec::from_slice(rt.alloc(), ONE).expect(&rt, "memory");
    cut.truncate(39);
    let second = migrated(&rt, rt.alloc(), TWO);
    let cases: [(&[u8], &str, Status); 11] = [
        (
            ONE,
            "points 2 rows 1 nodes 1 linear 1 cube 0 words 4\n",
            Status::Clean,
        ),
        (
            &boxes,
            "boxes 1 rows 2 nodes 2 linear 2 cube 0 words 7\n",
            Status::Clean,
        ),
        (
            &second,
            "points 2 rows 2 nodes 2 linear 2 cube 0 words 7\n",
            Status::Clean,
        ),
        (
            BINARY,
            "points 1 rows 2 nodes 1 linear 1 cube 0 words 4\n",
            Status::Clean,
        ),
        (
            SIXTEEN,
            "points 16 rows 2 nodes 1 linear 1 cube 0 words 4\n",
            Status::Clean,
        ),
        (
            WIDEST,
            "points 1 rows 1 nodes 1 linear 1 cube 0 words 3\n",
            Status::Clean,
        ),
        (
            EIGHT_BY_EIGHT,
            "boxes 8 rows 1 nodes 1 linear 1 cube 0 words 3\n",
            Status::Clean,
        ),
        (
            b"PHT2\x00\x10\x3e\x00",
            "points 16 rows 0 nodes 0 linear 0 cube 0 words 0\n",
            Status::Clean,
        ),
        (REVERSED, "bad node 8\n", Status::Refused),
        (&cut, "bad short 8\n", Status::Refused),
        (b"", "bad magic\n", Status::Refused),
    ];
    for (bytes, output, status) in cases {
        let mut files = files_holding(&rt, rt.alloc(), 0, &[("x.pht", bytes)]);
        let case = check_of("check x.pht", output, status);
        check_over(&rt, rt.alloc(), &case, &mut files);
    }
    let case = check_of("check gone.pht", "error file\n", Status::Refused);
    check_over(
        &rt,
        rt.alloc(),
        &case,
        &mut files_failing(&rt, rt.alloc(), 0),
    );
}

// A file that is too long, files that fail, and a sink whose first write fails. The line is a single write.
#[test]
fn checks_that_fail(rt: HostRuntime) {
    let sizes = "points 2 rows 1 nodes 1 linear 1 cube 0 words 4\n";
    let cases = [
        (39, 0, 0, "error file\n", Status::Refused),
        (40, 1, 0, "error file\n", Status::Refused),
        (40, 0, 1, "", Status::WriteFault),
        (40, 0, 2, sizes, Status::Clean),
    ];
    for (file_bytes, failing_call, failing_write, output, status) in cases {
        let mut files = files_holding(&rt, rt.alloc(), failing_call, &[("one.pht", ONE)]);
        let mut case = check_of("check one.pht", output, status);
        case.file_bytes = file_bytes;
        case.failing_write = failing_write;
        check_over(&rt, rt.alloc(), &case, &mut files);
    }
}
