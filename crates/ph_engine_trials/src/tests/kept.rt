//! Scripts that save and export, and the files that they leave.
use super::claims::holds_for;
use super::files::{
    BINARY, EIGHT_BY_EIGHT, EMPTY, ONE, SIXTEEN, THREE, TWO, WIDEST, files_holding, migrated,
};
use super::records::{CITIES, SORTED};
use super::{check_over, run};
use ph_engine::Status;

// A script, what is answered to it, how it ends, and what the file x holds behind it, and y where it stands there. What is of
// version 1 is saved as the same in version 2.
type Kept = (&'static str, &'static str, Status, &'static [&'static [u8]]);

const KEPT: [Kept; 12] = [
    (
        "save x\nput 3 4 17\nsave y\n",
        "saved 8\nnew\nsaved 40\n",
        Status::Clean,
        &[EMPTY, ONE],
    ),
    // The header names the kind, the dimensions and the width.
    (
        "put 3 4 17\nsave x\n",
        "new\nsaved 40\n",
        Status::Clean,
        &[
            b"PHT2\x00\x02\x20\x01\
            \x1f\x00\x00\x00\x01\x00\x00\x00\
            \x60\x00\x00\x00\xc0\x00\x00\x02\
            \x00\x00\x00\x00\x00\x00\x00\x00\
            \x00\x00\x00\x00\x00\x00\x00\x11",
        ],
    ),
    (
        "open boxes 8 bits 62\nsave x\n",
        "opened\nsaved 8\n",
        Status::Clean,
        &[b"PHT2\x01\x10\x3e\x00"],
    ),
    (
        "open points 1 bits 62\nput -1 7\nsave x\n",
        "opened\nnew\nsaved 32\n",
        Status::Clean,
        &[WIDEST],
    ),
    (
        "open points 16 bits 1\nput 0 0 0 0 0 0 0 0 0 0 0 0 0 0 0 0 5\n\
        put -1 -1 -1 -1 -1 -1 -1 -1 -1 -1 -1 -1 -1 -1 -1 -1 6\nsave x\n",
        "opened\nnew\nnew\nsaved 40\n",
        Status::Clean,
        &[SIXTEEN],
    ),
    (
        "open boxes 8 bits 1\nput -1 -1 -1 -1 -1 -1 -1 -1 0 0 0 0 0 0 0 0 7\nsave x\n",
        "opened\nnew\nsaved 32\n",
        Status::Clean,
        &[EIGHT_BY_EIGHT],
    ),
    (
        "open points 1 bits 1\nput 0 5\nput -1 6\nput 1 7\nstats\nsave x\n",
        "opened\nnew\nnew\nerror range\nrows 2 nodes 1 linear 1 cube 0 words 4\nsaved 40\n",
        Status::Refused,
        &[BINARY],
    ),
    // A file of version 1 is loaded and saved, and that one is loaded.
    (
        "load two.pht\nsave x\nload x\n",
        "loaded 2\nsaved 64\nloaded 2\n",
        Status::Clean,
        &[TWO],
    ),
    (
        "load two.pht\nput 0 1 3\nsave x\ndel 0 1\nsave y\n",
        "loaded 2\nnew\nsaved 72\ngone 3\nsaved 64\n",
        Status::Clean,
        &[THREE, TWO],
    ),
    // Edits that are taken back.
    (
        "put 0 0 1\nput 1 1 2\nkeep 8\nsave x\nput 0 1 3\nmove 0 0 7 7\ndel 1 1\nback 3\nsave y\n",
        "new\nnew\nkeeping 8\nsaved 64\nnew\nmoved\ngone 2\nback 3\nsaved 64\n",
        Status::Clean,
        &[TWO, TWO],
    ),
    (
        "import cities.csv header\nexport x\nnear 4800 700 2\nimport cities.csv\n",
        "imported 6\nexported 6\nhit 27685 4737 854 1\nhit 631570 5151 -13 2\nend 2\n\
        bad record 1 number\n",
        Status::Refused,
        &[SORTED],
    ),
    (
        "put 3 -4 17\nput -5 6 18\nput 0 0 18446744073709551615\nexport x\n\
        use b\nimport x\nsame\nclear\nexport x\n",
        "new\nnew\nnew\nexported 3\nusing b\nimported 3\nsame\ncleared\nexported 0\n",
        Status::Clean,
        &[b""],
    ),
];

#[test]
fn kept_files(rt: HostRuntime) {
    let held = [("two.pht", TWO), ("cities.csv", CITIES)];
    let names = ["x", "y"];
    for (script, output, status, kept) in KEPT {
        let mut files = files_holding(&rt, rt.alloc(), 0, &held);
        check_over(&rt, rt.alloc(), &run(script, output, status), &mut files);
        for (name, bytes) in names.iter().zip(kept.iter()) {
            let saved = migrated(&rt, rt.alloc(), bytes);
            holds_for(
                &rt,
                files.get(name) == Some(saved.as_slice()),
                &(name, script),
            );
        }
    }
}
