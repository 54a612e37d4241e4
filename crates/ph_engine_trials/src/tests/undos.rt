//! Edits that are taken back.
use super::Trial;
use super::files::{ONE, check_each_over};
use ph_engine::Status;

// Records of two new points.
const NEW: &[u8] = b"3,3,4\n2,2,3\n";

// Scripts about edits that are taken back.
pub(super) const UNDOS: [Trial; 9] = [
    // Undo within depth.
    (
        "keep 2\nput 0 0 1\nput 1 1 2\nput 0 0 5\nback 3\nback 2\nget 0 0\nget 1 1\nback 1\n",
        "keeping 2\nnew\nnew\nold 1\nerror past\nback 2\nvalue 1\nnone\nerror past\n",
        Status::Refused,
    ),
    // What changes no table is no edit, and neither is what puts a table in place of another: that forgets what is kept. A put of the
    // value that is there is one.
    (
        "open points 2 max 2\nkeep 9\nput 0 0 1\ndel 5 5\nmove 0 0 0 0\nput 1 1 2\nmove 0 0 1 1\nmove 9 9 8 8\nput 2 2 3\n\
        put 0 9999999999 1\nget 0 0\nback 3\nback 2\ncount\n",
        "opened\nkeeping 9\nnew\nnone\nmoved\nnew\ntaken\nnone\nerror full\nerror range\nvalue 1\nerror past\nback 2\ncount 0\n",
        Status::Refused,
    ),
    (
        "keep 3\nput 0 0 1\nput 0 0 1\nback 1\nget 0 0\nback 1\nget 0 0\nback 1\nback 0\nback 4294967295\nback 4294967296\nback\n",
        "keeping 3\nnew\nold 1\nback 1\nvalue 1\nback 1\nnone\nerror past\nback 0\nerror past\nerror number\nerror count\n",
        Status::Refused,
    ),
    (
        "put 0 0 1\nback 1\nkeep 65537\nkeep 65536\nput 1 1 2\nkeep 1\nback 1\nput 2 2 3\nkeep 0\nback 1\nput 3 3 4\nback 1\ncount\n",
        "new\nerror past\nerror number\nkeeping 65536\nnew\nkeeping 1\nerror past\nnew\nkeeping 0\nerror past\nnew\nerror past\ncount 4\n",
        Status::Refused,
    ),
    (
        "keep 2\nput 0 0 1\nuse b\nback 1\nkeep 1\nput 5 5 5\nuse a\nback 1\nback 1\nuse b\nback 1\ncount\nopen points 2\nput 1 1 1\nback 1\n",
        "keeping 2\nnew\nusing b\nerror past\nkeeping 1\nnew\nusing a\nback 1\nerror past\nusing b\nback 1\ncount 0\nopened\nnew\nerror past\n",
        Status::Refused,
    ),
    (
        "keep 2\nput 0 0 1\nput 1 1 2\nclear\nback 1\nput 2 2 3\nback 1\nback 1\ncount\n",
        "keeping 2\nnew\nnew\ncleared\nerror past\nnew\nback 1\nerror past\ncount 0\n",
        Status::Refused,
    ),
    // Boxes, the widest coordinates, and a table at its limit, which no step back is refused for.
    (
        "open boxes 2\nkeep 3\nput 0 0 4 4 1\nput 5 5 9 9 2\nmove 0 0 4 4 1 1 2 2\nput 3 0 2 0 1\ndel 5 5 9 9\nback 2\n\
        overlap 0 0 9 9\nback 1\ncovers 3 3 3 3\n",
        "opened\nkeeping 3\nnew\nnew\nmoved\nerror reversed\ngone 2\nback 2\n\
        row 0 0 4 4 1\nrow 5 5 9 9 2\nend 2\nback 1\nrow 0 0 4 4 1\nend 1\n",
        Status::Refused,
    ),
    (
        "open points 1 bits 62 max 1\nkeep 4\nput -2305843009213693952 18446744073709551615\ndel -2305843009213693952\n\
        put 2305843009213693951 7\nput 0 1\nback 2\nget -2305843009213693952\nget 2305843009213693951\nback 1\ncount\n",
        "opened\nkeeping 4\nnew\ngone 18446744073709551615\nnew\nerror full\nback 2\nvalue 18446744073709551615\nnone\nback 1\ncount 0\n",
        Status::Refused,
    ),
    (
        "cursor c 0 0 9 9\nkeep 5\nput 0 0 1\nput 1 1 2\npage c 1\nput 2 2 3\nback 1\npage c 5\nback 2\npage c 5\ncount\nback 1\n",
        "ready\nkeeping 5\nnew\nnew\nrow 0 0 1\nmore 1\nnew\nback 1\nrow 1 1 2\nend 1\nback 2\nend 0\ncount 0\nerror past\n",
        Status::Refused,
    ),
];

// Behind each of them the table is another one, and the depth is as before. One that is refused forgets nothing.
const FORGOTTEN: [Trial; 3] = [
    (
        "keep 2\nput 0 0 1\nload bad.pht\nload gone.pht\nimport gone.csv\nback 1\nput 0 0 1\nload one.pht\nback 1\nput 9 9 9\nback 1\ncount\n",
        "keeping 2\nnew\nbad magic\nerror file\nerror file\nback 1\nnew\nloaded 1\nerror past\nnew\nback 1\ncount 1\n",
        Status::Refused,
    ),
    (
        "keep 2\nimport new.csv\nback 1\nput 0 0 1\nput 0 0 2\nimport new.csv\nback 1\nget 0 0\nimport none.csv\nput 1 1 1\n\
        import none.csv\nback 1\ncount\n",
        "keeping 2\nimported 2\nerror past\nnew\nold 1\nimported 2\nerror past\nvalue 2\nimported 0\nnew\nimported 0\nerror past\ncount 4\n",
        Status::Refused,
    ),
    (
        "keep 2\nput 0 0 1\nput 1 1 2\nuse b\nput 1 1 7\nuse a\ncommon\nback 1\nput 0 0 1\nunion\nback 1\ndel 0 0\nminus\nback 1\ncount\n\
        put 1 1 1\nback 1\nopen boxes 1\nkeep 1\nput 1 5 1\nunion\nback 1\ncount\n",
        "keeping 2\nnew\nnew\nusing b\nnew\nusing a\nresult 1\nerror past\nnew\nresult 2\nerror past\ngone 1\nresult 0\nerror past\ncount 0\n\
        new\nback 1\nopened\nkeeping 1\nnew\nerror kind\nback 1\ncount 0\n",
        Status::Refused,
    ),
];

#[test]
fn files_and_sets_forget_edits(rt: HostRuntime) {
    let held: [(&str, &[u8]); 4] = [
        ("bad.pht", b"PHT"),
        ("one.pht", ONE),
        ("new.csv", NEW),
        ("none.csv", b""),
    ];
    check_each_over(&rt, rt.alloc(), &held, &FORGOTTEN);
}
