//! Scripts that import rows from files of records, and export them.
use super::Trial;
use super::files::check_each_over;
use ph_engine::Status;

pub(super) const CITIES: &[u8] =
    b"lat,lon,id\n4737,854,1\n5151,-13,2\n-1205,-7704,3\n3568,13969,4\n\
    -3387,15121,5\n-18,-7848,6\n";

// The rows of the same in Z-order.
pub(super) const SORTED: &[u8] =
    b"-1205,-7704,3\n-18,-7848,6\n-3387,15121,5\n5151,-13,2\n4737,854,1\n\
    3568,13969,4\n";

// Two points, or as boxes one that is reversed behind one that is not.
pub(super) const TWO_RECORDS: &[u8] = b"1,5,7\n9,2,8\n";

// Three records, of which two are of one point.
const TWICE: &[u8] = b"1,1,5\n0,0,6\n1,1,7\n";

const IMPORTS: [Trial; 8] = [
    // Into an empty slot, where one point stands twice: the tree is that of single puts.
    (
        "import dup.csv\nstats\nuse b\nput 1 1 7\nput 0 0 6\nsame\n",
        "imported 3\nrows 2 nodes 2 linear 2 cube 0 words 7\nusing b\nnew\nnew\nsame\n",
        Status::Clean,
    ),
    (
        "open points 2 max 2\nimport dup.csv\nput 5 5 5\nclear\nimport dup.csv\nget 1 1\n",
        "opened\nimported 3\nerror full\ncleared\nimported 3\nvalue 7\n",
        Status::Refused,
    ),
    (
        "import none.csv\ncount\n",
        "imported 0\ncount 0\n",
        Status::Clean,
    ),
    (
        "open points 2 max 1\nimport dup.csv\ncount\n",
        "opened\nerror full\ncount 0\n",
        Status::Refused,
    ),
    // A reversed box, no room for all rows, no file, and records of other dimensions: the table is kept.
    (
        "open boxes 1\nimport b.csv\ncount\n",
        "opened\nbad record 2 reversed\ncount 0\n",
        Status::Refused,
    ),
    (
        "open points 2 max 2\nput 9 9 9\nimport b.csv\ncount\nget 9 9\n",
        "opened\nnew\nerror full\ncount 1\nvalue 9\n",
        Status::Refused,
    ),
    (
        "open points 2 max 2\nput 9 2 9\nimport b.csv\nget 9 2\nimport gone.csv\ncount\n",
        "opened\nnew\nimported 2\nvalue 8\nerror file\ncount 2\n",
        Status::Refused,
    ),
    (
        "open points 1\nimport b.csv\ncount\n",
        "opened\nbad record 1 fields\ncount 0\n",
        Status::Refused,
    ),
];

#[test]
fn imports(rt: HostRuntime) {
    let held: [(&str, &[u8]); 3] = [
        ("b.csv", TWO_RECORDS),
        ("dup.csv", TWICE),
        ("none.csv", b""),
    ];
    check_each_over(&rt, rt.alloc(), &held, &IMPORTS);
}
