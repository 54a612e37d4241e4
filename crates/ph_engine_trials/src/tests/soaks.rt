//! Runs of generated commands.
use super::check_line;
use ph_engine::Status;

// Of none, of three and of many.
const SOAKS: [(&str, &str); 3] = [
    (
        "soak 0 7",
        "soak 0 rows 0 nodes 0 linear 0 cube 0 words 0 bytes 0\n",
    ),
    (
        "soak 3 7",
        "soak 3 rows 1 nodes 1 linear 1 cube 0 words 4 bytes 14\n",
    ),
    (
        "soak 200000 7",
        "soak 200000 rows 62288 nodes 35717 linear 24440 cube 11277 words 133725 bytes 6642462\n",
    ),
];

#[test]
fn soaks(rt: HostRuntime) {
    for (words, line) in SOAKS {
        check_line(&rt, rt.alloc(), words, line, Status::Clean);
    }
}
