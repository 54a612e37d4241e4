//! Two slots side by side: pairs of boxes, and set operations.
use super::Trial;
use ph_engine::Status;

pub(super) const PAIRS: [Trial; 12] = [
    // Joined boxes.
    (
        "open boxes 1\nput 7 9 2\nput 1 5 1\nuse b\nopen boxes 1\nput 5 7 3\nput 0 0 4\njoin\n",
        "opened\nnew\nnew\nusing b\nopened\nnew\nnew\npair 1 5 1 5 7 3\npair 7 9 2 5 7 3\nend 2\n",
        Status::Clean,
    ),
    // The first causes are the dimensions and the width, in slots of points too, and an empty slot has a kind.
    (
        "join\nopen boxes 2\njoin\nuse b\nopen boxes 2\njoin\n",
        "error kind\nopened\nerror dims\nusing b\nopened\nend 0\n",
        Status::Refused,
    ),
    (
        "open boxes 1\nput 1 5 1\njoin\nuse b\nopen boxes 1 bits 31\njoin\nopen points 3\njoin\nopen boxes 1\njoin 1\njoin\n",
        "opened\nnew\nerror kind\nusing b\nopened\nerror dims\nopened\nerror dims\nopened\nerror count\nend 0\n",
        Status::Refused,
    ),
    // Boxes that have a face, an edge or a corner in common overlap, and those a step apart do not. Then a table with itself, and with
    // another one from either side.
    (
        "open boxes 3\nput 0 0 0 2 2 2 1\nuse b\nopen boxes 3\nput 2 0 0 4 2 2 5\nput 2 2 0 4 4 2 6\nput 2 2 2 4 4 4 7\n\
        put 3 0 0 4 2 2 8\nput -3 -3 -3 -1 0 0 9\nput -3 -3 -3 0 0 0 10\njoin\n",
        "opened\nnew\nusing b\nopened\nnew\nnew\nnew\nnew\nnew\nnew\npair 0 0 0 2 2 2 1 -3 -3 -3 0 0 0 10\n\
        pair 0 0 0 2 2 2 1 2 0 0 4 2 2 5\npair 0 0 0 2 2 2 1 2 2 0 4 4 2 6\npair 0 0 0 2 2 2 1 2 2 2 4 4 4 7\nend 4\n",
        Status::Clean,
    ),
    (
        "open boxes 1\nput 1 4 1\nput 3 3 2\nput 6 9 3\nput -5 -2 4\nuse b\nopen boxes 1\nput 1 4 1\nput 3 3 2\n\
        put 6 9 3\nput -5 -2 4\njoin\nuse a\njoin\n",
        "opened\nnew\nnew\nnew\nnew\nusing b\nopened\nnew\nnew\nnew\nnew\n\
        pair -5 -2 4 -5 -2 4\npair 3 3 2 3 3 2\npair 3 3 2 1 4 1\npair 1 4 1 3 3 2\npair 1 4 1 1 4 1\npair 6 9 3 6 9 3\nend 6\n\
        using a\n\
        pair -5 -2 4 -5 -2 4\npair 3 3 2 3 3 2\npair 3 3 2 1 4 1\npair 1 4 1 3 3 2\npair 1 4 1 1 4 1\npair 6 9 3 6 9 3\nend 6\n",
        Status::Clean,
    ),
    (
        "open boxes 1\nput 4 6 1\nput 5 5 2\nput -9 9 3\nuse b\nopen boxes 1\njoin\nput 1 4 1\nput 3 3 2\nput 6 9 3\nput -5 -2 4\n\
        join\nuse a\nclear\njoin\n",
        "opened\nnew\nnew\nnew\nusing b\nopened\nend 0\nnew\nnew\nnew\nnew\n\
        pair -9 9 3 -5 -2 4\npair -9 9 3 3 3 2\npair -9 9 3 1 4 1\npair -9 9 3 6 9 3\npair 4 6 1 1 4 1\npair 4 6 1 6 9 3\nend 6\n\
        using a\ncleared\nend 0\n",
        Status::Clean,
    ),
    // Set operations.
    (
        "put 0 0 1\nput 1 1 2\nuse b\nput 1 1 9\nput 2 2 3\nuse a\nunion\nwindow 0 0 9 9\nminus\ncommon\n",
        "new\nnew\nusing b\nnew\nnew\nusing a\nresult 3\nrow 0 0 1\nrow 1 1 2\nrow 2 2 3\nend 3\nresult 1\nresult 0\n",
        Status::Clean,
    ),
    // A union may fill a table to its most rows, and no further. Where the points and the kinds differ, the points are told.
    (
        "put 0 0 1\nuse b\nopen points 2 max 1\nput 1 1 2\nunion\ncount\nopen boxes 1\nunion\nopen points 3\nunion\n",
        "new\nusing b\nopened\nnew\nerror full\ncount 1\nopened\nerror kind\nopened\nerror dims\n",
        Status::Refused,
    ),
    (
        "open points 2 max 2\nput 0 0 1\nput 1 1 2\nuse b\nput 1 1 3\nput 2 2 4\nuse a\nunion\nwindow 0 0 9 9\nuse b\ndel 2 2\n\
        use a\nunion\nput 3 3 5\nopen boxes 2\ncommon\nminus\nopen boxes 1 bits 31\nminus\nopen boxes 1\ncommon\n\
        minus all\nuse b\ncount\n",
        "opened\nnew\nnew\nusing b\nnew\nnew\nusing a\nerror full\nrow 0 0 1\nrow 1 1 2\nend 2\nusing b\ngone 4\n\
        using a\nresult 2\nerror full\nopened\nerror dims\nerror dims\nopened\nerror dims\nopened\nerror kind\n\
        error count\nusing b\ncount 1\n",
        Status::Refused,
    ),
    // The current slot keeps its cursors and its most rows, the other one stays as it is, and boxes are combined like points. Empty
    // tables are combined too.
    (
        "put 0 0 1\nput 3 3 2\ncursor c 0 0 9 9\npage c 1\nuse b\nopen points 2 max 2\nput 2 2 3\nput 3 3 4\nuse a\nunion\n\
        page c 9\nuse b\nwindow 0 0 9 9\ncommon\nwindow 0 0 9 9\nput 5 5 5\nuse a\nminus\nwindow 0 0 9 9\nput 6 6 6\n",
        "new\nnew\nready\nrow 0 0 1\nmore 1\nusing b\nopened\nnew\nnew\nusing a\nresult 3\nrow 2 2 3\nrow 3 3 2\nend 2\n\
        using b\nrow 2 2 3\nrow 3 3 4\nend 2\nresult 2\nrow 2 2 3\nrow 3 3 4\nend 2\nerror full\nusing a\nresult 1\n\
        row 0 0 1\nend 1\nnew\n",
        Status::Refused,
    ),
    (
        "union\ncommon\nminus\nput 1 1 1\nuse b\nminus\ncommon\nunion\nsame\nuse a\nminus\nsame\n",
        "result 0\nresult 0\nresult 0\nnew\nusing b\nresult 0\nresult 0\nresult 1\nsame\nusing a\nresult 0\ndiffer\n",
        Status::Clean,
    ),
    (
        "open boxes 1\nput 1 5 1\nput 2 3 2\nuse b\nopen boxes 1\nput 2 3 7\nput 8 9 3\nunion\nuse a\nminus\noverlap 0 9\nuse b\noverlap 0 9\n",
        "opened\nnew\nnew\nusing b\nopened\nnew\nnew\nresult 3\nusing a\nresult 0\nend 0\nusing b\nrow 2 3 7\nrow 1 5 1\nrow 8 9 3\nend 3\n",
        Status::Clean,
    ),
];
