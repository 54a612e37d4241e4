//! Scripts about boxes, and about both slots.
use super::Trial;
use ph_engine::Status;

pub(super) const BOXES: [Trial; 7] = [
    // Box questions.
    (
        "open boxes 1\nput 1 5 1\nput 5 9 2\noverlap 5 5\ninside 0 5\ncovers 6 7\n\
        put 7 3 1\n",
        "opened\nnew\nnew\nrow 1 5 1\nrow 5 9 2\nend 2\nrow 1 5 1\nend 1\nrow 5 9 2\n\
        end 1\nerror reversed\n",
        Status::Refused,
    ),
    // Boxes that meet the asked one in a corner, along an edge, in nothing, from inside, everywhere, and from outside.
    (
        "open boxes 2\nput 10 10 12 12 1\nput 10 2 15 3 2\nput 11 0 12 5 3\n\
        put 0 0 10 5 4\nput 0 0 10 10 5\nput -1 -1 11 11 6\nput 10 10 10 10 7\n\
        overlap 0 0 10 10\ninside 0 0 10 10\ncovers 0 0 10 10\noverlap 10 10 10 10\n\
        covers 11 11 11 11\n",
        "opened\nnew\nnew\nnew\nnew\nnew\nnew\nnew\nrow -1 -1 11 11 6\nrow 0 0 10 5 4\n\
        row 0 0 10 10 5\nrow 10 2 15 3 2\nrow 10 10 10 10 7\nrow 10 10 12 12 1\nend 6\n\
        row 0 0 10 5 4\nrow 0 0 10 10 5\nrow 10 10 10 10 7\nend 3\nrow -1 -1 11 11 6\n\
        row 0 0 10 10 5\nend 2\nrow -1 -1 11 11 6\nrow 0 0 10 10 5\nrow 10 10 10 10 7\n\
        row 10 10 12 12 1\nend 4\nrow -1 -1 11 11 6\nrow 10 10 12 12 1\nend 2\n",
        Status::Clean,
    ),
    // Boxes at the ends.
    (
        "open boxes 1\nput -2147483648 2147483647 1\nput -2147483648 -2147483648 2\n\
        put 2147483647 2147483647 3\nput 0 0 4\noverlap -2147483648 -2147483648\n\
        overlap 2147483647 2147483647\ninside -2147483648 2147483647\n\
        covers -2147483648 2147483647\ncovers 0 0\ninside 0 0\n",
        "opened\nnew\nnew\nnew\nnew\nrow -2147483648 -2147483648 2\n\
        row -2147483648 2147483647 1\nend 2\nrow -2147483648 2147483647 1\n\
        row 2147483647 2147483647 3\nend 2\nrow -2147483648 -2147483648 2\n\
        row -2147483648 2147483647 1\nrow 0 0 4\nrow 2147483647 2147483647 3\nend 4\n\
        row -2147483648 2147483647 1\nend 1\nrow -2147483648 2147483647 1\nrow 0 0 4\n\
        end 2\nrow 0 0 4\nend 1\n",
        Status::Clean,
    ),
    // Same and differ.
    (
        "put 1 1 1\nput 0 0 2\nuse b\nput 5 5 5\nput 0 0 2\nput 1 1 1\ndel 5 5\nsame\n\
        put 1 1 9\nsame\n",
        "new\nnew\nusing b\nnew\nnew\nnew\ngone 5\nsame\nold 1\ndiffer\n",
        Status::Clean,
    ),
    // The other slot keeps its rows, its kind and its cursors.
    (
        "put 1 1 1\nput 0 0 2\ncursor c 0 0 9 9\nuse b\npage c 1\nput 5 5 5\nput 0 0 2\n\
        put 1 1 1\ndel 5 5\nsame\nput 1 1 9\nsame\nopen boxes 1\nput 0 0 2\nsame\n\
        use a\ncount\npage c 1\nuse b\nclear\nuse a\nopen points 2\nsame\nuse b\n\
        open points 2 max 7\nsame\nopen points 3\nsame\n",
        "new\nnew\nready\nusing b\nerror cursor\nnew\nnew\nnew\ngone 5\nsame\nold 1\n\
        differ\nopened\nnew\ndiffer\nusing a\ncount 2\nrow 0 0 2\nmore 1\nusing b\n\
        cleared\nusing a\nopened\ndiffer\nusing b\nopened\nsame\nopened\ndiffer\n",
        Status::Refused,
    ),
    // Refused dimensions and kinds.
    (
        "open points 17\nopen boxes 9\noverlap 1 2\nopen boxes 1\nnear 0 0 3\n\
        open points 16\ncount\n",
        "error dims\nerror dims\nerror kind\nopened\nerror kind\nopened\ncount 0\n",
        Status::Refused,
    ),
    // Each line has several faults, and the first in the order of the refusals is told.
    (
        "overlap 9999999999 1\nopen boxes 9\nopen boxes 0\nopen boxes 1 max 1\n\
        put 9999999999 1 1\nput 5 1 1\nget 5 1\ndel 5 1\nmove 1 5 5 1\n\
        move 5 1 9999999999 5\noverlap 5 1\ninside 1 9999999999\ncovers 1 0\n\
        window 5 1 1 5\ncursor c 5 1 1 5\npage d 1\nput 1 5 1\nput 2 1 1\nput 2 3 1\n\
        put 1 5 2\nget 2 2\n",
        "error kind\nerror dims\nerror dims\nopened\nerror range\nerror reversed\n\
        error reversed\nerror reversed\nerror reversed\nerror range\nerror reversed\n\
        error range\nerror reversed\nend 0\nready\nerror cursor\nnew\nerror reversed\n\
        error full\nold 1\nnone\n",
        Status::Refused,
    ),
];
