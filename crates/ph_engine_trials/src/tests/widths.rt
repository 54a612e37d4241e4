//! Scripts about slots of other widths than 32, and of as many dimensions as there may be.
use super::Trial;
use super::files::check_each_over;
use ph_engine::Status;

// Scripts about other widths than 32.
pub(super) const WIDTHS: [Trial; 3] = [
    // Widest distance.
    (
        "open points 1 bits 62\nput 2305843009213693951 1\n\
        near -2305843009213693952 1\n",
        "opened\nnew\n\
        hit 21267647932558653957237540927630737409 2305843009213693951 1\nend 1\n",
        Status::Clean,
    ),
    // Of several faults in a line, the first in the order of the refusals is told.
    (
        "open points 2 bits 63\nopen points 2 bits\nopen points 2 bits x\n\
        open points 2 fit 8\nopen points 2 bits 8 max 1\nput 128 0 1\nput 127 0 1\n\
        put 0 0 1\n",
        "error dims\nerror count\nerror number\nerror name\nopened\nerror range\nnew\n\
        error full\n",
        Status::Refused,
    ),
    (
        "open points 2 bits 0\nopen boxes 9 bits 8\nopen boxes 8 bits 63 max 1\n\
        open points 2 bits 4294967296\nopen points 2 bits -1\n\
        open fit 2 bits 4294967296\nopen points 2 fit 4294967296\n\
        open points 2 max 1 bits 8\nopen points 2 bits 8 max -1\n\
        open points 2 bits 8 max\n",
        "error dims\nerror dims\nerror dims\nerror number\nerror number\nerror number\n\
        error name\nerror name\nerror number\nerror count\n",
        Status::Refused,
    ),
];

// Points of sixteen dimensions in 62 bits, points of one bit, boxes of eight dimensions, and tables that differ in width alone.
const EACH_COMMAND: [Trial; 4] = [
    (
        "open points 16 bits 62\nput 0 0 0 0 0 0 0 0 0 0 0 0 0 0 0 0 1\n\
        put 0 0 0 0 0 0 0 0 0 0 0 0 0 0 0 1 2\n\
        put 1 0 0 0 0 0 0 0 0 0 0 0 0 0 0 0 3\n\
        put -1 -1 -1 -1 -1 -1 -1 -1 -1 -1 -1 -1 -1 -1 -1 -1 4\n\
        put 2305843009213693951 -2305843009213693952 0 0 0 0 0 0 0 0 0 0 0 0 0 0 5\n\
        put 2305843009213693952 0 0 0 0 0 0 0 0 0 0 0 0 0 0 0 6\n\
        put -2305843009213693953 0 0 0 0 0 0 0 0 0 0 0 0 0 0 0 6\n\
        get 2305843009213693951 -2305843009213693952 0 0 0 0 0 0 0 0 0 0 0 0 0 0\n\
        get 0 0 0 0 0 0 0 0 0 0 0 0 0 0 1 0\n\
        move 0 0 0 0 0 0 0 0 0 0 0 0 0 0 0 1 0 0 0 0 0 0 0 0 0 0 0 0 0 0 1 0\n\
        move 0 0 0 0 0 0 0 0 0 0 0 0 0 0 0 0 1 0 0 0 0 0 0 0 0 0 0 0 0 0 0 0\n\
        move 0 0 0 0 0 0 0 0 0 0 0 0 0 0 0 1 0 0 0 0 0 0 0 0 0 0 0 0 0 0 0 0\n\
        get 0 0 0 0 0 0 0 0 0 0 0 0 0 0 1 0\nstats\n\
        window -1 -1 -1 -1 -1 -1 -1 -1 -1 -1 -1 -1 -1 -1 -1 -1 1 1 1 1 1 1 1 1 1 1 \
        1 1 1 1 1 1\n\
        window 0 -2305843009213693952 0 0 0 0 0 0 0 0 0 0 0 0 0 0 \
        2305843009213693951 0 0 0 0 0 0 0 0 0 0 0 0 0 0 0\n\
        near -2305843009213693952 2305843009213693951 0 0 0 0 0 0 0 0 0 0 0 0 0 0 \
        2\n\
        near 2305843009213693951 -2305843009213693952 0 0 0 0 0 0 0 0 0 0 0 0 0 0 \
        1\nwithin 0 0 0 0 0 0 0 0 0 0 0 0 0 0 0 0 1\n\
        within 0 0 0 0 0 0 0 0 0 0 0 0 0 0 0 0 16\n\
        cursor c -1 -1 -1 -1 -1 -1 -1 -1 -1 -1 -1 -1 -1 -1 -1 -1 9 9 9 9 9 9 9 9 9 \
        9 9 9 9 9 9 9\npage c 2\npage c 9\nsave x.pht\n\
        del -1 -1 -1 -1 -1 -1 -1 -1 -1 -1 -1 -1 -1 -1 -1 -1\n\
        del -1 -1 -1 -1 -1 -1 -1 -1 -1 -1 -1 -1 -1 -1 -1 -1\nstats\nuse b\n\
        load x.pht\nopen points 16 bits 61\nload x.pht\nopen points 16 bits 62\n\
        load x.pht\nsame\nuse a\nload x.pht\nsame\ncount\n",
        "opened\nnew\nnew\nnew\nnew\nnew\nerror range\nerror range\nvalue 5\nnone\n\
        moved\ntaken\nnone\nvalue 2\nrows 5 nodes 2 linear 2 cube 0 words 55\n\
        row -1 -1 -1 -1 -1 -1 -1 -1 -1 -1 -1 -1 -1 -1 -1 -1 4\n\
        row 0 0 0 0 0 0 0 0 0 0 0 0 0 0 0 0 1\n\
        row 0 0 0 0 0 0 0 0 0 0 0 0 0 0 1 0 2\n\
        row 1 0 0 0 0 0 0 0 0 0 0 0 0 0 0 0 3\nend 4\n\
        row 2305843009213693951 -2305843009213693952 0 0 0 0 0 0 0 0 0 0 0 0 0 0 5\n\
        row 0 0 0 0 0 0 0 0 0 0 0 0 0 0 0 0 1\n\
        row 1 0 0 0 0 0 0 0 0 0 0 0 0 0 0 0 3\nend 3\n\
        hit 10633823966279326978618770463815368705 0 0 0 0 0 0 0 0 0 0 0 0 0 0 0 0 \
        1\n\
        hit 10633823966279326978618770463815368706 0 0 0 0 0 0 0 0 0 0 0 0 0 0 1 0 \
        2\nend 2\n\
        hit 0 2305843009213693951 -2305843009213693952 0 0 0 0 0 0 0 0 0 0 0 0 0 0 \
        5\nend 1\nhit 0 0 0 0 0 0 0 0 0 0 0 0 0 0 0 0 0 1\n\
        hit 1 0 0 0 0 0 0 0 0 0 0 0 0 0 0 1 0 2\n\
        hit 1 1 0 0 0 0 0 0 0 0 0 0 0 0 0 0 0 3\nend 3\n\
        hit 16 -1 -1 -1 -1 -1 -1 -1 -1 -1 -1 -1 -1 -1 -1 -1 -1 4\n\
        hit 0 0 0 0 0 0 0 0 0 0 0 0 0 0 0 0 0 1\n\
        hit 1 0 0 0 0 0 0 0 0 0 0 0 0 0 0 1 0 2\n\
        hit 1 1 0 0 0 0 0 0 0 0 0 0 0 0 0 0 0 3\nend 4\nready\n\
        row -1 -1 -1 -1 -1 -1 -1 -1 -1 -1 -1 -1 -1 -1 -1 -1 4\n\
        row 0 0 0 0 0 0 0 0 0 0 0 0 0 0 0 0 1\nmore 2\n\
        row 0 0 0 0 0 0 0 0 0 0 0 0 0 0 1 0 2\n\
        row 1 0 0 0 0 0 0 0 0 0 0 0 0 0 0 0 3\nend 2\nsaved 448\ngone 4\nnone\n\
        rows 4 nodes 2 linear 2 cube 0 words 39\nusing b\nbad dims\nopened\n\
        bad dims\nopened\nloaded 5\ndiffer\nusing a\nloaded 5\nsame\ncount 5\n",
        Status::Refused,
    ),
    (
        "open points 3 bits 1\nput 0 0 0 1\nput 0 0 -1 2\nput 0 -1 0 3\n\
        put -1 0 0 4\nstats\nput -1 -1 -1 5\nstats\nput 1 0 0 6\nput 0 -2 0 6\n\
        get -1 0 0\nget -1 0 -1\nwindow -1 -1 -1 0 0 0\nwindow 0 -1 -1 0 0 0\n\
        near -1 -1 -1 3\nwithin 0 0 0 1\nmove 0 0 0 -1 -1 0\nmove -1 -1 0 0 0 -1\n\
        cursor c -1 -1 -1 0 0 0\npage c 3\npage c 3\nsave x.pht\ndel 0 -1 0\nstats\n\
        load x.pht\nstats\n",
        "opened\nnew\nnew\nnew\nnew\nrows 4 nodes 1 linear 1 cube 0 words 6\nnew\n\
        rows 5 nodes 1 linear 0 cube 1 words 7\nerror range\nerror range\nvalue 4\n\
        none\nrow -1 -1 -1 5\nrow -1 0 0 4\nrow 0 -1 0 3\nrow 0 0 -1 2\n\
        row 0 0 0 1\nend 5\nrow 0 -1 0 3\nrow 0 0 -1 2\nrow 0 0 0 1\nend 3\n\
        hit 0 -1 -1 -1 5\nhit 2 -1 0 0 4\nhit 2 0 -1 0 3\nend 3\nhit 1 -1 0 0 4\n\
        hit 1 0 -1 0 3\nhit 1 0 0 -1 2\nhit 0 0 0 0 1\nend 4\nmoved\ntaken\nready\n\
        row -1 -1 -1 5\nrow -1 -1 0 1\nrow -1 0 0 4\nmore 3\nrow 0 -1 0 3\n\
        row 0 0 -1 2\nend 2\nsaved 64\ngone 3\n\
        rows 4 nodes 1 linear 1 cube 0 words 6\nloaded 5\n\
        rows 5 nodes 1 linear 0 cube 1 words 7\n",
        Status::Refused,
    ),
    (
        "open boxes 8 bits 62\nput 0 0 0 0 0 0 0 0 9 9 9 9 9 9 9 9 1\n\
        put 5 5 5 5 5 5 5 5 5 5 5 5 5 5 5 5 2\n\
        put 9 9 9 9 9 9 9 9 12 12 12 12 12 12 12 2305843009213693951 3\n\
        put -2305843009213693952 0 0 0 0 0 0 0 2305843009213693951 0 0 0 0 0 0 0 4\n\
        put 0 0 0 0 0 0 0 1 0 0 0 0 0 0 0 0 5\n\
        overlap 9 9 9 9 9 9 9 9 10 10 10 10 10 10 10 10\n\
        inside 0 0 0 0 0 0 0 0 9 9 9 9 9 9 9 9\n\
        covers 5 5 5 5 5 5 5 5 5 5 5 5 5 5 5 5\n\
        overlap 10 10 10 10 10 10 10 10 10 10 10 10 10 10 10 10\n\
        covers 0 0 0 0 0 0 0 0 0 0 0 0 0 0 0 0\n\
        inside -2305843009213693952 0 0 0 0 0 0 0 2305843009213693951 12 12 12 12 \
        12 12 12\noverlap 1 0 0 0 0 0 0 0 0 0 0 0 0 0 0 0\n\
        near 0 0 0 0 0 0 0 0 0 0 0 0 0 0 0 0 1\nstats\nsave x.pht\nclear\n\
        load x.pht\ncount\ndel 5 5 5 5 5 5 5 5 5 5 5 5 5 5 5 5\nstats\n",
        "opened\nnew\nnew\nnew\nnew\nerror reversed\n\
        row 0 0 0 0 0 0 0 0 9 9 9 9 9 9 9 9 1\n\
        row 9 9 9 9 9 9 9 9 12 12 12 12 12 12 12 2305843009213693951 3\nend 2\n\
        row 5 5 5 5 5 5 5 5 5 5 5 5 5 5 5 5 2\n\
        row 0 0 0 0 0 0 0 0 9 9 9 9 9 9 9 9 1\nend 2\n\
        row 5 5 5 5 5 5 5 5 5 5 5 5 5 5 5 5 2\n\
        row 0 0 0 0 0 0 0 0 9 9 9 9 9 9 9 9 1\nend 2\n\
        row 9 9 9 9 9 9 9 9 12 12 12 12 12 12 12 2305843009213693951 3\nend 1\n\
        row -2305843009213693952 0 0 0 0 0 0 0 2305843009213693951 0 0 0 0 0 0 0 4\n\
        row 0 0 0 0 0 0 0 0 9 9 9 9 9 9 9 9 1\nend 2\n\
        row -2305843009213693952 0 0 0 0 0 0 0 2305843009213693951 0 0 0 0 0 0 0 4\n\
        row 5 5 5 5 5 5 5 5 5 5 5 5 5 5 5 5 2\n\
        row 0 0 0 0 0 0 0 0 9 9 9 9 9 9 9 9 1\nend 3\nerror reversed\nerror kind\n\
        rows 4 nodes 3 linear 3 cube 0 words 73\nsaved 592\ncleared\nloaded 4\n\
        count 4\ngone 2\nrows 3 nodes 2 linear 2 cube 0 words 68\n",
        Status::Refused,
    ),
    (
        "open points 2 bits 8\nuse b\nopen points 2 bits 9\nsame\n\
        open points 2 bits 8 max 3\nsame\nput 127 -128 1\nsame\nuse a\n\
        put 127 -128 1\nsame\n",
        "opened\nusing b\nopened\ndiffer\nopened\nsame\nnew\ndiffer\nusing a\nnew\n\
        same\n",
        Status::Clean,
    ),
];

#[test]
fn each_command_by_width(rt: HostRuntime) {
    check_each_over(&rt, rt.alloc(), &[], &EACH_COMMAND);
}
