//! The texts of replies.
ghost use Rattle.std.specs.Prelude.{◌≤◌};

use super::claims::{holds, holds_for};
use ph_coord::{Point, Row, Width};
use ph_script::{Reply, Text, Which, reply_text, write_hit, write_row, write_text};
use std::process::Abort;

const REPLIES: [(Reply, &str); 49] = [
    (Reply::Opened, "opened\n"),
    (Reply::New, "new\n"),
    (Reply::Old(0), "old 0\n"),
    (
        Reply::Value(18446744073709551615),
        "value 18446744073709551615\n",
    ),
    (Reply::Absent, "none\n"),
    (Reply::Gone(17), "gone 17\n"),
    (Reply::Moved, "moved\n"),
    (Reply::Taken, "taken\n"),
    (Reply::Rows(100), "count 100\n"),
    (Reply::Cleared, "cleared\n"),
    (Reply::End(4), "end 4\n"),
    (
        Reply::End(340282366920938463463374607431768211455),
        "end 340282366920938463463374607431768211455\n",
    ),
    (Reply::More(2), "more 2\n"),
    (Reply::Ready, "ready\n"),
    (Reply::Saved(40), "saved 40\n"),
    (Reply::Loaded(2), "loaded 2\n"),
    (Reply::Imported(6), "imported 6\n"),
    (Reply::Exported(6), "exported 6\n"),
    (Reply::Using(Which::A), "using a\n"),
    (Reply::Using(Which::B), "using b\n"),
    (Reply::Same, "same\n"),
    (Reply::Differ, "differ\n"),
    (Reply::Combined(3), "result 3\n"),
    (Reply::Keeping(65536), "keeping 65536\n"),
    (Reply::WentBack(2), "back 2\n"),
    (Reply::ErrorLong, "error long\n"),
    (Reply::ErrorWord, "error word\n"),
    (Reply::ErrorCount, "error count\n"),
    (Reply::ErrorNumber, "error number\n"),
    (Reply::ErrorName, "error name\n"),
    (Reply::ErrorDims, "error dims\n"),
    (Reply::ErrorKind, "error kind\n"),
    (Reply::ErrorRange, "error range\n"),
    (Reply::ErrorReversed, "error reversed\n"),
    (Reply::ErrorCursor, "error cursor\n"),
    (Reply::ErrorCursors, "error cursors\n"),
    (Reply::ErrorFile, "error file\n"),
    (Reply::ErrorFull, "error full\n"),
    (Reply::ErrorPast, "error past\n"),
    (Reply::BadMagic, "bad magic\n"),
    (Reply::BadHeader(4), "bad header 4\n"),
    (Reply::BadDims, "bad dims\n"),
    (Reply::BadShort(8), "bad short 8\n"),
    (Reply::BadNode(32), "bad node 32\n"),
    (Reply::BadExtra(64), "bad extra 64\n"),
    (Reply::BadFields(1), "bad record 1 fields\n"),
    (Reply::BadNumber(1), "bad record 1 number\n"),
    (
        Reply::BadRange(18446744073709551615),
        "bad record 18446744073709551615 range\n",
    ),
    (Reply::BadReversed(2), "bad record 2 reversed\n"),
];

fn check_texts(rt: &impl Abort, replies: &[(Reply, &str)]) {
    for (reply, text) in replies {
        holds_for(rt, reply_text(reply).as_str() == *text, &text);
    }
}

#[test]
fn texts_of_replies(rt: HostRuntime) {
    check_texts(&rt, &REPLIES);
}

fn row<const D: usize>(rt: &impl Abort, bits: u32, coords: [i64; D], value: u64) -> Row<D> {
    let w = Width::new(bits).expect(rt, "no width");
    let point = Point::from_slice(w, &coords).expect(rt, "out of range");
    Row { point, value }
}

fn check_row<const D: usize>(rt: &impl Abort, text: &mut Text, row: &Row<D>, line: &str)
    requires { D ≤ 16 }
{
    write_row(text, row);
    holds(rt, text.as_str() == line);
}

#[test]
fn texts_of_rows(rt: HostRuntime) {
    let row = row(&rt, 32, [-1, 0], 3);
    let mut text = Text::new();
    check_row(&rt, &mut text, &row, "row -1 0 3\n");
    write_hit(&mut text, 0, &row);
    holds(&rt, text.as_str() == "hit 0 -1 0 3\n");
}

#[test]
fn texts_of_longest_rows(rt: HostRuntime) {
    let row = row(&rt, 62, [-2305843009213693952; 16], 18446744073709551615);
    let line = "row \
        -2305843009213693952 -2305843009213693952 -2305843009213693952 -2305843009213693952 \
        -2305843009213693952 -2305843009213693952 -2305843009213693952 -2305843009213693952 \
        -2305843009213693952 -2305843009213693952 -2305843009213693952 -2305843009213693952 \
        -2305843009213693952 -2305843009213693952 -2305843009213693952 -2305843009213693952 \
        18446744073709551615\n";
    let mut text = Text::new();
    check_row(&rt, &mut text, &row, line);
    write_hit(&mut text, 340282366920938463463374607431768211455, &row);
    let hit = text.as_str();
    holds(&rt, hit.len() == line.len() + 40);
    holds(
        &rt,
        hit.starts_with("hit 340282366920938463463374607431768211455 -23"),
    );
}

fn check_text(rt: &impl Abort, text: &mut Text, reply: &Reply, line: &str) {
    write_text(text, reply);
    holds_for(rt, text.as_str() == line, &line);
}

#[test]
fn one_text_for_many_replies(rt: HostRuntime) {
    let mut text = Text::new();
    holds(&rt, text.as_str().is_empty());
    let cases = [
        (
            Reply::Value(18446744073709551615),
            "value 18446744073709551615\n",
        ),
        (Reply::New, "new\n"),
        (Reply::Rows(7), "count 7\n"),
    ];
    for (reply, line) in cases {
        check_text(&rt, &mut text, &reply, line);
    }
}
