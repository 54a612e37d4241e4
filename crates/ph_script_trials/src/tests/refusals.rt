//! Lines that are no commands.
use super::check_shown;

// The first cause is the reply: word, count, number, name.
const REFUSED: [(&[u8], &str); 75] = [
    (b"fly", "Word"),
    (b"Put 1 2 3", "Word"),
    (b"put# 1 2 3", "Word"),
    (b"pu 1 x", "Word"),
    (b"put 1 2", "Count"),
    (b"put 1 2 3 4", "Count"),
    (b"put x y", "Count"),
    (b"get", "Count"),
    (b"move 1 1 2", "Count"),
    (b"count 1", "Count"),
    (b"open lines x max", "Count"),
    (b"put 1 x 2", "Number"),
    (b"put 1 2 -1", "Number"),
    (b"put 1 2 18446744073709551616", "Number"),
    (b"put 1 +-2 3", "Number"),
    (b"get 1 -", "Number"),
    (b"move 1 1 2 x", "Number"),
    (b"open lines 4294967296", "Number"),
    (b"open lines 2 least -1", "Number"),
    (b"open lines 2", "Name"),
    (b"open pointss 2", "Name"),
    (b"open points 2 least 1", "Name"),
    (b"open boxes 2 least 1", "Name"),
    (b"open a 2", "Name"),
    // The fourth word is a width where the third is `bits` or where six follow, and else a number of rows.
    (b"open points", "Count"),
    (b"open points 2 bits", "Count"),
    (b"open points 2 max", "Count"),
    (b"open points 2 bits 8 max", "Count"),
    (b"open points 2 bits 8 max 1 1", "Count"),
    (b"open lines x bits 8 fit", "Count"),
    (b"open points x bits 8", "Number"),
    (b"open points 2 bits x", "Number"),
    (b"open points 2 bits -1", "Number"),
    (b"open points 2 bits 4294967296", "Number"),
    (b"open lines 2 bits 4294967296", "Number"),
    (b"open points 2 max 18446744073709551616", "Number"),
    (b"open points 2 fit 18446744073709551616", "Number"),
    (b"open points 2 fit x", "Number"),
    (b"open points 2 bits 4294967296 max 1", "Number"),
    (b"open points 2 max 4294967296 bits 1", "Number"),
    (b"open points 2 fit 8 max 18446744073709551616", "Number"),
    (b"open lines 2 bits 8 max x", "Number"),
    (b"open lines 2 bits 8", "Name"),
    (b"open points 2 fit 8", "Name"),
    (b"open points 2 fit 4294967296", "Name"),
    (b"open points 2 Bits 8", "Name"),
    (b"open points 2 max 1 bits 8", "Name"),
    (b"open points 2 bits 8 fit 1", "Name"),
    (b"open points 2 fit 8 max 1", "Name"),
    (b"open points 2 bits 8 bits 8", "Name"),
    (b"open lines 2 bits 8 max 1", "Name"),
    // Names, and the words of the other commands.
    (b"window 1 2 3", "Count"),
    (b"cursor 0 0 1 1", "Count"),
    (b"near 1 2", "Count"),
    (b"overlap 1", "Count"),
    (b"save", "Count"),
    (b"load a b", "Count"),
    (b"import a header b", "Count"),
    (b"export a header", "Count"),
    (b"use", "Count"),
    (b"same a", "Count"),
    (b"cursor a.b 0 0 1 x", "Number"),
    (b"page a.b 4294967296", "Number"),
    (b"near 1 2 4294967296", "Number"),
    (b"within 1 2 -1", "Number"),
    (
        b"within 1 2 340282366920938463463374607431768211456",
        "Number",
    ),
    (b"inside 1 x", "Number"),
    (b"page a.b 1", "Name"),
    (b"page abcdefghijklmnopqrstuvwxyz-_01234 1", "Name"),
    (b"cursor a! 0 0 1 1", "Name"),
    (b"import a headers", "Name"),
    (b"save a\x7f", "Name"),
    (b"load \xc3\xa9", "Name"),
    (b"use c", "Name"),
    (b"use points", "Name"),
];

#[test]
fn lines_without_commands(rt: HostRuntime) {
    let lines: [(&[u8], &str); 5] = [
        (b"", "nothing"),
        (b" \t ", "nothing"),
        (b"#", "nothing"),
        (b"# put 1 2", "nothing"),
        (b"  #put 1 2 3", "nothing"),
    ];
    check_shown(&rt, rt.alloc(), 2, &lines);
}

#[test]
fn refused_lines(rt: HostRuntime) {
    check_shown(&rt, rt.alloc(), 2, &REFUSED);
}
