//! Commands that lines spell, and commands that are drawn, as `Debug` shows them.
use super::claims::{holds, holds_for};
use super::{check_shown, shown};
use ph_script::{Coord, CoordBuffer, Coords, Gen, read_command};
use std::alloc::Global;
use std::process::Abort;

// Commands on rows.
const ON_ROWS: [(&[u8], &str); 14] = [
    (
        b"\tput  3 -4\t17 ",
        "Put { at: Coords { list: [Whole(3), Whole(-4)] }, value: 17 }",
    ),
    (
        b"get +007 -0",
        "Get { at: Coords { list: [Whole(7), Whole(0)] } }",
    ),
    (
        b"del 7 8",
        "Del { at: Coords { list: [Whole(7), Whole(8)] } }",
    ),
    (
        b"move 1 2 -1 9223372036854775808",
        "Relocate { from: Coords { list: [Whole(1), Whole(2)] }, to: Coords { list: [Whole(-1), Far] } }",
    ),
    (b"count", "Count"),
    (b"clear", "Clear"),
    (
        b"window -1 0 3 -9223372036854775809",
        "Window { lo: Coords { list: [Whole(-1), Whole(0)] }, hi: Coords { list: [Whole(3), Far] } }",
    ),
    (
        b"cursor c_1-B -1 2 3 4",
        "Cursor { name: \"c_1-B\", lo: Coords { list: [Whole(-1), Whole(2)] }, hi: Coords { list: [Whole(3), Whole(4)] } }",
    ),
    (
        b"page c_1-B 4294967295",
        "Page { name: \"c_1-B\", n: 4294967295 }",
    ),
    (
        b"near 1 -5 4294967295",
        "Near { q: Coords { list: [Whole(1), Whole(-5)] }, n: 4294967295 }",
    ),
    (
        b"within 1 -5 340282366920938463463374607431768211455",
        "Within { q: Coords { list: [Whole(1), Whole(-5)] }, r: 340282366920938463463374607431768211455 }",
    ),
    (
        b"overlap 1 -5",
        "Overlap { bounds: Coords { list: [Whole(1), Whole(-5)] } }",
    ),
    (
        b"inside 1 -5",
        "Inside { bounds: Coords { list: [Whole(1), Whole(-5)] } }",
    ),
    (
        b"covers 1 -5",
        "Covers { bounds: Coords { list: [Whole(1), Whole(-5)] } }",
    ),
];

// Commands on tables and files.
const ON_TABLES: [(&[u8], &str); 15] = [
    (
        b"open points 9",
        "Begin { kind: Points, k: 9, width: 32, max: 18446744073709551615 }",
    ),
    (
        b"open boxes 0",
        "Begin { kind: Boxes, k: 0, width: 32, max: 18446744073709551615 }",
    ),
    (
        b"open points 4294967295 max 5",
        "Begin { kind: Points, k: 4294967295, width: 32, max: 5 }",
    ),
    (
        b"open boxes 4 max 0",
        "Begin { kind: Boxes, k: 4, width: 32, max: 0 }",
    ),
    (
        b"open points 2 max 18446744073709551615",
        "Begin { kind: Points, k: 2, width: 32, max: 18446744073709551615 }",
    ),
    (
        b"open points 2 bits 63",
        "Begin { kind: Points, k: 2, width: 63, max: 18446744073709551615 }",
    ),
    (
        b"open boxes 8 bits 0",
        "Begin { kind: Boxes, k: 8, width: 0, max: 18446744073709551615 }",
    ),
    (
        b"open points 16 bits 4294967295",
        "Begin { kind: Points, k: 16, width: 4294967295, max: 18446744073709551615 }",
    ),
    (
        b"open points 2 bits 8 max 1",
        "Begin { kind: Points, k: 2, width: 8, max: 1 }",
    ),
    (
        b"open boxes 1 bits 4294967295 max 18446744073709551615",
        "Begin { kind: Boxes, k: 1, width: 4294967295, max: 18446744073709551615 }",
    ),
    (b"save a/b.pht!~", "Save { file: \"a/b.pht!~\" }"),
    (b" load\ttable ", "Load { file: \"table\" }"),
    (
        b"import rows.csv",
        "Import { file: \"rows.csv\", header: false }",
    ),
    (
        b"import rows.csv header",
        "Import { file: \"rows.csv\", header: true }",
    ),
    (b"export header", "Export { file: \"header\" }"),
];

// Commands on slots.
const ON_SLOTS: [(&[u8], &str); 11] = [
    (b"use a", "Select { slot: A }"),
    (b"use b", "Select { slot: B }"),
    (b"same", "Same"),
    (b"join", "Join"),
    (b"union", "Combine { operation: Union }"),
    (b"common", "Combine { operation: Common }"),
    (b"minus", "Combine { operation: Minus }"),
    (b"keep 0", "Keep { n: 0 }"),
    (b"keep 65536", "Keep { n: 65536 }"),
    (b"back 4294967295", "Back { n: 4294967295 }"),
    (b"stats", "Stats"),
];

// Extreme coordinates, in one dimension.
const EXTREME: [(&[u8], &str); 6] = [
    (
        b"get -9223372036854775808",
        "Get { at: Coords { list: [Whole(-9223372036854775808)] } }",
    ),
    (
        b"get +9223372036854775807",
        "Get { at: Coords { list: [Whole(9223372036854775807)] } }",
    ),
    (
        b"get 000000000000000000000000000000000000000000000001",
        "Get { at: Coords { list: [Whole(1)] } }",
    ),
    (
        b"get 9223372036854775808",
        "Get { at: Coords { list: [Far] } }",
    ),
    (
        b"get 340282366920938463463374607431768211455",
        "Get { at: Coords { list: [Far] } }",
    ),
    (
        b"get -340282366920938463463374607431768211456",
        "Get { at: Coords { list: [Far] } }",
    ),
];

#[test]
fn read_commands(rt: HostRuntime) {
    check_shown(&rt, rt.alloc(), 2, &ON_ROWS);
    check_shown(&rt, rt.alloc(), 2, &ON_TABLES);
    check_shown(&rt, rt.alloc(), 2, &ON_SLOTS);
    check_shown(&rt, rt.alloc(), 1, &EXTREME);
}

#[test]
fn lists_of_coordinates(rt: HostRuntime) {
    holds(&rt, Coords::from_slice(&[Coord::Far; 17]).is_none());
    let at = Coords::from_slice(&[Coord::Whole(1); 16]).expect(&rt, "too many");
    holds(&rt, at.as_slice().len() == 16);
}

#[test]
fn sixteen_coordinates(rt: HostRuntime) {
    let at = Coords::from_slice(&[Coord::Whole(1); 16]).expect(&rt, "too many");
    let mut coords = CoordBuffer::new();
    let line = b"move 1 1 1 1 1 1 1 1 1 1 1 1 1 1 1 1 2 2 2 2 2 2 2 2 2 2 2 2 2 2 2 2";
    let command = shown(&rt, rt.alloc(), read_command(line, 16, &mut coords));
    let wanted = format!(in rt.alloc();
        "Relocate {{ from: {at:?}, to: Coords {{ list: {:?} }} }}",
        [Coord::Whole(2); 16]
    );
    holds(&rt, command == wanted.expect(&rt, "memory"));
}

// Checks the next of the commands that are drawn.
fn check_next(
    rt: &impl Abort,
    alloc: Global,
    drawn: &mut Gen,
    coords: &mut CoordBuffer,
    wanted: &str,
) {
    let next = format!(in alloc; "{:?}", drawn.next(coords)).expect(rt, "memory");
    holds_for(rt, next.as_str() == wanted, &(wanted, next.as_str()));
}

// A start counts modulo 2^31.
#[test]
fn drawn_commands(rt: HostRuntime) {
    let wanted = [
        "Some(Del { at: Coords { list: [Whole(-178), Whole(-140)] } })",
        "Some(Get { at: Coords { list: [Whole(37), Whole(34)] } })",
        "Some(Put { at: Coords { list: [Whole(-95), Whole(205)] }, value: 25363 })",
        "None",
        "None",
    ];
    for start in [7, 2147483655] {
        let mut drawn = Gen::new(3, start);
        let mut coords = CoordBuffer::new();
        for command in wanted {
            check_next(&rt, rt.alloc(), &mut drawn, &mut coords, command);
        }
    }
}
