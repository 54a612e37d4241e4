//! Lines of the commands that a straight pass reads, through this pass and by the forms of all commands.
ghost use Rattle.std.specs.Prelude.{◌≤◌, length};

use super::claims::holds_for;
use super::shown;
use ph_script::{CoordBuffer, read_command, read_plain_command};
use std::alloc::Global;
use std::process::Abort;

// Lines that the straight pass reads, and the commands that they spell.
const PLAIN: [(&[u8], &str); 25] = [
    (
        b"put 1 -2 3",
        "Put { at: Coords { list: [Whole(1), Whole(-2)] }, value: 3 }",
    ),
    (
        b"get 1 -2",
        "Get { at: Coords { list: [Whole(1), Whole(-2)] } }",
    ),
    (
        b"del 1 -2",
        "Del { at: Coords { list: [Whole(1), Whole(-2)] } }",
    ),
    (
        b"move 1 2 -3 4",
        "Relocate { from: Coords { list: [Whole(1), Whole(2)] }, to: Coords { list: [Whole(-3), Whole(4)] } }",
    ),
    (
        b"window -1 0 3 4",
        "Window { lo: Coords { list: [Whole(-1), Whole(0)] }, hi: Coords { list: [Whole(3), Whole(4)] } }",
    ),
    (
        b"near 1 2 3",
        "Near { q: Coords { list: [Whole(1), Whole(2)] }, n: 3 }",
    ),
    (
        b"within 1 2 3",
        "Within { q: Coords { list: [Whole(1), Whole(2)] }, r: 3 }",
    ),
    (
        b"overlap 1 2",
        "Overlap { bounds: Coords { list: [Whole(1), Whole(2)] } }",
    ),
    (
        b"inside 1 2",
        "Inside { bounds: Coords { list: [Whole(1), Whole(2)] } }",
    ),
    (
        b"covers 1 2",
        "Covers { bounds: Coords { list: [Whole(1), Whole(2)] } }",
    ),
    // One blank behind each word is plain.
    (
        b"put 5\t-6\t7",
        "Put { at: Coords { list: [Whole(5), Whole(-6)] }, value: 7 }",
    ),
    (
        b"put 5 -6 7 ",
        "Put { at: Coords { list: [Whole(5), Whole(-6)] }, value: 7 }",
    ),
    (
        b"put 5 -6 7\t",
        "Put { at: Coords { list: [Whole(5), Whole(-6)] }, value: 7 }",
    ),
    // Coordinates of at most 18 digits.
    (
        b"get +1 -2",
        "Get { at: Coords { list: [Whole(1), Whole(-2)] } }",
    ),
    (
        b"get -0 +0",
        "Get { at: Coords { list: [Whole(0), Whole(0)] } }",
    ),
    (
        b"get 007 -00000000000000008",
        "Get { at: Coords { list: [Whole(7), Whole(-8)] } }",
    ),
    (
        b"get 12345678 -87654321",
        "Get { at: Coords { list: [Whole(12345678), Whole(-87654321)] } }",
    ),
    (
        b"get 2147483647 -2147483648",
        "Get { at: Coords { list: [Whole(2147483647), Whole(-2147483648)] } }",
    ),
    (
        b"get 999999999999999999 -999999999999999999",
        "Get { at: Coords { list: [Whole(999999999999999999), Whole(-999999999999999999)] } }",
    ),
    // Values, counts and radii.
    (
        b"put 1 2 +3",
        "Put { at: Coords { list: [Whole(1), Whole(2)] }, value: 3 }",
    ),
    (
        b"put 1 2 000000000000000003",
        "Put { at: Coords { list: [Whole(1), Whole(2)] }, value: 3 }",
    ),
    (
        b"put 1 2 999999999999999999",
        "Put { at: Coords { list: [Whole(1), Whole(2)] }, value: 999999999999999999 }",
    ),
    (
        b"near 1 2 0",
        "Near { q: Coords { list: [Whole(1), Whole(2)] }, n: 0 }",
    ),
    (
        b"near 1 2 4294967295",
        "Near { q: Coords { list: [Whole(1), Whole(2)] }, n: 4294967295 }",
    ),
    (
        b"within 1 2 999999999999999999",
        "Within { q: Coords { list: [Whole(1), Whole(2)] }, r: 999999999999999999 }",
    ),
];

// Lines that it does not read, and what is read of them by the forms.
const OTHERS: [(&[u8], &str); 57] = [
    // Other blanks.
    (
        b" put 5 -6 7",
        "Put { at: Coords { list: [Whole(5), Whole(-6)] }, value: 7 }",
    ),
    (
        b"put  5 -6 7",
        "Put { at: Coords { list: [Whole(5), Whole(-6)] }, value: 7 }",
    ),
    (
        b"put\t5 -6 7",
        "Put { at: Coords { list: [Whole(5), Whole(-6)] }, value: 7 }",
    ),
    (
        b"put 5 -6 \t 7",
        "Put { at: Coords { list: [Whole(5), Whole(-6)] }, value: 7 }",
    ),
    (
        b"put 5 -6 7  ",
        "Put { at: Coords { list: [Whole(5), Whole(-6)] }, value: 7 }",
    ),
    (
        b" \tput\t 5\t\t-6  7 \t",
        "Put { at: Coords { list: [Whole(5), Whole(-6)] }, value: 7 }",
    ),
    // Coordinates of 19 digits and more.
    (
        b"get 0000000000000000001 2",
        "Get { at: Coords { list: [Whole(1), Whole(2)] } }",
    ),
    (
        b"get 00000000000000000001 2",
        "Get { at: Coords { list: [Whole(1), Whole(2)] } }",
    ),
    (
        b"get 1000000000000000000 2",
        "Get { at: Coords { list: [Whole(1000000000000000000), Whole(2)] } }",
    ),
    (
        b"get 9223372036854775807 -9223372036854775808",
        "Get { at: Coords { list: [Whole(9223372036854775807), Whole(-9223372036854775808)] } }",
    ),
    (
        b"get 9223372036854775808 -9223372036854775809",
        "Get { at: Coords { list: [Far, Far] } }",
    ),
    (
        b"get 10000000000000000000 -18446744073709551616",
        "Get { at: Coords { list: [Far, Far] } }",
    ),
    // Values and radii.
    (
        b"put 1 2 -0",
        "Put { at: Coords { list: [Whole(1), Whole(2)] }, value: 0 }",
    ),
    (
        b"put 1 2 0000000000000000003",
        "Put { at: Coords { list: [Whole(1), Whole(2)] }, value: 3 }",
    ),
    (
        b"put 1 2 18446744073709551615",
        "Put { at: Coords { list: [Whole(1), Whole(2)] }, value: 18446744073709551615 }",
    ),
    (
        b"within 1 2 340282366920938463463374607431768211455",
        "Within { q: Coords { list: [Whole(1), Whole(2)] }, r: 340282366920938463463374607431768211455 }",
    ),
    // No command.
    (b"", "nothing"),
    (b" ", "nothing"),
    (b"# put 1 2 3", "nothing"),
    (b"#put 1 2 3", "nothing"),
    // Words that only begin like a command's, or are only its beginning.
    (b"puts 1 2 3", "Word"),
    (b"pu 1 2 3", "Word"),
    (b"put1 2 3", "Word"),
    (b"PUT 1 2 3", "Word"),
    (b"get1", "Word"),
    (b"get1 2", "Word"),
    (b"mov 1 2 3 4", "Word"),
    (b"windows 1 2 3 4", "Word"),
    (b"without 1 2 3", "Word"),
    (b"covers# 1 2", "Word"),
    // Missing and surplus words.
    (b"put", "Count"),
    (b"put ", "Count"),
    (b"put 1 2 ", "Count"),
    (b"put 1 2 3 x", "Count"),
    (b"get 1", "Count"),
    (b"del 1 2 3", "Count"),
    (b"move 1 2 3", "Count"),
    (b"window 1 2 3 4 5", "Count"),
    (b"near 1 2", "Count"),
    (b"within 1 2 3 4", "Count"),
    (b"overlap 1", "Count"),
    (b"inside 1 2 3", "Count"),
    (b"covers 1 2 3", "Count"),
    // Wrong numbers.
    (b"put 1 - 3", "Number"),
    (b"put 1 2 +", "Number"),
    (b"put 1 +-2 3", "Number"),
    (b"put 1x 2 3", "Number"),
    (b"put 1/ 2 3", "Number"),
    (b"put 1: 2 3", "Number"),
    (b"put 1 2 -3", "Number"),
    (b"put 1 2 18446744073709551616", "Number"),
    (b"near 1 2 -3", "Number"),
    (b"near 1 2 4294967296", "Number"),
    (
        b"within 1 2 340282366920938463463374607431768211456",
        "Number",
    ),
    (b"get 1 1234567890123456x", "Number"),
    (b"get 1 1234567/", "Number"),
    (b"get 1 123:5678", "Number"),
];

fn is_plain(line: &[u8]) -> bool {
    let mut coords = CoordBuffer::new();
    read_plain_command(line, 2, &mut coords).is_some()
}

// Whether a line of two dimensions is shown so.
fn is_shown(
    rt: &impl Abort,
    alloc: Global,
    line: &[u8],
    coords: &mut CoordBuffer,
    wanted: &str,
) -> bool
    requires { length line.now ≤ 4096 }
{
    shown(rt, alloc, read_command(line, 2, coords)).as_str() == wanted
}

// A line with a blank in front.
fn behind_blank(rt: &impl Abort, alloc: Global, line: &[u8]) -> Vec<u8> {
    [b" ".as_slice(), line].concat(alloc).expect(rt, "memory")
}

// The lines are shown so, also behind a blank, where the straight pass reads no line. The straight pass reads them or not.
fn check_read(rt: &impl Abort, alloc: Global, plain: bool, lines: &[(&[u8], &str)]) {
    let mut coords = CoordBuffer::new();
    for (line, wanted) in lines {
        assert!(rt; line.len() <= 4096);
        holds_for(rt, is_shown(rt, alloc, line, &mut coords, wanted), &wanted);
        let behind = behind_blank(rt, alloc, line);
        assert!(rt; behind.len() <= 4096);
        holds_for(
            rt,
            is_shown(rt, alloc, &behind, &mut coords, wanted),
            &wanted,
        );
        holds_for(rt, is_plain(line) == plain, &wanted);
        holds_for(rt, !is_plain(&behind), &wanted);
    }
}

#[test]
fn plain_lines(rt: HostRuntime) {
    check_read(&rt, rt.alloc(), true, &PLAIN);
}

#[test]
fn other_lines(rt: HostRuntime) {
    check_read(&rt, rt.alloc(), false, &OTHERS);
}
