//! Lines in pieces.
use super::claims::holds;
use ph_script::{Line, Lines};
use std::alloc::Global;
use std::process::Abort;

fn no_lines(rt: &impl Abort, alloc: Global) -> Lines {
    Lines::new(alloc).expect(rt, "memory")
}

// Whether a byte ends a line, which is then the one that is wanted.
fn is_ended_by(rt: &impl Abort, lines: &mut Lines, byte: u8, wanted: &[u8]) -> bool {
    let piece = [byte];
    let mut at = 0;
    let line = lines.next_line(&piece, &mut at);
    holds(rt, at == 1);
    holds(rt, line.is_none() || line == Some(Line::Text(wanted)));
    line.is_some()
}

fn check_last(rt: &impl Abort, lines: &mut Lines, wanted: Option<Line<'_>>) {
    holds(rt, lines.last() == wanted);
}

#[test]
fn blank_lines_and_carriage_returns(rt: HostRuntime) {
    let mut lines = no_lines(&rt, rt.alloc());
    let wanted = [
        b"# start".as_slice(),
        b"",
        b"\tput  3 4\t17 ",
        b"a\rb\r",
        b"get 3 4",
    ];
    let mut count = 0;
    for byte in b"# start\r\n\r\n\tput  3 4\t17 \r\na\rb\r\r\nget 3 4" {
        assert!(rt; count < wanted.len());
        if is_ended_by(&rt, &mut lines, *byte, wanted[count]) {
            count += 1;
        }
    }
    holds(&rt, count == 4);
    check_last(&rt, &mut lines, Some(Line::Text(wanted[4])));
    check_last(&rt, &mut lines, None);
}

// Goes on in a piece from one place to another, which gives a line or none.
fn check_next(
    rt: &impl Abort,
    lines: &mut Lines,
    piece: &[u8],
    (from, to): (usize, usize),
    wanted: Option<Line<'_>>,
) {
    assert!(rt; from <= piece.len());
    let mut at = from;
    holds(rt, lines.next_line(piece, &mut at) == wanted);
    holds(rt, at == to);
}

#[test]
fn longest_line(rt: HostRuntime) {
    let mut lines = no_lines(&rt, rt.alloc());
    let longest = [b'x'; 4096];
    check_next(&rt, &mut lines, &longest, (0, 4096), None);
    check_next(&rt, &mut lines, b"\nx", (0, 1), Some(Line::Text(&longest)));
    check_next(&rt, &mut lines, b"\nx", (1, 2), None);
    check_next(&rt, &mut lines, &longest, (0, 4096), None);
    check_next(&rt, &mut lines, b"xx\r\nget", (0, 4), Some(Line::Long));
    check_next(&rt, &mut lines, b"xx\r\nget", (4, 7), None);
    check_last(&rt, &mut lines, Some(Line::Text(b"get")));
    check_next(&rt, &mut lines, &longest, (0, 4096), None);
    check_next(&rt, &mut lines, b"\r\n", (0, 2), Some(Line::Long));
    check_next(&rt, &mut lines, b"\r\n", (1, 2), Some(Line::Text(b"")));
    check_last(&rt, &mut lines, None);
}

#[test]
fn lines_whole_in_a_piece(rt: HostRuntime) {
    let mut lines = no_lines(&rt, rt.alloc());
    let mut piece = [b'x'; 8300];
    piece[4096] = b'\n';
    piece[8194] = b'\n';
    check_next(
        &rt,
        &mut lines,
        &piece,
        (0, 4097),
        Some(Line::Text(&[b'x'; 4096])),
    );
    check_next(&rt, &mut lines, &piece, (4097, 8195), Some(Line::Long));
    check_next(&rt, &mut lines, &piece, (8195, 8300), None);
    check_last(&rt, &mut lines, Some(Line::Text(&[b'x'; 105])));
}
