//! Texts whose rows and faults are known.
ghost use Rattle.std.specs.Prelude.{◌≤◌};

use super::claims::{holds, holds_for};
use ph_coord::Kind::{self, Boxes, Points};
use ph_coord::{Point, Row, Width};
use ph_csv::{CsvFault, read_rows, row_line};
use std::alloc::Global;
use std::process::Abort;

const FAR: &[u8] = b"340282366920938463463374607431768211456,1,2\n";

fn read<const D: usize>(
    alloc: Global,
    text: &[u8],
    kind: Kind,
    header: bool,
) -> Result<Vec<Row<D>>, CsvFault>
    requires { D ≤ 16 }
{
    read_of_width(alloc, text, 32, kind, header)
}

fn read_of_width<const D: usize>(
    alloc: Global,
    text: &[u8],
    bits: u32,
    kind: Kind,
    header: bool,
) -> Result<Vec<Row<D>>, CsvFault>
    requires { D ≤ 16 }
{
    match Width::new(bits) {
        Some(w) => read_rows(alloc, text, w, kind, header),
        None => Err(CsvFault::NoMemory),
    }
}

fn row<const D: usize>(coords: [i64; D], value: u64) -> Row<D> {
    Row {
        point: Point::new(coords),
        value,
    }
}

// How many rows there are.
fn count<const D: usize>(
    alloc: Global,
    text: &[u8],
    kind: Kind,
    header: bool,
) -> Result<usize, CsvFault>
    requires { D ≤ 16 }
{
    number_of(read::<D>(alloc, text, kind, header))
}

fn number_of<const D: usize>(read: Result<Vec<Row<D>>, CsvFault>) -> Result<usize, CsvFault> {
    match read {
        Ok(rows) => Ok(rows.len()),
        Err(fault) => Err(fault),
    }
}

// Whether a text of points has these rows.
fn are_rows(alloc: Global, text: &[u8], rows: &[Row<2>]) -> bool {
    match read::<2>(alloc, text, Kind::Points, false) {
        Ok(read) => *read == *rows,
        Err(_) => false,
    }
}

// Texts of the same rows.
const SAME: [&[u8]; 8] = [
    b"3,-4,17\n-2147483648,2147483647,18446744073709551615\n",
    // No line feed at the end.
    b"3,-4,17\n-2147483648,2147483647,18446744073709551615",
    b"3,-4,17\r\n-2147483648,2147483647,18446744073709551615\r\n",
    // A carriage return alone ends a record too.
    b"3,-4,17\r-2147483648,2147483647,18446744073709551615\r",
    b"\"3\",-4,\"17\"\n-2147483648,\"2147483647\",18446744073709551615\n",
    b"\n3,-4,17\n\n\r\n-2147483648,2147483647,18446744073709551615\n\n",
    b"\xef\xbb\xbf3,-4,17\n-2147483648,2147483647,18446744073709551615\n",
    b"+3,-04,0017\n-2147483648,+2147483647,018446744073709551615\n",
];

#[test]
fn texts_of_the_same_rows(rt: HostRuntime) {
    let rows = [row([3, -4], 17), row([-2147483648, 2147483647], u64::MAX)];
    for text in SAME {
        holds_for(&rt, are_rows(rt.alloc(), text, &rows), &text);
    }
}

// A header is passed over whatever it has, and is a record with a number.
const HEADERS: [(&[u8], Result<usize, CsvFault>); 10] = [
    (b"", Ok(0)),
    (b"\n\r\n", Ok(0)),
    (b"lat,lon,id", Ok(0)),
    (b"1,2,3\n", Ok(0)),
    (b"lat,lon,id\n4737,854,1\n5151,-13,2\n", Ok(2)),
    (b"one field\n4737,854,1\n", Ok(1)),
    (b"\xff\xfe\n4737,854,1\n", Ok(1)),
    // The header has a line feed in quotes.
    (b"\"lat\n\",lon,id\n4737,854,1\n", Ok(1)),
    (b"\nlat,lon,id\n4737,854\n", Err(CsvFault::Fields(2))),
    (b"lat,lon,id\n1,1,1\n\nx,1,1\n", Err(CsvFault::Number(3))),
];

#[test]
fn headers(rt: HostRuntime) {
    for (text, answer) in HEADERS {
        let answered = count::<2>(rt.alloc(), text, Kind::Points, true);
        holds_for(&rt, answered == answer, &text);
    }
}

// Texts without a header that are refused.
const REFUSED: [(Kind, &[u8], CsvFault); 30] = [
    (Points, b"1,2\n", CsvFault::Fields(1)),
    (Points, b"1,2,3,4\n", CsvFault::Fields(1)),
    (Points, b"1,2,3\n1,2,3,\n", CsvFault::Fields(2)),
    (Points, b"\"\"\n", CsvFault::Fields(1)),
    (Points, b"1,2,3\n\n\n1;2;3\n", CsvFault::Fields(2)),
    (Points, b"x,2,3\n", CsvFault::Number(1)),
    (Points, b"lat,lon,id\n4737,854,1\n", CsvFault::Number(1)),
    (Points, b"1,2,3\n1,2,\"3\"\"\"", CsvFault::Number(2)),
    (Points, b"1,,3\n", CsvFault::Number(1)),
    (Points, b"1, 2,3\n", CsvFault::Number(1)),
    (Points, b"1,2.0,3\n", CsvFault::Number(1)),
    (Points, b"1,\xff,3\n", CsvFault::Number(1)),
    // A line feed in quotes belongs to the field.
    (Points, b"1,\"2\n\",3\n", CsvFault::Number(1)),
    (Points, b"1,2,-1\n", CsvFault::Number(1)),
    (Points, b"1,2,18446744073709551616\n", CsvFault::Number(1)),
    // A byte order mark behind the first byte is no number's.
    (Points, b"1,2,3\n\xef\xbb\xbf1,2,3\n", CsvFault::Number(2)),
    (Points, b"2147483648,2,3\n", CsvFault::Range(1)),
    (Points, b"1,2,3\n1,-2147483649,3\n", CsvFault::Range(2)),
    (Points, b"-9223372036854775808,2,3\n", CsvFault::Range(1)),
    (Points, b"1,9223372036854775808,3\n", CsvFault::Range(1)),
    (Points, b"-9223372036854775809,2,3\n", CsvFault::Range(1)),
    (Points, FAR, CsvFault::Range(1)),
    // Of two faults the one of the earlier record is told, and in one record the one that is tried first.
    (Boxes, b"1,x\n", CsvFault::Fields(1)),
    (Boxes, b"5,2147483648,1,x\n", CsvFault::Fields(1)),
    (Boxes, b"2147483648,x,1\n", CsvFault::Number(1)),
    (Boxes, b"1,2147483648,-1\n", CsvFault::Number(1)),
    (Boxes, b"5,-2147483649,1\n", CsvFault::Range(1)),
    (Boxes, b"5,4,1\n1,x\n", CsvFault::Reversed(1)),
    (Boxes, b"4,5,1\n9,2147483648,1\nx,1,1\n", CsvFault::Range(2)),
    (Boxes, b"1,5,7\n9,2,8\n", CsvFault::Reversed(2)),
];

#[test]
fn faults(rt: HostRuntime) {
    for (kind, text, fault) in REFUSED {
        let answered = count::<2>(rt.alloc(), text, kind, false);
        holds_for(&rt, answered == Err(fault), &text);
    }
}

#[test]
fn boxes(rt: HostRuntime) {
    let touching = count::<4>(rt.alloc(), b"1,2,1,2,9\n-5,-5,5,5,9\n", Kind::Boxes, false);
    holds(&rt, touching == Ok(2));
    let reversed = count::<4>(rt.alloc(), b"1,2,1,1,9\n", Kind::Boxes, false);
    holds(&rt, reversed == Err(CsvFault::Reversed(1)));
    // No odd number of coordinates is a box.
    let odd = count::<3>(rt.alloc(), b"1,2,3,9\n", Kind::Boxes, false);
    holds(&rt, odd == Err(CsvFault::Reversed(1)));
}

const WIDTHS: [(u32, &[u8], Result<usize, CsvFault>); 5] = [
    (1, b"-1,0,0\n", Ok(1)),
    (1, b"1,0,0\n", Err(CsvFault::Range(1))),
    (62, b"-2305843009213693952,2305843009213693951,0\n", Ok(1)),
    (62, b"2305843009213693952,0,0\n", Err(CsvFault::Range(1))),
    (62, b"0,-2305843009213693953,0\n", Err(CsvFault::Range(1))),
];

#[test]
fn widths(rt: HostRuntime) {
    for (bits, text, answer) in WIDTHS {
        let rows = read_of_width::<2>(rt.alloc(), text, bits, Kind::Points, false);
        holds_for(&rt, number_of(rows) == answer, &text);
    }
}

#[test]
fn lines(rt: HostRuntime) {
    holds(
        &rt,
        row_line(&row([4737, -854], 1)).as_str() == "4737,-854,1\n",
    );
    holds(
        &rt,
        row_line(&row([0], u64::MAX)).as_str() == "0,18446744073709551615\n",
    );
    holds(&rt, row_line(&row([i64::MIN; 16], u64::MAX)).len() == 357);
}

// The lines of many rows.
fn many_lines(rt: &impl Abort, alloc: Global) -> Vec<u8> {
    let mut text = Vec::new(alloc);
    for i in 0..4000u32 {
        let line = row_line(&row([i64::from(i), -1], 1 << 63));
        text.extend_from_slice(line.as_str().as_bytes())
            .expect(rt, "memory");
    }
    text
}

// A text that is longer than what the reader of records holds at a time.
#[test]
fn many_records(rt: HostRuntime) {
    let mut text = many_lines(&rt, rt.alloc());
    let rows = read::<2>(rt.alloc(), &text, Kind::Points, false).expect(&rt, "rows");
    holds(&rt, rows.len() == 4000);
    for (i, row) in rows.iter().enumerate() {
        holds(&rt, row.point.as_slice() == [i as i64, -1].as_slice());
    }
    text.extend_from_slice(b"1,2\n").expect(&rt, "memory");
    let answered = count::<2>(rt.alloc(), &text, Kind::Points, true);
    holds(&rt, answered == Err(CsvFault::Fields(4001)));
}

const MESSAGES: [(CsvFault, &str); 5] = [
    (CsvFault::Fields(1), "Fields"),
    (CsvFault::Number(2), "Number"),
    (CsvFault::Range(3), "Range"),
    (CsvFault::Reversed(4), "Reversed"),
    (CsvFault::NoMemory, "NoMemory"),
];

#[test]
fn messages(rt: HostRuntime) {
    for (fault, message) in MESSAGES {
        let text = format!(in rt.alloc(); "{fault}").expect(&rt, "memory");
        holds_for(&rt, text.as_str() == message, &message);
    }
}
