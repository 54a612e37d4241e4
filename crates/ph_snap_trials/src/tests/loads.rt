//! Trees of bytes from outside, and the first faults of bytes that were altered.

ghost use Rattle.std.specs.Prelude.{◌≡◌, ◌<◌, ◌≤◌, length};

use super::claims::{holds, holds_for};
use super::plain::plain_fault;
use super::widths::{NINE_DIMS, ONE_BIT, SEVEN_BITS, SIXTEEN_DIMS, SIXTY_TWO_BITS};
use super::{EMPTY, ONE_ROW, THREE_ROWS, TWO_ROWS, second_version, width};
use ph_coord::{Kind, Point, Width};
use ph_snap::{LoadFault, load};
use ph_steps::{Counters, Steps};
use std::alloc::Global;
use std::marker::Brand;
use std::process::Abort;
use std::sync::ledger::{Blank, Ledger};

// Nodes of both layouts, with points and children: a root, and under it a node at level 2 and one at level 1, each with a
// child at level 0.
const NODES: [u8; 176] = *b"PHT1\0\x02\x01\0\
\x1f\0\0\0\x02\0\0\x02\
\xcc\0\0\0\0\0\0\0\
\0\0\0\0\0\0\0\0\
\0\0\0\0\0\0\0\0\
\x02\0\0\0\x02\0\0\x01\
\x4d\xe0\0\0\0\0\0\0\
\0\0\0\0\0\0\0\x07\
\0\0\0\0\x02\0\0\0\
\x0c\0\0\0\0\0\0\0\
\0\0\0\0\0\0\0\x01\
\0\0\0\0\0\0\0\x02\
\x01\x01\0\0\x04\0\0\x01\
\x59\x83\0\0\0\0\0\0\
\0\0\0\0\0\0\0\x05\
\0\0\0\0\0\0\0\x06\
\0\0\0\0\0\0\0\x08\
\0\x01\0\0\x03\0\0\0\
\x51\0\0\0\0\0\0\0\
\0\0\0\0\0\0\0\x01\
\0\0\0\0\0\0\0\x03\
\0\0\0\0\0\0\0\x02";

// The box of two dimensions from 1, 2 to 3, 4.
const ONE_BOX: [u8; 48] = *b"PHT1\x01\x04\x01\0\
\x1f\0\0\0\x01\0\0\0\
\x78\0\0\0\x10\0\0\0\
\x40\0\0\0\xc0\0\0\x02\
\0\0\0\0\0\0\0\0\
\0\0\0\0\0\0\0\x05";

// A box of one dimension whose low corner is 7 and whose high one is 3.
const REVERSED: [u8; 40] = *b"PHT1\x01\x02\x01\0\
\x1f\0\0\0\x01\0\0\0\
\x60\0\0\x01\xc0\0\0\x01\
\x80\0\0\0\0\0\0\0\
\0\0\0\0\0\0\0\x01";

// What becomes of bytes that are to be a tree of two dimensions: the value at a point, or the fault.
fn outcome_by<V: Ledger, C: Ledger>(
    rt: &impl Abort,
    alloc: Global,
    bytes: &[u8],
    kind: Kind,
    w: Width,
    at: [i64; 2],
    visits: Blank,
    changes: Blank,
) -> Result<Option<u64>, LoadFault>
    requires visits { (visits.name ≡ V.name) × (visits.parts ≡ V.parts) × (0 < visits.parts) }
    requires changes { (changes.name ≡ C.name) × (changes.parts ≡ C.parts) × (0 < changes.parts) }
{
    let mut counters: Counters<V, C> = Counters::new(visits, changes);
    let Some(point) = Point::from_slice(w, &at) else {
        panic!(rt; "no point");
    };
    match load::<2, C>(alloc, bytes, kind, w, &mut counters.changes) {
        Ok(tree) => Ok(tree.get(&point, &mut counters.visits)),
        Err(fault) => Err(fault),
    }
}

fn outcome_in(
    rt: &impl Abort,
    alloc: Global,
    bytes: &[u8],
    kind: Kind,
    bits: u32,
    at: [i64; 2],
) -> Result<Option<u64>, LoadFault> {
    let w = width(rt, bits);
    outcome_by::<Brand, Brand>(rt, alloc, bytes, kind, w, at, Blank::new(1), Blank::new(1))
}

fn outcome(
    rt: &impl Abort,
    alloc: Global,
    bytes: &[u8],
    at: [i64; 2],
) -> Result<Option<u64>, LoadFault> {
    outcome_in(rt, alloc, bytes, Kind::Points, 32, at)
}

// The value at a point of a tree is the same in both versions.
fn check_row(rt: &impl Abort, alloc: Global, first: &[u8], at: [i64; 2], value: Option<u64>) {
    assert!(rt; 8 <= first.len());
    let second = second_version(rt, alloc, first);
    holds_for(rt, outcome(rt, alloc, first, at) == Ok(value), &at);
    holds_for(rt, outcome(rt, alloc, &second, at) == Ok(value), &at);
}

const ROWS: [(&[u8], [i64; 2], Option<u64>); 9] = [
    (&EMPTY, [0, 0], None),
    (&ONE_ROW, [3, 4], Some(17)),
    (&ONE_ROW, [4, 3], None),
    (&TWO_ROWS, [0, 0], Some(1)),
    (&TWO_ROWS, [1, 1], Some(2)),
    (&THREE_ROWS, [0, 0], Some(1)),
    (&THREE_ROWS, [0, 1], Some(3)),
    (&THREE_ROWS, [1, 0], None),
    (&THREE_ROWS, [1, 1], Some(2)),
];

#[test]
fn rows_of_trees(rt: HostRuntime) {
    for (first, at, value) in ROWS {
        check_row(&rt, rt.alloc(), first, at, value);
    }
}

// With other digits in its addresses it is another tree.
#[test]
fn rows_of_other_digits(rt: HostRuntime) {
    let mut moved = TWO_ROWS;
    moved[40] = 0x08;
    check_row(&rt, rt.alloc(), &moved, [1, 0], Some(2));
    check_row(&rt, rt.alloc(), &moved, [1, 1], None);
}

#[test]
fn reversed_boxes(rt: HostRuntime) {
    let alloc = rt.alloc();
    let answered = outcome_in(&rt, alloc, &REVERSED, Kind::Boxes, 32, [7, 3]);
    holds(&rt, answered == Err(LoadFault::Node(8)));
    // As points of two dimensions they are lawful.
    let mut points = REVERSED;
    points[4] = 0;
    holds(&rt, outcome(&rt, alloc, &points, [7, 3]) == Ok(Some(1)));
}

fn check_width(
    rt: &impl Abort,
    alloc: Global,
    bytes: &[u8],
    bits: u32,
    answer: Result<Option<u64>, LoadFault>,
) {
    let answered = outcome_in(rt, alloc, bytes, Kind::Points, bits, [1, 1]);
    holds_for(rt, answered == answer, &bits);
}

#[test]
fn trees_of_another_width(rt: HostRuntime) {
    let alloc = rt.alloc();
    check_width(&rt, alloc, &TWO_ROWS, 31, Err(LoadFault::Dims));
    check_width(&rt, alloc, &TWO_ROWS, 32, Ok(Some(2)));
    check_width(&rt, alloc, &TWO_ROWS, 33, Err(LoadFault::Dims));
    let second = second_version(&rt, alloc, &TWO_ROWS);
    check_width(&rt, alloc, &second, 31, Err(LoadFault::Dims));
    check_width(&rt, alloc, &second, 32, Ok(Some(2)));
    check_width(&rt, alloc, &second, 62, Err(LoadFault::Dims));
    let narrower = altered(&rt, alloc, &second, 6, 31);
    check_width(&rt, alloc, &narrower, 32, Err(LoadFault::Dims));
    // its root has the level of width 32
    check_width(&rt, alloc, &narrower, 31, Err(LoadFault::Node(8)));
}

const ENDS: [(usize, LoadFault); 8] = [
    (3, LoadFault::Magic),
    (4, LoadFault::Header(4)),
    (8, LoadFault::Short(8)),
    (12, LoadFault::Short(8)),
    (32, LoadFault::Short(32)),
    (40, LoadFault::Short(32)),
    (63, LoadFault::Short(32)),
    (65, LoadFault::Extra(64)),
];

#[test]
fn bytes_that_end_early_or_late(rt: HostRuntime) {
    let mut longer = [0; 65];
    longer[..64].copy_from_slice(&TWO_ROWS);
    for (len, fault) in ENDS {
        let bytes = longer.get(..len).expect(&rt, "so many bytes");
        let answered = outcome(&rt, rt.alloc(), bytes, [0, 0]);
        holds_for(&rt, answered == Err(fault), &len);
    }
}

// A fault, and places with bytes that bring it about there.
type Altered = (LoadFault, &'static [(usize, u8)]);

const ALTERED: [Altered; 8] = [
    // at 3 the empty tree of width 1, in version 2
    (LoadFault::Dims, &[(3, 0x32), (4, 0x01), (5, 0x03)]),
    (LoadFault::Header(4), &[(4, 0x02)]),
    (LoadFault::Header(5), &[(5, 0x00), (5, 0x09)]),
    (LoadFault::Header(6), &[(6, 0x02)]),
    (LoadFault::Header(7), &[(7, 0x01)]),
    (LoadFault::Extra(8), &[(6, 0x00)]),
    // level 30, a cube where linear is smaller, no entries, a point where a child is announced, padding
    (
        LoadFault::Node(8),
        &[(8, 0x1e), (9, 0x01), (12, 0x00), (16, 0x60), (31, 0x01)],
    ),
    // a digit that is known at the child's level, not below its parent, a cube, one entry, a child at level 0, addresses 0 and 0
    (
        LoadFault::Node(32),
        &[
            (24, 0x80),
            (32, 0x1f),
            (33, 0x01),
            (36, 0x01),
            (39, 0x01),
            (40, 0x00),
        ],
    ),
];

const ALTERED_IN_VERSION_TWO: [Altered; 7] = [
    (LoadFault::Magic, &[(3, 0x33)]),
    (LoadFault::Header(4), &[(4, 0x02)]),
    (LoadFault::Header(5), &[(5, 0x11)]),
    (LoadFault::Header(6), &[(6, 0x00), (6, 0x3f)]),
    (LoadFault::Header(7), &[(7, 0x02)]),
    (LoadFault::Dims, &[(4, 0x01), (5, 0x10), (6, 0x1f)]),
    (LoadFault::Extra(8), &[(7, 0x00)]),
];

// The same bytes, but for one.
fn altered(rt: &impl Abort, alloc: Global, bytes: &[u8], at: usize, byte: u8) -> Vec<u8> {
    let mut bytes = Vec::from_slice(alloc, bytes).expect(rt, "memory");
    assert!(rt; at < bytes.len());
    bytes[at] = byte;
    bytes
}

fn assert_altered(rt: &impl Abort, alloc: Global, snapshot: &[u8], cases: &[Altered]) {
    for (fault, places) in cases {
        for (at, byte) in *places {
            let bytes = altered(rt, alloc, snapshot, *at, *byte);
            let answered = outcome(rt, alloc, &bytes, [0, 0]);
            holds_for(rt, answered == Err(*fault), &(byte, at));
        }
    }
}

#[test]
fn altered_bytes(rt: HostRuntime) {
    let alloc = rt.alloc();
    let second = second_version(&rt, alloc, &TWO_ROWS);
    assert_altered(&rt, alloc, &TWO_ROWS, &ALTERED);
    assert_altered(&rt, alloc, &second, &ALTERED_IN_VERSION_TWO);
}

// Loads bytes, and looks at them by the rules.
fn assert_same_fault<const D: usize, C: Ledger>(
    rt: &impl Abort,
    alloc: Global,
    bytes: &[u8],
    kind: Kind,
    w: Width,
    changes: &mut Steps<C>,
)
    requires { D ≤ 16 }
{
    let fault = match load::<D, C>(alloc, bytes, kind, w, changes) {
        Ok(_) => None,
        Err(fault) => Some(fault),
    };
    let wanted = plain_fault(alloc, bytes, kind, D as u8, w.bits() as u8);
    holds_for(rt, fault == wanted, &bytes);
}

// Each front of a snapshot, and the snapshot with a byte behind it.
fn compare_fronts<const D: usize, C: Ledger>(
    rt: &impl Abort,
    alloc: Global,
    snapshot: &[u8],
    kind: Kind,
    w: Width,
    changes: &mut Steps<C>,
)
    requires { D ≤ 16 }
{
    let mut longer = Vec::from_slice(alloc, snapshot).expect(rt, "memory");
    longer.push(0).expect(rt, "memory");
    for len in 0..=longer.len() {
        assert_same_fault::<D, C>(rt, alloc, &longer[..len], kind, w, changes);
    }
}

// A snapshot with other bytes in place of each.
fn compare_altered<const D: usize, C: Ledger>(
    rt: &impl Abort,
    alloc: Global,
    snapshot: &[u8],
    kind: Kind,
    w: Width,
    changes: &mut Steps<C>,
)
    requires { D ≤ 16 }
{
    for at in 0..snapshot.len() {
        for byte in [0, u8::MAX, snapshot[at].wrapping_add(1)] {
            let bytes = altered(rt, alloc, snapshot, at, byte);
            assert_same_fault::<D, C>(rt, alloc, &bytes, kind, w, changes);
        }
    }
}

fn compare<const D: usize, C: Ledger>(
    rt: &impl Abort,
    alloc: Global,
    snapshot: &[u8],
    kind: Kind,
    w: Width,
    changes: &mut Steps<C>,
)
    requires { D ≤ 16 }
{
    compare_fronts::<D, C>(rt, alloc, snapshot, kind, w, changes);
    compare_altered::<D, C>(rt, alloc, snapshot, kind, w, changes);
}

// A snapshot of points of two dimensions, and the same as one of boxes.
fn compare_both_kinds<C: Ledger>(
    rt: &impl Abort,
    alloc: Global,
    points: &[u8],
    changes: &mut Steps<C>,
) {
    let w = width(rt, 32);
    compare::<2, C>(rt, alloc, points, Kind::Points, w, changes);
    let boxes = altered(rt, alloc, points, 4, 1);
    compare::<2, C>(rt, alloc, &boxes, Kind::Boxes, w, changes);
}

// A load answers what the rules say of fronts of snapshots, and of snapshots with one byte altered.
pub(crate) fn compare_all<C: Ledger>(rt: &impl Abort, alloc: Global, changes: &mut Steps<C>) {
    for first in [
        EMPTY.as_slice(),
        ONE_ROW.as_slice(),
        TWO_ROWS.as_slice(),
        THREE_ROWS.as_slice(),
        NODES.as_slice(),
    ] {
        assert!(rt; 8 <= first.len());
        let second = second_version(rt, alloc, first);
        compare_both_kinds(rt, alloc, first, changes);
        compare_both_kinds(rt, alloc, &second, changes);
    }
    let (one, seven, most) = (width(rt, 1), width(rt, 7), width(rt, 62));
    compare::<4, C>(rt, alloc, &ONE_BOX, Kind::Boxes, width(rt, 32), changes);
    compare::<1, C>(rt, alloc, &ONE_BIT, Kind::Points, one, changes);
    compare::<3, C>(rt, alloc, &SEVEN_BITS, Kind::Points, seven, changes);
    compare::<2, C>(rt, alloc, &SIXTY_TWO_BITS, Kind::Points, most, changes);
    compare::<9, C>(rt, alloc, &NINE_DIMS, Kind::Points, most, changes);
    compare::<16, C>(rt, alloc, &SIXTEEN_DIMS, Kind::Boxes, seven, changes);
}
