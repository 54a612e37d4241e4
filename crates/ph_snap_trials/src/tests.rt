//! Snapshots whose bytes are known from outside.

ghost use Rattle.std.specs.Prelude.{◌≡◌, ◌<◌, ◌≤◌, length};

mod claims;
mod digits;
mod loads;
mod plain;
mod widths;

use claims::{holds, holds_for};
use loads::compare_all;
use ph_coord::{Point, Width};
use ph_io::{Failed, MemorySink};
use ph_snap::{Header, LoadFault, read_header, save};
use ph_specs::Kind;
use ph_steps::{Counters, Steps};
use ph_tree::PhTree;
use std::alloc::Global;
use std::marker::Brand;
use std::process::Abort;
use std::sync::ledger::{Blank, Ledger};
use widths::{keep_all, keep_small};

const EMPTY: [u8; 8] = *b"PHT1\0\x02\0\0";

const ONE_ROW: [u8; 40] = *b"PHT1\0\x02\x01\0\
\x1f\0\0\0\x01\0\0\0\
\x60\0\0\0\xc0\0\0\x02\
\0\0\0\0\0\0\0\0\
\0\0\0\0\0\0\0\x11";

const TWO_ROWS: [u8; 64] = *b"PHT1\0\x02\x01\0\
\x1f\0\0\0\x01\0\0\x01\
\xe0\0\0\0\0\0\0\0\
\0\0\0\0\0\0\0\0\
\0\0\0\0\x02\0\0\0\
\x0c\0\0\0\0\0\0\0\
\0\0\0\0\0\0\0\x01\
\0\0\0\0\0\0\0\x02";

// Three rows that have a cube.
const THREE_ROWS: [u8; 72] = *b"PHT1\0\x02\x01\0\
\x1f\0\0\0\x01\0\0\x01\
\xe0\0\0\0\0\0\0\0\
\0\0\0\0\0\0\0\0\
\0\x01\0\0\x03\0\0\0\
\x51\0\0\0\0\0\0\0\
\0\0\0\0\0\0\0\x01\
\0\0\0\0\0\0\0\x03\
\0\0\0\0\0\0\0\x02";

// A snapshot of version 1 with a header of version 2, which names its width, in front of the same records.
fn second_version(rt: &impl Abort, alloc: Global, first: &[u8]) -> Vec<u8>
    requires { 8 ≤ length first.now }
{
    let mut bytes = Vec::from_slice(alloc, first).expect(rt, "memory");
    bytes[3] = b'2';
    bytes[7] = bytes[6];
    bytes[6] = 32;
    bytes
}

fn width(rt: &impl Abort, bits: u32) -> Width
    ensures { result ≡ bits }
{
    let Some(w) = Width::new(bits) else {
        panic!(rt; "no width")
    };
    w
}

fn tree_of<const D: usize, V: Ledger, C: Ledger>(
    rt: &impl Abort,
    alloc: Global,
    w: Width,
    rows: &[([i64; D], u64)],
    counters: &mut Counters<V, C>,
) -> PhTree<D>
    requires some { 1 ≤ D }
    requires few { D ≤ 16 }
    ensures { result.width ≡ w }
{
    let mut tree = PhTree::new(alloc, w, 100);
    for (coords, value) in rows {
        let Some(point) = Point::from_slice(w, coords) else {
            panic!(rt; "no point")
        };
        let done = tree.put(point, *value, &mut counters.visits, &mut counters.changes);
        holds(rt, done.is_ok());
    }
    tree
}

fn is_saved_as<const D: usize, V: Ledger>(
    rt: &impl Abort,
    alloc: Global,
    tree: &PhTree<D>,
    kind: Kind,
    bytes: &[u8],
    visits: &mut Steps<V>,
) {
    for piece in [3, 100] {
        let mut sink = MemorySink::with_room(alloc, 200, piece, Vec::new(alloc)).expect(
            rt, "memory",
        );
        let size = save(tree, kind, &mut sink, visits);
        holds(rt, size == Ok(bytes.len() as u128));
        holds(rt, sink.bytes() == bytes);
    }
}

// A save of two rows whose second write fails.
fn cut_save<V: Ledger>(rt: &impl Abort, alloc: Global, two: &PhTree<2>, visits: &mut Steps<V>) {
    let fails = vec![in alloc; 2u64].expect(rt, "memory");
    let mut sink = MemorySink::with_room(alloc, 100, 40, fails).expect(rt, "memory");
    let size = save(two, Kind::Points, &mut sink, visits);
    let bytes = second_version(rt, alloc, &TWO_ROWS);
    holds(rt, size == Err(Failed));
    holds(rt, Some(sink.bytes()) == bytes.get(..40));
}

// What counts visits and changes, in this file and in those below it.
fn save_and_load_all<V: Ledger, C: Ledger>(
    rt: &impl Abort,
    alloc: Global,
    visits: Blank,
    changes: Blank,
)
    requires visits { (visits.name ≡ V.name) × (visits.parts ≡ V.parts) × (0 < visits.parts) }
    requires changes { (changes.name ≡ C.name) × (changes.parts ≡ C.parts) × (0 < changes.parts) }
{
    let mut counters: Counters<V, C> = Counters::new(visits, changes);
    let rows = [([0, 0], 1), ([1, 1], 2)];
    let two = tree_of::<2, V, C>(rt, alloc, width(rt, 32), &rows, &mut counters);
    cut_save(rt, alloc, &two, &mut counters.visits);
    compare_all(rt, alloc, &mut counters.changes);
    keep_small(rt, alloc, &mut counters);
    keep_all(rt, alloc, &mut counters);
}

#[test]
fn saves_and_loads(rt: HostRuntime) {
    save_and_load_all::<Brand, Brand>(&rt, rt.alloc(), Blank::new(1), Blank::new(1));
}

// Headers, and what they are read as: the version, the kind, the dimensions, the width, and whether there is a root.
const HEADERS: [(&[u8], (u32, Kind, u32, u32, bool)); 8] = [
    (&EMPTY, (1, Kind::Points, 2, 32, false)),
    (&TWO_ROWS, (1, Kind::Points, 2, 32, true)),
    (b"PHT1\x01\x08\x01\0", (1, Kind::Boxes, 8, 32, true)),
    (b"PHT2\0\x02\x20\0", (2, Kind::Points, 2, 32, false)),
    (b"PHT2\0\x01\x01\x01", (2, Kind::Points, 1, 1, true)),
    (b"PHT2\0\x09\x3e\x01", (2, Kind::Points, 9, 62, true)),
    (b"PHT2\x01\x10\x07\x01", (2, Kind::Boxes, 16, 7, true)),
    // the empty table of width 1
    (b"PHT2\0\x02\x01\0", (2, Kind::Points, 2, 1, false)),
];

#[test]
fn headers(rt: HostRuntime) {
    for (bytes, (version, kind, dims, width, root)) in HEADERS {
        let header = Header {
            version,
            kind,
            dims,
            width,
            root,
        };
        holds_for(&rt, read_header(bytes) == Ok(header), &bytes);
    }
}

const NO_HEADERS: [(&[u8], LoadFault); 21] = [
    (b"", LoadFault::Magic),
    (b"PHT", LoadFault::Magic),
    (b"PHT0\0\x02\x01\0", LoadFault::Magic),
    (b"PHT3\0\x02\x20\x01", LoadFault::Magic),
    (b"PHT1", LoadFault::Header(4)),
    (b"PHT1\x02\x02\x01\0", LoadFault::Header(4)),
    (b"PHT1\0\x09\x01\0", LoadFault::Header(5)),
    (b"PHT1\x01\x03\x01\0", LoadFault::Header(5)),
    (b"PHT1\0\x02\x02\0", LoadFault::Header(6)),
    (b"PHT1\0\x02\x01\x01", LoadFault::Header(7)),
    (b"PHT1\0\x02\x01", LoadFault::Header(7)),
    (b"PHT2", LoadFault::Header(4)),
    (b"PHT2\x02\x02\x20\x01", LoadFault::Header(4)),
    (b"PHT2\0\0\x20\x01", LoadFault::Header(5)),
    (b"PHT2\0\x11\x20\x01", LoadFault::Header(5)),
    (b"PHT2\x01\x0f\x20\x01", LoadFault::Header(5)),
    (b"PHT2\0\x02\0\x01", LoadFault::Header(6)),
    (b"PHT2\0\x02\x3f\x01", LoadFault::Header(6)),
    (b"PHT2\0\x02", LoadFault::Header(6)),
    (b"PHT2\0\x02\x20\x02", LoadFault::Header(7)),
    (b"PHT2\0\x02\x20", LoadFault::Header(7)),
];

#[test]
fn faults_of_headers(rt: HostRuntime) {
    for (bytes, fault) in NO_HEADERS {
        holds_for(&rt, read_header(bytes) == Err(fault), &bytes);
    }
}
