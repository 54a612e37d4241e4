//! Snapshots of other widths and of more dimensions, and the way from version 1 to version 2.

ghost use Rattle.std.specs.Prelude.{◌≤◌};

use super::claims::holds;
use super::{EMPTY, ONE_ROW, THREE_ROWS, TWO_ROWS, is_saved_as, second_version, tree_of, width};
use ph_coord::{Kind, Width};
use ph_snap::load;
use ph_steps::Counters;
use std::alloc::Global;
use std::process::Abort;
use std::sync::ledger::Ledger;

// Both numbers of one bit, in one dimension.
pub(crate) const ONE_BIT: [u8; 40] = *b"PHT2\0\x01\x01\x01\
\0\0\0\0\x02\0\0\0\
\x10\0\0\0\0\0\0\0\
\0\0\0\0\0\0\0\x06\
\0\0\0\0\0\0\0\x05";

// Five neighbours in three dimensions, which have a cube, and a row of the least and the greatest number.
pub(crate) const SEVEN_BITS: [u8; 88] = *b"PHT2\0\x03\x07\x01\
\x06\0\0\0\x02\0\0\x01\
\x57\x03\xff\xc0\0\0\0\0\
\0\0\0\0\0\0\0\x06\
\0\x01\0\0\x05\0\0\0\
\x54\x11\0\0\0\0\0\0\
\0\0\0\0\0\0\0\x01\
\0\0\0\0\0\0\0\x02\
\0\0\0\0\0\0\0\x03\
\0\0\0\0\0\0\0\x04\
\0\0\0\0\0\0\0\x05";

// Two rows whose numbers have all digits.
pub(crate) const SIXTY_TWO_BITS: [u8; 64] = *b"PHT2\0\x02\x3e\x01\
\x3d\0\0\0\x02\0\0\0\
\x0b\xff\xff\xff\xff\xff\xff\xff\
\xff\xff\xff\xff\xff\xff\xff\xff\
\xff\xff\xff\xff\xff\xff\xff\xf8\
\0\0\0\0\0\0\0\0\
\0\0\0\0\0\0\0\x02\
\0\0\0\0\0\0\0\x01";

// Two neighbours in nine dimensions.
pub(crate) const NINE_DIMS: [u8; 120] = *b"PHT2\0\x09\x3e\x01\
\x3d\0\0\0\x01\0\0\x01\
\xff\xc0\0\0\0\0\0\0\
\0\0\0\0\0\0\0\0\
\0\0\0\0\0\0\0\0\
\0\0\0\0\0\0\0\0\
\0\0\0\0\0\0\0\0\
\0\0\0\0\0\0\0\0\
\0\0\0\0\0\0\0\0\
\0\0\0\0\0\0\0\0\
\0\0\0\0\0\0\0\0\
\0\0\0\0\x02\0\0\0\
\0\0\x10\0\0\0\0\0\
\0\0\0\0\0\0\0\x01\
\0\0\0\0\0\0\0\x02";

// Three boxes of eight dimensions.
pub(crate) const SIXTEEN_DIMS: [u8; 96] = *b"PHT2\x01\x10\x07\x01\
\x06\0\0\0\x02\0\0\x01\
\x40\0\x3f\xff\xff\xff\xff\xff\
\xff\xff\xff\xff\xff\xff\xff\xff\
\xc0\0\0\0\0\0\0\0\
\0\0\0\0\0\0\0\0\
\0\0\0\0\0\0\0\x03\
\x01\0\0\0\x02\0\0\0\
\0\0\0\0\x40\0\0\0\
\x40\0\0\0\0\0\0\0\
\0\0\0\0\0\0\0\x01\
\0\0\0\0\0\0\0\x02";

// A tree of rows is saved as a snapshot, and this is loaded as the same tree.
fn assert_kept<const D: usize, V: Ledger, C: Ledger>(
    rt: &impl Abort,
    alloc: Global,
    kind: Kind,
    w: Width,
    rows: &[([i64; D], u64)],
    snapshot: &[u8],
    counters: &mut Counters<V, C>,
)
    requires some { 1 ≤ D }
    requires few { D ≤ 16 }
{
    let tree = tree_of::<D, V, C>(rt, alloc, w, rows, counters);
    is_saved_as(rt, alloc, &tree, kind, snapshot, &mut counters.visits);
    let loaded = load::<D, C>(alloc, snapshot, kind, w, &mut counters.changes).expect(
        rt, "no tree",
    );
    holds(rt, loaded.same(&tree, &mut counters.visits));
    is_saved_as(rt, alloc, &loaded, kind, snapshot, &mut counters.visits);
}

// Small trees, and what becomes of their snapshots of version 1.
pub(crate) fn keep_small<V: Ledger, C: Ledger>(
    rt: &impl Abort,
    alloc: Global,
    counters: &mut Counters<V, C>,
) {
    let w = width(rt, 32);
    let rows = [([0, 0], 1), ([1, 1], 2), ([0, 1], 3)];
    for (rows, first, header) in [
        (&rows[..0], EMPTY.as_slice(), b"PHT2\0\x02\x20\0"),
        (&[([3, 4], 17)], &ONE_ROW, b"PHT2\0\x02\x20\x01"),
        (&rows[..2], &TWO_ROWS, b"PHT2\0\x02\x20\x01"),
        (&rows, &THREE_ROWS, b"PHT2\0\x02\x20\x01"),
    ] {
        assert!(rt; 8 <= first.len());
        let second = second_version(rt, alloc, first);
        holds(rt, second.starts_with(header));
        assert_kept::<2, V, C>(rt, alloc, Kind::Points, w, rows, &second, counters);
        assert_brought_on(rt, alloc, w, first, &second, counters);
    }
}

// What is loaded of a snapshot of version 1 is saved as one of version 2.
fn assert_brought_on<V: Ledger, C: Ledger>(
    rt: &impl Abort,
    alloc: Global,
    w: Width,
    first: &[u8],
    second: &[u8],
    counters: &mut Counters<V, C>,
) {
    let tree = load::<2, C>(alloc, first, Kind::Points, w, &mut counters.changes).expect(
        rt, "no tree",
    );
    is_saved_as(rt, alloc, &tree, Kind::Points, second, &mut counters.visits);
}

pub(crate) fn keep_all<V: Ledger, C: Ledger>(
    rt: &impl Abort,
    alloc: Global,
    counters: &mut Counters<V, C>,
) {
    let (one, seven, most) = (width(rt, 1), width(rt, 7), width(rt, 62));
    assert_kept::<1, V, C>(
        rt,
        alloc,
        Kind::Points,
        one,
        &[([0], 5), ([-1], 6)],
        &ONE_BIT,
        counters,
    );
    assert_kept::<3, V, C>(
        rt,
        alloc,
        Kind::Points,
        seven,
        &[
            ([0, 0, 0], 1),
            ([0, 0, 1], 2),
            ([0, 1, 0], 3),
            ([1, 0, 1], 4),
            ([1, 1, 1], 5),
            ([-64, 63, -1], 6),
        ],
        &SEVEN_BITS,
        counters,
    );
    let (least, greatest) = (-2305843009213693952, 2305843009213693951);
    assert_kept::<2, V, C>(
        rt,
        alloc,
        Kind::Points,
        most,
        &[([greatest, least], 1), ([-1, -1], 2)],
        &SIXTY_TWO_BITS,
        counters,
    );
    assert_kept::<9, V, C>(
        rt,
        alloc,
        Kind::Points,
        most,
        &[([0; 9], 1), ([0, 0, 0, 0, 0, 0, 0, 0, 1], 2)],
        &NINE_DIMS,
        counters,
    );
    let longer = [0, 0, 0, 0, 0, 0, 0, 0, 0, 0, 0, 0, 0, 0, 0, 3];
    assert_kept::<16, V, C>(
        rt,
        alloc,
        Kind::Boxes,
        seven,
        &[([0; 16], 1), (longer, 2), ([-1; 16], 3)],
        &SIXTEEN_DIMS,
        counters,
    );
}
