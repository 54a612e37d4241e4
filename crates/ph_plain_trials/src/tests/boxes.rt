//! Which boxes overlap another, lie inside it and cover it.
ghost use Rattle.std.specs.Prelude.{◌≡◌, ◌*◌, ◌≤◌};
ghost use Rattle.ph_specs.specs.TableNames.{IsPoint};

use super::claims::{holds, holds_for};
use super::{point, width};
use ph_box::{Question, bounds, join_box, split_box};
use ph_coord::{Point, Width, is_at_most};
use std::process::Abort;

// Whether a box overlaps the asked one, lies inside it, and covers it.
type Listed = [bool; 3];

const APART: Listed = [false, false, false];

const MEETS: Listed = [true, false, false];

const INSIDE: Listed = [true, true, false];

const COVERS: Listed = [true, false, true];

const SAME: Listed = [true, true, true];

fn is_between<const D: usize>(p: &Point<D>, bounds: &(Point<D>, Point<D>)) -> bool {
    is_at_most(bounds.0.as_slice(), p.as_slice()) && is_at_most(p.as_slice(), bounds.1.as_slice())
}

// The box from one corner to another, which is split into these.
fn joined<const K: usize, const D: usize>(
    rt: &impl Abort,
    w: Width,
    low: &[i64; K],
    high: &[i64; K],
) -> Point<D>
    requires dims { K * 2 ≡ D }
    requires few { D ≤ 16 }
    ensures { IsPoint w D result }
{
    let (low, high) = (point::<K>(rt, w, low), point::<K>(rt, w, high));
    let p = join_box::<K, D>(w, &low, &high).expect(rt, "no box");
    holds(rt, split_box::<K, D>(w, &p) == (low, high));
    p
}

// Asks about the box from one corner to another, where boxes are stored of which the answers are known.
fn check<const K: usize, const D: usize>(
    rt: &impl Abort,
    bits: u32,
    lo: [i64; K],
    hi: [i64; K],
    stored: &[([i64; K], [i64; K], Listed)],
)
    requires dims { K * 2 ≡ D }
    requires few { D ≤ 16 }
{
    let w = width(rt, bits);
    let asked = joined::<K, D>(rt, w, &lo, &hi);
    let windows = [
        bounds(Question::Overlap, w, &asked),
        bounds(Question::Inside, w, &asked),
        bounds(Question::Cover, w, &asked),
    ];
    for (low, high, listed) in stored {
        let p = joined::<K, D>(rt, w, low, high);
        let answers = [
            is_between(&p, &windows[0]),
            is_between(&p, &windows[1]),
            is_between(&p, &windows[2]),
        ];
        holds_for(rt, answers == *listed, &(low, high));
    }
}

// The bounds of an asked box and those of a stored one.
const OF_ONE: [(i64, i64, i64, i64, Listed); 20] = [
    (2, 5, 2, 5, SAME),
    (2, 5, 5, 7, MEETS),
    (2, 5, 0, 2, MEETS),
    (2, 5, 1, 4, MEETS),
    (2, 5, 3, 6, MEETS),
    (2, 5, 6, 7, APART),
    (2, 5, 0, 1, APART),
    (2, 5, 3, 4, INSIDE),
    (2, 5, 2, 4, INSIDE),
    (2, 5, 3, 5, INSIDE),
    (2, 5, 5, 5, INSIDE),
    (2, 5, 6, 6, APART),
    (2, 5, 2, 6, COVERS),
    (2, 5, 1, 6, COVERS),
    (3, 3, 3, 3, SAME),
    (3, 3, 3, 5, COVERS),
    (3, 3, 0, 3, COVERS),
    (3, 3, 2, 4, COVERS),
    (3, 3, 4, 4, APART),
    (3, 3, 0, 2, APART),
];

#[test]
fn boxes_of_one_dimension(rt: HostRuntime) {
    for (lo, hi, low, high, listed) in OF_ONE {
        check::<1, 2>(&rt, 32, [lo], [hi], &[([low], [high], listed)]);
    }
}

const OF_TWO: [([i64; 2], [i64; 2], Listed); 16] = [
    ([0, 0], [4, 4], SAME),
    ([4, 4], [6, 6], MEETS),
    ([-2, -3], [0, 0], MEETS),
    ([-2, 4], [0, 5], MEETS),
    ([4, 1], [6, 3], MEETS),
    ([0, -1], [4, 0], MEETS),
    ([5, 1], [6, 3], APART),
    ([4, 5], [6, 6], APART),
    ([1, 1], [5, 3], MEETS),
    ([-1, 1], [5, 3], MEETS),
    ([1, 1], [3, 3], INSIDE),
    ([0, 1], [4, 3], INSIDE),
    ([4, 4], [4, 4], INSIDE),
    ([2, 0], [2, 4], INSIDE),
    ([-1, -1], [5, 5], COVERS),
    ([0, 0], [4, 5], COVERS),
];

#[test]
fn boxes_of_two_dimensions(rt: HostRuntime) {
    check::<2, 4>(&rt, 32, [0, 0], [4, 4], &OF_TWO);
}

const OF_THREE: [([i64; 3], [i64; 3], Listed); 11] = [
    ([0, 0, 0], [2, 2, 2], SAME),
    ([2, 2, 2], [3, 3, 3], MEETS),
    ([2, 2, 0], [3, 3, 2], MEETS),
    ([2, 0, 0], [3, 2, 2], MEETS),
    ([0, 0, -1], [2, 2, 0], MEETS),
    ([3, 0, 0], [4, 2, 2], APART),
    ([2, 0, 3], [3, 2, 4], APART),
    ([-1, -1, 1], [3, 3, 1], MEETS),
    ([1, 1, 1], [1, 1, 1], INSIDE),
    ([0, 1, 2], [2, 2, 2], INSIDE),
    ([-1, 0, 0], [2, 3, 2], COVERS),
];

const OF_EIGHT: [([i64; 8], [i64; 8], Listed); 3] = [
    ([1; 8], [2; 8], MEETS),
    ([2; 8], [3; 8], APART),
    ([-1; 8], [1; 8], COVERS),
];

#[test]
fn boxes_of_more_dimensions(rt: HostRuntime) {
    check::<3, 6>(&rt, 32, [0; 3], [2; 3], &OF_THREE);
    check::<8, 16>(&rt, 32, [0; 8], [1; 8], &OF_EIGHT);
}

#[test]
fn boxes_at_the_ends_of_a_width(rt: HostRuntime) {
    for (bits, least, greatest) in [
        (1, -1, 0),
        (32, -2147483648, 2147483647),
        (62, -2305843009213693952, 2305843009213693951),
    ] {
        let of_all = [
            ([least], [greatest], SAME),
            ([least], [least], INSIDE),
            ([greatest], [greatest], INSIDE),
        ];
        check::<1, 2>(&rt, bits, [least], [greatest], &of_all);
        let of_least = [
            ([least], [least], SAME),
            ([least], [greatest], COVERS),
            ([least + 1], [greatest], APART),
        ];
        check::<1, 2>(&rt, bits, [least], [least], &of_least);
        let of_greatest = [
            ([greatest], [greatest], SAME),
            ([least], [greatest], COVERS),
            ([least], [greatest - 1], APART),
        ];
        check::<1, 2>(&rt, bits, [greatest], [greatest], &of_greatest);
    }
}

#[test]
fn corners_that_make_no_box(rt: HostRuntime) {
    let w = width(&rt, 32);
    for (lo, hi) in [([0, 1], [0, 0]), ([1, 0], [0, 5]), ([3, 3], [2, 2])] {
        let (lo, hi) = (point::<2>(&rt, w, &lo), point::<2>(&rt, w, &hi));
        holds(&rt, join_box::<2, 4>(w, &lo, &hi).is_none());
    }
}
