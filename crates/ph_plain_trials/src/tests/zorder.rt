//! Words of the Z-order, and the masks of windows.
ghost use Rattle.std.specs.Prelude.{◌≡◌, ◌<◌};

use super::claims::holds;
use super::{point, width};
use ph_zorder::{Region, address, masks, next_address, top_difference, z_cmp};
use std::cmp::Ordering::{self, Equal, Greater, Less};

const PAIRS: [([i64; 2], [i64; 2], Option<u32>, Ordering); 7] = [
    ([0, 0], [0, 0], None, Equal),
    ([0, 0], [0, 1], Some(0), Less),
    ([0, 1], [1, 0], Some(0), Less),
    ([1, 1], [1, 0], Some(0), Greater),
    ([3, -4], [2, 3], Some(2), Less),
    ([-1, -1], [0, 0], Some(2), Less),
    ([-4, 3], [3, -4], Some(2), Less),
];

#[test]
fn z_order_across_signs(rt: HostRuntime) {
    let w = width(&rt, 3);
    for (p, q, place, order) in PAIRS {
        let (p, q) = (point::<2>(&rt, w, &p), point::<2>(&rt, w, &q));
        holds(&rt, top_difference(w, &p, &q) == place);
        holds(&rt, z_cmp(w, &p, &q) == order);
    }
}

#[test]
fn addresses_of_a_point(rt: HostRuntime) {
    let w = width(&rt, 4);
    let p = point::<3>(&rt, w, &[-8, 7, 2]);
    for (place, want) in [(0, 0b010), (1, 0b011), (2, 0b010), (3, 0b011)] {
        holds(&rt, address(w, &p, place) == want);
    }
}

const WINDOWS: [([i64; 2], u32, [i64; 2], [i64; 2], Option<(u32, u32)>); 5] = [
    ([0, 0], 2, [-4, 1], [3, 3], Some((0b01, 0b11))),
    ([0, 0], 2, [-4, 0], [-1, 0], Some((0b01, 0b01))),
    ([0, 0], 2, [1, 1], [0, 2], None),
    ([-1, -1], 1, [0, -4], [3, 3], None),
    ([2, -3], 0, [2, -3], [2, 3], Some((0b01, 0b01))),
];

#[test]
fn masks_of_a_window(rt: HostRuntime) {
    let w = width(&rt, 3);
    for (corner, level, lo, hi, wanted) in WINDOWS {
        assert!(rt; level < w.bits());
        let corner = point::<2>(&rt, w, &corner);
        let (lo, hi) = (point::<2>(&rt, w, &lo), point::<2>(&rt, w, &hi));
        holds(&rt, masks(w, &Region { corner, level }, &lo, &hi) == wanted);
    }
}

const NEXT: [(u32, u32, u32, Option<u32>); 7] = [
    (0b001, 0b001, 0b011, Some(0b011)),
    (0b001, 0b000, 0b101, Some(0b100)),
    (0b010, 0b000, 0b101, Some(0b100)),
    (0b101, 0b000, 0b101, None),
    (0b0111, 0b1000, 0b1100, Some(0b1000)),
    (0, 0, u32::MAX, Some(1)),
    (u32::MAX, 0, u32::MAX, None),
];

#[test]
fn next_addresses(rt: HostRuntime) {
    for (address, lower, upper, next) in NEXT {
        holds(&rt, lower & upper == lower);
        holds(&rt, next_address(address, lower, upper) == next);
    }
}
