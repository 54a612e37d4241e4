//! How far points and regions are from a point.
ghost use Rattle.std.specs.Prelude.{◌≡◌, ◌<◌, ◌≤◌};

use super::claims::holds_for;
use super::{point, width};
use ph_coord::Width;
use ph_zorder::{Region, distance, least_distance};
use std::process::Abort;

// How far two ends of all coordinates are from each other, and a region of level 0 at the first one from the second.
fn end_to_end<const D: usize>(rt: &impl Abort, w: Width, ends: (i64, i64)) -> (u128, u128)
    requires dims { D ≤ 16 }
    requires wide { w ≡ 62 }
{
    let corner = point::<D>(rt, w, &[ends.0; D]);
    let q = point::<D>(rt, w, &[ends.1; D]);
    let region = Region { corner, level: 0 };
    (distance(&corner, &q), least_distance(w, &region, &q))
}

#[test]
fn distances_of_the_ends(rt: HostRuntime) {
    let w = width(&rt, 62);
    let narrow = (-(1 << 31), (1 << 31) - 1);
    let wide = (w.least(), w.greatest());
    // Of two dimensions and of sixteen.
    let gaps = [
        (
            narrow,
            (36_893_488_130_239_234_050, 36_893_488_113_059_364_872),
            (295_147_905_041_913_872_400, 295_147_904_904_474_918_976),
        ),
        (
            wide,
            (
                42_535_295_865_117_307_914_475_081_855_261_474_818,
                42_535_295_865_117_307_896_028_337_781_551_923_208,
            ),
            (
                340_282_366_920_938_463_315_800_654_842_091_798_544,
                340_282_366_920_938_463_168_226_702_252_415_385_664,
            ),
        ),
    ];
    for (ends, of_two, of_sixteen) in gaps {
        holds_for(&rt, end_to_end::<2>(&rt, w, ends) == of_two, &ends);
        holds_for(&rt, end_to_end::<16>(&rt, w, ends) == of_sixteen, &ends);
    }
}

const REGIONS: [(u32, [i64; 2], u128); 7] = [
    (2, [3, 3], 0),
    (1, [1, -2], 0),
    (1, [-1, -2], 1),
    (1, [0, 0], 1),
    (1, [-2, 1], 8),
    (1, [3, 3], 16),
    (0, [0, 0], 13),
];

#[test]
fn distances_of_regions(rt: HostRuntime) {
    let w = width(&rt, 3);
    let corner = point::<2>(&rt, w, &[2, -3]);
    for (level, q, want) in REGIONS {
        assert!(rt; level < w.bits());
        let q = point::<2>(&rt, w, &q);
        let distance = least_distance(w, &Region { corner, level }, &q);
        holds_for(&rt, distance == want, &(q, level));
    }
}
