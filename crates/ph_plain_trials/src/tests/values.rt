//! Numbers by their spelling, points by their offsets, the order of points, and the digits of words.
ghost use Rattle.std.specs.Prelude.{◌≡◌};

use super::claims::{holds, holds_for};
use super::{point, width};
use ph_coord::{Number, Point, offsets_of, read_number, z_before};
use ph_digits::{body_address, join, top_difference, words_cmp};
use std::cmp::Ordering::{self, Equal, Greater, Less};

const SPELLINGS: [(&[u8], Number); 14] = [
    (
        b"0",
        Number::Whole {
            minus: false,
            size: 0,
        },
    ),
    (
        b"-0",
        Number::Whole {
            minus: false,
            size: 0,
        },
    ),
    (
        b"+007",
        Number::Whole {
            minus: false,
            size: 7,
        },
    ),
    (
        b"-12",
        Number::Whole {
            minus: true,
            size: 12,
        },
    ),
    (
        b"1152921504606846976",
        Number::Whole {
            minus: false,
            size: 1152921504606846976,
        },
    ),
    (
        b"-11529215046068469769",
        Number::Whole {
            minus: true,
            size: 11529215046068469769,
        },
    ),
    (
        b"18446744073709551616",
        Number::Whole {
            minus: false,
            size: 18446744073709551616,
        },
    ),
    (
        b"000000000000000000000000000000000000000000000001",
        Number::Whole {
            minus: false,
            size: 1,
        },
    ),
    (b"1152921504606846976x", Number::Not),
    (
        b"340282366920938463463374607431768211455",
        Number::Whole {
            minus: false,
            size: u128::MAX,
        },
    ),
    (b"-340282366920938463463374607431768211456", Number::Wide),
    (b"", Number::Not),
    (b"+", Number::Not),
    (b"1x", Number::Not),
];

#[test]
fn spellings(rt: HostRuntime) {
    for (text, number) in SPELLINGS {
        holds_for(&rt, read_number(text) == number, &text);
    }
}

#[test]
fn offsets_and_back(rt: HostRuntime) {
    let w = width(&rt, 4);
    let p = point::<3>(&rt, w, &[-8, 0, 7]);
    let offsets: [u64; 4] = offsets_of(w, p.as_slice());
    holds(&rt, offsets == [0, 8, 15, 0]);
    holds(&rt, Point::from_offsets(w, &offsets[..3]) == p);
}

#[test]
fn order_across_signs(rt: HostRuntime) {
    let w = width(&rt, 32);
    let rising = [[-1, -1], [-1, 0], [0, -1], [0, 0]];
    for (i, p) in rising.iter().enumerate() {
        let p = point::<2>(&rt, w, p);
        for (j, q) in rising.iter().enumerate() {
            let q = point::<2>(&rt, w, q);
            holds(&rt, z_before(w, &p, &q) == (i < j));
        }
    }
}

#[test]
fn joined_and_compared(rt: HostRuntime) {
    let mut known = [0b1_1000, 0b0_0110];
    join(&mut known, 2, 0b01, &[0b11, 0b00]);
    holds(&rt, known == [0b1_1011, 0b0_0100]);
    holds(&rt, body_address(2, &known) == 0b01);
    holds(
        &rt,
        top_difference(&known, &[0b1_1011, 0b0_0001]) == Some(2),
    );
    holds(&rt, top_difference(&known, &known).is_none());
}

// The first word that differs at the greatest place at which any differ decides.
const WORDS: [([u64; 3], [u64; 3], Ordering); 8] = [
    ([6, 0, 9], [6, 0, 9], Equal),
    ([0, 0, 7], [0, 0, 8], Less),
    ([0b011, 0b111, 0], [0b100, 0b000, 0], Less),
    ([0b101, 0, 0], [0b100, 1, 1], Greater),
    ([0, 0b10, 0b11], [1, 0b10, 0b01], Greater),
    ([1, 0, 0b01], [0, 1, 0b10], Less),
    ([0, 1 << 63, 0], [u64::MAX >> 1, 0, 0], Greater),
    ([0, u64::MAX, u64::MAX], [1 << 63, 0, 0], Less),
];

#[test]
fn order_of_words(rt: HostRuntime) {
    for (xs, ys, order) in WORDS {
        holds(&rt, words_cmp(&xs, &ys) == order);
        holds(&rt, words_cmp(&ys, &xs) == order.reverse());
    }
    holds(&rt, words_cmp(&[], &[]) == Equal);
    let mut last = [0; 20];
    last[19] = 1;
    holds(&rt, words_cmp(&[0; 20], &last) == Less);
}
