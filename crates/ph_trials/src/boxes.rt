//! Windows of boxes beside the questions that they answer.

ghost use Rattle.std.specs.Prelude.{◌≡◌, ◌%◌, ◌<◌, ◌≤◌};
ghost use Rattle.ph_specs.specs.TableNames.{IsPoint};

use crate::edits::draw;
use crate::pair::{Pair, point};
use crate::windows::list;
use ph_box::{Question, bounds};
use ph_coord::{Point, Row};
use ph_steps::Counters;
use rand_core::{Rng, SeedableRng};
use rand_xoshiro::Xoshiro256PlusPlus;
use std::alloc::Global;
use std::marker::Brand;
use std::process::Abort;
use std::sync::ledger::{Blank, Ledger};

const SEED: u64 = 1984;

const STORED: u64 = 200;

const ASKED: u64 = 100;

const CHOICES: [i64; 8] = [-3, -2, -1, 0, 1, 2, 3, 4];

// Whether a stored box is listed for the asked one.
fn is_listed<const D: usize>(question: Question, asked: &Point<D>, stored: &Point<D>) -> bool {
    for i in 0..D / 2 {
        let (lo, hi) = (asked.at(i), asked.at(D / 2 + i));
        let (start, end) = (stored.at(i), stored.at(D / 2 + i));
        let holds = match question {
            Question::Overlap => start <= hi && lo <= end,
            Question::Inside => lo <= start && end <= hi,
            Question::Cover => start <= lo && hi <= end,
        };
        if !holds {
            return false;
        }
    }
    true
}

// The rows of the table that are listed.
fn listed<const D: usize, const W: u32>(
    rt: &impl Abort,
    alloc: Global,
    pair: &Pair<D, W>,
    question: Question,
    asked: &Point<D>,
) -> Vec<Row<D>> {
    let mut rows = Vec::new(alloc);
    for row in pair.table.rows() {
        if is_listed(question, asked, &row.point) {
            rows.push(*row).expect(rt, "memory");
        }
    }
    rows
}

// A box.
fn draw_box<const D: usize, const W: u32, R: Rng>(rt: &impl Abort, rng: &mut R) -> Point<D>
    ensures { IsPoint W D result }
{
    let drawn = draw::<D, W, R>(rt, rng, &CHOICES);
    let mut coords = [0; D];
    for i in 0..D / 2 {
        let (a, b) = (drawn.at(i), drawn.at(D / 2 + i));
        coords[i] = a.min(b);
        coords[D / 2 + i] = a.max(b);
    }
    point::<D, W>(rt, &coords)
}

// Stores random boxes.
fn fill<const D: usize, const W: u32, R: Rng, V: Ledger, C: Ledger>(
    rt: &impl Abort,
    pair: &mut Pair<D, W>,
    rng: &mut R,
    counters: &mut Counters<V, C>,
)
    requires { D ≤ 16 }
{
    for v in 0..STORED {
        let p = draw_box::<D, W, R>(rt, rng);
        pair.put(rt, p, v, counters);
    }
}

// Asks the three questions about random boxes.
fn boxes<const D: usize, const W: u32, V: Ledger, C: Ledger>(
    rt: &impl Abort,
    alloc: Global,
    counters: &mut Counters<V, C>,
)
    requires even { D % 2 ≡ 0 }
    requires some { 1 ≤ D }
    requires few { D ≤ 16 }
{
    let mut rng = Xoshiro256PlusPlus::seed_from_u64(SEED);
    let mut pair: Pair<D, W> = Pair::new(rt, alloc, u64::MAX);
    fill::<D, W, Xoshiro256PlusPlus, V, C>(rt, &mut pair, &mut rng, counters);
    for _ in 0..ASKED {
        let asked = draw_box::<D, W, Xoshiro256PlusPlus>(rt, &mut rng);
        for question in [Question::Overlap, Question::Inside, Question::Cover] {
            let (low, high) = bounds(question, pair.table.width(), &asked);
            let rows = listed(rt, alloc, &pair, question, &asked);
            list(rt, &pair, low, high, &rows, counters);
        }
    }
}

fn all_boxes<V: Ledger, C: Ledger>(rt: &impl Abort, alloc: Global, visits: Blank, changes: Blank)
    requires visits { (visits.name ≡ V.name) × (visits.parts ≡ V.parts) × (0 < visits.parts) }
    requires changes { (changes.name ≡ C.name) × (changes.parts ≡ C.parts) × (0 < changes.parts) }
{
    let mut counters: Counters<V, C> = Counters::new(visits, changes);
    boxes::<2, 32, V, C>(rt, alloc, &mut counters);
    boxes::<4, 32, V, C>(rt, alloc, &mut counters);
    boxes::<6, 32, V, C>(rt, alloc, &mut counters);
    boxes::<8, 32, V, C>(rt, alloc, &mut counters);
    boxes::<10, 7, V, C>(rt, alloc, &mut counters);
    boxes::<16, 62, V, C>(rt, alloc, &mut counters);
}

#[test]
fn boxes_by_windows(rt: HostRuntime) {
    all_boxes::<Brand, Brand>(&rt, rt.alloc(), Blank::new(1), Blank::new(1));
}
