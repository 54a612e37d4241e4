//! A few edits, and what stands after they were taken back.

ghost use Rattle.std.specs.Prelude.{◌≡◌, ◌<◌};

use super::trees::{empty, point};
use crate::claims::holds;
use ph_steps::Counters;
use ph_undo::Kept;
use std::alloc::Global;
use std::marker::Brand;
use std::process::Abort;
use std::sync::ledger::{Blank, Ledger};

// What is done to a tree.
#[derive(Clone, Copy)]
enum Act {
    Keep(u16),
    Put([i64; 2], u64),
    Del([i64; 2]),
    Move([i64; 2], [i64; 2]),
    Back,
    Forget,
}

// What is done, and how many edits can be taken back after it, and how many rows there are.
type Line = (Act, u32, u64);

fn follow<V: Ledger, C: Ledger>(
    rt: &impl Abort,
    alloc: Global,
    kept: &mut Kept<2>,
    act: Act,
    counters: &mut Counters<V, C>,
) {
    let width = kept.tree().width();
    let visits = &mut counters.visits;
    let changes = &mut counters.changes;
    let is_done = match act {
        Act::Keep(n) => kept.keep(alloc, u32::from(n)).is_ok(),
        Act::Put(at, value) => kept
            .put(point(rt, width, &at), value, visits, changes)
            .is_ok(),
        Act::Del(at) => kept.del(&point(rt, width, &at), visits, changes).is_ok(),
        Act::Move(from, to) => {
            let (from, to) = (point(rt, width, &from), point(rt, width, &to));
            kept.relocate(&from, &to, visits, changes).is_ok()
        }
        Act::Back => kept.back_one(visits, changes).is_ok(),
        Act::Forget => {
            kept.forget();
            true
        }
    };
    holds(rt, is_done);
}

fn run<V: Ledger, C: Ledger>(
    rt: &impl Abort,
    alloc: Global,
    kept: &mut Kept<2>,
    script: &[Line],
    counters: &mut Counters<V, C>,
) {
    for (act, past, rows) in script {
        follow(rt, alloc, kept, *act, counters);
        holds(rt, (kept.past_len(), kept.tree().len()) == (*past, *rows));
    }
}

fn get<V: Ledger, C: Ledger>(
    rt: &impl Abort,
    kept: &Kept<2>,
    at: [i64; 2],
    counters: &mut Counters<V, C>,
) -> Option<u64> {
    let p = point(rt, kept.tree().width(), &at);
    kept.tree().get(&p, &mut counters.visits)
}

// Of three puts the last two are kept.
const THREE_PUTS: [Line; 7] = [
    (Act::Keep(2), 0, 0),
    (Act::Put([0, 0], 1), 1, 1),
    (Act::Put([1, 1], 2), 2, 2),
    (Act::Put([0, 0], 5), 2, 2),
    (Act::Back, 1, 2),
    (Act::Back, 0, 1),
    (Act::Back, 0, 1),
];

const TWO_PUTS: [Line; 2] = [(Act::Put([0, 0], 1), 0, 1), (Act::Put([1, 1], 2), 0, 2)];

// A put, a move and a removal, and beside them what is no edit.
const EACH_EDIT: [Line; 11] = [
    (Act::Keep(8), 0, 2),
    (Act::Put([0, 1], 3), 1, 3),
    (Act::Move([0, 0], [7, 7]), 2, 3),
    (Act::Move([7, 7], [7, 7]), 2, 3),
    (Act::Move([7, 7], [0, 1]), 2, 3),
    (Act::Move([5, 5], [6, 6]), 2, 3),
    (Act::Del([1, 1]), 3, 2),
    (Act::Del([1, 1]), 3, 2),
    (Act::Back, 2, 3),
    (Act::Back, 1, 3),
    (Act::Back, 0, 2),
];

// A full tree takes a removal back, and what is forgotten does not come back.
const FORGOTTEN: [Line; 10] = [
    (Act::Keep(3), 0, 2),
    (Act::Del([0, 0]), 1, 1),
    (Act::Back, 0, 2),
    (Act::Put([0, 0], 3), 1, 2),
    (Act::Forget, 0, 2),
    (Act::Back, 0, 2),
    (Act::Del([1, 1]), 1, 1),
    (Act::Keep(0), 0, 1),
    (Act::Del([0, 0]), 0, 0),
    (Act::Back, 0, 0),
];

fn three_puts<V: Ledger, C: Ledger>(rt: &impl Abort, alloc: Global, counters: &mut Counters<V, C>) {
    let mut kept: Kept<2> = empty(rt, alloc, 7);
    run(rt, alloc, &mut kept, &THREE_PUTS, counters);
    holds(rt, get(rt, &kept, [0, 0], counters) == Some(1));
    holds(rt, get(rt, &kept, [1, 1], counters).is_none());
}

fn each_edit<V: Ledger, C: Ledger>(rt: &impl Abort, alloc: Global, counters: &mut Counters<V, C>) {
    let mut kept: Kept<2> = empty(rt, alloc, 7);
    run(rt, alloc, &mut kept, &TWO_PUTS, counters);
    let before = kept.tree().stats(&mut counters.visits);
    run(rt, alloc, &mut kept, &EACH_EDIT, counters);
    holds(rt, get(rt, &kept, [0, 0], counters) == Some(1));
    holds(rt, get(rt, &kept, [1, 1], counters) == Some(2));
    holds(rt, kept.tree().stats(&mut counters.visits) == before);
}

fn forgotten<V: Ledger, C: Ledger>(rt: &impl Abort, alloc: Global, counters: &mut Counters<V, C>) {
    let mut kept: Kept<2> = empty(rt, alloc, 2);
    run(rt, alloc, &mut kept, &TWO_PUTS, counters);
    run(rt, alloc, &mut kept, &FORGOTTEN, counters);
}

fn known<V: Ledger, C: Ledger>(rt: &impl Abort, alloc: Global, visits: Blank, changes: Blank)
    requires visits { (visits.name ≡ V.name) × (visits.parts ≡ V.parts) × (0 < visits.parts) }
    requires changes { (changes.name ≡ C.name) × (changes.parts ≡ C.parts) × (0 < changes.parts) }
{
    let mut counters: Counters<V, C> = Counters::new(visits, changes);
    three_puts(rt, alloc, &mut counters);
    each_edit(rt, alloc, &mut counters);
    forgotten(rt, alloc, &mut counters);
}

#[test]
fn known_edits(rt: HostRuntime) {
    known::<Brand, Brand>(&rt, rt.alloc(), Blank::new(1), Blank::new(1));
}
