//! Nodes that fill up with points and lose them again, in either layout.

ghost use Rattle.std.specs.Prelude.{◌<◌, ◌≤◌, ◌^◌};

use crate::claims::{holds, holds_for};
use crate::known::{child, del, empty, put_new, root};
use crate::records::are_written_anew;
use ph_steps::{Counters, Steps};
use ph_tree::PhTree;
use std::alloc::Global;
use std::process::Abort;
use std::sync::ledger::Ledger;

// The digit by which the coordinates of a node's points differ, and the digits below it.
#[derive(Clone, Copy)]
struct Digits {
    one: i64,
    below: i64,
}

const LEVEL_0: Digits = Digits { one: 1, below: 0 };

const LEVEL_3: Digits = Digits { one: 8, below: 7 };

const LEVEL_5: Digits = Digits { one: 32, below: 31 };

// The coordinates of a point of a node: its address, and behind it digits that have little to do with one another.
fn coords_at<const D: usize>(address: u32, digits: Digits) -> [i64; D] {
    let mut coords = [0; D];
    let mut rest = address;
    let mut seed = u64::from(address);
    for coord in coords.iter_mut() {
        seed = seed
            .wrapping_mul(0x9E37_79B9_7F4A_7C15)
            .wrapping_add(0x7F4A_7C15);
        let low = (seed >> 33) as i64 & digits.below;
        *coord = if rest & 1 == 1 { low | digits.one } else { low };
        rest >>= 1;
    }
    coords
}

// The k-th address in an order in which neighbours lie far apart. All below 2^D come before one comes again.
fn scattered<const D: usize>(k: u32) -> u32
    requires { D ≤ 16 }
{
    k.wrapping_mul(0x9E37_79B1) % (1 << D)
}

// The records of the nodes are to be those of their entries. The middle of many points is left out, since each comparison writes all of them.
fn compare<const D: usize, V: Ledger>(
    rt: &impl Abort,
    alloc: Global,
    tree: &PhTree<D>,
    k: u32,
    most: u32,
    visits: &mut Steps<V>,
)
    requires { k < most }
{
    if most > 256 && k >= 16 && most - k >= 16 {
        return;
    }
    let Some(node) = tree.root() else {
        panic!(rt; "no root");
    };
    holds_for(rt, are_written_anew(alloc, node, visits) == Ok(true), &k);
}

fn fill<const D: usize, V: Ledger, C: Ledger>(
    rt: &impl Abort,
    alloc: Global,
    tree: &mut PhTree<D>,
    digits: Digits,
    most: u32,
    counters: &mut Counters<V, C>,
)
    requires { D ≤ 16 }
{
    for k in 0..most {
        let coords = coords_at::<D>(scattered::<D>(k), digits);
        put_new(rt, tree, &coords, u64::from(k), counters);
        compare(rt, alloc, tree, k, most, &mut counters.visits);
    }
}

fn take_out<const D: usize, V: Ledger, C: Ledger>(
    rt: &impl Abort,
    alloc: Global,
    tree: &mut PhTree<D>,
    digits: Digits,
    most: u32,
    counters: &mut Counters<V, C>,
)
    requires { D ≤ 16 }
{
    for k in 1..most {
        let coords = coords_at::<D>(scattered::<D>(k), digits);
        del(rt, tree, &coords, counters, Some(u64::from(k)));
        compare(rt, alloc, tree, k, most, &mut counters.visits);
    }
}

// Puts points at so many addresses of a node, which is a cube then, and takes all but one out again.
fn there_and_back<const D: usize, V: Ledger, C: Ledger>(
    rt: &impl Abort,
    alloc: Global,
    digits: Digits,
    most: u32,
    counters: &mut Counters<V, C>,
)
    requires some { 1 ≤ D }
    requires few { D ≤ 16 }
{
    let mut tree: PhTree<D> = empty(rt, alloc, u64::from(most));
    fill(rt, alloc, &mut tree, digits, most, counters);
    let top = root(rt, &tree, &mut counters.visits);
    let node = child(rt, top, 0, &mut counters.visits);
    holds(rt, (node.len(), node.is_cube()) == (most as usize, true));
    take_out(rt, alloc, &mut tree, digits, most, counters);
    holds(rt, !root(rt, &tree, &mut counters.visits).is_cube());
}

pub(crate) fn crowds<V: Ledger, C: Ledger>(
    rt: &impl Abort,
    alloc: Global,
    counters: &mut Counters<V, C>,
) {
    there_and_back::<2, V, C>(rt, alloc, LEVEL_5, 4, counters);
    there_and_back::<3, V, C>(rt, alloc, LEVEL_5, 8, counters);
    there_and_back::<8, V, C>(rt, alloc, LEVEL_3, 256, counters);
    there_and_back::<16, V, C>(rt, alloc, LEVEL_0, 7720, counters);
}
