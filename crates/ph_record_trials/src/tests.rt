//! Records by hand, and all small records. Calls with long contracts stand in functions that ensure nothing, so that no test carries those along.

ghost use Rattle.std.specs.Prelude.{◌≡◌, ◌≤◌, true, false};
ghost use Rattle.ph_specs.specs.RecordNames.{first_in};
ghost use Rattle.ph_model.specs.ModelNames.{IsRecord};

use crate::{Item, is_cube_back, is_linear_back, record_of};
use claims::{holds, holds_for};
use ph_cube::by_dims as cube_calls;
use ph_linear::by_dims as linear_calls;
use std::alloc::Global;
use std::process::Abort;

// A body whose last fields are zero.
macro_rules! body {
    ($x:expr) => {
        body!($x, 0, 0)
    };
    ($x:expr, $y:expr) => {
        body!($x, $y, 0)
    };
    ($x:expr, $y:expr, $z:expr) => {
        [$x, $y, $z, 0, 0, 0, 0, 0, 0, 0, 0, 0, 0, 0, 0, 0]
    };
    ($a:expr, $b:expr, $c:expr, $d:expr, $e:expr, $f:expr, $g:expr, $h:expr) => {
        [$a, $b, $c, $d, $e, $f, $g, $h, 0, 0, 0, 0, 0, 0, 0, 0]
    };
    ($($field:expr),*) => {
        [$($field),*]
    };
}

// An edit of an entry at a place and an address, where so many entries go and so many come.
macro_rules! edit_at {
    ($at:expr, $less:expr, $more:expr, $child:literal, $body:expr, $value:expr) => {
        Edit {
            place: $at.0,
            less: $less,
            more: $more,
            entry: Packed {
                addr: $at.1,
                child: $child,
                body: $body,
                rank: 0,
            },
            value: $value,
        }
    };
}

mod claims;
mod cubes;
mod puts;
mod resizes;

fn point(addr: u32, fields: (u64, u64), value: u64) -> Item {
    Item {
        addr,
        fields,
        value: Some(value),
    }
}

fn child(addr: u32, fields: (u64, u64)) -> Item {
    Item {
        addr,
        fields,
        value: None,
    }
}

// Whether both records of a list are made, and read as the list.
fn is_back<const D: usize>(alloc: Global, level: u32, items: &[Item]) -> bool
    requires some { 1 ≤ D }
    requires few { D ≤ 2 }
{
    let Some(linear) = record_of::<D>(alloc, false, level, items) else {
        return false;
    };
    let Some(cube) = record_of::<D>(alloc, true, level, items) else {
        return false;
    };
    is_linear_back(linear.as_slice(), D, items) && is_cube_back(cube.as_slice(), D, items)
}

// The entries that a code in base 3 names: at each address nothing, a point or a child.
fn items_of(code: u32, level: u32, seed: u64) -> ([Item; 4], usize)
    requires { level ≤ 3 }
    ensures { result.1 ≤ 4 }
{
    let mut items = [child(0, (0, 0)); 4];
    let mut count = 0;
    let mut rest = code;
    for addr in 0..4u32 {
        let number = addr as u64 * 3 + seed % 8 * 5 + 1;
        let fields = (number % (1 << level), (number / 3) % (1 << level));
        let item = match rest % 3 {
            1 => Some(point(addr, fields, number * 1000)),
            2 => Some(child(addr, fields)),
            _ => None,
        };
        rest /= 3;
        if let Some(item) = item {
            items[count] = item;
            count += 1;
        }
    }
    (items, count)
}

// Whether all lists at a level, of a few bodies each, give records that are read as the lists.
fn are_all_back<const D: usize>(alloc: Global, level: u32, codes: u32) -> bool
    requires some { 1 ≤ D }
    requires few { D ≤ 2 }
    requires low { level ≤ 3 }
{
    for code in 1..codes {
        for seed in 0..4 {
            let (items, count) = items_of(code, level, seed);
            let all = &items[..count];
            let is_lawful = level > 0 || all.iter().all(|item| item.value.is_some());
            if is_lawful && !is_back::<D>(alloc, level, all) {
                return false;
            }
        }
    }
    true
}

// Whether the first words of a list are these.
fn is_front(words: &[u64], len: usize, want: &[u64]) -> bool {
    words.get(..len) == Some(want)
}

// Whether a list is made into a record of these words.
fn is_made<const D: usize>(
    alloc: Global,
    cube: bool,
    level: u32,
    items: &[Item],
    want: &[u64],
) -> bool
    requires some { 1 ≤ D }
    requires few { D ≤ 2 }
{
    match record_of::<D>(alloc, cube, level, items) {
        Some(words) => *words.as_slice() == *want,
        None => false,
    }
}

#[test]
fn linear_records_by_hand(rt: HostRuntime) {
    let alloc = rt.alloc();
    let across = [point(3, (3, 4), 17)];
    let want = [0x1f00000001000000, 0x60000000c0000002, 0, 0x11];
    holds(&rt, is_made::<2>(alloc, false, 31, &across, &want));
    let ends = [point(0, (0, 0), 1), point(3, (0, 0), 2)];
    let want = [0x0000000002000000, 0x0c00000000000000, 1, 2];
    holds(&rt, is_made::<2>(alloc, false, 0, &ends, &want));
    let both = [child(0, (2, 0)), point(1, (1, 0), 9)];
    let want = [0x0200000002000001, 0x9900000000000000, 9];
    holds(&rt, is_made::<1>(alloc, false, 2, &both, &want));
    let pair = [point(0, (1, 3), 7), child(3, (2, 0))];
    let want = [0x0200000002000001, 0x4de0000000000000, 7];
    holds(&rt, is_made::<2>(alloc, false, 2, &pair, &want));
}

#[test]
fn cube_records_by_hand(rt: HostRuntime) {
    let alloc = rt.alloc();
    let three = [
        point(0, (0, 0), 1),
        point(1, (0, 0), 3),
        point(3, (0, 0), 2),
    ];
    let want = [0x0001000003000000, 0x5100000000000000, 1, 3, 2];
    holds(&rt, is_made::<2>(alloc, true, 0, &three, &want));
    let both = [child(0, (2, 0)), point(1, (1, 0), 9)];
    let want = [0x0201000002000001, 0x9900000000000000, 9];
    holds(&rt, is_made::<1>(alloc, true, 2, &both, &want));
    let full = [
        point(0, (1, 0), 5),
        point(1, (0, 0), 6),
        child(2, (0, 0)),
        point(3, (1, 1), 8),
    ];
    let want = [0x0101000004000001, 0x5983000000000000, 5, 6, 8];
    holds(&rt, is_made::<2>(alloc, true, 1, &full, &want));
}

#[test]
fn all_small_records(rt: HostRuntime) {
    for level in 0..4 {
        holds_for(&rt, are_all_back::<1>(rt.alloc(), level, 9), &level);
        holds_for(&rt, are_all_back::<2>(rt.alloc(), level, 81), &level);
    }
}

// What is found by an address in a record of three entries.
macro_rules! find_in_three {
    ($layout:ident, $rt:expr, $words:expr) => {{
        holds($rt, $layout::find($words, 2, 3) == Some(2));
        holds($rt, $layout::find($words, 2, 2).is_none());
        holds($rt, $layout::next_at_or_after($words, 2, 2) == Some(2));
        holds($rt, $layout::find_entry($words, 2, 1).is_some());
    }};
}

// What is read at a place of it.
macro_rules! read_in_three {
    ($layout:ident, $rt:expr, $words:expr) => {{
        let entry = $layout::entry($words, 2, 2);
        holds($rt, (entry.addr, entry.child, entry.rank) == (3, false, 1));
        holds($rt, (entry.body[0], entry.body[1], entry.body[2]) == (2, 1, 0));
        holds($rt, $layout::address($words, 2, 1) == 1);
        holds($rt, $layout::is_child($words, 2, 1));
        holds($rt, $layout::rank($words, 2, 2) == 1);
    }};
}

fn find_in_linear(rt: &impl Abort, words: &[u64])
    requires { IsRecord false 2 words.now }
{
    find_in_three!(linear_calls, rt, words)
}

fn read_in_linear(rt: &impl Abort, words: &[u64])
    requires record { IsRecord false 2 words.now }
    requires count { (first_in words.now).entries ≡ 3 }
{
    read_in_three!(linear_calls, rt, words)
}

fn find_in_cube(rt: &impl Abort, words: &[u64])
    requires { IsRecord true 2 words.now }
{
    find_in_three!(cube_calls, rt, words)
}

fn read_in_cube(rt: &impl Abort, words: &[u64])
    requires record { IsRecord true 2 words.now }
    requires count { (first_in words.now).entries ≡ 3 }
{
    read_in_three!(cube_calls, rt, words)
}

#[test]
fn reads_of_each_layout(rt: HostRuntime) {
    let three = [point(0, (1, 2), 5), child(1, (3, 0)), point(3, (2, 1), 7)];
    let linear = record_of::<2>(rt.alloc(), false, 2, &three).expect(&rt, "no linear record");
    find_in_linear(&rt, linear.as_slice());
    read_in_linear(&rt, linear.as_slice());
    holds(&rt, linear_calls::bits_of(2, 3, 2) == 21);
    let cube = record_of::<2>(rt.alloc(), true, 2, &three).expect(&rt, "no cube record");
    find_in_cube(&rt, cube.as_slice());
    read_in_cube(&rt, cube.as_slice());
    holds(&rt, cube_calls::bits_of(2, 3, 2) == 24);
}
