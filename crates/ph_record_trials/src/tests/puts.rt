//! Records by hand of two dimensions at level 2, in which an entry becomes a child or a point where it lies.

ghost use Rattle.std.specs.Prelude.{◌≡◌, ◌-◌, ◌<◌, ◌≤◌, true, false, Some, length, map, take, slice_get};
ghost use Rattle.ph_specs.specs.RecordNames.{first_in};
ghost use Rattle.ph_model.specs.ModelNames.{IsRecord, AreRising, entries_as, read_address, is_child};
ghost use Rattle.ph_bits.specs.Edits.{edited_as};
ghost use Rattle.ph_cube.specs.Edited.{IsEditAt};
ghost use Rattle.ph_record_trials.specs.Edits.{child_of, point_of};

use super::claims::holds;
use super::is_front;
use ph_bits::{Edit, Packed};
use ph_cube::by_dims as cube;
use ph_linear::by_dims as linear;

// Whether an entry of a linear record that becomes a child makes another record.
fn is_linear_child(words: &mut [u64], at: (usize, u32), body: [u64; 16], want: &[u64]) -> bool
    requires record { IsRecord false 2 words.old }
    requires within { at.0 < (first_in words.old).entries }
    requires address { slice_get (map read_address (entries_as false 2 words.old)) at.0 ≡ Some at.1 }
    requires entries { AreRising 2 (first_in words.old).level 0 (edited_as false 2 words.old (child_of at body)) }
{
    let edit = edit_at!(at, 1, 1, true, body, 0);
    let len = linear::put_child(words, 2, &edit);
    is_front(words, len, want)
}

// Whether a child of a linear record that becomes a point makes another record.
fn is_linear_point(
    words: &mut [u64],
    at: (usize, u32),
    body: [u64; 16],
    value: u64,
    want: &[u64],
) -> bool
    requires some { 1 ≤ length words.old }
    requires record { IsRecord false 2 (take (length words.old - 1) words.old) }
    requires was { slice_get (map is_child (entries_as false 2 (take (length words.old - 1) words.old))) at.0 ≡ Some true }
    requires address { slice_get (map read_address (entries_as false 2 (take (length words.old - 1) words.old))) at.0 ≡ Some at.1 }
    requires entries { AreRising 2 (first_in (take (length words.old - 1) words.old)).level 0
        (edited_as false 2 (take (length words.old - 1) words.old) (point_of at body value)) }
{
    let edit = edit_at!(at, 1, 1, false, body, value);
    linear::put_point(words, 2, &edit);
    *words == *want
}

// Whether an entry of a cube record that becomes a child makes another record.
fn is_cube_child(words: &mut [u64], at: (usize, u32), body: [u64; 16], want: &[u64]) -> bool
    requires record { IsRecord true 2 words.old }
    requires edit { IsEditAt 2 words.old (child_of at body) at.1 }
    requires entries { AreRising 2 (first_in words.old).level 0 (edited_as true 2 words.old (child_of at body)) }
{
    let edit = edit_at!(at, 1, 1, true, body, 0);
    let len = cube::put_child(words, 2, &edit, at.1);
    is_front(words, len, want)
}

// Whether a child of a cube record that becomes a point makes another record.
fn is_cube_point(
    words: &mut [u64],
    at: (usize, u32),
    body: [u64; 16],
    value: u64,
    want: &[u64],
) -> bool
    requires some { 1 ≤ length words.old }
    requires record { IsRecord true 2 (take (length words.old - 1) words.old) }
    requires edit { IsEditAt 2 (take (length words.old - 1) words.old) (point_of at body value) at.1 }
    requires was { slice_get (map is_child (entries_as true 2 (take (length words.old - 1) words.old))) at.0 ≡ Some true }
    requires entries { AreRising 2 (first_in (take (length words.old - 1) words.old)).level 0
        (edited_as true 2 (take (length words.old - 1) words.old) (point_of at body value)) }
{
    let edit = edit_at!(at, 1, 1, false, body, value);
    cube::put_point(words, 2, &edit, at.1);
    *words == *want
}

// Makes a point of a record into a child, and the child into the point.
macro_rules! there_and_back {
    ($rt:ident, $at:ident, $is_child:ident, $child_body:ident, [$($child:literal),*], $is_point:ident, $point_body:ident, $value:literal, [$($point:literal),*]) => {
        let mut words = [$($point),*];
        holds(&$rt, $is_child(&mut words, $at, $child_body, &[$($child),*]));
        let mut words = [$($child,)* u64::MAX];
        holds(&$rt, $is_point(&mut words, $at, $point_body, $value, &[$($point),*]));
    };
}

// Each row is a place and its address, the body of a child, and the body and the value of a point, and in each layout the record with
// the child and the record with the point.
macro_rules! try_rows {
    ($rt:ident, $(
        $place:literal at $addr:literal: [$cx:literal, $cy:literal] or [$px:literal, $py:literal] = $value:literal:
            linear $linear_child:tt or $linear_point:tt,
            cube $cube_child:tt or $cube_point:tt;
    )*) => {
        $({
            let (at, child, point) = (($place, $addr), body!($cx, $cy), body!($px, $py));
            there_and_back!($rt, at, is_linear_child, child, $linear_child, is_linear_point, point, $value, $linear_point);
            there_and_back!($rt, at, is_cube_child, child, $cube_child, is_cube_point, point, $value, $cube_point);
        })*
    };
}

// A record of points alone, one of children alone, and an entry between two.
#[test]
fn entries_put(rt: HostRuntime) {
    try_rows! { rt,
        1 at 2: [3, 1] or [0, 2] = 9:
            linear [0x0200000002000001, 0x4974000000000000, 8] or [0x0200000002000000, 0x0948000000000000, 8, 9],
            cube [0x0201000002000001, 0x4850d00000000000, 8] or [0x0201000002000000, 0x4450200000000000, 8, 9];
        0 at 1: [2, 0] or [3, 3] = 6:
            linear [0x0200000002000002, 0xde10000000000000] or [0x0200000002000001, 0x5fd0000000000000, 6],
            cube [0x0201000002000002, 0x2208040000000000] or [0x0201000002000001, 0x120f040000000000, 6];
        1 at 1: [0, 3] or [3, 0] = 6:
            linear [0x0200000003000001, 0x43b1c80000000000, 5, 7] or [0x0200000003000000, 0x03b6480000000000, 5, 6, 7],
            cube [0x0201000003000001, 0x6163090000000000, 5, 7] or [0x0201000003000000, 0x516c090000000000, 5, 6, 7];
    }
}

#[test]
fn child_gets_another_body(rt: HostRuntime) {
    let mut words = [0x0200000003000001, 0x43b1c80000000000, 5, 7];
    let want = [0x0200000003000001, 0x43b6480000000000, 5, 7];
    holds(&rt, is_linear_child(&mut words, (1, 1), body!(3, 0), &want));
    let mut words = [0x0201000003000001, 0x6163090000000000, 5, 7];
    let want = [0x0201000003000001, 0x616c090000000000, 5, 7];
    holds(&rt, is_cube_child(&mut words, (1, 1), body!(3, 0), &want));
}
