//! Cube records by hand of one, two, three and eight dimensions, into which a point is put, and out of which it is taken again, where
//! they lie.

ghost use Rattle.std.specs.Prelude.{◌≡◌, ◌-◌, ◌≤◌, true, false, Some, length, map, take, slice_get};
ghost use Rattle.ph_specs.specs.RecordNames.{first_in};
ghost use Rattle.ph_model.specs.ModelNames.{IsRecord, AreRising, entries_as, is_child};
ghost use Rattle.ph_bits.specs.Edits.{edited_as};
ghost use Rattle.ph_cube.specs.Edited.{IsEditAt};
ghost use Rattle.ph_record_trials.specs.Edits.{insert_of, remove_of};

use super::claims::holds;
use super::is_front;
use ph_bits::{Edit, Packed};
use ph_cube::by_dims::{insert_point, remove_point};

// Whether a point that is put into a record makes another record.
fn is_put(
    words: &mut [u64],
    dims: usize,
    at: (usize, u32),
    body: [u64; 16],
    value: u64,
    want: &[u64],
) -> bool
    requires some { 1 ≤ length words.old }
    requires record { IsRecord true dims (take (length words.old - 1) words.old) }
    requires edit { IsEditAt dims (take (length words.old - 1) words.old) (insert_of at body value) at.1 }
    requires entries { AreRising dims (first_in (take (length words.old - 1) words.old)).level 0
        (edited_as true dims (take (length words.old - 1) words.old) (insert_of at body value)) }
{
    let edit = edit_at!(at, 0, 1, false, body, value);
    insert_point(words, dims, &edit, at.1);
    *words == *want
}

// Whether a point that is taken out of a record leaves another record.
fn is_taken(words: &mut [u64], dims: usize, at: (usize, u32), want: &[u64]) -> bool
    requires record { IsRecord true dims words.old }
    requires edit { IsEditAt dims words.old (remove_of at) at.1 }
    requires was { slice_get (map is_child (entries_as true dims words.old)) at.0 ≡ Some false }
    requires entries { AreRising dims (first_in words.old).level 0 (edited_as true dims words.old (remove_of at)) }
{
    let edit = edit_at!(at, 1, 0, false, [9; 16], 0);
    let len = remove_point(words, dims, &edit, at.1);
    is_front(words, len, want)
}

// Each row is a place and its address, the body and the value of a point, and the records without it and with it: the point is put
// into the one, and taken out of the other.
macro_rules! try_rows {
    ($rt:ident, $dims:literal, $(
        $place:literal at $addr:literal: [$($field:literal),*] = $value:literal: [$($without:literal),*] or [$($with:literal),*];
    )*) => {
        $({
            let mut words = [$($without,)* u64::MAX];
            holds(&$rt, is_put(&mut words, $dims, ($place, $addr), body!($($field),*), $value, &[$($with),*]));
            let mut words = [$($with),*];
            holds(&$rt, is_taken(&mut words, $dims, ($place, $addr), &[$($without),*]));
        })*
    };
}

// At the lowest level, where no entry has a body, and with the longest fields.
#[test]
fn points_of_one_dimension(rt: HostRuntime) {
    try_rows! { rt, 1,
        0 at 0: [0] = 90:
            [0x0001000001000000, 0x1000000000000000, 6]
            or [0x0001000002000000, 0x5000000000000000, 90, 6];
        1 at 1: [0] = 91:
            [0x0001000001000000, 0x4000000000000000, 5]
            or [0x0001000002000000, 0x5000000000000000, 5, 91];
        0 at 0: [543804029693342780] = 90:
            [0x3d01000001000000, 0x1000000000000000, 0x1027c4d30e1aef10, 6]
            or [0x3d01000002000000, 0x53c5fd7120a61a1e, 0x1027c4d30e1aef10, 90, 6];
        1 at 1: [1750666214957304859] = 91:
            [0x3d01000001000001, 0x8f1ca20c3988ec51, 0x8000000000000000]
            or [0x3d01000002000001, 0x9f1ca20c3988ec51, 0xe12e76969b3b306c, 91];
    }
}

// Each address, between points and a child.
#[test]
fn points_of_two_dimensions(rt: HostRuntime) {
    try_rows! { rt, 2,
        0 at 0: [3, 3] = 90:
            [0x0201000002000001, 0x2104080000000000, 8]
            or [0x0201000003000001, 0x61f4080000000000, 90, 8];
        1 at 1: [3, 0] = 91:
            [0x0201000002000000, 0x41f0040000000000, 5, 8]
            or [0x0201000003000000, 0x51fc040000000000, 5, 91, 8];
        2 at 2: [0, 2] = 92:
            [0x0201000003000001, 0x61f3090000000000, 5, 8]
            or [0x0201000004000001, 0x65f3290000000000, 5, 92, 8];
        2 at 3: [3, 1] = 93:
            [0x0201000002000001, 0x6000000000000000, 5]
            or [0x0201000003000001, 0x61000d0000000000, 5, 93];
    }
}

#[test]
fn points_of_three_dimensions_in_one_word(rt: HostRuntime) {
    try_rows! { rt, 3,
        0 at 0: [0, 1, 0] = 90:
            [0x0101000003000000, 0x050400b030000000, 7, 8, 11]
            or [0x0101000004000000, 0x450440b030000000, 90, 7, 8, 11];
        1 at 1: [1, 0, 1] = 91:
            [0x0101000004000001, 0x8504c32000000000, 7, 8, 11]
            or [0x0101000005000001, 0x9504d72000000000, 91, 7, 8, 11];
        1 at 2: [1, 0, 1] = 92:
            [0x0101000003000001, 0x8104205008000000, 8, 11]
            or [0x0101000004000001, 0x850422d008000000, 92, 8, 11];
        2 at 3: [1, 1, 0] = 93:
            [0x0101000003000001, 0x8404218018000000, 7, 11]
            or [0x0101000004000001, 0x850421e018000000, 7, 93, 11];
    }
}

#[test]
fn points_of_three_dimensions_in_several_words(rt: HostRuntime) {
    try_rows! { rt, 3,
        2 at 4: [6, 31, 1] = 94:
            [0x0501000003000002, 0x600241207ff00000, 0x000000000000007b, 0x0d00000000000000, 5]
            or [0x0501000004000002, 0x604241207ff00000, 0x00037c200000007b, 0x0d00000000000000, 5, 94];
        3 at 5: [24, 13, 27] = 95:
            [0x0501000004000002, 0x6042c6c1c8b80000, 0x0003502000000004, 0x2000000000000000, 5, 9]
            or [0x0501000005000002, 0x6052c6c1c8b80000, 0x000350386ec00004, 0x2000000000000000, 5, 9, 95];
        3 at 6: [6, 11, 18] = 96:
            [0x0501000004000002, 0x60420bb9f7580000, 0x00073ba000000048, 0x3a00000000000000, 5, 9]
            or [0x0501000005000002, 0x60460bb9f7580000, 0x00073ba0000cb948, 0x3a00000000000000, 5, 9, 96];
        3 at 7: [30, 15, 25] = 97:
            [0x0501000003000001, 0x60403d76c9c80000, 0x000fe44000000000, 0, 5, 9]
            or [0x0501000004000001, 0x60413d76c9c80000, 0x000fe44000000079, 0xf900000000000000, 5, 9, 97];
    }
}

// The first address, the last one, and one whose kind is the last of a word.
#[test]
fn points_of_eight_dimensions(rt: HostRuntime) {
    try_rows! { rt, 8,
        0 at 0: [0] = 90:
            [0x0001000004000000, 0x0000000000000001, 0x4000000000000000, 0, 0x0040000000000000, 0, 0, 0, 0x0000000000000001, 36, 37, 105, 260]
            or [0x0001000005000000, 0x4000000000000001, 0x4000000000000000, 0, 0x0040000000000000, 0, 0, 0, 0x0000000000000001, 90, 36, 37, 105, 260];
        1 at 31: [0] = 121:
            [0x0001000004000000, 0x4000000000000000, 0x4000000000000000, 0, 0x0040000000000000, 0, 0, 0, 0x0000000000000001, 5, 37, 105, 260]
            or [0x0001000005000000, 0x4000000000000001, 0x4000000000000000, 0, 0x0040000000000000, 0, 0, 0, 0x0000000000000001, 5, 121, 37, 105, 260];
        4 at 255: [0] = 345:
            [0x0001000004000000, 0x4000000000000001, 0x4000000000000000, 0, 0x0040000000000000, 0, 0, 0, 0, 5, 36, 37, 105]
            or [0x0001000005000000, 0x4000000000000001, 0x4000000000000000, 0, 0x0040000000000000, 0, 0, 0, 0x0000000000000001, 5, 36, 37, 105, 345];
    }
}
