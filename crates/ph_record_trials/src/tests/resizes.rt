//! Points that are left out of linear records, and put into them, where the records lie.

ghost use Rattle.std.specs.Prelude.{◌≡◌, ◌<◌, ◌≤◌, false, Some, length, map, take, slice_get};
ghost use Rattle.ph_specs.specs.RecordNames.{record_in, first_in};
ghost use Rattle.ph_model.specs.ModelNames.{IsRecord, AreRising, entries_as, is_child};
ghost use Rattle.ph_bits.specs.Edits.{edited_as};
ghost use Rattle.ph_record_trials.specs.Edits.{insert_of, remove_of};

use super::claims::holds;
use super::is_front;
use ph_bits::{Edit, Packed};
use ph_linear::by_dims as linear;

// What stands in a word that is written over.
const SPARE: u64 = u64::MAX;

// Whether a record without a point of it is another record.
fn is_without(words: &mut [u64], dims: usize, at: (usize, u32), want: &[u64]) -> bool
    requires record { IsRecord false dims words.old }
    requires within { at.0 < (first_in words.old).entries }
    requires was { slice_get (map is_child (entries_as false dims words.old)) at.0 ≡ Some false }
    requires entries { AreRising dims (first_in words.old).level 0 (edited_as false dims words.old (remove_of at)) }
{
    let edit = edit_at!(at, 1, 0, false, [9; 16], 0);
    let len = linear::remove_point(words, dims, &edit);
    is_front(words, len, want)
}

// Whether a record of `len` words with a point more is another record.
fn is_with(
    words: &mut [u64],
    dims: usize,
    len: usize,
    at: (usize, u32),
    body: [u64; 16],
    value: u64,
    want: &[u64],
) -> bool
    requires front { len ≤ length words.old }
    requires record { IsRecord false dims (take len words.old) }
    requires within { at.0 ≤ (first_in (take len words.old)).entries }
    requires entries { AreRising dims (first_in (take len words.old)).level 0
        (edited_as false dims (take len words.old) (insert_of at body value)) }
    requires long { length words.old
        ≡ length (record_in false dims (first_in (take len words.old)).level (edited_as false dims (take len words.old) (insert_of at body value))) }
{
    let edit = edit_at!(at, 0, 1, false, body, value);
    linear::insert_point(words, dims, len, &edit);
    *words == *want
}

// Behind each record, each row is a place and its address, the body and the value of a point of it, the record without that, how many
// words this has, and as many words more as the record has.
macro_rules! try_rows {
    ($rt:ident, $dims:literal, $(
        in $with:tt: $(
            $place:literal at $addr:literal: [$($field:literal),*] = $value:literal
            without [$($without:literal),*], $len:literal then [$($spare:expr),*];
        )*
    )*) => {
        $($({
            let mut words = $with;
            holds(&$rt, is_without(&mut words, $dims, ($place, $addr), &[$($without),*]));
            let mut words = [$($without,)* $($spare),*];
            holds(&$rt, is_with(&mut words, $dims, $len, ($place, $addr), body!($($field),*), $value, &$with));
        })*)*
    };
}

#[test]
fn points_of_one_dimension(rt: HostRuntime) {
    try_rows! { rt, 1,
        in [0x200000002000001, 0x5b00000000000000, 0x14]:
        0 at 0: [2] = 20
            without [0x200000001000001, 0xf000000000000000], 2 then [SPARE];
        in [0x2800000002000001, 0x918a6a3a45030892, 0xf902b00000000000, 0x2f]:
        1 at 1: [208460025899] = 47
            without [0x2800000001000001, 0x8629a8e914000000], 2 then [SPARE, SPARE];
    }
}

#[test]
fn points_of_two_dimensions(rt: HostRuntime) {
    try_rows! { rt, 2,
        in [0x200000003000001, 0x4589e00000000000, 0x5, 0x1f]:
        0 at 0: [0, 1] = 5
            without [0x200000002000001, 0xacf0000000000000, 0x1f], 3 then [SPARE];
        2 at 3: [3, 0] = 31
            without [0x200000002000001, 0x484c000000000000, 0x5], 3 then [SPARE];
        in [0x1f00000004000000, 0x1b2e71efb3b2b52, 0x898fd8be11b92630, 0x591fac61e3963368, 0x51c4c68c80becd7b, 0x0, 0x8, 0x51, 0x7, 0x48]:
        0 at 0: [389609433, 1823296038] = 8
            without [0x1f00000003000000, 0xd9fb17c23724c60, 0xb23f58c3c72c66d0, 0xa3898d19017d9af6, 0x0, 0x51, 0x7, 0x48], 8 then [SPARE, SPARE];
        1 at 1: [531725347, 958804057] = 81
            without [0x1f00000003000000, 0x59738f7d9d95a94, 0x4c3f58c3c72c66d0, 0xa3898d19017d9af6, 0x0, 0x8, 0x7, 0x48], 8 then [SPARE, SPARE];
        2 at 2: [265695473, 1703729684] = 7
            without [0x1f00000003000000, 0x39738f7d9d95a94, 0x4c7ec5f08dc93182, 0xcb898d19017d9af6, 0x0, 0x8, 0x51, 0x48], 8 then [SPARE, SPARE];
        3 at 3: [949539216, 200071088] = 72
            without [0x1f00000003000000, 0x31738f7d9d95a94, 0x4c7ec5f08dc93182, 0xc8fd630f1cb19b42, 0x8000000000000000, 0x8, 0x51, 0x7], 8 then [SPARE, SPARE];
    }
}

#[test]
fn points_of_three_dimensions(rt: HostRuntime) {
    try_rows! { rt, 3,
        in [0x900000005000002, 0x51537444a35a789d, 0xae4d2c0be9007ad2, 0xfe6d682000000000, 0x13, 0xd, 0x3c]:
        0 at 1: [136, 296, 429] = 19
            without [0x900000004000002, 0xa5373c4ed7269605, 0xf4803d697f36b410, 0xd, 0x3c], 5 then [SPARE, SPARE];
        2 at 4: [105, 192, 381] = 13
            without [0x900000004000002, 0x62b7444a35a789da, 0xe4803d697f36b410, 0x13, 0x3c], 5 then [SPARE, SPARE];
        4 at 7: [508, 437, 321] = 60
            without [0x900000004000002, 0x52a6444a35a789da, 0xe4d2c0be9007ad20, 0x13, 0xd], 5 then [SPARE, SPARE];
    }
}

#[test]
fn points_of_eight_dimensions(rt: HostRuntime) {
    try_rows! { rt, 8,
        in [0x500000003000001, 0x4069bf5dbcdeb796, 0x7faf2443e9554ff4, 0x2252a00000000000, 0x44, 0x59]:
        0 at 3: [29, 23, 19, 15, 11, 15, 5, 19] = 68
            without [0x500000002000001, 0x937ebf5e4887d2aa, 0x9fe844a540000000, 0x59], 4 then [SPARE, SPARE];
        2 at 250: [21, 9, 31, 26, 2, 4, 20, 21] = 89
            without [0x500000002000001, 0x40d37b79bd6f2cff, 0x5e4887d280000000, 0x44], 4 then [SPARE, SPARE];
    }
}

#[test]
fn points_of_sixteen_dimensions(rt: HostRuntime) {
    try_rows! { rt, 16,
        in [0x300000003000001, 0x400021f41ffff7f2, 0x672279a8e8f0e27b, 0x72be8b4d734526c7, 0x4000000000000000, 0x2e, 0x22]:
        0 at 1: [5, 7, 7, 1, 1, 4, 7, 1, 0, 4, 7, 4, 6, 5, 0, 7] = 46
            without [0x300000002000001, 0x83e83fffd1e1c4f6, 0xe57d169ae68a4d8e, 0x8000000000000000, 0x22], 5 then [SPARE, SPARE];
        2 at 65535: [2, 6, 4, 6, 5, 6, 3, 2, 1, 2, 2, 3, 3, 0, 7, 2] = 34
            without [0x300000002000001, 0x400043e82fe4ce44, 0xf351d1e1c4f6e57d, 0x0, 0x2e], 5 then [SPARE, SPARE];
    }
}
