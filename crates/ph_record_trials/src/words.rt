//! Fields, blocks and rows of words, with digits that are read one by one.

ghost use Rattle.std.specs.Prelude.{◌+◌, ◌<◌, ◌≤◌, ◌^◌};

use ph_bits::{
    Block, Pen, Words, field, is_row, is_row_between, join_row, move_down, move_up, ones_before,
    row, row_distance, set_field,
};
use std::alloc::Global;
use std::mem::size_of;
use std::process::Abort;

// Four words without a pattern.
const WORDS: [u64; 4] = [
    0x243f_6a88_85a3_08d3,
    0x1319_8a2e_0370_7344,
    0xa409_3822_299f_31d0,
    0x082e_fa98_ec4e_6c89,
];

// A digit of the words, read by itself.
fn digit(words: &[u64; 4], place: u64) -> u64
    requires { place < 256 }
{
    let word = words[(place / 64) as usize];
    (word >> (63 - place % 64) as u32) & 1
}

// A field that is read digit by digit.
fn by_digits(words: &[u64; 4], at: u64, width: u32) -> u64
    requires { at + width ≤ 256 }
{
    let mut number = 0;
    for i in 0..width {
        number = (number << 1) | digit(words, at + i as u64);
    }
    number
}

#[test]
fn fields_at_every_place(rt: HostRuntime) {
    for width in 1..65 {
        for at in 0..128 {
            let read = field(&WORDS, at, width);
            let ones = ones_before(&WORDS, at, width as u64);
            let same = read == by_digits(&WORDS, at, width) && ones == read.count_ones() as u64;
            assert!(rt; same, "{width} digits at {at}");
        }
    }
}

// The first digits of a word as a number.
fn front(word: u64, width: u32) -> u64
    requires { (1 ≤ width) × (width ≤ 64) }
    ensures { result < 2 ^ width }
{
    word >> (64 - width)
}

// Whether the digits of words are as they were, but for those of a field.
fn is_only_in(words: &[u64; 4], at: u64, width: u64) -> bool
    requires { at + width ≤ 256 }
{
    are_moved(words, 0, &WORDS, 0, at)
        && are_moved(words, at + width, &WORDS, at + width, 256 - (at + width))
}

// Whether a field that is put is there, and nothing else is changed.
fn is_put(at: u64, width: u32) -> bool
    requires at { at ≤ 128 }
    requires width { (1 ≤ width) × (width ≤ 64) }
{
    let v = front(WORDS[0], width);
    let mut words = WORDS;
    set_field(&mut words, at, width, v);
    by_digits(&words, at, width) == v && is_only_in(&words, at, width as u64)
}

#[test]
fn fields_put_at_every_place(rt: HostRuntime) {
    for width in 1..65 {
        for at in 0..128 {
            assert!(rt; is_put(at, width), "{width} digits at {at}");
        }
    }
}

#[test]
fn many_ones(rt: HostRuntime) {
    let all = [u64::MAX, 0, u64::MAX, u64::MAX];
    for (at, n, want) in [
        (0, 0, 0),
        (0, 256, 192),
        (63, 2, 1),
        (64, 64, 0),
        (1, 254, 190),
        (128, 128, 128),
    ] {
        assert!(rt; ones_before(&all, at, n) == want, "{n} digits at {at}");
    }
}

// Whether all words are zeros.
fn are_zeros(words: &[u64]) -> bool {
    words.iter().all(|word| *word == 0)
}

// Whether a block has so many zeros, and room for no more.
fn is_zeros(words: &Words, len: usize) -> bool {
    words.room() == len && words.len() == len && words.as_slice().iter().all(|word| *word == 0)
}

// A block of zeros, and what a reset leaves of it.
fn check_block(rt: &impl Abort, alloc: Global, len: usize)
    requires { len < 2 ^ 21 }
{
    let mut words = Words::zeroed(alloc, len).expect(rt, "memory");
    assert!(rt; is_zeros(&words, len));
    if len > 0 {
        words.set(0, u64::MAX);
        assert!(rt; words.get(0) == u64::MAX);
    }
    words.reset(len);
    assert!(rt; is_zeros(&words, len));
    words.reset(0);
    assert!(rt; words.len() == 0 && words.room() == len);
    if len > 1 {
        check_pushes(rt, &mut words);
    }
}

// Two words are put into a block, and one is left of them.
fn check_pushes(rt: &impl Abort, words: &mut Words)
    requires { 2 ≤ words.old.spare }
{
    let room = words.room();
    words.push(9);
    words.push(5);
    assert!(rt; words.as_slice() == [9, 5].as_slice());
    words.truncate(1);
    assert!(rt; words.as_slice() == [9].as_slice());
    assert!(rt; words.room() == room);
}

#[test]
fn blocks(rt: HostRuntime) {
    assert!(rt; size_of::<Words>() == 16);
    check_block(&rt, rt.alloc(), 0);
    check_block(&rt, rt.alloc(), 1);
    check_block(&rt, rt.alloc(), 1000);
}

#[test]
fn field_across_words(rt: HostRuntime) {
    let mut words = Words::zeroed(rt.alloc(), 2).expect(&rt, "memory");
    set_field(words.as_mut_slice(), 60, 8, 0xab);
    assert!(rt; words.as_slice() == [0xa, 0xb000_0000_0000_0000].as_slice());
}

// Whether a block has these words, so many spare places and these values.
fn shows(block: &Block<Box<u64>>, words: &[u64], spare: usize, values: &[u64]) -> bool {
    let mut same = block.words() == words && block.spare() == spare;
    if block.count() != values.len() {
        return false;
    }
    for i in 0..values.len() {
        same = same && **block.value(i) == values[i];
    }
    same
}

// A block with the words 7, 8, and room for four more or for values.
fn small_block(rt: &impl Abort, alloc: Global) -> Block<Box<u64>> {
    let mut words = Words::with_room(alloc, 6).expect(rt, "memory");
    words.push(7);
    words.push(8);
    Block::of(words)
}

// The blocks are lent to what follows, so that each is let go in one place alone.
fn insert(rt: &impl Abort, block: &mut Block<Box<u64>>, rank: usize, number: u64) {
    let value = Box::new(block.allocator(), number).expect(rt, "memory");
    assert!(rt; block.spare() > 0);
    assert!(rt; rank <= block.count());
    block.insert(rank, value);
}

fn remove(rt: &impl Abort, block: &mut Block<Box<u64>>, rank: usize) -> u64 {
    assert!(rt; rank < block.count());
    *block.remove(rank)
}

fn check_inserts(rt: &impl Abort, block: &mut Block<Box<u64>>) {
    assert!(rt; shows(block, &[7, 8], 4, &[]));
    for (rank, number, spare, want) in [
        (0, 1, 3, [1].as_slice()),
        (1, 2, 2, [1, 2].as_slice()),
        (0, 3, 1, [3, 1, 2].as_slice()),
        (2, 4, 0, [3, 1, 4, 2].as_slice()),
    ] {
        insert(rt, block, rank, number);
        assert!(rt; shows(block, &[7, 8], spare, want));
    }
}

fn check_removes(rt: &impl Abort, block: &mut Block<Box<u64>>) {
    block.reverse();
    assert!(rt; shows(block, &[7, 8], 0, &[2, 4, 1, 3]));
    for (rank, number, spare, want) in [
        (2, 1, 1, [2, 4, 3].as_slice()),
        (0, 2, 2, [4, 3].as_slice()),
        (1, 3, 3, [4].as_slice()),
    ] {
        assert!(rt; remove(rt, block, rank) == number);
        assert!(rt; shows(block, &[7, 8], spare, want));
    }
}

#[test]
fn values_by_rank(rt: HostRuntime) {
    assert!(rt; size_of::<Block<Box<u64>>>() == 8);
    let mut block = small_block(&rt, rt.alloc());
    check_inserts(&rt, &mut block);
    check_removes(&rt, &mut block);
}

// Puts 1, 2, 3 in front, and a word behind the words.
fn fill(rt: &impl Abort, block: &mut Block<Box<u64>>) {
    for number in [3, 2, 1] {
        let value = Box::new(block.allocator(), number).expect(rt, "memory");
        assert!(rt; block.spare() > 0);
        block.put_first(value);
    }
    assert!(rt; block.spare() > 0);
    block.push(9);
}

// Writes over words and a value where they lie, and leaves one word.
fn check_writes(rt: &impl Abort, block: &mut Block<Box<u64>>) {
    assert!(rt; block.len() == 3);
    block.set(0, 6);
    block.words_mut().reverse();
    assert!(rt; block.count() == 3);
    **block.value_mut(1) = 5;
    assert!(rt; shows(block, &[9, 8, 6], 0, &[1, 5, 3]));
    assert!(rt; block.len() == 3);
    block.truncate(1);
    assert!(rt; shows(block, &[9], 2, &[1, 5, 3]));
}

// Moves the values of one block into another.
fn check_taken(rt: &impl Abort, block: &mut Block<Box<u64>>, other: &mut Block<Box<u64>>) {
    assert!(rt; other.count() == 0);
    assert!(rt; block.count() <= other.spare());
    other.take_values(block);
    assert!(rt; shows(block, &[9], 5, &[]));
    assert!(rt; shows(other, &[7, 8], 1, &[1, 5, 3]));
    assert!(rt; other.values().len() == 3);
    other.values_mut().reverse();
    assert!(rt; shows(other, &[7, 8], 1, &[3, 5, 1]));
}

#[test]
fn values_beside_words(rt: HostRuntime) {
    let mut block = small_block(&rt, rt.alloc());
    fill(&rt, &mut block);
    check_writes(&rt, &mut block);
    let mut other = small_block(&rt, rt.alloc());
    check_taken(&rt, &mut block, &mut other);
}

#[test]
fn written_fields(rt: HostRuntime) {
    let mut words = Words::with_room(rt.alloc(), 4).expect(&rt, "memory");
    words.push(7);
    let mut pen = Pen::new();
    pen.put(&mut words, 4, 0xa);
    pen.put(&mut words, 0, 0);
    pen.put(&mut words, 63, 0x7bcd_ef01_2345_6789);
    pen.put_row(
        &mut words,
        12,
        3,
        &[0xabc, 0xdef, 0x012, 0, 0, 0, 0, 0, 0, 0, 0, 0, 0, 0, 0, 0],
    );
    pen.finish(&mut words);
    words.push(8);
    let want = [7, 0xaf79_bde0_2468_acf1, 0x3579_bde0_2400_0000, 8];
    assert!(rt; words.as_slice() == want.as_slice());
}

// Whether three numbers that are read are those of the row there, and are not with another digit, but for what is below it.
fn are_rows(at: u64, width: u32) -> bool
    requires at { at ≤ 30 }
    requires width { width ≤ 40 }
{
    let body = row(&WORDS, at, width, 3);
    let numbers = [body[0], body[1], body[2]];
    let other = [body[0], body[1], body[2] ^ 1];
    let even = (body[0] | body[1] | body[2]) & 1 == 0;
    is_row(&WORDS, at, width, 0, &numbers)
        && !is_row(&WORDS, at, width, 0, &other)
        && is_row(&WORDS, at, width, 1, &other) == even
}

#[test]
fn rows_beside_numbers(rt: HostRuntime) {
    for width in 1..40 {
        for at in 0..30 {
            assert!(rt; are_rows(at, width), "{width} digits at {at}");
        }
    }
}

#[test]
fn rows_behind_digits(rt: HostRuntime) {
    let mut known = [0xf00, 0x100, 0x3ff];
    join_row(&[0xabcd_ef00_0000_0000], 0, 8, 0b101, &mut known);
    assert!(rt; known == [0xfab, 0x0cd, 0x3ef]);
    let mut wide = [0, 1 << 61, 1];
    join_row(&WORDS, 64, 60, 0b010, &mut wide);
    let first = [
        field(&WORDS, 64, 60),
        (1 << 61) + (1 << 60) + field(&WORDS, 124, 60),
        field(&WORDS, 184, 60),
    ];
    assert!(rt; wide == first);
}

#[test]
fn rows_between_bounds(rt: HostRuntime) {
    let words = [0xabcd_ef00_0000_0000];
    let known = [0xf00, 0x100, 0x3ff];
    for (low, high, want) in [
        ([0xfab, 0x0cd, 0x3ef], [0xfab, 0x0cd, 0x3ef], true),
        ([0xfac, 0, 0], [0xfff, 0xfff, 0xfff], false),
        ([0, 0, 0], [0xfff, 0x0cc, 0xfff], false),
        ([0, 0, 0x3f0], [0xfff, 0xfff, 0xfff], false),
    ] {
        assert!(rt; is_row_between(&words, 0, 8, 0b101, &known, &low, &high) == want);
    }
}

#[test]
fn rows_apart(rt: HostRuntime) {
    let words = [0xabcd_ef00_0000_0000];
    let known = [0xf00, 0x100, 0x3ff];
    for (others, limit, want) in [
        ([0xfab, 0x0cd, 0x3ef], 0, Some(0)),
        ([0xfa8, 0x0cd, 0x3f3], 25, Some(25)),
        ([0xfa8, 0x0cd, 0x3f3], 24, None),
        ([0xfa8, 0x0cd, 0x3f3], 8, None),
        ([0, 0x0cd, 0x3ef], u128::MAX, Some(4011 * 4011)),
    ] {
        let distance = row_distance(&words, 0, 8, 0b101, &known, &others, limit);
        assert!(rt; distance == want, "at most {limit}");
    }
}

// Whether the digits of one list at a place are those of another at another.
fn are_moved(words: &[u64; 4], to: u64, old: &[u64; 4], from: u64, len: u64) -> bool
    requires to { to + len ≤ 256 }
    requires from { from + len ≤ 256 }
{
    for i in 0..len {
        if digit(words, to + i) != digit(old, from + i) {
            return false;
        }
    }
    true
}

// Whether digits that were moved are as wanted, and all others as they were.
fn is_move(words: &[u64; 4], from: u64, to: u64, len: u64) -> bool
    requires to { to + len ≤ 256 }
    requires from { from + len ≤ 256 }
{
    are_moved(words, to, &WORDS, from, len)
        && are_moved(words, 0, &WORDS, 0, to)
        && are_moved(words, to + len, &WORDS, to + len, 256 - (to + len))
}

// Whether digits are moved as wanted, down to a place and up from it.
fn is_moved_both_ways(low: u64, more: u64, len: u64) -> bool
    requires { low + more + len ≤ 256 }
{
    let mut down = WORDS;
    move_down(&mut down, low + more, low, len);
    let mut up = WORDS;
    move_up(&mut up, low, low + more, len);
    is_move(&down, low + more, low, len) && is_move(&up, low, low + more, len)
}

#[test]
fn digits_moved_down_and_up(rt: HostRuntime) {
    for i in 0..6u64 {
        for j in 0..6u64 {
            for k in 0..12u64 {
                let (low, more, len) = (3 * i, 16 * j, 14 * k);
                assert!(rt;
                    is_moved_both_ways(low, more, len),
                    "{len} digits by {more} at {low}"
                );
            }
        }
    }
}
