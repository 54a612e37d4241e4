//! The two layouts by one trait.

ghost use Rattle.std.specs.Prelude.{◌≡◌, ◌+◌, ◌^◌, ◌<◌, ◌≤◌, Bool};
ghost use Rattle.ph_specs.specs.RecordNames.{words_for, record_in, first_in};
ghost use Rattle.ph_model.specs.ModelNames.{IsRecord};
ghost use Rattle.ph_bits.specs.Block.{room_of};
ghost use Rattle.record_bench.specs.Listed.{points, digits};

use crate::points::Points;
use ph_bits::{Packed, Words};
use ph_coord::Dims;

/// The calls of a layout that are timed.
pub trait Layout<P: Dims> {
    ghost cube: { Bool };

    /// The digits of the tables of a record of these points.
    fn bits_of(from: &Points<P>) -> u64
        ensures { result ≡ digits cube P.D from.now.level from.now.count };

    fn write(words: &mut Words, from: &Points<P>)
        requires room { 1 + words_for (digits cube P.D from.now.level from.now.count) + from.now.count ≤ room_of words.old }
        ensures words { words.new.words ≡ record_in cube P.D from.now.level (points P.D from.now.count 0 from.now.step from.now.field) }
        ensures room { room_of words.new ≡ room_of words.old };

    fn find(words: &[u64], addr: u32) -> Option<usize>
        requires record { IsRecord cube P.D words.now }
        requires address { addr < 2 ^ P.D };

    fn entry(words: &[u64], i: usize) -> Packed
        requires record { IsRecord cube P.D words.now }
        requires within { i < (first_in words.now).entries };

    fn next_at_or_after(words: &[u64], addr: u32) -> Option<usize>
        requires record { IsRecord cube P.D words.now };
}

/// The linear layout.
pub struct Linear;

/// The cube layout.
pub struct Cube;

impl<P: Dims> Layout<P> for Linear {
    ghost use Rattle.std.specs.Prelude.{false};

    ghost cube = { false };

    #[inline(always)]
    fn bits_of(from: &Points<P>) -> u64 {
        ph_linear::by_dims::bits_of(P::D, from.count, from.level)
    }

    #[inline(always)]
    fn write(words: &mut Words, from: &Points<P>) {
        ph_linear::by_dims::write::<P, Points<P>>(words, from.level, from);
    }

    #[inline(always)]
    fn find(words: &[u64], addr: u32) -> Option<usize> {
        ph_linear::by_dims::find(words, P::D, addr)
    }

    #[inline(always)]
    fn entry(words: &[u64], i: usize) -> Packed {
        ph_linear::by_dims::entry(words, P::D, i)
    }

    #[inline(always)]
    fn next_at_or_after(words: &[u64], addr: u32) -> Option<usize> {
        ph_linear::by_dims::next_at_or_after(words, P::D, addr)
    }
}

impl<P: Dims> Layout<P> for Cube {
    ghost use Rattle.std.specs.Prelude.{true};

    ghost cube = { true };

    #[inline(always)]
    fn bits_of(from: &Points<P>) -> u64 {
        ph_cube::by_dims::bits_of(P::D, from.count, from.level)
    }

    #[inline(always)]
    fn write(words: &mut Words, from: &Points<P>) {
        ph_cube::by_dims::write::<P, Points<P>>(words, from.level, from);
    }

    #[inline(always)]
    fn find(words: &[u64], addr: u32) -> Option<usize> {
        ph_cube::by_dims::find(words, P::D, addr)
    }

    #[inline(always)]
    fn entry(words: &[u64], i: usize) -> Packed {
        ph_cube::by_dims::entry(words, P::D, i)
    }

    #[inline(always)]
    fn next_at_or_after(words: &[u64], addr: u32) -> Option<usize> {
        ph_cube::by_dims::next_at_or_after(words, P::D, addr)
    }
}
