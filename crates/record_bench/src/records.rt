//! Records of points.

ghost use Rattle.std.specs.Prelude.{◌≡◌, ◌+◌, ◌<◌, ◌^◌};
ghost use Rattle.ph_specs.specs.RecordNames.{words_for};
ghost use Rattle.ph_model.specs.ModelNames.{IsRecord};
ghost use Rattle.record_bench.specs.Listed.{digits};

use crate::layouts::Layout;
use crate::points::Points;
use ph_bits::{NoMemory, Words};
use ph_coord::Dims;
use ph_linear::count_in;
use std::alloc::Global;
use std::marker::PhantomData;

/// A record in a layout. Each read gives a number made of what was read, so that none can be left out.
#[derive(Drop)]
pub struct Record<P: Dims, L: Layout<P>> {
    words: Words,
    dims: PhantomData<P>,
    layout: PhantomData<L>,
    ghost record: { IsRecord L.cube P.D words.words },
}

/// How many words the record of points has.
pub fn room_for<P: Dims, L: Layout<P>>(points: &Points<P>) -> usize
    ensures value { result ≡ 1 + words_for (digits L.cube P.D points.now.level points.now.count) + points.now.count }
    ensures limit { result < 2 ^ 21 }
{
    1 + L::bits_of(points).div_ceil(64) as usize + points.count as usize
}

impl<P: Dims, L: Layout<P>> Record<P, L> {
    /// The record of points.
    pub fn new(alloc: Global, points: &Points<P>) -> Result<Record<P, L>, NoMemory> {
        let room = room_for::<P, L>(points);
        let mut words = Words::with_room(alloc, room)?;
        L::write(&mut words, points);
        Ok(Record {
            words,
            dims: PhantomData,
            layout: PhantomData,
        })
    }

    /// The place of an address, or 0.
    #[inline(always)]
    pub fn find(&self, addr: u32) -> u64 {
        if addr as u64 >> P::D != 0 {
            return 0;
        }
        place(L::find(self.words.as_slice(), addr))
    }

    /// The place of the first entry at or behind an address, or 0.
    #[inline(always)]
    pub fn next(&self, addr: u32) -> u64 {
        place(L::next_at_or_after(self.words.as_slice(), addr))
    }

    /// The sum of the address, the fields and the rank of entry `i`.
    #[inline(always)]
    pub fn entry(&self, i: u32) -> u64 {
        let words = self.words.as_slice();
        if i as u64 >= count_in(words) {
            return 0;
        }
        let read = L::entry(words, i as usize);
        let mut sum = (read.addr as u64).wrapping_add(read.rank as u64);
        for field in &read.body {
            sum = sum.wrapping_add(*field);
        }
        sum
    }
}

fn place(found: Option<usize>) -> u64 {
    match found {
        Some(i) => i as u64,
        None => 0,
    }
}
