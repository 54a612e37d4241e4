//! The memory of a block: where it begins, the owner of its places, and the right to give it back. Nothing else in the crate
//! touches a pointer.

ghost use Rattle.std.specs.Prelude.{◌≡◌, ℕ, ◌+◌, ◌<◌, ◌≤◌, ◌^◌, ◌++◌, List, Option, Some, None, length, map, take, replicate, slice_set, IfOk};
ghost use base.Fml.{ftrue};
ghost use denote.RawPtr.{Ptr};
ghost use Rattle.ph_bits.specs.Memory.{block_owns, block_lent, right_owns};
ghost use Rattle.ph_bits.specs.Slots.{AreWritten, words_at, words_in};

use crate::NoMemory;
use std::alloc::Allocator;
use std::marker::{Model, PhantomData};
use std::mem::{align_of, size_of};
use std::slice;

// Where a block begins. It owns nothing.
#[derive(Clone, Copy)]
pub(crate) struct Start {
    pub(crate) at: *mut u64,
}

// The owner of the places. It takes no bytes.
pub(crate) struct Places {
    mark: PhantomData<*const u64>,
    ghost at: { Ptr },
    ghost slots: { List (Option ℕ) },
}

impl Model for Places {
    ghost also_owns = { λ p. block_owns p.at p.slots };

    ghost also_shares = { λ p _ κ. block_lent p.at p.slots κ };
}

// The right to give a block of so many places back. It takes no bytes.
pub(crate) struct Right<A: Allocator> {
    mark: PhantomData<*const A>,
    ghost at: { Ptr },
    ghost room: { ℕ },
    ghost alloc: { A },
}

impl<A: Allocator> Model for Right<A> {
    ghost also_owns = { λ r. right_owns (A.dealloc_token r.alloc) r.at r.room };

    ghost also_shares = { λ _ _ _. ftrue };
}

impl Places {
    ghost use Rattle.std.specs.Borrow.{sem};
    ghost use Rattle.ph_bits.specs.Lends.{lends_words};

    // Writes a word, whatever the place had.
    #[inline(always)]
    pub(crate) fn write(&mut self, start: Start, i: usize, word: u64)
        requires { (start.at ≡ self.old.at) × (i < length self.old.slots) }
        ensures { (self.new.at ≡ self.old.at) × (self.new.slots ≡ slice_set self.old.slots i (Some word)) }
    {
        unsafe { start.at.add(i).write(word) }
    }

    // Writes words behind those of the first `len` places.
    pub(crate) fn extend(&mut self, start: Start, len: usize, more: &[u64])
        requires start { start.at ≡ self.old.at }
        requires written { AreWritten len self.old.slots }
        requires room { len + length more.now ≤ length self.old.slots }
        requires small { length self.old.slots < 2 ^ 32 }
        ensures start { self.new.at ≡ self.old.at }
        ensures room { length self.new.slots ≡ length self.old.slots }
        ensures written { AreWritten (len + length more.now) self.new.slots }
        ensures words { words_at (len + length more.now) self.new.slots ≡ words_at len self.old.slots ++ more.now }
    {
        for i in 0..more.len() {
            self.write(start, len + i, more[i]);
        }
    }

    // The words of the first `len` places.
    #[inline(always)]
    pub(crate) fn words(&self, start: Start, len: usize) -> &[u64]
        requires { (start.at ≡ self.now.at) × AreWritten len self.now.slots }
        ensures { take len self.now.slots ≡ map Some result.now }
    {
        unsafe { slice::from_raw_parts(start.at, len) }
    }

    // Lends the `len` words behind the header for writing.
    #[inline(always)]
    pub(crate) fn words_mut(&mut self, start: Start, len: usize) -> &mut [u64]
        requires { (start.at ≡ self.old.at) × AreWritten (len + 1) self.old.slots }
        ensures* lends { sem 𝓛 (lends_words self.entry len result) }
        ensures words { result.now ≡ words_in len self.old.slots }
    {
        unsafe { slice::from_raw_parts_mut(start.at.add(1), len) }
    }
}

// A block of so many places without words.
pub(crate) fn take<A: Allocator>(
    alloc: &A,
    room: usize,
) -> Result<(Start, Places, Right<A>), NoMemory>
    requires { (0 < room) × (room < 2 ^ 32) }
    ensures { IfOk result (λ r. (r.1.at ≡ r.0.at) × (r.1.slots ≡ replicate room None) × (r.2.at ≡ r.0.at) × (r.2.room ≡ room) × (r.2.alloc ≡ alloc.now)) }
{
    match alloc.allocate(room * size_of::<u64>(), align_of::<u64>()) {
        Ok(block) => {
            let start = Start {
                at: block as *mut u64,
            };
            Ok((
                start,
                Places { mark: PhantomData },
                Right { mark: PhantomData },
            ))
        }
        Err(error) => Err(error),
    }
}

// Gives a block of so many places back.
pub(crate) fn release<A: Allocator>(
    alloc: &A,
    start: Start,
    room: usize,
    places: Places,
    right: Right<A>,
)
    requires { (start.at ≡ places.at)
        × (length places.slots ≡ room)
        × (right.at ≡ places.at)
        × (right.room ≡ room)
        × (right.alloc ≡ alloc.now)
        × (0 < room)
        × (room < 2 ^ 32) }
{
    let Places { mark: _ } = places;
    let Right { mark: _ } = right;
    unsafe {
        alloc.deallocate(
            start.at as *mut u8,
            room * size_of::<u64>(),
            align_of::<u64>(),
        );
    }
}
