//! The owner of values that lie side by side in a block, eight bytes each. It takes no bytes.

ghost use Rattle.std.specs.Prelude.{◌≡◌, ℕ, ◌+◌, ◌<◌, List, [], ◌∷◌, ◌++◌, Option, Some, None, length, take, replicate, slice_index_or};
ghost use denote.RawPtr.{Ptr};
ghost use Rattle.ph_bits.specs.Kids.{kids_own, kids_lent, IsWord};

use crate::places::{Places, Start};
use std::marker::{Model, PhantomData};
use std::ptr::copy_nonoverlapping;
use std::slice;

pub(crate) struct Kids<T> {
    mark: PhantomData<*const T>,
    ghost at: { Ptr },
    ghost from: { ℕ },
    ghost items: { List T },
}

impl<T> Model for Kids<T> {
    ghost also_owns = { λ k. kids_own T.row k.at k.from k.items };

    ghost also_shares = { λ k _ κ. kids_lent T.row k.at k.from k.items κ };
}

impl<T> Kids<T> {
    ghost use Rattle.std.specs.Borrow.{sem};
    ghost use Rattle.ph_bits.specs.LendsKid.{lends_kid, lends_kids};

    // No value, behind the words' places.
    #[inline(always)]
    pub(crate) fn none(places: &Places) -> Kids<T>
        ensures { (result.at ≡ places.now.at) × (result.from ≡ length places.now.slots) × (result.items ≡ []) }
    {
        let _ = places;
        Kids { mark: PhantomData }
    }

    // The i-th value. The first one lies in the place `first`.
    #[inline(always)]
    pub(crate) fn get(&self, start: Start, first: usize, i: usize) -> &T
        requires { (start.at ≡ self.now.at) × (first ≡ self.now.from) × (i < length self.now.items) }
        ensures { result.now ≡ slice_index_or self.now.items i result.now }
    {
        unsafe { &*(start.at.add(first + i) as *const T) }
    }

    // Lends it for writing.
    #[inline(always)]
    pub(crate) fn get_mut(&mut self, start: Start, first: usize, i: usize) -> &mut T
        requires { (start.at ≡ self.old.at) × (first ≡ self.old.from) × (i < length self.old.items) }
        ensures* lends { sem 𝓛 (lends_kid T.row self.entry i result) }
        ensures value { result.now ≡ slice_index_or self.old.items i result.now }
    {
        unsafe { &mut *(start.at.add(first + i) as *mut T) }
    }

    // Takes the first value out. Its place becomes the last one of the words' places, without a word.
    #[inline(always)]
    pub(crate) fn pop_front(&mut self, places: &mut Places, start: Start, first: usize) -> T
        requires { (start.at ≡ self.old.at) × (start.at ≡ places.old.at) × (first ≡ self.old.from) × (first ≡ length places.old.slots) × (0 < length self.old.items) }
        ensures { (self.old.items ≡ result ∷ self.new.items)
            × (self.new.at ≡ self.old.at)
            × (self.new.from ≡ first + 1)
            × (places.new.at ≡ places.old.at)
            × (places.new.slots ≡ places.old.slots ++ None ∷ []) }
    {
        unsafe { (start.at.add(first) as *mut T).read() }
    }

    // Puts a value before the others, into the last one of the words' places. Whatever that place had is gone.
    #[inline(always)]
    pub(crate) fn push_front(&mut self, places: &mut Places, start: Start, last: usize, item: T)
        requires { (start.at ≡ self.old.at) × (start.at ≡ places.old.at) × (self.old.from ≡ last + 1) × (length places.old.slots ≡ last + 1) × IsWord T.row }
        ensures { (self.new.items ≡ item ∷ self.old.items)
            × (self.new.at ≡ self.old.at)
            × (self.new.from ≡ last)
            × (places.new.at ≡ places.old.at)
            × (places.new.slots ≡ take last places.old.slots) }
    {
        unsafe { (start.at.add(last) as *mut T).write(item) }
    }

    // Moves all `len` values of another block here, where there are none, into the last ones of the words' places. Whatever those
    // places had is gone. The first value lies in the place `last` then, and it lay in the place `first` of the other block.
    #[inline(always)]
    pub(crate) fn take_all(
        &mut self,
        places: &mut Places,
        start: Start,
        last: usize,
        from: &mut Kids<T>,
        others: &mut Places,
        other: Start,
        first: usize,
        len: usize,
    )
        requires { (start.at ≡ self.old.at)
            × (start.at ≡ places.old.at)
            × (self.old.items ≡ [])
            × (length places.old.slots ≡ last + len)
            × (other.at ≡ from.old.at)
            × (other.at ≡ others.old.at)
            × (first ≡ from.old.from)
            × (first ≡ length others.old.slots)
            × (len ≡ length from.old.items)
            × IsWord T.row }
        ensures { (self.new.items ≡ from.old.items)
            × (self.new.at ≡ self.old.at)
            × (self.new.from ≡ last)
            × (places.new.at ≡ places.old.at)
            × (places.new.slots ≡ take last places.old.slots)
            × (from.new.items ≡ [])
            × (from.new.at ≡ from.old.at)
            × (from.new.from ≡ first + len)
            × (others.new.at ≡ others.old.at)
            × (others.new.slots ≡ others.old.slots ++ replicate len None) }
    {
        unsafe {
            copy_nonoverlapping(
                other.at.add(first) as *const T,
                start.at.add(last) as *mut T,
                len,
            )
        }
    }

    // All `len` values, as a slice. The first one lies in the place `first`.
    #[inline(always)]
    pub(crate) fn as_slice(&self, start: Start, first: usize, len: usize) -> &[T]
        requires { (start.at ≡ self.now.at) × (first ≡ self.now.from) × (len ≡ length self.now.items) × IsWord T.row }
        ensures { result.now ≡ self.now.items }
    {
        unsafe { slice::from_raw_parts(start.at.add(first) as *const T, len) }
    }

    // Lends all `len` values for writing, as a slice. The first one lies in the place `first`.
    #[inline(always)]
    pub(crate) fn as_mut_slice(&mut self, start: Start, first: usize, len: usize) -> &mut [T]
        requires { (start.at ≡ self.old.at) × (first ≡ self.old.from) × (len ≡ length self.old.items) × IsWord T.row }
        ensures* lends { sem 𝓛 (lends_kids T.row self.entry result) }
        ensures values { result.now ≡ self.old.items }
    {
        unsafe { slice::from_raw_parts_mut(start.at.add(first) as *mut T, len) }
    }
}
