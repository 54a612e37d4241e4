//! Boxes taken apart: the place of the value, and the heap that its memory is from.
ghost use Rattle.std.specs.Prelude.{◌≡◌};
ghost use Rattle.std_alloc.specs.Box.Ownership.{box_owns};

use std::alloc::Allocator;
use std::marker::Model;

/// A box in two parts. It is not let go by itself: `put_together` makes the box again.
pub(crate) struct Loose<T, A: Allocator> {
    pub(crate) place: *mut T,
    pub(crate) heap: A,
    pub(crate) ghost held: { T },
}

impl<T, A: Allocator> Model for Loose<T, A> {
    ghost also_owns = { λ parts. box_owns (A.dealloc_token parts.heap) T.row parts.place parts.held };
}

/// The parts of a box.
pub(crate) fn take_apart<T: Drop, A: Allocator>(whole: Box<T, A>) -> Loose<T, A>
    ensures { result.held ≡ whole.value }
{
    let (place, heap) = Box::into_raw_with_allocator(whole);
    Loose { place, heap }
}

/// The box of these parts.
pub(crate) fn put_together<T: Drop, A: Allocator>(parts: Loose<T, A>) -> Box<T, A>
    ensures { result.value ≡ parts.held }
{
    let Loose { place, heap } = parts;
    unsafe { Box::from_raw(heap, place) }
}
