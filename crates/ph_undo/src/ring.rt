//! A ring of inverses, the newest first. With room for none it is not there, and takes no memory.

ghost use Rattle.std.specs.Prelude.{◌≡◌, [], ◌∷◌, length, take, drop, slice_get, IfOk, IsOk};
ghost use Rattle.ph_undo.specs.Rings.{inverses_in, room_in};
ghost use Rattle.ph_undo.specs.Inverses.{put_inverse as inverse_of, with_move};

use crate::inverse::{Inverse, has_moved, put_inverse};
use circular_buffer::HeapCircularBuffer;
use ph_coord::Point;
use ph_table::Put;
use ph_tree::{Moved, NoMemory};
use std::alloc::Global;

pub(crate) type Ring<const D: usize> = Option<HeapCircularBuffer<Inverse<D>>>;

// An empty ring with room for so many.
pub(crate) fn ring_of<const D: usize>(alloc: Global, room: u32) -> Result<Ring<D>, NoMemory>
    ensures inverses { IfOk result (λ r. inverses_in r ≡ []) }
    ensures room { IfOk result (λ r. room_in r ≡ room) }
    ensures none { room ≡ 0 → IsOk result }
{
    if room == 0 {
        return Ok(None);
    }
    Ok(Some(HeapCircularBuffer::with_capacity(alloc, room as usize)?))
}

// How many inverses there are.
pub(crate) fn count<const D: usize>(ring: &Ring<D>) -> usize
    ensures { result ≡ length (inverses_in ring.now) }
{
    match ring {
        Some(inverses) => inverses.len(),
        None => 0,
    }
}

// The newest one.
pub(crate) fn newest<const D: usize>(ring: &Ring<D>) -> Option<Inverse<D>>
    ensures { result ≡ slice_get (inverses_in ring.now) 0 }
{
    match ring {
        Some(inverses) => inverses.front().copied(),
        None => None,
    }
}

// Puts the inverse of a put in front of the others. The oldest goes where there is no room.
pub(crate) fn note_put<const D: usize>(ring: &mut Ring<D>, p: &Point<D>, answer: Put)
    ensures inverses { inverses_in ring.new ≡ take (room_in ring.old) (inverse_of p.now answer ∷ inverses_in ring.old) }
    ensures room { room_in ring.new ≡ room_in ring.old }
{
    if let Some(inverses) = ring {
        inverses.push_front(put_inverse(p, answer));
    }
}

// The same of a removal of a value.
pub(crate) fn note_removal<const D: usize>(ring: &mut Ring<D>, p: &Point<D>, value: u64)
    ensures inverses { inverses_in ring.new ≡ take (room_in ring.old) (Inverse.Restore p.now value ∷ inverses_in ring.old) }
    ensures room { room_in ring.new ≡ room_in ring.old }
{
    if let Some(inverses) = ring {
        inverses.push_front(Inverse::Restore(*p, value));
    }
}

// The same of a move, if it took a row to another point.
pub(crate) fn note_move<const D: usize>(
    ring: &mut Ring<D>,
    from: &Point<D>,
    to: &Point<D>,
    answer: Moved,
)
    ensures inverses { inverses_in ring.new ≡ with_move (room_in ring.old) from.now to.now answer (inverses_in ring.old) }
    ensures room { room_in ring.new ≡ room_in ring.old }
{
    if let Some(inverses) = ring {
        if has_moved(from, to, answer) {
            inverses.push_front(Inverse::Return(*to, *from));
        }
    }
}

// Lets the newest one go.
pub(crate) fn drop_newest<const D: usize>(ring: &mut Ring<D>)
    ensures inverses { inverses_in ring.new ≡ drop 1 (inverses_in ring.old) }
    ensures room { room_in ring.new ≡ room_in ring.old }
{
    if let Some(inverses) = ring {
        inverses.pop_front();
    }
}

// Lets all go.
pub(crate) fn drop_all<const D: usize>(ring: &mut Ring<D>)
    ensures inverses { inverses_in ring.new ≡ [] }
    ensures room { room_in ring.new ≡ room_in ring.old }
{
    if let Some(inverses) = ring {
        inverses.clear();
    }
}
