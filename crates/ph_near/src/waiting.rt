//! What waits in a search: children of nodes that were opened.

ghost use Rattle.std.specs.Prelude.{◌≡◌, ◌<◌, ◌≤◌, [], ◌∷◌, length, refl, true, false, slice_index_or, Some, IfOk, OnOk, IfSome, IfNone};
ghost use Rattle.std.specs.BinaryHeap.{heap_items, heap_capacity, IsHeap};
ghost use Rattle.std.specs.Cmp.{partial_order_from_agreeing_total, partial_equiv_from_equiv, eq_by_cmp_equiv};
ghost use Rattle.std.specs.List.{AllByRecursion as Each};
ghost use Rattle.std.specs.List.Sorted.{IsPermutation};
ghost use Rattle.std.specs.Ordering.{eq_by_cmp};
ghost use Rattle.ph_near.specs.Waiting.{waiting_cmp, waiting_total, IsNext};

use ph_node::NoMemory;
use std::alloc::Global;
use std::cmp::Ordering;
use std::collections::BinaryHeap;
use std::marker::Model;

// Room for so many items is taken at once. Most searches for some ten rows have fewer that wait.
const ROOM: usize = 64;

// A child by the place of its entry in a node, which is one of those that were opened, and the square of the least distance of its region.
#[derive(Clone, Copy)]
pub(crate) struct Waiting {
    pub distance: u128,
    pub opened: usize,
    pub place: usize,
}

// The children that wait. The nearest of those that came last stands apart: mostly it is the next one, and the others stay as they are.
#[derive(Drop)]
pub(crate) struct Queue {
    apart: Option<Waiting>,
    others: BinaryHeap<Waiting>,
}

impl Model for Queue {
    ghost use Rattle.std.specs.Prelude.{List};
    ghost use Rattle.std.specs.BinaryHeap.{heap_items, IsHeap};
    ghost use Rattle.ph_near.specs.declared.waiting.Waiting.{Waiting};
    ghost use Rattle.ph_near.specs.Waiting.{waiting_cmp, waiting_in};

    ghost Value = { List Waiting };

    ghost view = { λ q. waiting_in q.apart (heap_items q.others) };

    ghost invariant = { λ q. IsHeap waiting_cmp (heap_items q.others) };
}

impl Queue {
    // Nothing waits. Room for some is taken at once.
    pub(crate) fn new(alloc: Global) -> Result<Queue, NoMemory>
        ensures { IfOk result (λ queue. queue ≡ []) }
    {
        Ok(Queue {
            apart: None,
            others: roomy_heap(alloc)?,
        })
    }

    // Lets one more wait.
    #[inline(always)]
    pub(crate) fn push(&mut self, item: Waiting) -> Result<(), NoMemory>
        ensures { OnOk result (IsPermutation (item ∷ self.old) self.new) }
    {
        let Some(apart) = self.apart else {
            self.apart = Some(item);
            return Ok(());
        };
        if item.distance < apart.distance {
            self.apart = Some(item);
            return push_on(&mut self.others, apart);
        }
        push_on(&mut self.others, item)
    }

    // The nearest child that waits, if it is no farther than a limit. It leaves the queue.
    #[inline(always)]
    pub(crate) fn next_within(&mut self, limit: u128) -> Option<Waiting>
        ensures next { IfSome result (λ item. IsNext limit self.old item self.new) }
        ensures none { IfNone result (Each (λ i. limit < i.distance) self.old) }
    {
        let Some(item) = self.pop() else {
            return None;
        };
        if item.distance > limit {
            return None;
        }
        Some(item)
    }

    // The nearest child that waits leaves the queue.
    #[inline(always)]
    fn pop(&mut self) -> Option<Waiting>
        ensures next { IfSome result (λ item. IsNext item.distance self.old item self.new) }
        ensures none { IfNone result (self.old ≡ []) }
    {
        let Some(apart) = self.apart else {
            return pop_from(&mut self.others);
        };
        if has_nearer(&self.others, apart.distance) {
            return pop_from(&mut self.others);
        }
        self.apart = None;
        Some(apart)
    }
}

// A heap with room for some items.
fn roomy_heap(alloc: Global) -> Result<BinaryHeap<Waiting>, NoMemory>
    ensures items { IfOk result (λ heap. heap_items heap ≡ []) }
    ensures order { IfOk result (λ heap. IsHeap waiting_cmp (heap_items heap)) }
    ensures room { IfOk result (λ heap. heap_capacity heap ≡ ROOM) }
{
    BinaryHeap::with_capacity(alloc, ROOM)
}

// Puts an item on a heap.
#[inline(always)]
fn push_on(heap: &mut BinaryHeap<Waiting>, item: Waiting) -> Result<(), NoMemory>
    ensures moved { OnOk result (IsPermutation (item ∷ heap_items heap.old) (heap_items heap.new)) }
    ensures order { IsHeap waiting_cmp (heap_items heap.old) → IsHeap waiting_cmp (heap_items heap.new) }
{
    match heap.push(item) {
        Ok(()) => Ok(()),
        Err(_) => Err(NoMemory),
    }
}

// Takes the first item of a heap.
#[inline(always)]
fn pop_from(heap: &mut BinaryHeap<Waiting>) -> Option<Waiting>
    requires { IsHeap waiting_cmp (heap_items heap.old) }
    ensures first { IfSome result (λ x. x ≡ slice_index_or (heap_items heap.old) 0 x) }
    ensures next { IfSome result (λ x. IsNext x.distance (heap_items heap.old) x (heap_items heap.new)) }
    ensures none { IfNone result (heap_items heap.old ≡ []) }
    ensures order { IsHeap waiting_cmp (heap_items heap.new) }
{
    let Some(item) = heap.pop() else {
        return None;
    };
    Some(item)
}

// Whether the first item of a heap is nearer than a distance.
#[inline(always)]
fn has_nearer(heap: &BinaryHeap<Waiting>, distance: u128) -> bool
    requires { IsHeap waiting_cmp (heap_items heap.now) }
    ensures nearer { result ≡ true → (x : Waiting) → x ≡ slice_index_or (heap_items heap.now) 0 x → x.distance < distance }
    ensures some { result ≡ true → 0 < length (heap_items heap.now) }
    ensures none { result ≡ false → Each (λ i. distance ≤ i.distance) (heap_items heap.now) }
{
    match heap.peek() {
        Some(first) => first.distance < distance,
        None => false,
    }
}

impl Ord for Waiting {
    ghost cmp = { waiting_cmp };

    ghost total = { waiting_total };

    ghost matches_partial_cmp = { λ x y. refl };

    ghost matches_eq = { λ x y. refl };

    // The nearer child is the greater one.
    fn cmp(&self, other: &Waiting) -> Ordering {
        other.distance.cmp(&self.distance)
    }
}

impl PartialOrd for Waiting {
    ghost partial_cmp = { λ x y. Some (waiting_cmp x y) };

    ghost laws = { partial_order_from_agreeing_total waiting_cmp waiting_total (λ x y. refl) (λ x y. refl) };

    fn partial_cmp(&self, other: &Waiting) -> Option<Ordering> {
        Some(self.cmp(other))
    }
}

impl PartialEq for Waiting {
    ghost eq = { eq_by_cmp waiting_cmp };

    ghost laws = { partial_equiv_from_equiv (eq_by_cmp_equiv waiting_total) };

    fn eq(&self, other: &Waiting) -> bool {
        self.cmp(other).is_eq()
    }
}

impl Eq for Waiting {
    ghost laws = { eq_by_cmp_equiv waiting_total };
}
