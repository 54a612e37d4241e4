//! A block of given entries, for a node of them.

ghost use Rattle.std.specs.Prelude.{◌≡◌, ◌≤◌, [], length, IfOk};
ghost use Rattle.ph_specs.specs.RecordNames.{children as children_of, record_of, first_in};
ghost use Rattle.ph_model.specs.ModelNames.{AreRising};
ghost use Rattle.ph_node.specs.Recorded.{IsLaidOut};

use crate::node::{ChildOf, NodeOf};
use crate::{NoMemory, records};
use ph_bits::{Block, Entries};
use ph_coord::Dims;
use std::alloc::Global;

impl<P: Dims> NodeOf<P> {
    /// Makes the block of the record of some entries at a level, without children, and with room for as many as there are child
    /// entries. [`assemble`](NodeOf::assemble) makes the node of it once they stand in it; at level 0 there are none.
    ///
    /// Takes memory for the block alone, of the size that it then wants.
    pub fn block_for<E: Entries<P>>(
        alloc: Global,
        level: u32,
        entries: &E,
    ) -> Result<Block<ChildOf<P>>, NoMemory>
        requires some { 1 ≤ P.D }
        requires few { P.D ≤ 16 }
        requires low { level ≤ 61 }
        requires entries { 1 ≤ length (E.list entries.now) }
        requires rise { AreRising P.D level 0 (E.list entries.now) }
        ensures words { IfOk result (λ b. b.words ≡ record_of P.D level (E.list entries.now)) }
        ensures none { IfOk result (λ b. b.values ≡ []) }
        ensures room { IfOk result (λ b. b.spare ≡ children_of (E.list entries.now)) }
        ensures laid { IfOk result (λ b. (level ≡ 0 → children_of (E.list entries.now) ≡ 0) → IsLaidOut P.D b.words) }
        ensures children { IfOk result (λ b. (first_in b.words).children ≡ children_of (E.list entries.now)) }
    {
        let children = count_children::<P, E>(entries);
        let mut words = records::exact_block::<P>(alloc, level, entries.count(), children)?;
        records::write::<P, E>(&mut words, level, entries);
        Ok(Block::of(words))
    }
}

// How many of some entries are children.
fn count_children<P: Dims, E: Entries<P>>(entries: &E) -> usize
    ensures value { result ≡ children_of (E.list entries.now) }
    ensures few { result ≤ length (E.list entries.now) }
{
    let mut children = 0;
    let mut mark = None;
    for i in 0..entries.count() {
        children += entries.at(i, &mut mark).child as usize;
    }
    children
}
