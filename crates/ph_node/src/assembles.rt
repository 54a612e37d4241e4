//! A node of a record that is there.

ghost use Rattle.std.specs.Prelude.{◌≡◌, ◌+◌, length};
ghost use Rattle.ph_specs.specs.RecordNames.{first_in, unpacked};
ghost use Rattle.ph_node.specs.Recorded.{IsLaidOut};
ghost use Rattle.ph_node.specs.Children.{nodes_of};

use crate::node::{ChildOf, NodeOf};
use ph_bits::{Block, are_words};
use ph_coord::Dims;
use ph_steps::Steps;
use std::marker::PhantomData;
use std::sync::ledger::Ledger;

impl<P: Dims> NodeOf<P> {
    /// Makes the node of a block with a record in the smaller layout, and with as many children as that has child entries, in the
    /// order of their addresses. Takes no memory.
    pub fn assemble<C: Ledger>(block: Block<ChildOf<P>>, changes: &mut Steps<C>) -> NodeOf<P>
        requires record { IsLaidOut P.D block.words }
        requires children { length block.values ≡ (first_in block.words).children }
        ensures node { result ≡ unpacked P.D block.words (nodes_of block.values) }
        ensures cost { changes.new ≡ changes.old + 1 }
    {
        are_words(block.words());
        changes.tick();
        NodeOf {
            block,
            dims: PhantomData,
        }
    }
}
