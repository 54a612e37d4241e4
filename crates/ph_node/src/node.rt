//! The node: one block, with the words of its record and its children in the order of their addresses.

use ph_bits::Block;
use ph_coord::{Dim, Dims};
use std::marker::{Model, PhantomData};

/// A node: a level from 0 to 61, and entries with rising addresses below 2^D. The fields of an entry's
/// body are below 2^level.
///
/// Level, addresses, bodies and values are one record of words, in the smaller of its two layouts. Behind it, in the same piece of
/// memory, stands a word for each child, which is where the child is. So a node is a pointer of eight bytes.
#[cycle(node)]
#[derive(Drop)]
pub struct NodeOf<P: Dims> {
    pub(crate) block: Block<ChildOf<P>>,
    pub(crate) dims: PhantomData<P>,
}

/// The place of a child in its node.
#[cycle(node)]
#[derive(Drop)]
pub struct ChildOf<P: Dims> {
    pub node: NodeOf<P>,
}

pub type Node<const D: usize> = NodeOf<Dim<D>>;

pub type Child<const D: usize> = ChildOf<Dim<D>>;

impl<P: Dims> Model for NodeOf<P> {
    ghost use Rattle.ph_specs.specs.TreeNames.{PlainNode};
    ghost use Rattle.ph_model.specs.ModelNames.{coded_node};

    ghost Value = { PlainNode };

    ghost coded = { coded_node };

    ghost use Rattle.ph_specs.specs.RecordNames.{unpacked};
    ghost use Rattle.ph_model.specs.ModelNames.{node_size, falls};
    ghost use Rattle.ph_node.specs.Recorded.{IsRecorded};
    ghost use Rattle.ph_node.specs.Children.{nodes_of};

    ghost view = { λ a. unpacked P.D a.block.words (nodes_of a.block.values) };

    ghost invariant = { λ a. IsRecorded P.D a.block.words (nodes_of a.block.values) };

    ghost size = { node_size };

    ghost use Rattle.std.specs.Prelude.{◌+◌};
    ghost use Rattle.std.proofs.Common.{arith};
    ghost use Rattle.ph_node.specs.Falls.{most_nodes};

    ghost size_decreases = { λ a h. omega (arith, most_nodes P P.Dims a.block.values, falls P.D a.block.words (nodes_of a.block.values) h.packed.whole) };
}

impl<P: Dims> ChildOf<P> {
    ghost use Rattle.std.specs.Prelude.{◌≡◌};
    ghost use Rattle.std.specs.Borrow.{Lends, sem};
    ghost use Rattle.ph_node.specs.contracts.node.NodeOf.{the_row as node_row};
    ghost use Rattle.ph_node.specs.contracts.node.ChildOf.{the_row as child_row};
    ghost use Rattle.ph_node.specs.Children.{in_child};

    /// Lends the child for writing.
    pub fn node_mut(&mut self) -> &mut NodeOf<P>
        ensures* lends { sem 𝓛 (Lends (child_row P.row P.Dims) (node_row P.row P.Dims) self.entry result in_child) }
        ensures shows { result.now ≡ self.old.node }
    {
        &mut self.node
    }
}
