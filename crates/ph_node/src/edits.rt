//! Edits that leave all entries in their places, and their record as it is but for one word.

ghost use Rattle.std.specs.Prelude.{◌≡◌, ◌+◌};
ghost use Rattle.std.specs.Borrow.{Lends, sem};
ghost use Rattle.ph_model.specs.ModelNames.{node_of, entries, node, value, what_at, with_what, with_child};
ghost use Rattle.ph_node.specs.OneEdit.{before};
ghost use Rattle.ph_node.specs.Split.{IsNode, IsValue};
ghost use Rattle.ph_node.specs.Spots.{IsSpot};

use crate::node::{ChildOf, NodeOf};
use crate::spots::Spot;
use ph_coord::Dims;
use ph_steps::Steps;
use std::sync::ledger::Ledger;

impl<P: Dims> NodeOf<P> {
    ghost use Rattle.ph_node.specs.contracts.node.NodeOf.{the_row as node_row};
    ghost use Rattle.ph_node.specs.contracts.node.ChildOf.{the_row as child_row};

    /// Lends the child of an entry for writing, by its place among the children. The node keeps all else.
    pub fn child_mut(&mut self, spot: Spot, rank: usize) -> &mut ChildOf<P>
        requires spot { IsSpot (entries self.old) spot }
        requires child { IsNode (what_at (entries self.old) spot.place) }
        requires rank { rank ≡ before (entries self.old) spot.place }
        ensures* lends { sem 𝓛 (Lends (node_row P.row P.Dims) (child_row P.row P.Dims) self.entry result (λ w. with_child self.old spot.place w.node)) }
        ensures shows { node result.now.node ≡ what_at (entries self.old) spot.place }
    {
        let _ = spot;
        self.block.value_mut(rank)
    }

    /// Gives a point entry another value. Takes no memory.
    pub fn set_value<C: Ledger>(&mut self, spot: Spot, v: u64, changes: &mut Steps<C>)
        requires spot { IsSpot (entries self.old) spot }
        requires point { IsValue (what_at (entries self.old) spot.place) }
        ensures node { self.new ≡ node_of self.old.level (with_what (entries self.old) spot.place (value v)) }
        ensures cost { changes.new ≡ changes.old + 1 }
    {
        changes.tick();
        let place = self.value_place(spot);
        self.block.set(place, v);
    }
}
