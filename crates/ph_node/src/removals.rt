//! An entry less, and a child of two entries whose place one of them takes. Neither wants memory.

ghost use Rattle.std.specs.Prelude.{◌≡◌, ◌+◌, ◌-◌, ◌<◌, ◌≤◌, true, false, length, MatchOption, if◌then◌else◌};
ghost use Rattle.ph_model.specs.ModelNames.{node_of, entries, what_at, without, child_nodes};
ghost use Rattle.ph_node.specs.Split.{IsValue, body_at};
ghost use Rattle.ph_node.specs.Spots.{IsSpot};
ghost use Rattle.ph_specs.specs.RecordNames.{pack};
ghost use Rattle.ph_bits.specs.Block.{room_of};
ghost use Rattle.ph_bits.specs.Edits.{edited};
ghost use Rattle.ph_node.specs.Merge.{IsPair, entries_held, merge_node};
ghost use Rattle.ph_node.specs.OneEdit.{IsOldEntry, node_at, nodes_held};
ghost use Rattle.ph_node.specs.Relaid.{is_relaid};
ghost use Rattle.ph_node.specs.Children.{nodes_of};

use crate::node::{ChildOf, NodeOf};
use crate::olds::OldEntry;
use crate::points::{less_edit, take_point};
use crate::rewrites;
use crate::spots::Spot;
use ph_bits::{Block, Edit, Packed, Words};
use ph_coord::Dims;
use ph_digits::join;
use ph_steps::Steps;
use std::sync::ledger::Ledger;

impl<P: Dims> NodeOf<P> {
    /// Lets a point entry go. Another entry is left. The record is changed where it lies, as long as its layout stays. Else it is laid
    /// out in words that the caller hands in, which have room for the node's own and for its children, and the children move behind
    /// it; [`NodeRefOf::is_relaid`](crate::NodeRefOf::is_relaid) tells before whether they are wanted. Where much of the room is free then, the record goes
    /// to memory of about its size, if there is some: no call fails for want of it.
    pub fn drop_entry<C: Ledger>(
        &mut self,
        spot: Spot,
        spare: Option<Words>,
        changes: &mut Steps<C>,
    )
        requires spot { IsSpot (entries self.old) spot }
        requires point { IsValue (what_at (entries self.old) spot.place) }
        requires many { 2 ≤ length (entries self.old) }
        requires room { is_relaid P.D self.old.level (length (entries self.old)) ≡ true
            → MatchOption spare ⊥ (λ w. length (pack P.D self.old) + length (child_nodes self.old.chain) ≤ room_of w) }
        ensures node { self.new ≡ node_of self.old.level (without (entries self.old) spot.place) }
        ensures cost { changes.new ≡ changes.old + 1 }
    {
        let edit = less_edit(spot);
        // Where there is no memory for less room, the block keeps what it has.
        let _ = take_point(&mut self.block, &edit, spare);
        changes.tick();
    }

    /// Lets the child of an entry and its point entry `j` go. The other of the child's two entries takes the
    /// child's place, with the digits that the child had in common in front of its own. The record is changed where it lies, and a
    /// point takes the place that the child leaves for its value. Takes no memory.
    pub fn merge<C: Ledger>(&mut self, spot: Spot, j: usize, changes: &mut Steps<C>)
        requires spot { IsSpot (entries self.old) spot }
        requires child { IsPair self.old.level (body_at (entries self.old) spot.place) (what_at (entries self.old) spot.place) }
        requires one { j < 2 }
        requires point { IsValue (what_at (entries_held (what_at (entries self.old) spot.place)) j) }
        ensures node { self.new ≡ merge_node self.old spot.place j }
        ensures cost { changes.new ≡ changes.old + 2 }
    {
        let old = self.old_entry(spot);
        let held = self.block.value(old.front);
        let child = &held.node;
        let other = child.entry_beside(j);
        let mut body = old.body;
        join(
            &mut body[..P::D],
            child.level(),
            other.addr,
            &other.body[..P::D],
        );
        let entry = Packed {
            addr: old.addr,
            child: other.child,
            body,
            rank: 0,
        };
        let edit = Edit {
            place: spot.place,
            less: 1,
            more: 1,
            entry,
            value: other.value,
        };
        lift_child(&mut self.block, old.front, other.child);
        rewrites::put_entry(&mut self.block, P::D, &edit);
        changes.tick();
        changes.tick();
    }

    // What the one of two entries has that is not entry `j`.
    fn entry_beside(&self, j: usize) -> OldEntry
        requires two { length (entries self.now) ≡ 2 }
        requires one { j < 2 }
        ensures { IsOldEntry P.D self.now (1 - j) result }
    {
        self.old_entry(self.spot(1 - j))
    }
}

// Lets the node at a place go. Its one child takes the place, where it has one, and else there is a spare place more.
fn lift_child<P: Dims>(block: &mut Block<ChildOf<P>>, k: usize, child: bool)
    requires within { k < length block.old.values }
    requires one { child ≡ true → length (nodes_held (entries (node_at (nodes_of block.old.values) k))) ≡ 1 }
    ensures nodes { nodes_of block.new.values
        ≡ edited k 1 (if child then 1 else 0)
        (node_at (nodes_held (entries (node_at (nodes_of block.old.values) k))) 0)
        (nodes_of block.old.values) }
    ensures words { block.new.words ≡ block.old.words }
    ensures spare { child ≡ false → 0 < block.new.spare }
{
    let ChildOf { node } = block.remove(k);
    if child {
        block.insert(k, only_child(node));
    }
}

// The child of a node that has one.
fn only_child<P: Dims>(node: NodeOf<P>) -> ChildOf<P>
    requires { length (nodes_held (entries node)) ≡ 1 }
    ensures { result.node ≡ node_at (nodes_held (entries node)) 0 }
{
    let NodeOf { mut block, dims: _ } = node;
    block.remove(0)
}
