//! A tree with its last edits.

ghost use Rattle.std.specs.Prelude.{◌≡◌, ◌+◌, ◌-◌, ◌*◌, ◌≤◌, [], length, OnOk, OnErr, IsOk};
ghost use Rattle.ph_specs.specs.TableNames.{IsPoint, without_past, keep, put_kept, del_kept, move_kept};
ghost use Rattle.ph_specs.specs.WorkNames.{path};
ghost use Rattle.ph_tree.specs.Puts.{IsPutRow};
ghost use Rattle.ph_tree.specs.Removals.{IsRemovedRow};
ghost use Rattle.ph_tree.specs.Moves.{IsMoved};
ghost use Rattle.ph_undo.specs.Kept.{tree_of, IsTakenBack, BackVisits};

use crate::inverse::take_back;
use crate::ring::{
    Ring, count, drop_all, drop_newest, newest, note_move, note_put, note_removal, ring_of,
};
use ph_coord::Point;
use ph_steps::Steps;
use ph_table::Put;
use ph_tree::{Moved, NoMemory, PhTree, PutError};
use std::alloc::Global;
use std::marker::Model;
use std::sync::ledger::Ledger;

/// A tree that keeps the tables from before its last edits, at most `depth` of them, by the inverses of the edits.
///
/// Each put is an edit, also one of the value that stands there already. A removal is one where a row is at the point, and a
/// move where it takes a row to another point. Nothing else is an edit: no removal of nothing, no move that finds no row or a
/// row at the second point, no move to the same point, and no call that ends with an error.
///
/// An inverse takes `8 + 16 * D` bytes. `keep` takes the room for all that may be kept, so that to keep an edit takes no
/// memory. With a depth of 0 nothing is kept, and an edit is that of the tree alone.
#[derive(Drop)]
pub struct Kept<const D: usize> {
    tree: PhTree<D>,
    depth: u32,
    ring: Ring<D>,
}

impl<const D: usize> Model for Kept<D> {
    ghost use Rattle.ph_specs.specs.TableNames.{Past};

    ghost Value = { Past };

    ghost use Rattle.ph_undo.specs.Kept.{kept_of, IsKept};

    ghost view = { λ k. kept_of k.tree k.depth k.ring };

    ghost invariant = { λ k. IsKept D k.tree k.depth k.ring };
}

impl<const D: usize> Kept<D> {
    /// A tree of which no edits are kept: its depth is 0. Takes no memory.
    pub fn new(tree: PhTree<D>) -> Kept<D>
        ensures tree { tree_of result ≡ tree.entry }
        ensures depth { result.depth ≡ 0 }
        ensures past { result.past ≡ [] }
    {
        // A use that makes known that there are at most 16 dimensions.
        let _root = tree.root();
        Kept {
            tree,
            depth: 0,
            ring: None,
        }
    }

    /// The tree. It is only read, since an edit past this type could not be taken back.
    pub fn tree(&self) -> &PhTree<D>
        ensures { result.now ≡ tree_of self.now }
    {
        &self.tree
    }

    /// The tree, without the edits. It takes no memory.
    pub fn into_tree(self) -> PhTree<D>
        ensures { result ≡ tree_of self.entry }
    {
        self.tree
    }

    /// How many edits are kept at most: a number up to 65,536.
    pub fn depth(&self) -> u32
        ensures value { result ≡ self.now.depth }
        ensures limit { result ≤ 65536 }
    {
        self.depth
    }

    /// How many edits can be taken back now.
    pub fn past_len(&self) -> u32
        ensures value { result ≡ length self.now.past }
        ensures limit { result ≤ self.now.depth }
    {
        count(&self.ring) as u32
    }

    /// From now on keeps at most `n` edits, up to 65,536, and forgets those that it has.
    ///
    /// It takes the room for `n` inverses at once, and lets the former room go after that, so that for a moment both are there.
    /// Where there is no memory, the depth and what is kept are as before. With 0 it takes no memory, and no error comes.
    pub fn keep(&mut self, alloc: Global, n: u32) -> Result<(), NoMemory>
        requires { n ≤ 65536 }
        ensures kept { OnOk result (self.new ≡ keep self.old n) }
        ensures err { OnErr result (self.new ≡ self.old) }
        ensures none { n ≡ 0 → IsOk result }
    {
        // A use that makes known what is kept.
        let _tree = &self.tree;
        self.ring = ring_of(alloc, n)?;
        self.depth = n;
        Ok(())
    }

    /// Puts a value at a point, in place of the one that stands there, and keeps what takes it back.
    ///
    /// It wants memory where the tree's put does, and refuses what that refuses. An error leaves the tree and what is kept as
    /// they were.
    pub fn put<V: Ledger, C: Ledger>(
        &mut self,
        p: Point<D>,
        v: u64,
        visits: &mut Steps<V>,
        changes: &mut Steps<C>,
    ) -> Result<Put, PutError>
        requires { IsPoint self.old.width D p }
        ensures done { IsPutRow self.old.table self.old.max p.entry self.old (put_kept self.old p.entry v) self.new changes.old changes.new result }
        ensures visits { visits.new ≤ visits.old + (2 * length (path self.old.width D self.old.table p.entry) - 1) }
        ensures limit { visits.new ≤ visits.old + 2 * self.old.width }
        ensures later { visits.old ≤ visits.new }
    {
        // Uses that make known that the tree is a table, with at most so many rows.
        let _root = self.tree.root();
        let _len = self.tree.len();
        let put = self.tree.put(p, v, visits, changes)?;
        note_put(&mut self.ring, &p, put);
        Ok(put)
    }

    /// Takes the row at a point out, and tells its value, or `None` where no row is there. What takes a removal back is kept.
    ///
    /// It takes memory where the tree's removal does, and none to keep it. An error leaves the tree and what is kept as they were.
    pub fn del<V: Ledger, C: Ledger>(
        &mut self,
        p: &Point<D>,
        visits: &mut Steps<V>,
        changes: &mut Steps<C>,
    ) -> Result<Option<u64>, NoMemory>
        requires { IsPoint self.old.width D p.now }
        ensures done { IsRemovedRow self.old.width D self.old.table p.now self.old (del_kept self.old p.now) self.new changes.old changes.new result }
        ensures visits { visits.new ≤ visits.old + (2 * length (path self.old.width D self.old.table p.now) - 1) }
        ensures limit { visits.new ≤ visits.old + 2 * self.old.width }
        ensures later { visits.old ≤ visits.new }
    {
        // Uses that make known that the tree is a table, with at most so many rows.
        let _root = self.tree.root();
        let _len = self.tree.len();
        let gone = self.tree.del(p, visits, changes)?;
        if let Some(value) = gone {
            note_removal(&mut self.ring, p, value);
        }
        Ok(gone)
    }

    /// Moves the value at one point to another, where no row is at the other. What takes it back is kept where a row moved.
    ///
    /// It wants memory where the tree's move does. An error leaves the tree and what is kept as they were.
    pub fn relocate<V: Ledger, C: Ledger>(
        &mut self,
        from: &Point<D>,
        to: &Point<D>,
        visits: &mut Steps<V>,
        changes: &mut Steps<C>,
    ) -> Result<Moved, NoMemory>
        requires from { IsPoint self.old.width D from.now }
        requires to { IsPoint self.old.width D to.now }
        ensures done { IsMoved self.old.table from.now to.now self.old (move_kept self.old from.now to.now) self.new changes.old changes.new result }
        ensures visits { visits.new
            ≤ visits.old
            + (3 * length (path self.old.width D self.old.table from.now)
            + 2 * length (path self.old.width D self.old.table to.now)) }
        ensures limit { visits.new ≤ visits.old + 5 * self.old.width }
        ensures later { visits.old ≤ visits.new }
    {
        // Uses that make known that the tree is a table, with at most so many rows.
        let _root = self.tree.root();
        let _len = self.tree.len();
        let moved = self.tree.relocate(from, to, visits, changes)?;
        note_move(&mut self.ring, from, to, moved);
        Ok(moved)
    }

    /// Takes the last edit back, and tells whether there was one that could be.
    ///
    /// The inverse is an edit of the tree and may want memory as one. An error leaves the tree and what is kept as they were,
    /// and the edit can be taken back later. There is always room for the row that comes back. No more nodes are visited than by
    /// that inverse as an edit of the tree.
    pub fn back_one<V: Ledger, C: Ledger>(
        &mut self,
        visits: &mut Steps<V>,
        changes: &mut Steps<C>,
    ) -> Result<bool, NoMemory>
        ensures done { IsTakenBack self.old self.new changes.old changes.new result }
        ensures visits { BackVisits D self.old.width self.old.table self.old.past visits.old visits.new }
        ensures limit { visits.new ≤ visits.old + 5 * self.old.width }
        ensures later { visits.old ≤ visits.new }
        ensures idle { self.old.past ≡ [] → (visits.new ≡ visits.old) × (changes.new ≡ changes.old) }
    {
        let Some(inverse) = newest(&self.ring) else {
            return Ok(false);
        };
        match take_back(&mut self.tree, &inverse, visits, changes) {
            Ok(()) => {
                drop_newest(&mut self.ring);
                Ok(true)
            }
            Err(error) => Err(error),
        }
    }

    /// Takes another tree of the same width in place of its own, and forgets all edits. The depth stays. Takes no memory.
    pub fn replace(&mut self, tree: PhTree<D>)
        requires { self.old.width ≡ tree.width }
        ensures tree { tree_of self.new ≡ tree.entry }
        ensures depth { self.new.depth ≡ self.old.depth }
        ensures past { self.new.past ≡ [] }
    {
        self.tree = tree;
        drop_all(&mut self.ring);
    }

    /// Forgets all edits. The tree and the depth stay. Takes no memory, and keeps the room for inverses.
    pub fn forget(&mut self)
        ensures { self.new ≡ without_past self.old self.old.table }
    {
        // A use that makes known what is kept.
        let _tree = &self.tree;
        drop_all(&mut self.ring);
    }
}
