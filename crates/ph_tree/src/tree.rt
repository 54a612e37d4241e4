//! The tree: a table in nodes.

ghost use Rattle.std.specs.Prelude.{◌≡◌, ◌≢◌, ◌+◌, ◌-◌, ◌*◌, ◌^◌, ◌<◌, ◌≤◌, ◌↔◌, [], length, None, IsTrue, false};
ghost use Rattle.std.specs.Option.{option_copied};
ghost use Rattle.ph_specs.specs.TableNames.{IsPoint, IsTable, find};
ghost use Rattle.ph_specs.specs.TreeNames.{rows, shape};
ghost use Rattle.ph_model.specs.ModelNames.{IsLawful};
ghost use Rattle.ph_specs.specs.WorkNames.{all_nodes, path};
ghost use Rattle.ph_tree.specs.Tree.{with_row, without_row};
ghost use Rattle.ph_tree.specs.Puts.{IsPutRow};
ghost use Rattle.ph_tree.specs.Removals.{IsRemovedRow};
ghost use Rattle.ph_tree.specs.Moves.{IsMoved, with_moved};

use crate::compare::is_same_node;
use crate::error::PutError;
use crate::find::{find_in, find_spare};
use crate::key::KeyOf;
use crate::moves::{Moved, move_in};
use crate::puts::{PutOf, put_in};
use crate::removals::{Removal, del_in};
use crate::spare::Spare;
use ph_coord::{Dim, Point, Width};
use ph_node::{NoMemory, Node};
use ph_steps::Steps;
use ph_table::Put;
use std::alloc::Global;
use std::marker::Model;
use std::sync::ledger::Ledger;

/// A table of at most `max` rows, at points of D dimensions and of one width.
///
/// Whatever the order of the puts, the same table is the same tree.
#[derive(Drop)]
pub struct PhTree<const D: usize> {
    alloc: Global,
    root: Option<Node<D>>,
    width: Width,
    max: u64,
    len: u64,
}

impl<const D: usize> Model for PhTree<D> {
    ghost use Rattle.ph_tree.specs.Tree.{TreeTable, tree_table, IsTree};

    ghost Value = { TreeTable };

    ghost view = { λ t. tree_table D t.width t.root t.max };

    ghost invariant = { λ t. IsTree D t.width t.root t.max t.len };
}

impl<const D: usize> PhTree<D> {
    ghost use Rattle.ph_tree.specs.Tree.{TreeTable};

    /// The empty tree of a width, for at most `max` rows. Takes no memory.
    pub fn new(alloc: Global, w: Width, max: u64) -> PhTree<D>
        requires some { 1 ≤ D }
        requires few { D ≤ 16 }
        ensures table { result.table ≡ [] }
        ensures width { result.width ≡ w }
        ensures max { result.max ≡ max }
    {
        // A use that makes the range of the width known.
        let _bits = w.bits();
        PhTree {
            alloc,
            root: None,
            width: w,
            max,
            len: 0,
        }
    }

    /// The tree of a root, for at most 2^64 - 1 rows. Takes no memory.
    pub fn adopt(alloc: Global, w: Width, root: Option<Node<D>>, len: u64) -> PhTree<D>
        requires some { 1 ≤ D }
        requires few { D ≤ 16 }
        requires lawful { IsLawful w D root }
        requires counted { len ≡ length (rows w D root) }
        ensures table { result.table ≡ rows w D root.entry }
        ensures width { result.width ≡ w }
        ensures max { result.max ≡ 2 ^ 64 - 1 }
    {
        // A use that makes the range of the width known.
        let _bits = w.bits();
        PhTree {
            alloc,
            root,
            width: w,
            max: u64::MAX,
            len,
        }
    }

    /// The number of rows.
    pub fn len(&self) -> u64
        ensures value { result ≡ length self.now.table }
        ensures limit { result ≤ self.now.max }
    {
        self.len
    }

    /// How many rows it may have.
    pub fn max(&self) -> u64
        ensures { result ≡ self.now.max }
    {
        self.max
    }

    /// Lets it have at most `max` rows, and tells whether it does: not where it has more.
    pub fn set_max(&mut self, max: u64) -> bool
        ensures fits { IsTrue result ↔ (length self.old.table ≤ max) }
        ensures set { IsTrue result → self.new ≡ record self.old { max = max } }
        ensures stays { result ≡ false → self.new ≡ self.old }
    {
        let fits = self.len <= max;
        if fits {
            self.max = max;
        }
        fits
    }

    /// The width of the coordinates.
    pub fn width(&self) -> Width
        ensures { result ≡ self.now.width }
    {
        self.width
    }

    /// The root of the tree, with the highest place as its level.
    pub fn root(&self) -> Option<&Node<D>>
        ensures shape { option_copied result ≡ shape self.now.width self.now.table }
        ensures empty { (result ≡ None) ↔ (self.now.table ≡ []) }
        ensures table { IsTable self.now.width D self.now.table }
        ensures some { 1 ≤ D }
        ensures few { D ≤ 16 }
    {
        self.root.as_ref()
    }

    /// Lets all rows go.
    pub fn clear(&mut self)
        ensures { self.new ≡ record self.old { table = [] } }
    {
        self.root = None;
        self.len = 0;
    }

    /// The value at a point.
    pub fn get<V: Ledger>(&self, p: &Point<D>, visits: &mut Steps<V>) -> Option<u64>
        requires { IsPoint self.now.width D p.now }
        ensures found { result ≡ find self.now.table p.now }
        ensures visits { visits.new ≡ visits.old + length (path self.now.width D self.now.table p.now) }
        ensures limit { visits.new ≤ visits.old + self.now.width }
    {
        let key = KeyOf::new(self.width, p.as_slice());
        match &self.root {
            Some(root) => find_in(root.visit(visits), &key, visits),
            None => None,
        }
    }

    /// Whether another tree of the same width has the same table. How many rows each may have does not matter.
    ///
    /// Trees with different numbers of rows are told apart by these. Otherwise the nodes are compared, down from the
    /// roots, up to the first difference.
    pub fn same<V: Ledger>(&self, other: &PhTree<D>, visits: &mut Steps<V>) -> bool
        requires { self.now.width ≡ other.now.width }
        ensures same { IsTrue result ↔ (self.now.table ≡ other.now.table) }
        ensures visits { visits.new ≤ visits.old + (length (all_nodes self.now.width D self.now.table) + length (all_nodes other.now.width D other.now.table)) }
        ensures all { IsTrue result
            → visits.new
            ≡ visits.old
            + (length (all_nodes self.now.width D self.now.table)
            + length (all_nodes other.now.width D other.now.table)) }
        ensures spared { length self.now.table ≢ length other.now.table → visits.new ≡ visits.old }
        ensures later { visits.old ≤ visits.new }
    {
        let _bits = self.width.bits();
        if self.len() != other.len() {
            return false;
        }
        match (self.root(), other.root()) {
            (Some(a), Some(b)) => is_same_node::<Dim<D>, V>(a, b, visits),
            (None, None) => true,
            _ => false,
        }
    }

    /// Puts a value at a point, in place of the one that stands there.
    ///
    /// A new point may want memory, for the node that gets it or for one node more.
    pub fn put<V: Ledger, C: Ledger>(
        &mut self,
        p: Point<D>,
        v: u64,
        visits: &mut Steps<V>,
        changes: &mut Steps<C>,
    ) -> Result<Put, PutError>
        requires { IsPoint self.old.width D p }
        ensures done { IsPutRow self.old.table self.old.max p.entry self.old (with_row self.old p.entry v) self.new changes.old changes.new result }
        ensures visits { visits.new ≤ visits.old + (2 * length (path self.old.width D self.old.table p.entry) - 1) }
        ensures limit { visits.new ≤ visits.old + 2 * self.old.width }
        ensures later { visits.old ≤ visits.new }
    {
        let key = KeyOf::new(self.width, p.as_slice());
        let room = self.len < self.max;
        let mut put = PutOf {
            key: &key,
            value: v,
            room,
            fresh: false,
            former: 0,
            spare: Spare::new(self.alloc, 0),
        };
        match put_in(&mut self.root, self.alloc, &mut put, visits, changes) {
            Ok(Put::New) => {
                self.len += 1;
                Ok(Put::New)
            }
            Ok(Put::Old(old)) => Ok(Put::Old(old)),
            Err(error) => Err(error),
        }
    }

    /// Takes the row at a point out, and tells its value, or `None` where no row is there.
    ///
    /// A node that would keep one entry goes, and that entry takes its place; only the root may have one.
    ///
    /// It takes memory only where a node loses a point and its record changes its layout by that: for the words of that record
    /// and for the node's children. Where the layout stays the record is changed where it lies. An absent point, the last row, and a
    /// node that goes take none either. An error leaves all as it was. A node of which much memory is free then moves to less of it, if there is some.
    pub fn del<V: Ledger, C: Ledger>(
        &mut self,
        p: &Point<D>,
        visits: &mut Steps<V>,
        changes: &mut Steps<C>,
    ) -> Result<Option<u64>, NoMemory>
        requires { IsPoint self.old.width D p.now }
        ensures done { IsRemovedRow self.old.width D self.old.table p.now self.old (without_row self.old p.now) self.new changes.old changes.new result }
        ensures visits { visits.new ≤ visits.old + (2 * length (path self.old.width D self.old.table p.now) - 1) }
        ensures limit { visits.new ≤ visits.old + 2 * self.old.width }
        ensures later { visits.old ≤ visits.new }
    {
        let key = KeyOf::new(self.width, p.as_slice());
        let mut removal = Removal {
            alloc: self.alloc,
            there: None,
            value: 0,
        };
        match del_in(&mut self.root, &key, &mut removal, visits, changes)? {
            Some(value) => {
                self.len -= 1;
                Ok(Some(value))
            }
            None => Ok(None),
        }
    }

    /// Moves the value at one point to another, where no row is at the other. Where both are the same point, nothing
    /// changes.
    ///
    /// A row that moves may want memory, as a put and a removal do, and takes it before the first change. Where no row moves,
    /// the answer comes without memory too. The tree may be full, since a move leaves the number of its rows.
    pub fn relocate<V: Ledger, C: Ledger>(
        &mut self,
        from: &Point<D>,
        to: &Point<D>,
        visits: &mut Steps<V>,
        changes: &mut Steps<C>,
    ) -> Result<Moved, NoMemory>
        requires from { IsPoint self.old.width D from.now }
        requires to { IsPoint self.old.width D to.now }
        ensures done { IsMoved self.old.table from.now to.now self.old (with_moved self.old from.now to.now) self.new changes.old changes.new result }
        ensures visits { visits.new
            ≤ visits.old
            + (3 * length (path self.old.width D self.old.table from.now)
            + 2 * length (path self.old.width D self.old.table to.now)) }
        ensures limit { visits.new ≤ visits.old + 5 * self.old.width }
        ensures later { visits.old ≤ visits.new }
    {
        let old = KeyOf::new(self.width, from.as_slice());
        let Some(found) = find_spare(&self.root, &old, visits) else {
            return Ok(Moved::Absent);
        };
        if from == to {
            return Ok(Moved::Done);
        }
        let new = KeyOf::new(self.width, to.as_slice());
        move_in(
            &mut self.root,
            self.alloc,
            &old,
            &new,
            found,
            visits,
            changes,
        )
    }
}
