//! The stages of the tour. Each prints what it found, and what its calls count at most.

ghost use Rattle.std.specs.Prelude.{◌≡◌};

use crate::calls::{put_and_get, reloaded, rows_between, snapshot};
use crate::error::TourError;
use crate::points::{MOST, ROWS, point, width};
use ph_near::nearest;
use ph_snap::load;
use ph_specs::Kind;
use ph_steps::Steps;
use ph_tree::{PhTree, Stats};
use std::alloc::Global;
use std::sync::ledger::Ledger;

/// The tree of the tour, and what its calls count on.
#[derive(Drop)]
pub struct Tour<V: Ledger, C: Ledger> {
    alloc: Global,
    tree: PhTree<2>,
    visits: Steps<V>,
    changes: Steps<C>,
    ghost width: { tree.width ≡ 3 },
}

impl<V: Ledger, C: Ledger> Tour<V, C> {
    /// The tour of an empty tree.
    pub fn new(alloc: Global, visits: Steps<V>, changes: Steps<C>) -> Tour<V, C> {
        Tour {
            alloc,
            tree: PhTree::new(alloc, width(), MOST),
            visits,
            changes,
        }
    }

    /// Puts the rows, each with a look-up behind it, and tells the sizes of the tree.
    pub fn put_rows(&mut self, rt: &impl Print) -> Result<(), TourError> {
        for (x, y, value) in ROWS {
            let p = point(x, y)?;
            let got = put_and_get(
                &mut self.tree,
                p,
                value,
                &mut self.visits,
                &mut self.changes,
            )?;
            println!(rt; "put {value} at {x} {y}, got {got:?}: at most 9 visits and 2 changes")?;
        }
        let Stats {
            rows,
            nodes,
            words,
            ..
        } = self.tree.stats(&mut self.visits);
        println!(rt; "{rows} rows in {nodes} nodes of {words} words, counted by {nodes} visits")?;
        Ok(())
    }

    /// Puts a row into a tree that has as many as it may have.
    pub fn refuse_row(&mut self, rt: &impl Print) -> Result<(), TourError> {
        let p = point(0, -4)?;
        match self.tree.put(p, 50, &mut self.visits, &mut self.changes) {
            Ok(put) => println!(rt; "put 50 at 0 -4: {put:?}")?,
            Err(error) => println!(rt; "put 50 at 0 -4: {error}, at most 6 visits and no change")?,
        }
        Ok(())
    }

    /// Looks up a point that is there, and one that is not.
    pub fn get_rows(&mut self, rt: &impl Print) -> Result<(), TourError> {
        let there = self.tree.get(&point(3, 0)?, &mut self.visits);
        println!(rt; "get 3 0: {there:?}, at most 3 visits")?;
        let absent = self.tree.get(&point(0, 0)?, &mut self.visits);
        println!(rt; "get 0 0: {absent:?}, at most 3 visits")?;
        Ok(())
    }

    /// Lists a window.
    pub fn list_window(&mut self, rt: &impl Print) -> Result<(), TourError> {
        let (lo, hi) = (point(1, -1)?, point(3, 0)?);
        let rows = rows_between(self.alloc, &self.tree, lo, hi, &mut self.visits)?;
        println!(rt; "window from 1 -1 to 3 0:")?;
        for row in &rows {
            let (x, y) = (row.point.at(0), row.point.at(1));
            println!(rt; "    {} at {x} {y}", row.value)?;
        }
        Ok(())
    }

    /// Lists the two rows that are nearest to a point.
    pub fn list_nearest(&mut self, rt: &impl Print) -> Result<(), TourError> {
        let q = point(1, 1)?;
        let hits = nearest(self.alloc, &self.tree, q, 2, &mut self.visits)?;
        println!(rt; "the 2 nearest to 1 1:")?;
        for hit in &hits {
            let (x, y) = (hit.row.point.at(0), hit.row.point.at(1));
            println!(rt;
                "    {} at {x} {y}, squared distance {}",
                hit.row.value, hit.distance
            )?;
        }
        Ok(())
    }

    /// Takes a row out.
    pub fn remove_row(&mut self, rt: &impl Print) -> Result<(), TourError> {
        let p = point(2, 0)?;
        let gone = self.tree.del(&p, &mut self.visits, &mut self.changes)?;
        println!(rt; "del 2 0: {gone:?}, at most 6 visits and 2 changes")?;
        Ok(())
    }

    /// Saves the tree, loads it again, and compares the two.
    pub fn save_and_load(&mut self, rt: &impl Print) -> Result<(), TourError> {
        let nodes = self.tree.stats(&mut self.visits).nodes;
        let other = reloaded(self.alloc, &self.tree, &mut self.visits, &mut self.changes)?;
        let rows = other.len();
        let is_same = self.tree.same(&other, &mut self.visits);
        println!(rt;
            "saved by {nodes} visits, loaded {rows} rows by {nodes} changes, the same: {is_same}"
        )?;
        Ok(())
    }

    /// Loads the front of a snapshot, which is refused.
    pub fn refuse_bytes(&mut self, rt: &impl Print) -> Result<(), TourError> {
        let bytes = snapshot(self.alloc, &self.tree, &mut self.visits)?;
        let size = bytes.len();
        let front = bytes.as_slice().get(..20).unwrap_or(&[]);
        let w = self.tree.width();
        match load::<2, C>(self.alloc, front, Kind::Points, w, &mut self.changes) {
            Ok(_) => println!(rt; "20 bytes of {size}: loaded")?,
            Err(fault) => println!(rt; "20 bytes of {size}: {fault:?}, at most 1 change")?,
        }
        Ok(())
    }
}
