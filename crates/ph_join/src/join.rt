//! The pairs of overlapping boxes of two trees, one after another.
ghost use Rattle.std.specs.Prelude.{◌≡◌, ◌%◌, ◌+◌, ◌≤◌, length, drop, slice_get, None};
ghost use Rattle.ph_specs.specs.TableNames.{AreBoxes, pairs};
ghost use Rattle.ph_specs.specs.WorkNames.{all_nodes, join_visits};
ghost use Rattle.ph_join.specs.Joining.{one_of};

use crate::partners::{Partners, PartnersOf, next_of};
use crate::seen::{AsRow, AsTree};
use ph_coord::{Dim, Dims, Row};
use ph_steps::Steps;
use ph_tree::PhTree;
use ph_window::{Window, WindowOf};
use std::marker::Model;
use std::sync::ledger::Ledger;

/// The pairs of overlapping boxes of two trees, and how far they have been listed.
///
/// A box is a point of twice as many dimensions. For each box of the first tree a window is walked over the
/// second, so no two boxes are compared that lie in parts of it that cannot overlap. It holds two windows, less than
/// 6 kB in all, and takes no memory.
#[derive(Drop)]
pub struct JoinOf<'t, P: Dims, R: AsRow + Drop, T: AsTree + Drop> {
    firsts: WindowOf<'t, P>,
    second: T,
    at: Option<PartnersOf<'t, P, R>>,
}

pub type Join<'t, const D: usize> = JoinOf<'t, Dim<D>, Row<D>, &'t PhTree<D>>;

impl<'t, P: Dims, R: AsRow + Drop, T: AsTree + Drop> Model for JoinOf<'t, P, R, T> {
    ghost use Rattle.ph_join.specs.Joining.{Joining, joining, IsJoin};

    ghost Value = { Joining };

    ghost view = { λ a. joining P.D a.at a.firsts (T.held a.second) };

    ghost invariant = { λ a. IsJoin P.D a.firsts.rows (T.held a.second) };
}

impl<'t, const D: usize> JoinOf<'t, Dim<D>, Row<D>, &'t PhTree<D>> {
    /// The pairs of two trees of boxes, before the first of them. Nothing is visited yet.
    pub fn new(first: &'t PhTree<D>, second: &'t PhTree<D>) -> Join<'t, D>
        requires even { D % 2 ≡ 0 }
        requires width { first.now.width ≡ second.now.width }
        requires firsts { AreBoxes first.now.table }
        requires seconds { AreBoxes second.now.table }
        ensures pairs { result.pairs ≡ pairs first.now.table second.now.table }
        ensures visits { result.visits ≡ join_visits first.now.width D first.now.table second.now.table }
        ensures owed { result.owed ≡ one_of (length (all_nodes first.now.width D first.now.table)) }
    {
        // A use that makes known that the rows are those of a table.
        let _root = first.root();
        JoinOf {
            firsts: Window::whole(first),
            second,
            at: None,
        }
    }

    /// The next pair: in the Z-order of the boxes of the first tree, and for each of them in that of the second.
    /// None where no pair is left, and then always.
    pub fn next<V: Ledger>(&mut self, visits: &mut Steps<V>) -> Option<(Row<D>, Row<D>)>
        ensures pair { result ≡ slice_get self.old.pairs 0 }
        ensures rest { self.new.pairs ≡ drop 1 self.old.pairs }
        ensures cost { visits.new + self.new.visits ≤ visits.old + self.old.visits }
        ensures grows { visits.old + self.old.owed ≤ visits.new + self.new.owed }
        ensures end { result ≡ None → self.new.owed ≡ 0 }
    {
        'pairs: loop {
            if let Some(pair) = next_of(&mut self.at, visits) {
                return Some(pair);
            }
            let Some(first) = self.firsts.next(visits) else {
                return None;
            };
            self.at = Some(Partners::new(self.second, first));
        }
    }
}
