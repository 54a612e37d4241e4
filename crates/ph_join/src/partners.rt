//! One box, and the boxes of a tree that overlap it.
ghost use Rattle.std.specs.Prelude.{◌≡◌, ◌%◌, ◌+◌, ◌≤◌, length, drop, slice_get, None};
ghost use Rattle.ph_specs.specs.TableNames.{AreBoxes, IsPoint, partners};
ghost use Rattle.ph_specs.specs.WorkNames.{partner_nodes};
ghost use Rattle.ph_join.specs.Joining.{pairs_at, visits_at};

use crate::seen::AsRow;
use ph_box::{Question, bounds};
use ph_coord::{Dim, Dims, Row};
use ph_steps::Steps;
use ph_tree::PhTree;
use ph_window::{Window, WindowOf};
use std::marker::Model;
use std::sync::ledger::Ledger;

// A row, and the window over the rows of the other tree that overlap it.
#[derive(Drop)]
pub(crate) struct PartnersOf<'t, P: Dims, R: AsRow + Drop> {
    first: R,
    seconds: WindowOf<'t, P>,
}

pub(crate) type Partners<'t, const D: usize> = PartnersOf<'t, Dim<D>, Row<D>>;

impl<'t, P: Dims, R: AsRow + Drop> Model for PartnersOf<'t, P, R> {
    ghost use Rattle.ph_specs.specs.TableNames.{paired};
    ghost use Rattle.ph_join.specs.Joining.{Joining};

    ghost Value = { Joining };

    ghost view = { λ a. record { pairs = paired (R.seen a.first) a.seconds.rows; visits = a.seconds.visits; owed = 0 } };
}

impl<'t, const D: usize> PartnersOf<'t, Dim<D>, Row<D>> {
    // The pairs of a row. Nothing is visited yet.
    pub(crate) fn new(tree: &'t PhTree<D>, first: Row<D>) -> Partners<'t, D>
        requires even { D % 2 ≡ 0 }
        requires point { IsPoint tree.now.width D first.point }
        requires boxes { AreBoxes tree.now.table }
        ensures pairs { result.pairs ≡ partners first.entry tree.now.table }
        ensures visits { result.visits ≡ length (partner_nodes tree.now.width D tree.now.table first.entry) }
    {
        // A use that makes known that the rows are those of a table.
        let _root = tree.root();
        let (from, to) = bounds(Question::Overlap, tree.width(), &first.point);
        PartnersOf {
            first,
            seconds: Window::new(tree, from, to),
        }
    }

    // The next pair of the row.
    pub(crate) fn next<V: Ledger>(&mut self, visits: &mut Steps<V>) -> Option<(Row<D>, Row<D>)>
        ensures pair { result ≡ slice_get self.old.pairs 0 }
        ensures rest { self.new.pairs ≡ drop 1 self.old.pairs }
        ensures cost { visits.new + self.new.visits ≡ visits.old + self.old.visits }
        ensures grows { visits.old ≤ visits.new }
        ensures end { result ≡ None → self.new.visits ≡ 0 }
    {
        match self.seconds.next(visits) {
            Some(second) => Some((self.first, second)),
            None => None,
        }
    }
}

// The next pair of the row at hand, if there is one.
pub(crate) fn next_of<const D: usize, V: Ledger>(
    at: &mut Option<Partners<'_, D>>,
    visits: &mut Steps<V>,
) -> Option<(Row<D>, Row<D>)>
    ensures pair { result ≡ slice_get (pairs_at at.old) 0 }
    ensures rest { pairs_at at.new ≡ drop 1 (pairs_at at.old) }
    ensures cost { visits.new + visits_at at.new ≡ visits.old + visits_at at.old }
    ensures grows { visits.old ≤ visits.new }
    ensures end { result ≡ None → visits_at at.new ≡ 0 }
{
    match at {
        Some(partners) => partners.next(visits),
        None => None,
    }
}
