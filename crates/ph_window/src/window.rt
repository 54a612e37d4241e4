//! The rows of a window, one after the other.
ghost use Rattle.std.specs.Prelude.{◌≡◌, ◌≢◌, ◌+◌, ◌<◌, ◌≤◌, [], length, drop, slice_get, None};
ghost use Rattle.ph_specs.specs.TableNames.{IsPoint, window, rest};
ghost use Rattle.ph_window.specs.Window.{behind, meets_behind};
ghost use Rattle.ph_specs.specs.WorkNames.{meets, path};

use crate::corners::CornersOf;
use crate::mark::MarkOf;
use crate::resume::resume;
use ph_coord::{Dim, Dims, Point, Row};
use ph_path::{KnownOf, PathOf};
use ph_steps::Steps;
use ph_tree::PhTree;
use ph_walk::WalkOf;
use std::marker::Model;
use std::sync::ledger::Ledger;

/// A window over a tree, and how far it has been listed. It takes no memory.
#[derive(Drop)]
pub struct WindowOf<'t, P: Dims> {
    walk: WalkOf<'t, P, CornersOf<P>>,
}

pub type Window<'t, const D: usize> = WindowOf<'t, Dim<D>>;

impl<'t, P: Dims> Model for WindowOf<'t, P> {
    ghost use Rattle.ph_window.specs.Window.{Listing};

    ghost Value = { Listing };

    ghost view = { λ a. record { rows = a.walk.rest; visits = a.walk.visits } };
}

impl<'t, const D: usize> WindowOf<'t, Dim<D>> {
    /// The window from one corner to another, both of them inside. A window with a reversed bound is empty.
    pub fn new(tree: &'t PhTree<D>, lo: Point<D>, hi: Point<D>) -> Window<'t, D>
        requires lo { IsPoint tree.now.width D lo }
        requires hi { IsPoint tree.now.width D hi }
        ensures rows { result.rows ≡ window lo.entry hi.entry tree.now.table }
        ensures visits { result.visits ≡ length (meets tree.now.width D tree.now.table lo.entry hi.entry) }
    {
        let w = tree.width();
        // A use that makes the range of the width known.
        let _bits = w.bits();
        let all = tree.root();
        let corners = CornersOf::new(w, lo.as_slice(), hi.as_slice());
        let root = if corners.have_points() { all } else { None };
        WindowOf {
            walk: WalkOf::new(w, root, corners),
        }
    }

    /// The same behind a point in Z-order, whether or not it is stored or inside. Visits at most as many nodes as the path to
    /// that point has, so at most as many as a coordinate has bits.
    pub fn after<V: Ledger>(
        tree: &'t PhTree<D>,
        lo: Point<D>,
        hi: Point<D>,
        last: Point<D>,
        visits: &mut Steps<V>,
    ) -> Window<'t, D>
        requires lo { IsPoint tree.now.width D lo }
        requires hi { IsPoint tree.now.width D hi }
        requires last { IsPoint tree.now.width D last }
        ensures rows { result.rows ≡ rest tree.now.width (behind lo.entry hi.entry last.entry) tree.now.table }
        ensures visits { result.visits ≤ length (meets tree.now.width D tree.now.table lo.entry hi.entry) }
        ensures ahead { result.visits ≤ length (meets_behind tree.now.width D tree.now.table lo.entry hi.entry last.entry) }
        ensures way { visits.new ≤ visits.old + length (path tree.now.width D tree.now.table last.entry) }
        ensures cost { visits.new ≤ visits.old + tree.now.width }
        ensures counted { tree.now.table ≢ [] → visits.old < visits.new }
        ensures grows { visits.old ≤ visits.new }
    {
        let w = tree.width();
        // A use that makes the range of the width known.
        let _bits = w.bits();
        let root = tree.root();
        let corners = CornersOf::new(w, lo.as_slice(), hi.as_slice());
        let mut path = PathOf::new();
        let mut known = KnownOf::new(w);
        let Some(root) = root else {
            return WindowOf {
                walk: WalkOf::on_path(path, known, corners),
            };
        };
        let mark = MarkOf::new(w, last.as_slice());
        let node = root.visit(visits);
        resume(&mut path, &mut known, &corners, &mark, node, visits);
        WindowOf {
            walk: WalkOf::on_path(path, known, corners),
        }
    }

    /// The next row of the window in Z-order; None where no row is left, and then always.
    pub fn next<V: Ledger>(&mut self, visits: &mut Steps<V>) -> Option<Row<D>>
        ensures row { result ≡ slice_get self.old.rows 0 }
        ensures rest { self.new.rows ≡ drop 1 self.old.rows }
        ensures cost { visits.new + self.new.visits ≡ visits.old + self.old.visits }
        ensures grows { visits.old ≤ visits.new }
        ensures end { result ≡ None → self.new.visits ≡ 0 }
    {
        let Some((row, _)) = self.walk.next(visits) else {
            return None;
        };
        Some(row)
    }
}
