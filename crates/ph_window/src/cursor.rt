//! Cursors, from which pages of a window begin.
ghost use Rattle.std.specs.Prelude.{◌≡◌, ◌≢◌, ◌+◌, ◌<◌, ◌≤◌, None, [], length, IsSome, IfSome};
ghost use Rattle.ph_specs.specs.TableNames.{IsPoint, rest};
ghost use Rattle.ph_specs.specs.WorkNames.{meets, path};
ghost use Rattle.ph_window.specs.Page.{IsLast};
ghost use Rattle.ph_window.specs.Window.{meets_behind};

use crate::page::{Page, PageOf};
use crate::window::Window;
use ph_coord::Point;
use ph_steps::Steps;
use ph_tree::PhTree;
use std::marker::Model;
use std::sync::ledger::Ledger;

/// The two corners of a window, and the last point of it that was listed.
#[derive(Clone, Copy)]
pub struct Cursor<const D: usize> {
    pub lo: Point<D>,
    pub hi: Point<D>,
    pub last: Option<Point<D>>,
}

impl<const D: usize> Model for Cursor<D> {
    ghost use Rattle.ph_specs.specs.TableNames.{Cursor as TheCursor};

    ghost Value = { TheCursor };

    ghost view = { λ c. record { lo = c.lo; hi = c.hi; last = c.last } };

    ghost inverse = { λ c. record { lo = c.lo; hi = c.hi; last = c.last } };
}

impl<const D: usize> Cursor<D> {
    /// The page of the next n rows.
    pub fn page<'t, V: Ledger>(
        &self,
        tree: &'t PhTree<D>,
        n: u32,
        visits: &mut Steps<V>,
    ) -> Page<'t, D>
        requires lo { IsPoint tree.now.width D self.now.lo }
        requires hi { IsPoint tree.now.width D self.now.hi }
        requires last { IsLast tree.now.width D self.now.last }
        ensures rows { result.rows ≡ rest tree.now.width self.now tree.now.table }
        ensures left { result.left ≡ n }
        ensures cursor { result.cursor ≡ self.now }
        ensures visits { result.visits ≤ length (meets tree.now.width D tree.now.table self.now.lo self.now.hi) }
        ensures way { IfSome self.now.last (λ p.
            (visits.new ≤ visits.old + length (path tree.now.width D tree.now.table p))
            × (result.visits ≤ length (meets_behind tree.now.width D tree.now.table self.now.lo self.now.hi p))) }
        ensures cost { visits.new ≤ visits.old + tree.now.width }
        ensures first { self.now.last ≡ None → visits.new ≡ visits.old }
        ensures resumed { IsSome self.now.last → tree.now.table ≢ [] → visits.old < visits.new }
        ensures grows { visits.old ≤ visits.new }
    {
        PageOf::new(self.window(tree, visits), *self, n)
    }

    // The window behind the last point that was listed.
    fn window<'t, V: Ledger>(&self, tree: &'t PhTree<D>, visits: &mut Steps<V>) -> Window<'t, D>
        requires lo { IsPoint tree.now.width D self.now.lo }
        requires hi { IsPoint tree.now.width D self.now.hi }
        requires last { IsLast tree.now.width D self.now.last }
        ensures rows { result.rows ≡ rest tree.now.width self.now tree.now.table }
        ensures visits { result.visits ≤ length (meets tree.now.width D tree.now.table self.now.lo self.now.hi) }
        ensures way { IfSome self.now.last (λ p.
            (visits.new ≤ visits.old + length (path tree.now.width D tree.now.table p))
            × (result.visits ≤ length (meets_behind tree.now.width D tree.now.table self.now.lo self.now.hi p))) }
        ensures cost { visits.new ≤ visits.old + tree.now.width }
        ensures first { self.now.last ≡ None → visits.new ≡ visits.old }
        ensures resumed { IsSome self.now.last → tree.now.table ≢ [] → visits.old < visits.new }
        ensures grows { visits.old ≤ visits.new }
    {
        match self.last {
            Some(last) => Window::after(tree, self.lo, self.hi, last, visits),
            None => Window::new(tree, self.lo, self.hi),
        }
    }
}
