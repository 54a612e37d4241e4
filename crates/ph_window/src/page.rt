//! Pages of a window.
ghost use Rattle.std.specs.Prelude.{◌≡◌, ◌↔◌, ◌+◌, ◌≤◌, [], drop, take, slice_get, MatchOption};
ghost use Rattle.ph_window.specs.Page.{IsSamePage, IsNextPage, paging};

use crate::cursor::Cursor;
use crate::window::{Window, WindowOf};
use ph_coord::{Dim, Dims, Row};
use ph_steps::Steps;
use std::marker::Model;
use std::sync::ledger::Ledger;

/// Some rows of a window from a cursor on, at most so many.
#[derive(Drop)]
pub struct PageOf<'t, P: Dims, C: Drop> {
    window: WindowOf<'t, P>,
    cursor: C,
    left: u32,
}

pub type Page<'t, const D: usize> = PageOf<'t, Dim<D>, Cursor<D>>;

impl<'t, P: Dims, C: Drop> Model for PageOf<'t, P, C> {
    ghost use Rattle.ph_window.specs.Page.{Paging};

    ghost Value = { Paging C };

    ghost view = { λ a. record { rows = a.window.rows; visits = a.window.visits; left = a.left; cursor = a.cursor } };
}

/// Whether rows are left behind a page.
#[derive(Clone, Copy, Debug, PartialEq, Eq)]
pub enum Tail {
    More,
    End,
}

impl<'t, const D: usize> PageOf<'t, Dim<D>, Cursor<D>> {
    // The first n rows of what is left of a window.
    pub(crate) fn new(window: Window<'t, D>, cursor: Cursor<D>, n: u32) -> Page<'t, D>
        ensures { result ≡ paging window.entry n cursor.entry }
    {
        PageOf {
            window,
            cursor,
            left: n,
        }
    }

    /// The next row of the page; None where n rows were given or none is left.
    pub fn next<V: Ledger>(&mut self, visits: &mut Steps<V>) -> Option<Row<D>>
        ensures row { result ≡ slice_get (take self.old.left self.old.rows) 0 }
        ensures goes { MatchOption result (IsSamePage self.old self.new) (λ r. IsNextPage self.old self.new r) }
        ensures cost { visits.new + self.new.visits ≡ visits.old + self.old.visits }
        ensures grows { visits.old ≤ visits.new }
    {
        if self.left == 0 {
            return None;
        }
        let Some(row) = self.window.next(visits) else {
            return None;
        };
        self.left -= 1;
        self.cursor = Cursor {
            lo: self.cursor.lo,
            hi: self.cursor.hi,
            last: Some(row.point),
        };
        Some(row)
    }

    /// The cursor behind the last row that was given.
    pub fn cursor(&self) -> Cursor<D>
        ensures { result ≡ self.now.cursor }
    {
        self.cursor
    }

    /// Whether a row is left, where `next` has answered None. It takes that row away, so it is the last call.
    pub fn tail<V: Ledger>(&mut self, visits: &mut Steps<V>) -> Tail
        ensures more { (result ≡ Tail.More) ↔ (self.old.rows ≡ [] → ⊥) }
        ensures rest { self.new.rows ≡ drop 1 self.old.rows }
        ensures kept { (self.new.left ≡ self.old.left) × (self.new.cursor ≡ self.old.cursor) }
        ensures cost { visits.new + self.new.visits ≡ visits.old + self.old.visits }
        ensures grows { visits.old ≤ visits.new }
    {
        if self.window.next(visits).is_some() {
            Tail::More
        } else {
            Tail::End
        }
    }
}
