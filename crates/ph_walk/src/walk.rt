//! A walk over the rows of a set of points: node by node, in the order of the addresses.
ghost use Rattle.std.specs.Prelude.{◌≡◌, ◌+◌, ◌<◌, ◌≤◌, None, length, drop, slice_get, IfSome};
ghost use Rattle.std.specs.Option.{option_copied, option_map};
ghost use Rattle.ph_specs.specs.TreeNames.{rows};
ghost use Rattle.ph_model.specs.ModelNames.{IsLawful};
ghost use Rattle.ph_specs.specs.WorkNames.{placed};
ghost use Rattle.ph_path.specs.Path.{IsPath};
ghost use Rattle.ph_walk.specs.Area.{IsArea, kept, touched, TouchesRoot};
ghost use Rattle.ph_walk.specs.Walk.{IsOneTurn, IsEntered, IsBehind, IsFrame, path_rows, path_nodes};

use crate::area::{Area, Masks};
use ph_coord::{Dim, Dims, Row, Width};
use ph_node::{NodeOf, WhatOf};
use ph_path::{FrameOf, KnownOf, PathOf, VisitOf};
use ph_steps::Steps;
use std::marker::Model;
use std::sync::ledger::Ledger;

/// The way of a walk: of each node its masks are noted.
pub type WayOf<'t, N> = PathOf<FrameOf<'t, N, Masks>>;

// What a step of a walk comes to: a row with this value, at the point at hand, and what is told of it; nothing yet; or the end.
#[derive(Drop)]
enum Turn<T> {
    Found(u64, T),
    Moved,
    Done,
}

/// A walk. The root is there until it is visited. A walk takes no memory; it has room for the 62 nodes that a way can have.
#[derive(Drop)]
pub struct WalkOf<'t, P: Dims, A: Area<P>> {
    root: Option<&'t NodeOf<P>>,
    path: WayOf<'t, NodeOf<P>>,
    known: KnownOf<P>,
    area: A,
}

impl<'t, P: Dims, A: Area<P>> Model for WalkOf<'t, P, A> {
    ghost use Rattle.std.specs.Option.{option_copied};
    ghost use Rattle.ph_walk.specs.Walk.{Walk, walk_of, IsWalk};

    ghost Value = { Walk A };

    ghost view = { λ a. walk_of P.D a.area (A.points a.area) a.known (option_copied a.root) a.path };

    ghost invariant = { λ a. IsWalk P.D (A.points a.area) (A.IsNoted a.area) a.known (option_copied a.root) a.path };
}

impl<'t, P: Dims, A: Area<P>> WalkOf<'t, P, A> {
    /// The walk over the rows of a set, before its first step.
    pub fn new(w: Width, root: Option<&'t NodeOf<P>>, area: A) -> WalkOf<'t, P, A>
        requires some { 1 ≤ P.D }
        requires few { P.D ≤ 16 }
        requires width { (A.points area).width ≡ w }
        requires exact { IsArea P.D (A.points area) }
        requires tree { IsLawful w P.D (option_copied root) }
        requires start { IfSome root (λ n. TouchesRoot P.D (A.points area)) }
        ensures area { result.area ≡ area }
        ensures rest { result.rest ≡ kept (A.points area) (rows w P.D (option_copied root.entry)) }
        ensures visits { result.visits ≡ length (touched (A.points area) (placed w P.D (option_copied root.entry))) }
    {
        let _bits = w.bits();
        WalkOf {
            root,
            path: PathOf::new(),
            known: KnownOf::new(w),
            area,
        }
    }

    /// The walk that goes on from a path which was made elsewhere, below digits that are known on it.
    pub fn on_path(path: WayOf<'t, NodeOf<P>>, known: KnownOf<P>, area: A) -> WalkOf<'t, P, A>
        requires width { known.width ≡ (A.points area).width }
        requires exact { IsArea P.D (A.points area) }
        requires way { IsPath (IsFrame P.D (A.points area) (A.IsNoted area) known.digits) path }
        ensures area { result.area ≡ area }
        ensures rest { result.rest ≡ path_rows (A.points area) known.digits path.entry }
        ensures visits { result.visits ≡ path_nodes (A.points area) known.digits path.entry }
    {
        let _digits = known.digits();
        WalkOf {
            root: None,
            path,
            known,
            area,
        }
    }

    // The digits of the point at hand.
    fn known(&self) -> &KnownOf<P>
        ensures { result.now ≡ self.now.known }
    {
        &self.known
    }

    // One step: into the root, to the next entry that may matter, or out of a node that is done.
    fn step<V: Ledger>(&mut self, visits: &mut Steps<V>) -> Turn<A::Told>
        ensures { IsOneTurn (A.told self.old.area) self.old self.new result visits.old visits.new }
    {
        let Some(frame) = self.path.last() else {
            let Some(root) = self.root else {
                return Turn::Done;
            };
            self.root = None;
            let node = root.visit(visits);
            let note = self.area.note(&self.known, node.level());
            enter(&mut self.path, node, note);
            return Turn::Moved;
        };
        let node = frame.node;
        let Some(spot) = self.area.next(&self.known, &node, frame.place, frame.note) else {
            self.path.leave();
            return Turn::Moved;
        };
        let is_last = self.area.is_last(&self.known, &node, spot, frame.note);
        pass(&mut self.path, frame, spot.place + 1, is_last);
        match node.what(spot) {
            WhatOf::Value(value) => {
                self.known.join(node, spot);
                let Some(told) = self.area.test(&self.known) else {
                    return Turn::Moved;
                };
                Turn::Found(value, told)
            }
            WhatOf::Child(child) => {
                let below = child.visit(visits);
                self.known.join_child(node, spot, below.level());
                let note = self.area.note(&self.known, below.level());
                enter(&mut self.path, below, note);
                Turn::Moved
            }
        }
    }
}

impl<'t, const D: usize, A: Area<Dim<D>>> WalkOf<'t, Dim<D>, A> {
    /// The next row in Z-order, and what is told of its point; None where no row is left, and then always.
    pub fn next<V: Ledger>(&mut self, visits: &mut Steps<V>) -> Option<(Row<D>, A::Told)>
        ensures row { result ≡ option_map (λ r. (r, A.told self.old.area r.point)) (slice_get self.old.rest 0) }
        ensures rest { self.new.rest ≡ drop 1 self.old.rest }
        ensures area { self.new.area ≡ self.old.area }
        ensures cost { visits.new + self.new.visits ≡ visits.old + self.old.visits }
        ensures grows { visits.old ≤ visits.new }
        ensures end { result ≡ None → self.new.visits ≡ 0 }
    {
        loop {
            match self.step(visits) {
                Turn::Found(value, told) => {
                    let point = self.known().point();
                    return Some((Row { point, value }, told));
                }
                Turn::Moved => {}
                Turn::Done => return None,
            }
        }
    }
}

// Leaves an entry of the last frame behind: it goes on at a place, or goes itself where its node is done.
#[inline(always)]
fn pass<'t, P: Dims>(
    path: &mut WayOf<'t, NodeOf<P>>,
    frame: FrameOf<'t, NodeOf<P>, Masks>,
    place: usize,
    is_last: bool,
)
    ensures { IsBehind frame.entry place is_last path.old path.new }
{
    if is_last {
        path.leave();
    } else {
        path.set_last(FrameOf { place, ..frame });
    }
}

/// Puts a node on the path, where something may matter in it.
pub fn enter<'t, P: Dims>(
    path: &mut WayOf<'t, NodeOf<P>>,
    node: VisitOf<'t, P>,
    note: Option<Masks>,
)
    requires { length path.old < 62 }
    ensures { IsEntered note node.entry path.old path.new }
{
    if let Some(note) = note {
        path.push(FrameOf {
            node,
            place: 0,
            note,
        });
    }
}
