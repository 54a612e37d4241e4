//! The rows within a radius of a point, one after the other.
ghost use Rattle.std.specs.Prelude.{◌≡◌, ◌+◌, ◌≤◌, length, drop, slice_get, None};
ghost use Rattle.ph_specs.specs.TableNames.{IsPoint, within};
ghost use Rattle.ph_specs.specs.WorkNames.{ball};
ghost use Rattle.ph_table.specs.Hits.{hits_of};

use crate::sphere::SphereOf;
use ph_coord::{Dim, Dims, Point};
use ph_steps::Steps;
use ph_table::Hit;
use ph_tree::PhTree;
use ph_walk::WalkOf;
use std::marker::Model;
use std::sync::ledger::Ledger;

/// The rows within a radius of a point, and how far they have been listed. It takes no memory.
#[derive(Drop)]
pub struct BallOf<'t, P: Dims> {
    walk: WalkOf<'t, P, SphereOf<P>>,
}

pub type Ball<'t, const D: usize> = BallOf<'t, Dim<D>>;

impl<'t, P: Dims> Model for BallOf<'t, P> {
    ghost use Rattle.ph_near.specs.Ball.{Listing};
    ghost use Rattle.ph_near.specs.BallSphere.{center_of};
    ghost use Rattle.ph_table.specs.Hits.{hits_of};

    ghost Value = { Listing };

    ghost view = { λ a. record { hits = hits_of (center_of a.walk.area) a.walk.rest; visits = a.walk.visits } };
}

impl<'t, const D: usize> BallOf<'t, Dim<D>> {
    /// The rows whose distance from `q`, squared, is at most `r`. Nothing is visited yet.
    pub fn new(tree: &'t PhTree<D>, q: Point<D>, r: u128) -> Ball<'t, D>
        requires point { IsPoint tree.now.width D q }
        ensures hits { result.hits ≡ hits_of q.entry (within q.entry r tree.now.table) }
        ensures visits { result.visits ≡ length (ball tree.now.width D tree.now.table q.entry r) }
    {
        let w = tree.width();
        // A use that makes the range of the width known.
        let _bits = w.bits();
        let root = tree.root();
        let sphere = SphereOf::new(w, q.as_slice(), r);
        BallOf {
            walk: WalkOf::new(w, root, sphere),
        }
    }

    /// The next row in Z-order, with its distance, squared; None where no row is left, and then always.
    pub fn next<V: Ledger>(&mut self, visits: &mut Steps<V>) -> Option<Hit<D>>
        ensures hit { result ≡ slice_get self.old.hits 0 }
        ensures rest { self.new.hits ≡ drop 1 self.old.hits }
        ensures cost { visits.new + self.new.visits ≡ visits.old + self.old.visits }
        ensures grows { visits.old ≤ visits.new }
        ensures end { result ≡ None → self.new.visits ≡ 0 }
    {
        let Some((row, distance)) = self.walk.next(visits) else {
            return None;
        };
        Some(Hit { row, distance })
    }
}
