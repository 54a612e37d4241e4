//! The best rows that were found.

ghost use Rattle.std.specs.Prelude.{◌≡◌, ℕ, ◌^◌, ◌<◌, ◌≤◌, [], ◌∷◌, length, min, IfOk, OnOk};
ghost use Rattle.std.specs.BinaryHeap.{heap_items, heap_capacity, IsHeap};
ghost use Rattle.std.specs.List.{AllByRecursion as Each};
ghost use Rattle.std.specs.List.Sorted.{IsPermutation};
ghost use Rattle.ph_model.specs.ModelNames.{IsBody};
ghost use Rattle.ph_near.specs.Found.{found_cmp};
ghost use Rattle.ph_near.specs.Ranking.{IsRanked, IsRanking, IsLimit, IsAdded, IsBeyond, IsWanted, IsListed};

use crate::found::Found;
use ph_coord::{Point, Row, Width};
use ph_node::NoMemory;
use ph_table::Hit;
use ph_tree::PhTree;
use std::alloc::Global;
use std::cmp::min;
use std::collections::BinaryHeap;

// The first n rows of those that were found, or all where these are fewer. The last of them is on top. The limit is looked at for each
// entry of a node, and changes with a row alone.
#[derive(Drop)]
pub(crate) struct Ranking<const D: usize> {
    n: usize,
    rows: BinaryHeap<Found<D>>,
    limit: u128,
}

impl<const D: usize> Ranking<D> {
    // No row of a tree is found yet. The room for all that will be ranked is taken at once.
    pub(crate) fn new(alloc: Global, tree: &PhTree<D>, n: usize) -> Result<Ranking<D>, NoMemory>
        requires some { 1 ≤ n }
        requires few { D ≤ 16 }
        ensures n { IfOk result (λ r. r.n ≡ n) }
        ensures room { IfOk result (λ r. heap_capacity r.rows ≡ min n (length tree.now.table)) }
        ensures rows { IfOk result (λ r. heap_items r.rows ≡ []) }
        ensures ranking { IfOk result (λ r. IsRanking r) }
    {
        let rows = BinaryHeap::with_capacity(alloc, min(n, tree.len() as usize))?;
        Ok(Ranking {
            n,
            rows,
            limit: u128::MAX,
        })
    }

    // How far the last of n rows is: what is farther is none of the n nearest.
    #[inline(always)]
    pub(crate) fn limit(&self) -> u128
        requires few { D ≤ 16 }
        requires ranking { IsRanking self.now }
        ensures beyond { (t : ℕ) → result < t → t < 2 ^ 128 → IsBeyond self.now.n (heap_items self.now.rows) t }
        ensures wanted { (t : ℕ) → t ≤ result → IsWanted self.now.n (heap_items self.now.rows) t }
    {
        self.limit
    }

    // The limit of the rows that are ranked.
    fn last_distance(&self) -> u128
        requires few { D ≤ 16 }
        requires ranked { IsRanked self.now }
        ensures { IsLimit self.now.n (heap_items self.now.rows) result }
    {
        if self.rows.len() < self.n {
            return u128::MAX;
        }
        match self.rows.peek() {
            Some(last) => last.distance,
            None => u128::MAX,
        }
    }

    // Takes in a row if it is one of the first n of those found.
    pub(crate) fn add(&mut self, found: Found<D>) -> Result<(), NoMemory>
        requires few { D ≤ 16 }
        requires ranking { IsRanking self.old }
        ensures n { self.new.n ≡ self.old.n }
        ensures ranking { OnOk result (IsRanking self.new) }
        ensures added { OnOk result (IsAdded self.old.n found.entry (heap_items self.old.rows) (heap_items self.new.rows)) }
    {
        self.rank(found)?;
        self.limit = self.last_distance();
        Ok(())
    }

    // The same to the rows alone.
    #[inline(always)]
    fn rank(&mut self, found: Found<D>) -> Result<(), NoMemory>
        requires { IsRanked self.old }
        ensures n { self.new.n ≡ self.old.n }
        ensures ranked { OnOk result (IsRanked self.new) }
        ensures added { OnOk result (IsAdded self.old.n found.entry (heap_items self.old.rows) (heap_items self.new.rows)) }
    {
        if self.rows.len() < self.n {
            return self.push(found);
        }
        let Some(mut last) = self.rows.peek_mut() else {
            return Ok(());
        };
        if found.cmp(&last).is_lt() {
            *last = found;
        }
        Ok(())
    }

    #[inline(always)]
    fn push(&mut self, found: Found<D>) -> Result<(), NoMemory>
        ensures n { self.new.n ≡ self.old.n }
        ensures moved { OnOk result (IsPermutation (found.entry ∷ heap_items self.old.rows) (heap_items self.new.rows)) }
        ensures order { OnOk result (IsHeap found_cmp (heap_items self.old.rows) → IsHeap found_cmp (heap_items self.new.rows)) }
    {
        match self.rows.push(found) {
            Ok(()) => Ok(()),
            Err(_) => Err(NoMemory),
        }
    }

    // The rows in their order, each with its distance.
    pub(crate) fn into_hits(self, alloc: Global, w: Width) -> Result<Vec<Hit<D>>, NoMemory>
        requires few { D ≤ 16 }
        requires ranking { IsRanking self }
        requires known { Each (λ f. IsBody D w f.known) (heap_items self.rows) }
        ensures { IfOk result (λ hits. IsListed w (heap_items self.entry.rows) hits.items) }
    {
        let rows = self.rows.into_sorted_vec();
        let mut hits = Vec::with_capacity(alloc, rows.len())?;
        for found in &rows {
            let point = Point::from_offsets(w, &found.known);
            let row = Row {
                point,
                value: found.value,
            };
            let distance = found.distance;
            match hits.push(Hit { row, distance }) {
                Ok(()) => {}
                Err(_) => return Err(NoMemory),
            }
        }
        Ok(hits)
    }
}
