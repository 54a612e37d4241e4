//! What a tree of any number of dimensions writes into lent arrays.
ghost use Rattle.ph_c.specs.Trees.{any_table};
ghost use Rattle.ph_c.specs.Listings.{IsPage};
ghost use Rattle.ph_c.specs.Nears.{IsNear};
ghost use Rattle.ph_c.specs.Arrays.{SameHits, SamePage, of_hits, on_page};

use super::Tree;
use crate::arrays::{HitArrays, PageArrays};
use crate::hits::list_nearest;
use crate::listing::{Listing, list_page};
use ph_steps::Steps;
use std::alloc::Global;
use std::sync::ledger::Ledger;

impl Tree {
    /// Writes a page of a listing.
    pub(crate) fn page<V: Ledger>(
        &self,
        listing: &Listing<'_>,
        last: &[i64],
        page: &mut PageArrays<'_>,
        visits: &mut Steps<V>,
    ) -> u32
        ensures page { IsPage listing.now (any_table self.now) last.now (on_page page.old) (on_page page.new) result }
        ensures same { SamePage page.old page.new }
    {
        with_tree!(self, tree => list_page(tree, listing, last, page, visits))
    }

    /// Writes the rows nearest to a point, with their distances.
    pub(crate) fn nearest<V: Ledger>(
        &self,
        alloc: Global,
        center: &[i64],
        arrays: &mut HitArrays<'_>,
        visits: &mut Steps<V>,
    ) -> u32
        ensures near { IsNear (any_table self.now) center.now (of_hits arrays.old) (of_hits arrays.new) result }
        ensures same { SameHits arrays.old arrays.new }
    {
        with_tree!(self, tree => list_nearest(alloc, tree, center, arrays, visits))
    }
}
