//! Trees of any number of dimensions as bytes.
ghost use Rattle.std.specs.Prelude.{◌≤◌};
ghost use Rattle.ph_c.specs.Trees.{any_table};
ghost use Rattle.ph_c.specs.Openings.{MadeOr};
ghost use Rattle.ph_c.specs.Snapshots.{IsSave, IsLoaded, NotLoaded};

use super::Tree;
use crate::snapshots::{load_tree, save_tree};
use ph_coord::Width;
use ph_steps::Steps;
use std::alloc::Global;
use std::sync::ledger::Ledger;

impl Tree {
    /// Writes the snapshot of the tree, and how many bytes it has.
    pub(crate) fn save<V: Ledger>(
        &self,
        bytes: &mut [u8],
        needed: &mut u64,
        visits: &mut Steps<V>,
    ) -> u32
        ensures { IsSave (any_table self.now) bytes.old bytes.new needed.new result }
    {
        with_tree!(self, tree => save_tree(tree, bytes, needed, visits))
    }

    /// The tree of which the bytes are the snapshot, or the answer why there is none.
    pub(crate) fn load<C: Ledger>(
        alloc: Global,
        dims: u32,
        w: Width,
        bytes: &[u8],
        changes: &mut Steps<C>,
    ) -> Result<Tree, u32>
        requires some { 1 ≤ dims }
        requires limit { dims ≤ 16 }
        ensures { MadeOr (IsLoaded dims w bytes.now) (NotLoaded dims w bytes.now) result }
    {
        macro_rules! load {
            ($dims:literal, $variant:ident) => {
                load_tree::<$dims, C>(alloc, w, bytes, changes).map(Tree::$variant)
            };
        }
        by_dims!(dims, load)
    }
}
