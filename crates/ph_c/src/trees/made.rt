//! Trees of any number of dimensions that are made of rows.
ghost use Rattle.std.specs.Prelude.{◌≤◌};
ghost use Rattle.ph_c.specs.Builds.{IsBuilt, NotBuilt, rows_for};
ghost use Rattle.ph_c.specs.Openings.{MadeOr};

use super::Tree;
use crate::bulk::tree_of_rows;
use ph_coord::Width;
use ph_steps::Steps;
use std::alloc::Global;
use std::sync::ledger::Ledger;

impl Tree {
    /// The tree of rows, for at most `most` of them, or the answer why there is none.
    pub(crate) fn of_rows<C: Ledger>(
        alloc: Global,
        dims: u32,
        w: Width,
        most: u64,
        points: &[i64],
        values: &[u64],
        changes: &mut Steps<C>,
    ) -> Result<Tree, u32>
        requires some { 1 ≤ dims }
        requires limit { dims ≤ 16 }
        ensures { MadeOr
            (IsBuilt (rows_for dims w most points.now values.now))
            (NotBuilt (rows_for dims w most points.now values.now)) result }
    {
        macro_rules! of_rows {
            ($dims:literal, $variant:ident) => {
                tree_of_rows::<$dims, C>(alloc, w, most, points, values, changes).map(Tree::$variant)
            };
        }
        by_dims!(dims, of_rows)
    }
}
