//! A tree with other rows.
ghost use Rattle.std.specs.Prelude.{◌≡◌, length, OnErr};
ghost use Rattle.std.specs.List.{AllByRecursion as Each};
ghost use Rattle.ph_specs.specs.TableNames.{IsPoint, table_of};
ghost use Rattle.ph_specs.specs.WorkNames.{all_nodes};
ghost use Rattle.ph_import.specs.Imported.{IsRenewed};

use crate::fault::ImportFault;
use ph_bulk::{build, last_rows};
use ph_coord::Row;
use ph_steps::Steps;
use ph_undo::Kept;
use std::alloc::Global;
use std::sync::ledger::Ledger;

// Gives a tree the table of rows in place of its own: the rows are sorted and each node is made once. That there are too many is told before the
// first is made. After an error the tree is as it was.
pub(crate) fn fill<const D: usize, C: Ledger>(
    alloc: Global,
    kept: &mut Kept<D>,
    rows: Vec<Row<D>>,
    changes: &mut Steps<C>,
) -> Result<(), ImportFault>
    requires { Each (λ r. IsPoint kept.old.width D r.point) rows.items }
    ensures done { IsRenewed kept.old kept.new (table_of kept.old.width rows.entry.items)
        (length (all_nodes kept.old.width D (table_of kept.old.width rows.entry.items)))
        changes.old changes.new result }
    ensures err { OnErr result (kept.new ≡ kept.old) }
{
    let tree = kept.tree();
    let w = tree.width();
    let max = tree.max();
    // A use that makes the number of dimensions known.
    let _root = tree.root();
    let last = last_rows(alloc, w, rows)?;
    if last.len() as u64 > max {
        return Err(ImportFault::Full);
    }
    let mut built = build(alloc, w, last.as_slice(), changes)?;
    built.set_max(max);
    kept.replace(built);
    Ok(())
}
