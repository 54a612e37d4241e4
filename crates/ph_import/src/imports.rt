//! Rows into a tree, by how many it has.
ghost use Rattle.std.specs.Prelude.{◌≡◌, ◌≢◌, ◌+◌, ◌≤◌, [], length, OnErr, IsErrOf};
ghost use Rattle.std.specs.List.{AllByRecursion as Each};
ghost use Rattle.ph_specs.specs.TableNames.{IsPoint};
ghost use Rattle.ph_import.specs.Imported.{import_visits, most_visits, most_changes, IsImported, IsPart};

use crate::fault::ImportFault;
use crate::fills::fill;
use crate::merges::renew;
use crate::rows::put_rows;
use ph_coord::Row;
use ph_steps::Steps;
use ph_undo::Kept;
use std::alloc::Global;
use std::sync::ledger::Ledger;

/// Puts rows into a tree: of rows at one point the last stays, in place of one that is there. The last edits of the tree are forgotten then.
///
/// Before the first is put it is known that the tree may have all of them, so `Full` leaves it as it was.
///
/// A tree without rows gets all of them at once, from the sorted rows. No node is visited, each is made once, and an error
/// leaves the tree as it was. It takes memory to sort, for another copy of the rows where a point stands twice, and for the nodes.
///
/// So does a tree with rows that has no more of them than come: it is made anew of its own rows and these. Each of its nodes is visited once
/// at most. That takes memory for a copy of all rows besides.
///
/// A tree with more rows gets one after another, in their order. `NoMemory` leaves the rows in it that were put before, and the last edits
/// of the tree where there are none. Where it would have room for as many new points as there are rows, none is looked up before;
/// otherwise that takes memory for a set of the new points, and where `Full` comes of it these look-ups are all that is visited.
pub fn import_rows<const D: usize, V: Ledger, C: Ledger>(
    alloc: Global,
    kept: &mut Kept<D>,
    rows: Vec<Row<D>>,
    visits: &mut Steps<V>,
    changes: &mut Steps<C>,
) -> Result<(), ImportFault>
    requires points { Each (λ r. IsPoint kept.old.width D r.point) rows.items }
    ensures done { IsImported kept.old kept.new rows.entry.items
        (most_changes kept.old.width D kept.old.table rows.entry.items)
        changes.old changes.new result }
    ensures at_once { length kept.old.table ≤ length rows.entry.items → OnErr result (kept.new ≡ kept.old) }
    ensures fault { IsErrOf result ImportFault.NoMemory → kept.old.table ≢ [] → IsPart kept.old kept.new rows.entry.items }
    ensures visits { visits.new ≤ visits.old + import_visits D kept.old rows.entry.items }
    ensures limit { visits.new ≤ visits.old + most_visits kept.old.width kept.old.table (length rows.entry.items) }
    ensures later { visits.old ≤ visits.new }
{
    // A use that makes the range of the width known.
    let _bits = kept.tree().width().bits();
    if kept.tree().len() == 0 {
        return fill(alloc, kept, rows, changes);
    }
    if kept.tree().len() <= rows.len() as u64 {
        return renew(alloc, kept, rows, visits, changes);
    }
    put_rows(alloc, kept, rows, visits, changes)
}
