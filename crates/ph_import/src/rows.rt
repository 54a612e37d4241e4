//! Rows into a tree.
ghost use Rattle.std.specs.Prelude.{◌≡◌, ◌+◌, ◌*◌, ◌≤◌, length, OnOk, OnErr, IsErrOf};
ghost use Rattle.std.specs.List.{AllByRecursion as Each};
ghost use Rattle.ph_specs.specs.TableNames.{IsPoint, put_all};
ghost use Rattle.ph_import.specs.Imported.{with_some, puts_visits, rows_visits, IsImported, IsPart};

use crate::fault::ImportFault;
use crate::room::has_room;
use ph_coord::Row;
use ph_steps::Steps;
use ph_tree::{NoMemory, PutError};
use ph_undo::Kept;
use std::alloc::Global;
use std::sync::ledger::Ledger;

// Puts rows into a tree, in their order: a later row at the same point replaces the value of an earlier one.
//
// Before the first is put it is known that the tree has room for all of them. So `Full` leaves it as it was, and
// `NoMemory` leaves the rows in it that were put before memory was missing. Once a row is put, the last edits are forgotten. Where the tree would have room for as many
// new points as there are rows, none is looked up before. Otherwise that takes memory for a set of the new points.
pub(crate) fn put_rows<const D: usize, V: Ledger, C: Ledger>(
    alloc: Global,
    kept: &mut Kept<D>,
    rows: Vec<Row<D>>,
    visits: &mut Steps<V>,
    changes: &mut Steps<C>,
) -> Result<(), ImportFault>
    requires points { Each (λ r. IsPoint kept.old.width D r.point) rows.items }
    ensures done { IsImported kept.old kept.new rows.entry.items (2 * length rows.entry.items) changes.old changes.new result }
    ensures fault { IsErrOf result ImportFault.NoMemory → IsPart kept.old kept.new rows.entry.items }
    ensures visits { visits.new ≤ visits.old + rows_visits D kept.old rows.entry.items }
    ensures limit { visits.new ≤ visits.old + 4 * kept.old.width * length rows.entry.items }
    ensures later { visits.old ≤ visits.new }
{
    let rows = rows.as_slice();
    if !has_room(alloc, kept.tree(), rows, visits)? {
        return Err(ImportFault::Full);
    }
    put_each(kept, rows, visits, changes)?;
    kept.forget();
    Ok(())
}

// Puts rows for all of which there is room.
fn put_each<const D: usize, V: Ledger, C: Ledger>(
    kept: &mut Kept<D>,
    rows: &[Row<D>],
    visits: &mut Steps<V>,
    changes: &mut Steps<C>,
) -> Result<(), NoMemory>
    requires points { Each (λ r. IsPoint kept.old.width D r.point) rows.now }
    requires room { length (put_all kept.old.width kept.old.table rows.now) ≤ kept.old.max }
    ensures ok { OnOk result (kept.new ≡ with_some kept.old rows.now) }
    ensures err { OnErr result (IsPart kept.old kept.new rows.now) }
    ensures visits { visits.new ≤ visits.old + puts_visits kept.old.width D kept.old.table rows.now }
    ensures limit { visits.new ≤ visits.old + 2 * kept.old.width * length rows.now }
    ensures later { visits.old ≤ visits.new }
    ensures changes { changes.new ≤ changes.old + 2 * length rows.now }
    ensures grown { changes.old ≤ changes.new }
{
    // Uses that make known that the tree is a table, of a width from 1 to 62.
    let _root = kept.tree().root();
    let _bits = kept.tree().width().bits();
    for row in rows {
        match kept.put(row.point, row.value, visits, changes) {
            Ok(_) => kept.forget(),
            Err(PutError::Full) => unreachable!(),
            Err(PutError::NoMemory) => return Err(NoMemory),
        }
    }
    Ok(())
}
