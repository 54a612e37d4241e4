//! A tree with rows that is made anew with others.
ghost use Rattle.std.specs.Prelude.{◌≡◌, ◌+◌, ◌≤◌, [], length, IfOk, OnOk, OnErr};
ghost use Rattle.std.specs.List.{AllByRecursion as Each};
ghost use Rattle.ph_specs.specs.TableNames.{IsPoint, put_all, table_of};
ghost use Rattle.ph_specs.specs.WorkNames.{all_nodes};
ghost use Rattle.ph_import.specs.Imported.{IsImported};

use crate::fault::ImportFault;
use crate::fills::fill;
use ph_coord::Row;
use ph_steps::Steps;
use ph_tree::{NoMemory, PhTree};
use ph_undo::Kept;
use ph_window::Window;
use std::alloc::Global;
use std::sync::ledger::Ledger;

// Puts rows into a tree all at once: its own rows and these are sorted, and each node is made once. That there are too many is told before the first is
// made. After an error the tree is as it was.
pub(crate) fn renew<const D: usize, V: Ledger, C: Ledger>(
    alloc: Global,
    kept: &mut Kept<D>,
    rows: Vec<Row<D>>,
    visits: &mut Steps<V>,
    changes: &mut Steps<C>,
) -> Result<(), ImportFault>
    requires { Each (λ r. IsPoint kept.old.width D r.point) rows.items }
    ensures done { IsImported kept.old kept.new rows.entry.items
        (length (all_nodes kept.old.width D (put_all kept.old.width kept.old.table rows.entry.items)))
        changes.old changes.new result }
    ensures err { OnErr result (kept.new ≡ kept.old) }
    ensures visits { visits.new ≤ visits.old + length (all_nodes kept.old.width D kept.old.table) }
    ensures limit { visits.new ≤ visits.old + length kept.old.table }
    ensures later { visits.old ≤ visits.new }
{
    let all = with_others(alloc, kept.tree(), rows, visits)?;
    fill(alloc, kept, all, changes)
}

// The rows of a tree in Z-order, and behind them others in their order. Room for all is taken at once.
fn with_others<const D: usize, V: Ledger>(
    alloc: Global,
    tree: &PhTree<D>,
    others: Vec<Row<D>>,
    visits: &mut Steps<V>,
) -> Result<Vec<Row<D>>, NoMemory>
    requires { Each (λ r. IsPoint tree.now.width D r.point) others.items }
    ensures points { IfOk result (λ rows. Each (λ r. IsPoint tree.now.width D r.point) rows.items) }
    ensures table { IfOk result (λ rows. table_of tree.now.width rows.items ≡ put_all tree.now.width tree.now.table others.entry.items) }
    ensures visits { visits.new ≤ visits.old + length (all_nodes tree.now.width D tree.now.table) }
    ensures limit { visits.new ≤ visits.old + length tree.now.table }
    ensures later { visits.old ≤ visits.new }
{
    // Uses that make known that the tree is a table, of a width from 1 to 62.
    let _root = tree.root();
    let _bits = tree.width().bits();
    let room = (tree.len() as usize).saturating_add(others.len());
    let mut others = others;
    let mut rows = Vec::with_capacity(alloc, room)?;
    list_rows(tree, &mut rows, visits)?;
    rows.append(&mut others)?;
    Ok(rows)
}

// Lists the rows of a tree in Z-order.
fn list_rows<const D: usize, V: Ledger>(
    tree: &PhTree<D>,
    rows: &mut Vec<Row<D>>,
    visits: &mut Steps<V>,
) -> Result<(), NoMemory>
    requires { rows.old.items ≡ [] }
    ensures rows { OnOk result (rows.new.items ≡ tree.now.table) }
    ensures visits { visits.new ≤ visits.old + length (all_nodes tree.now.width D tree.now.table) }
    ensures later { visits.old ≤ visits.new }
{
    let mut window = Window::whole(tree);
    'rows: while let Some(row) = window.next(visits) {
        rows.push(row)?;
    }
    Ok(())
}
