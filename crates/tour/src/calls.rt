//! Calls made of those of the tree, with clauses that follow from theirs.

ghost use Rattle.std.specs.Prelude.{◌≡◌, ◌+◌, ◌*◌, ◌≤◌, Some, length, IfOk, OnOk, OnErr};
ghost use Rattle.ph_specs.specs.declared.Kind.{Kind};
ghost use Rattle.ph_specs.specs.TableNames.{IsPoint, window};
ghost use Rattle.ph_specs.specs.RecordNames.{snap};
ghost use Rattle.ph_specs.specs.WorkNames.{meets};
ghost use Rattle.ph_tree.specs.Tree.{with_row};

use crate::error::TourError;
use ph_coord::{Point, Row};
use ph_io::MemorySink;
use ph_snap::{NoMemory, load, save};
use ph_specs::Kind;
use ph_steps::Steps;
use ph_tree::{PhTree, PutError};
use ph_window::Window;
use std::alloc::Global;
use std::sync::ledger::Ledger;

// The most bytes that a snapshot may have here.
const ROOM: usize = 4096;

/// Puts a value at a point and looks it up.
#[tactic(auto, using(crate::proofs::Gets::find_after_put))]
pub fn put_and_get<V: Ledger, C: Ledger>(
    tree: &mut PhTree<2>,
    p: Point<2>,
    value: u64,
    visits: &mut Steps<V>,
    changes: &mut Steps<C>,
) -> Result<Option<u64>, PutError>
    requires { IsPoint tree.old.width 2 p }
    ensures got { IfOk result (λ got. got ≡ Some value) }
    ensures put { OnOk result (tree.new ≡ with_row tree.old p value) }
    ensures err { OnErr result (tree.new ≡ tree.old) }
    ensures visits { visits.new ≤ visits.old + 3 * tree.old.width }
    ensures changes { changes.new ≤ changes.old + 2 }
{
    tree.put(p, value, visits, changes)?;
    Ok(tree.get(&p, visits))
}

/// The rows from one corner to another, in Z-order. Takes memory for them alone.
pub fn rows_between<V: Ledger>(
    alloc: Global,
    tree: &PhTree<2>,
    lo: Point<2>,
    hi: Point<2>,
    visits: &mut Steps<V>,
) -> Result<Vec<Row<2>>, NoMemory>
    requires lo { IsPoint tree.now.width 2 lo }
    requires hi { IsPoint tree.now.width 2 hi }
    ensures rows { IfOk result (λ rows. rows.items ≡ window lo hi tree.now.table) }
    ensures visits { OnOk result (visits.new ≡ visits.old + length (meets tree.now.width 2 tree.now.table lo hi)) }
{
    let mut window = Window::new(tree, lo, hi);
    let mut rows = Vec::new(alloc);
    'rows: while let Some(row) = window.next(visits) {
        rows.push(row)?;
    }
    Ok(rows)
}

/// The snapshot of a tree of points, if it has at most 4,096 bytes. Takes memory for twice as many.
pub fn snapshot<V: Ledger>(
    alloc: Global,
    tree: &PhTree<2>,
    visits: &mut Steps<V>,
) -> Result<Vec<u8>, TourError>
    ensures { IfOk result (λ bytes. bytes.items ≡ snap Kind.Points 2 tree.now.width tree.now.table) }
{
    let mut sink = MemorySink::with_room(alloc, ROOM, ROOM, Vec::new(alloc))?;
    save(tree, Kind::Points, &mut sink, visits)?;
    Ok(Vec::from_slice(alloc, sink.bytes())?)
}

/// The tree that is loaded from the snapshot of another: it has the same table.
pub fn reloaded<V: Ledger, C: Ledger>(
    alloc: Global,
    tree: &PhTree<2>,
    visits: &mut Steps<V>,
    changes: &mut Steps<C>,
) -> Result<PhTree<2>, TourError>
    ensures table { IfOk result (λ t. t.table ≡ tree.now.table) }
    ensures width { IfOk result (λ t. t.width ≡ tree.now.width) }
{
    // Uses that make known that the rows are those of a table, and the range of the width.
    let _root = tree.root();
    let w = tree.width();
    let _bits = w.bits();
    let bytes = snapshot(alloc, tree, visits)?;
    let loaded = load(alloc, bytes.as_slice(), Kind::Points, w, changes)?;
    Ok(loaded)
}
