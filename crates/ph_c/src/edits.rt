//! The calls about one row.
ghost use Rattle.std.specs.Prelude.{◌≡◌, ◌<◌, ⊤};
ghost use Rattle.ph_c.specs.Trees.{any_table};
ghost use Rattle.ph_c.specs.Calls.{table_in, Asks, Edits};
ghost use Rattle.ph_c.specs.Edits.{IsPut, IsGet, IsRemove, IsMove};

use crate::answers::NO_TREE;
use crate::handle::Handle;
use crate::trees::Tree;
use ph_steps::{Counters, Steps};
use std::alloc::Global;
use std::marker::Brand;
use std::sync::ledger::{Blank, Ledger};

/// Puts a value at a point.
///
/// It answers whether the row is new, and writes the value that stood there before to `former`.
#[unsafe(no_mangle)]
pub extern "C" fn ph_put(
    alloc: Global,
    h: &mut Handle,
    point: &[i64],
    value: u64,
    former: &mut u64,
) -> u32
    ensures { Edits (table_in h.old.tree) (table_in h.new.tree) result (former.new ≡ former.old)
        (λ was now. IsPut was point.now value now former.old former.new result) }
{
    let Some(mut tree) = h.take(alloc) else {
        return NO_TREE;
    };
    let answer = put_in::<Brand, Brand>(
        &mut tree,
        point,
        value,
        former,
        Blank::new(1),
        Blank::new(1),
    );
    h.give(alloc, tree);
    answer
}

/// Writes the value at a point.
#[unsafe(no_mangle)]
pub extern "C" fn ph_get(alloc: Global, h: &mut Handle, point: &[i64], value: &mut u64) -> u32
    ensures same { h.new.tree ≡ h.old.tree }
    ensures answer { Asks (table_in h.old.tree) result (value.new ≡ value.old) (λ t. IsGet t point.now value.old value.new result) }
{
    let Some(tree) = h.take(alloc) else {
        return NO_TREE;
    };
    let answer = get_in::<Brand>(&tree, point, value, Blank::new(1));
    h.give(alloc, tree);
    answer
}

/// Takes the row at a point out, and writes its value to `former`.
#[unsafe(no_mangle)]
pub extern "C" fn ph_remove(alloc: Global, h: &mut Handle, point: &[i64], former: &mut u64) -> u32
    ensures { Edits (table_in h.old.tree) (table_in h.new.tree) result (former.new ≡ former.old)
        (λ was now. IsRemove was point.now now former.old former.new result) }
{
    let Some(mut tree) = h.take(alloc) else {
        return NO_TREE;
    };
    let answer = remove_in::<Brand, Brand>(&mut tree, point, former, Blank::new(1), Blank::new(1));
    h.give(alloc, tree);
    answer
}

/// Moves the row at one point to another, where none is.
#[unsafe(no_mangle)]
pub extern "C" fn ph_move(alloc: Global, h: &mut Handle, from: &[i64], to: &[i64]) -> u32
    ensures { Edits (table_in h.old.tree) (table_in h.new.tree) result ⊤ (λ was now. IsMove was from.now to.now now result) }
{
    let Some(mut tree) = h.take(alloc) else {
        return NO_TREE;
    };
    let answer = move_in::<Brand, Brand>(&mut tree, from, to, Blank::new(1), Blank::new(1));
    h.give(alloc, tree);
    answer
}

// The calls of the tree with counters that nobody reads, made of blanks.

fn put_in<V: Ledger, C: Ledger>(
    tree: &mut Tree,
    point: &[i64],
    value: u64,
    former: &mut u64,
    visits: Blank,
    changes: Blank,
) -> u32
    requires visits { (visits.name ≡ V.name) × (visits.parts ≡ V.parts) × (0 < visits.parts) }
    requires changes { (changes.name ≡ C.name) × (changes.parts ≡ C.parts) × (0 < changes.parts) }
    ensures { IsPut (any_table tree.old) point.now value (any_table tree.new) former.old former.new result }
{
    let mut counters: Counters<V, C> = Counters::new(visits, changes);
    tree.put(point, value, former, &mut counters)
}

fn get_in<V: Ledger>(tree: &Tree, point: &[i64], value: &mut u64, visits: Blank) -> u32
    requires visits { (visits.name ≡ V.name) × (visits.parts ≡ V.parts) × (0 < visits.parts) }
    ensures { IsGet (any_table tree.now) point.now value.old value.new result }
{
    let mut visits: Steps<V> = Steps::new(visits);
    tree.get(point, value, &mut visits)
}

fn remove_in<V: Ledger, C: Ledger>(
    tree: &mut Tree,
    point: &[i64],
    former: &mut u64,
    visits: Blank,
    changes: Blank,
) -> u32
    requires visits { (visits.name ≡ V.name) × (visits.parts ≡ V.parts) × (0 < visits.parts) }
    requires changes { (changes.name ≡ C.name) × (changes.parts ≡ C.parts) × (0 < changes.parts) }
    ensures { IsRemove (any_table tree.old) point.now (any_table tree.new) former.old former.new result }
{
    let mut counters: Counters<V, C> = Counters::new(visits, changes);
    tree.remove(point, former, &mut counters)
}

fn move_in<V: Ledger, C: Ledger>(
    tree: &mut Tree,
    from: &[i64],
    to: &[i64],
    visits: Blank,
    changes: Blank,
) -> u32
    requires visits { (visits.name ≡ V.name) × (visits.parts ≡ V.parts) × (0 < visits.parts) }
    requires changes { (changes.name ≡ C.name) × (changes.parts ≡ C.parts) × (0 < changes.parts) }
    ensures { IsMove (any_table tree.old) from.now to.now (any_table tree.new) result }
{
    let mut counters: Counters<V, C> = Counters::new(visits, changes);
    tree.relocate(from, to, &mut counters)
}
