//! The calls that save a tree as bytes, and load one.
ghost use Rattle.std.specs.Prelude.{◌≡◌, ◌<◌};
ghost use Rattle.ph_c.specs.Trees.{any_table};
ghost use Rattle.ph_c.specs.Calls.{table_in, Asks};
ghost use Rattle.ph_c.specs.Openings.{BoxedOr, Opening};
ghost use Rattle.ph_c.specs.Snapshots.{IsSave, IsLoaded, NotLoaded};

use crate::answers::{NO_MEMORY, NO_TREE};
use crate::frames::width_for;
use crate::handle::Handle;
use crate::openings::give_made;
use crate::trees::Tree;
use ph_steps::Steps;
use std::alloc::Global;
use std::marker::Brand;
use std::sync::ledger::{Blank, Ledger};

/// Writes the snapshot of the tree to a lent array, and how many bytes it has; where there is not as much room, that alone.
#[unsafe(no_mangle)]
pub extern "C" fn ph_save(alloc: Global, h: &mut Handle, bytes: &mut [u8], needed: &mut u64) -> u32
    ensures same { h.new.tree ≡ h.old.tree }
    ensures answer { Asks (table_in h.old.tree) result ((bytes.new ≡ bytes.old) × (needed.new ≡ needed.old))
        (λ t. IsSave t bytes.old bytes.new needed.new result) }
{
    let Some(tree) = h.take(alloc) else {
        return NO_TREE;
    };
    let answer = save_in::<Brand>(&tree, bytes, needed, Blank::new(1));
    h.give(alloc, tree);
    answer
}

/// Opens the tree of which the bytes are the snapshot, for any number of rows.
#[unsafe(no_mangle)]
pub extern "C" fn ph_load(alloc: Global, h: &mut Handle, dims: u32, width: u32, bytes: &[u8]) -> u32
    ensures { Opening (IsLoaded dims width bytes.now) (NotLoaded dims width bytes.now) (table_in h.old.tree) (table_in h.new.tree) result }
{
    let made = load_in::<Brand>(alloc, dims, width, bytes, Blank::new(1));
    give_made(alloc, h, made)
}

// The calls of the tree with a counter that nobody reads, made of a blank.

fn save_in<V: Ledger>(tree: &Tree, bytes: &mut [u8], needed: &mut u64, visits: Blank) -> u32
    requires visits { (visits.name ≡ V.name) × (visits.parts ≡ V.parts) × (0 < visits.parts) }
    ensures { IsSave (any_table tree.now) bytes.old bytes.new needed.new result }
{
    let mut visits: Steps<V> = Steps::new(visits);
    tree.save(bytes, needed, &mut visits)
}

fn load_in<C: Ledger>(
    alloc: Global,
    dims: u32,
    width: u32,
    bytes: &[u8],
    changes: Blank,
) -> Result<Box<Tree>, u32>
    requires changes { (changes.name ≡ C.name) × (changes.parts ≡ C.parts) × (0 < changes.parts) }
    ensures { BoxedOr (IsLoaded dims width bytes.now) (NotLoaded dims width bytes.now) result }
{
    let mut changes: Steps<C> = Steps::new(changes);
    let w = width_for(dims, width)?;
    let tree = Tree::load(alloc, dims, w, bytes, &mut changes)?;
    match Box::new(alloc, tree) {
        Ok(tree) => Ok(tree),
        Err(_) => Err(NO_MEMORY),
    }
}
