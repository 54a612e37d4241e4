//! A tree of D dimensions as bytes of a lent array, and of bytes.
ghost use Rattle.std.specs.Prelude.{◌≡◌, ◌<◌, ◌≤◌, ◌-◌, ◌^◌, length, min, MatchResult};
ghost use Rattle.ph_specs.specs.declared.Kind.TheVariants.{Points};
ghost use Rattle.ph_specs.specs.RecordNames.{snap};
ghost use Rattle.ph_c.specs.Trees.{table_at};
ghost use Rattle.ph_c.specs.Pages.{overlaid};
ghost use Rattle.ph_c.specs.Snapshots.{IsSave, IsLoaded, NotLoaded};

use crate::answers::{DAMAGED, DONE, NO_MEMORY, NO_ROOM};
use crate::slice_sink::SliceSink;
use ph_coord::{Kind, Width};
use ph_io::CountSink;
use ph_snap::{LoadFault, load, save};
use ph_steps::Steps;
use ph_tree::PhTree;
use std::alloc::Global;
use std::sync::ledger::Ledger;

// How many bytes the snapshot of a tree has, or 2^64 - 1 where it is more.
fn snapshot_size<const D: usize, V: Ledger>(tree: &PhTree<D>, visits: &mut Steps<V>) -> u64
    ensures { result ≡ min (length (snap Points D tree.now.width tree.now.table)) (2 ^ 64 - 1) }
{
    let mut sink = CountSink::new();
    match save(tree, Kind::Points, &mut sink, visits) {
        Ok(_) => sink.taken(),
        Err(_) => unreachable!(),
    }
}

// Writes the snapshot of a tree to the front of an array that has room for it.
fn write_snapshot<const D: usize, V: Ledger>(
    tree: &PhTree<D>,
    bytes: &mut [u8],
    visits: &mut Steps<V>,
)
    requires { length (snap Points D tree.now.width tree.now.table) ≤ length bytes.old }
    ensures { bytes.new ≡ overlaid (snap Points D tree.now.width tree.now.table) bytes.old }
{
    let mut sink = SliceSink::new(bytes);
    match save(tree, Kind::Points, &mut sink, visits) {
        Ok(_) => {}
        Err(_) => unreachable!(),
    }
}

/// Writes the snapshot of a tree, and how many bytes it has, or that alone where there is not as much room.
pub(crate) fn save_tree<const D: usize, V: Ledger>(
    tree: &PhTree<D>,
    bytes: &mut [u8],
    needed: &mut u64,
    visits: &mut Steps<V>,
) -> u32
    ensures { IsSave (table_at D tree.now) bytes.old bytes.new needed.new result }
{
    let size = snapshot_size(tree, visits);
    *needed = size;
    if (bytes.len() as u64) < size {
        return NO_ROOM;
    }
    write_snapshot(tree, bytes, visits);
    DONE
}

/// The tree of a width of which the bytes are the snapshot, for any number of rows, or the answer why there is none.
pub(crate) fn load_tree<const D: usize, C: Ledger>(
    alloc: Global,
    w: Width,
    bytes: &[u8],
    changes: &mut Steps<C>,
) -> Result<PhTree<D>, u32>
    requires some { 1 ≤ D }
    requires few { D ≤ 16 }
    ensures { MatchResult result (λ t. IsLoaded D w bytes.now (table_at D t)) (NotLoaded D w bytes.now) }
{
    // A use that makes the range of the width known.
    let _bits = w.bits();
    match load(alloc, bytes, Kind::Points, w, changes) {
        Ok(tree) => Ok(tree),
        Err(LoadFault::NoMemory) => Err(NO_MEMORY),
        Err(_) => Err(DAMAGED),
    }
}
