//! A tree as bytes: those that a sink takes, and those that a tree is made of.
ghost use Rattle.std.specs.Prelude.{IfOk, IfErr, ◌≤◌};
ghost use Rattle.ph_specs.specs.RecordNames.{load_fault};
ghost use Rattle.ph_snap.specs.Faults.{IsLoadFault};
ghost use Rattle.ph_commands.specs.Loading.{IsLoadedTree, IsWithinBytes};
ghost use Rattle.ph_io.specs.Causes.{HasCause};
ghost use Rattle.ph_commands.specs.Saving.{SavedTo};
ghost use Rattle.ph_commands.specs.Tables.{table_at, tree_at};
ghost use Rattle.ph_commands.specs.Told.{taken_by};

use ph_coord::{Kind, Width};
use ph_io::{Failed, Sink};
use ph_snap::{LoadFault, load, save};
use ph_steps::Steps;
use ph_tree::PhTree;
use ph_undo::Kept;
use std::alloc::Global;
use std::sync::ledger::Ledger;

/// Gives a sink the snapshot of a tree, and tells how many bytes it has.
pub fn save_tree<const D: usize, O: Sink, V: Ledger>(
    tree: &PhTree<D>,
    kind: Kind,
    out: &mut O,
    visits: &mut Steps<V>,
) -> Result<u128, Failed>
    ensures saved { SavedTo kind (tree_at D tree.now) (taken_by O.Sink out.old) (taken_by O.Sink out.new) visits.old visits.new result }
    ensures cause { HasCause (O.faults out.old) (O.faults out.new) result }
    ensures follows { O.follows out.old out.new }
{
    save(tree, kind, out, visits)
}

/// The tree of which the bytes are the snapshot, for any number of rows, of which no edits are kept.
pub fn load_kept<const D: usize, C: Ledger>(
    alloc: Global,
    bytes: &[u8],
    kind: Kind,
    w: Width,
    changes: &mut Steps<C>,
) -> Result<Kept<D>, LoadFault>
    requires some { 1 ≤ D }
    requires limit { D ≤ 16 }
    ensures loaded { IfOk result (λ k. IsLoadedTree kind D w bytes.now (table_at D k) changes.old changes.new) }
    ensures fault { IfErr result (λ e. IsLoadFault (load_fault kind D w bytes.now) e) }
    ensures within { IsWithinBytes bytes.now changes.old changes.new }
{
    Ok(Kept::new(load(alloc, bytes, kind, w, changes)?))
}
