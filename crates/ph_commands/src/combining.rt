//! The tree that a set operation makes of two, in place of the first.
ghost use Rattle.std.specs.Prelude.{◌≡◌, ◌≤◌};
ghost use Rattle.ph_commands.specs.Pairing.{MadeOr, VisitsBoth};
ghost use Rattle.ph_commands.specs.Tables.{table_at};

use ph_script::SetOperation;
use ph_set::{SetFault, common, minus, union};
use ph_steps::Steps;
use ph_tree::NoMemory;
use ph_undo::Kept;
use std::alloc::Global;
use std::sync::ledger::Ledger;

/// Puts the tree that is made of two in place of the first, and tells the number of its rows. After an error the first is as before.
pub fn combine_trees<const D: usize, V: Ledger, C: Ledger>(
    kept: &mut Kept<D>,
    other: &Kept<D>,
    alloc: Global,
    operation: SetOperation,
    visits: &mut Steps<V>,
    changes: &mut Steps<C>,
) -> Result<u64, SetFault>
    requires limit { D ≤ 16 }
    requires width { kept.old.width ≡ other.now.width }
    ensures made { MadeOr operation (table_at D kept.old) (table_at D other.now) (table_at D kept.new) changes.old changes.new result }
    ensures visits { VisitsBoth operation (table_at D kept.old) (table_at D other.now) visits.old visits.new result }
{
    let tree = kept.tree();
    let made = match operation {
        SetOperation::Union => union(alloc, tree, other.tree(), tree.max(), visits, changes)?,
        SetOperation::Common => common(alloc, tree, other.tree(), visits, changes).map_err(
            no_memory,
        )?,
        SetOperation::Minus => minus(alloc, tree, other.tree(), visits, changes).map_err(
            no_memory,
        )?,
    };
    let rows = made.len();
    kept.replace(made);
    Ok(rows)
}

fn no_memory(_: NoMemory) -> SetFault
    ensures { result ≡ SetFault.NoMemory }
{
    SetFault::NoMemory
}
