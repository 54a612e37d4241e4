//! Trees that keep their last edits: how many are kept, and edits that are taken back.
ghost use Rattle.std.specs.Prelude.{◌≡◌, ◌≤◌, length};
ghost use Rattle.ph_specs.specs.TableNames.{without_past};
ghost use Rattle.ph_commands.specs.Tables.{table_at};
ghost use Rattle.ph_commands.specs.Undoing.{KeepsOr, GoesBackOr};

use ph_script::Reply;
use ph_steps::Steps;
use ph_tree::NoMemory;
use ph_undo::Kept;
use std::alloc::Global;
use std::sync::ledger::Ledger;

/// Keeps the last edits of a tree from now on, at most so many, and forgets those that it has. After an error all is as before.
pub fn keep_edits<const D: usize>(
    kept: &mut Kept<D>,
    alloc: Global,
    n: u32,
) -> Result<Reply, NoMemory>
    requires { n ≤ 65536 }
    ensures { KeepsOr (table_at D kept.old) n (table_at D kept.new) result }
{
    kept.keep(alloc, n)?;
    Ok(Reply::Keeping(n))
}

/// Takes so many of the last edits of a tree back. After an error some are.
pub fn back_edits<const D: usize, V: Ledger, C: Ledger>(
    kept: &mut Kept<D>,
    n: u32,
    visits: &mut Steps<V>,
    changes: &mut Steps<C>,
) -> Result<Reply, NoMemory>
    requires { n ≤ length kept.old.past }
    ensures { GoesBackOr (table_at D kept.old) n (table_at D kept.new) visits.old visits.new changes.old changes.new result }
{
    for _step in 0..n {
        // Uses that make known that the rows are those of a table, and that the width is at least 1.
        let tree = kept.tree();
        let _root = tree.root();
        let _bits = tree.width().bits();
        kept.back_one(visits, changes)?;
    }
    Ok(Reply::WentBack(n))
}

/// Takes the rows of another tree of the same width in place of its own, of which it may have as many, and forgets the edits.
pub fn take_rows<const D: usize>(kept: &mut Kept<D>, other: Kept<D>)
    requires width { other.width ≡ kept.old.width }
    requires room { length other.table ≤ kept.old.max }
    ensures { kept.new ≡ without_past kept.old other.entry.table }
{
    let mut tree = other.into_tree();
    let _fits = tree.set_max(kept.tree().max());
    kept.replace(tree);
}
