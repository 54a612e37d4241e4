//! A tree of rows in their order.
ghost use Rattle.std.specs.Prelude.{◌≡◌, ◌+◌, ◌-◌, ◌^◌, ◌≤◌, length, IfOk, OnOk};
ghost use Rattle.ph_specs.specs.TableNames.{IsTable};
ghost use Rattle.ph_specs.specs.WorkNames.{all_nodes};

use crate::NoMemory;
use crate::nodes::node_of;
use ph_coord::{Dim, Row, Width};
use ph_steps::Steps;
use ph_tree::PhTree;
use std::alloc::Global;
use std::sync::ledger::Ledger;

/// The tree of rows that are in Z-order, no two of them at one point, for at most 2^64 - 1 rows.
///
/// Each node is made once, in a block of its size, and counts as a change. Memory is taken for the nodes and, until they are made,
/// for the parts of the rows of one path; without it nothing stays. The work is one pass over the rows of each node.
pub fn build<const D: usize, C: Ledger>(
    alloc: Global,
    w: Width,
    rows: &[Row<D>],
    changes: &mut Steps<C>,
) -> Result<PhTree<D>, NoMemory>
    requires some { 1 ≤ D }
    requires dims { D ≤ 16 }
    requires table { IsTable w D rows.now }
    ensures table { IfOk result (λ t. t.table ≡ rows.now) }
    ensures width { IfOk result (λ t. t.width ≡ w) }
    ensures max { IfOk result (λ t. t.max ≡ 2 ^ 64 - 1) }
    ensures nodes { OnOk result (changes.new ≡ changes.old + length (all_nodes w D rows.now)) }
    ensures most { changes.new ≤ changes.old + length (all_nodes w D rows.now) }
    ensures kept { changes.old ≤ changes.new }
{
    let bits = w.bits();
    if rows.is_empty() {
        return Ok(PhTree::adopt(alloc, w, None, 0));
    }
    let root = node_of::<Dim<D>, C>(alloc, w, bits - 1, rows, changes)?;
    Ok(PhTree::adopt(alloc, w, Some(root), rows.len() as u64))
}
