//! Whether the nodes of a tree are those of a plain tree.

ghost use Rattle.std.specs.Prelude.{◌≡◌, ◌<◌, ◌≤◌, ◌↔◌, length, slice_get, IsTrue, IfOk, IfSome};
ghost use Rattle.std.specs.Option.{option_copied};
ghost use Rattle.ph_specs.specs.TreeNames.{shape};
ghost use Rattle.ph_model.specs.ModelNames.{IsLawfulFrom, entries};
ghost use Rattle.ph_specs.specs.TableNames.{IsTable};
ghost use Rattle.ph_node.specs.Shown.{entry_of};

use ph_coord::{Dim, Dims, Row, Width};
use ph_node::{EntryOf, Node, NodeOf, WhatOf};
use ph_shape::{NoMemory, PlainOf, shape_of};
use ph_steps::Steps;
use std::alloc::Global;
use std::sync::ledger::Ledger;

/// Whether the nodes from a root down are the shape of a table. Without a root, whether the table is empty.
///
/// Takes memory for the shape.
pub fn is_shape<const D: usize, V: Ledger>(
    alloc: Global,
    root: Option<&Node<D>>,
    w: Width,
    rows: &[Row<D>],
    visits: &mut Steps<V>,
) -> Result<bool, NoMemory>
    requires some { 1 ≤ D }
    requires few { D ≤ 16 }
    requires table { IsTable w D rows.now }
    ensures { IfOk result (λ same. IsTrue same ↔ (option_copied root.entry ≡ shape w rows.now)) }
{
    let plain = shape_of(alloc, w, rows)?;
    let same = match (root, &plain) {
        (Some(node), Some(plain)) => is_same::<Dim<D>, V>(node, plain, visits),
        (None, None) => true,
        _ => false,
    };
    Ok(same)
}

/// Whether a node and all that is below it are the same as a lawful plain node: the levels, and of each entry the address, the
/// body, and the value or the child.
#[cycle(same)]
pub fn is_same<P: Dims, V: Ledger>(
    node: &NodeOf<P>,
    plain: &PlainOf<P>,
    visits: &mut Steps<V>,
) -> bool
    requires few { P.D ≤ 16 }
    requires lawful { IsLawfulFrom P.D plain.now.level 0 plain.now.chain }
    ensures { IsTrue result ↔ (node.now ≡ plain.now) }
{
    let shown = node.visit(visits);
    if shown.level() != plain.level() || shown.len() != plain.len() {
        return false;
    }
    for i in 0..plain.len() {
        if !is_same_entry(&shown.entry(i), plain, i, visits) {
            return false;
        }
    }
    true
}

// Whether an entry and all that is below it are the same as entry i of a lawful plain node.
#[cycle(same)]
fn is_same_entry<P: Dims, V: Ledger>(
    entry: &EntryOf<'_, NodeOf<P>>,
    plain: &PlainOf<P>,
    i: usize,
    visits: &mut Steps<V>,
) -> bool
    requires few { P.D ≤ 16 }
    requires lawful { IsLawfulFrom P.D plain.now.level 0 plain.now.chain }
    requires place { i < length (entries plain.now) }
    ensures { IfSome (slice_get (entries plain.now) i) (λ e. IsTrue result ↔ (entry_of P.D entry.now ≡ e)) }
{
    let body = plain.body(i);
    if entry.addr != plain.addr(i) || entry.body[..P::D] != body[..P::D] {
        return false;
    }
    match (entry.what, plain.child(i)) {
        (WhatOf::Value(v), None) => plain.value(i) == Some(v),
        (WhatOf::Child(node), Some(below)) => is_same(node, below, visits),
        _ => false,
    }
}
