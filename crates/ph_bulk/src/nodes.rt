//! The nodes of rows.
ghost use Rattle.std.specs.Prelude.{◌≡◌, ◌<◌, ◌≤◌, ◌+◌, [], length, map, IfOk, OnOk};
ghost use Rattle.std.specs.List.{AllByRecursion as Each};
ghost use Rattle.ph_specs.specs.TreeNames.{count};
ghost use Rattle.ph_model.specs.ModelNames.{IsLawfulFrom, node_size, nodes_in, child_nodes};
ghost use Rattle.ph_node.specs.Children.{nodes_of};
ghost use Rattle.ph_shape.specs.Groups.{IsGroup};
ghost use Rattle.ph_bulk.specs.Parts.{IsPart, chain_of, node_made};

use crate::NoMemory;
use crate::entries::PartsOf;
use crate::parts::{Part, parts_of};
use ph_bits::Block;
use ph_coord::Width;
use ph_node::{ChildOf, NodeOf};
use ph_shape::Space;
use ph_steps::Steps;
use std::alloc::Global;
use std::marker::PhantomData;
use std::sync::ledger::Ledger;

/// The node that splits rows at a place, with all that is below it, where the rows agree at all places above. The depth of the calls
/// is at most the place and one.
#[cycle(nodes)]
pub(crate) fn node_of<P: Space, C: Ledger>(
    alloc: Global,
    w: Width,
    place: u32,
    rows: &[P::Row],
    changes: &mut Steps<C>,
) -> Result<NodeOf<P>, NoMemory>
    requires some { 1 ≤ P.D }
    requires dims { P.D ≤ 16 }
    requires place { place < w }
    requires rows { IsGroup w P.D (place + 1) (map P.row_of rows.now) }
    requires many { 1 ≤ count (node_made w place (map P.row_of rows.now)).chain }
    requires lawful { IsLawfulFrom P.D place 0 (node_made w place (map P.row_of rows.now)).chain }
    ensures node { IfOk result (λ n. n ≡ node_made w place (map P.row_of rows.now)) }
    ensures nodes { OnOk result (changes.new ≡ changes.old + node_size (node_made w place (map P.row_of rows.now))) }
    ensures most { changes.new ≤ changes.old + node_size (node_made w place (map P.row_of rows.now)) }
    ensures kept { changes.old ≤ changes.new }
{
    let _bits = w.bits();
    let parts = parts_of::<P>(alloc, w, place, rows)?;
    let entries: PartsOf<'_, P> = PartsOf {
        w,
        place,
        parts: parts.as_slice(),
        dims: PhantomData,
    };
    let mut block = NodeOf::block_for::<PartsOf<'_, P>>(alloc, place, &entries)?;
    put_children::<P, C>(alloc, w, place, parts.as_slice(), &mut block, changes)?;
    Ok(NodeOf::assemble(block, changes))
}

// Puts the children that parts of rows make into the block of their record, in the order of their addresses.
#[cycle(nodes)]
fn put_children<P: Space, C: Ledger>(
    alloc: Global,
    w: Width,
    place: u32,
    parts: &[Part<'_, P::Row>],
    block: &mut Block<ChildOf<P>>,
    changes: &mut Steps<C>,
) -> Result<(), NoMemory>
    requires some { 1 ≤ P.D }
    requires dims { P.D ≤ 16 }
    requires place { place < w }
    requires parts { Each (IsPart P.row_of w P.D place) parts.now }
    requires lawful { IsLawfulFrom P.D place 0 (chain_of P.row_of w place parts.now) }
    requires none { block.old.values ≡ [] }
    requires room { length (child_nodes (chain_of P.row_of w place parts.now)) ≤ block.old.spare }
    ensures words { block.new.words ≡ block.old.words }
    ensures children { OnOk result (nodes_of block.new.values ≡ child_nodes (chain_of P.row_of w place parts.now)) }
    ensures nodes { OnOk result (changes.new ≡ changes.old + nodes_in (chain_of P.row_of w place parts.now)) }
    ensures most { changes.new ≤ changes.old + nodes_in (chain_of P.row_of w place parts.now) }
    ensures kept { changes.old ≤ changes.new }
{
    for part in parts {
        let Some(level) = part.level else {
            continue;
        };
        let node = node_of::<P, C>(alloc, w, level, part.rows, changes)?;
        block.put_first(ChildOf { node });
    }
    block.reverse();
    Ok(())
}
