//! The nodes of records.

ghost use Rattle.std.specs.Prelude.{◌≡◌, ◌+◌, ◌*◌, ◌≤◌, [], ◌∷◌, length, IfOk, IfErr};
ghost use Rattle.ph_snap.specs.Faults.{HaveFault};
ghost use Rattle.ph_snap.specs.RowFormats.{IsRowFormat};
ghost use Rattle.ph_snap.specs.RecordPlaces.{place_of, IsStanding};
ghost use Rattle.ph_snap.specs.LoadedNodes.{IsLoadedNode};

use crate::boxes::place_under;
use crate::fault::LoadFault;
use crate::places::Place;
use crate::records::read_record;
use crate::row_format::RowFormat;
use ph_bits::Block;
use ph_linear::{children_in, count_in};
use ph_node::{ChildOf, Dims, NodeOf};
use ph_steps::Steps;
use std::alloc::Global;
use std::sync::ledger::Ledger;

/// A node with all that is below it, the place behind its records, and how many rows it has.
#[derive(Drop)]
pub(crate) struct Loaded<N> {
    pub(crate) node: N,
    pub(crate) end: usize,
    pub(crate) rows: u64,
}

/// The node whose records begin at a place of the bytes, with all that is below it, or the first fault of these records. The
/// depth of the calls is at most that of the tree. A node is made when its record and all those in front of it were looked at.
pub(crate) fn load_node<P: Dims, C: Ledger>(
    alloc: Global,
    bytes: &[u8],
    at: usize,
    format: &RowFormat,
    place: &Place,
    changes: &mut Steps<C>,
) -> Result<Loaded<NodeOf<P>>, LoadFault>
    requires format { IsRowFormat format.now }
    requires dims { format.now.dims ≡ P.D }
    requires standing { IsStanding format.now.width format.now.dims place.now }
    requires at { at ≤ length bytes.now }
    ensures loaded { IfOk result (λ r. IsLoadedNode format.now.kind format.now.width format.now.dims (place_of format.now.dims place.now) at bytes.now
        changes.old changes.new r.node r.end r.rows) }
    ensures err { IfErr result (λ f. HaveFault format.now.kind format.now.width format.now.dims (place_of format.now.dims place.now ∷ []) at bytes.now f) }
    ensures limit { at + 16 * changes.new ≤ 16 * changes.old + length bytes.now }
    ensures kept { changes.old ≤ changes.new }
{
    let words = match read_record(alloc, bytes, at, format, place) {
        Ok(words) => words,
        Err(fault) => return Err(fault),
    };
    let mut block = Block::of(words);
    let count = count_in(block.words());
    let below = children_in(block.words());
    let mut end = at + 8 * block.len();
    let mut rows = count - below;
    'entries: for i in 0..count as usize {
        let Some(under) = place_under(block.words(), format, place, i) else {
            continue;
        };
        match load_node::<P, C>(alloc, bytes, end, format, &under, changes) {
            Ok(child) => {
                end = child.end;
                rows += child.rows;
                block.put_first(ChildOf { node: child.node });
            }
            Err(fault) => return Err(fault),
        }
    }
    block.reverse();
    let node = NodeOf::assemble(block, changes);
    Ok(Loaded { node, end, rows })
}
