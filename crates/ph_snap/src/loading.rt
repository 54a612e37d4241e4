//! The tree of a snapshot.

ghost use Rattle.std.specs.Prelude.{◌≡◌, ◌+◌, ◌*◌, ◌-◌, ◌^◌, ◌≤◌, List, true, false, None, Some, Ok, length, drop, slice_index, IfOk, IfErr};
ghost use Rattle.ph_specs.specs.RecordNames.{load_fault, body_fault, first_node, read_nodes, read_snapshot, IsSnapshotOf};
ghost use Rattle.ph_specs.specs.TableNames.{Row};
ghost use Rattle.ph_model.specs.ModelNames.{node_size};
ghost use Rattle.ph_specs.specs.WorkNames.{all_nodes};
ghost use Rattle.ph_snap.specs.Faults.{IsLoadFault};
ghost use Rattle.ph_snap.specs.RowFormats.{IsRowFormat};
ghost use Rattle.ph_snap.specs.Reads.{points};

use crate::fault::LoadFault;
use crate::header::{Header, read_header};
use crate::nodes::{Loaded, load_node};
use crate::places::Place;
use crate::row_format::RowFormat;
use ph_coord::{Dim, Dims, Kind, Width};
use ph_node::NodeOf;
use ph_steps::Steps;
use ph_tree::PhTree;
use std::alloc::Global;
use std::sync::ledger::Ledger;

/// The tree of this kind and width of which the bytes are the snapshot, in version 1 or 2, for at most 2^64 - 1 rows, or the
/// first fault of the bytes. A snapshot of version 1 has width 32 and at most 8 dimensions.
///
/// It takes memory for the tree alone, one block for each node: no sorting, and no tree is built up by puts. After an error
/// nothing of it stays, and the nodes that were made are counted. The depth of its calls is at most the width. Each node that
/// is made counts as a change.
pub fn load<const D: usize, C: Ledger>(
    alloc: Global,
    bytes: &[u8],
    kind: Kind,
    w: Width,
    changes: &mut Steps<C>,
) -> Result<PhTree<D>, LoadFault>
    ensures snapshot { IfOk result (λ t. IsSnapshotOf kind D w bytes.now t.table) }
    ensures read { IfOk result (λ t. read_snapshot kind D w bytes.now ≡ Ok t.table) }
    ensures width { IfOk result (λ t. t.width ≡ w) }
    ensures max { IfOk result (λ t. t.max ≡ 2 ^ 64 - 1) }
    ensures fault { IfErr result (λ e. IsLoadFault (load_fault kind D w bytes.now) e) }
    ensures accepts { (t : List Row) → IsSnapshotOf kind D w bytes.now t → load_fault kind D w bytes.now ≡ None }
    ensures changes { 16 * changes.new ≤ 16 * changes.old + length bytes.now }
    ensures nodes { IfOk result (λ t. changes.new ≡ changes.old + length (all_nodes w D t.table)) }
    ensures kept { changes.old ≤ changes.new }
{
    let header = match read_header(bytes) {
        Ok(header) => header,
        Err(fault) => return Err(fault),
    };
    if !is_asked(&header, kind, D, w) {
        return Err(LoadFault::Dims);
    }
    if !header.root {
        if bytes.len() > 8 {
            return Err(LoadFault::Extra(8));
        }
        return Ok(PhTree::adopt(alloc, w, None, 0));
    }
    let format = RowFormat {
        kind,
        dims: D,
        width: w.bits(),
    };
    match load_root::<Dim<D>, C>(alloc, bytes, &format, changes) {
        Ok(root) => Ok(PhTree::adopt(alloc, w, Some(root.node), root.rows)),
        Err(fault) => Err(fault),
    }
}

// Whether a header says this.
fn is_asked(header: &Header, kind: Kind, dims: usize, w: Width) -> bool
    ensures yes { result ≡ true → (header.now.kind ≡ kind) × (header.now.dims ≡ dims) × (header.now.width ≡ w) }
    ensures no { result ≡ false → header.now.kind ≡ kind → header.now.dims ≡ dims → header.now.width ≡ w → ⊥ }
{
    header.kind == kind && header.dims as usize == dims && header.width == w.bits()
}

// The root whose records stand behind the header.
fn load_root<P: Dims, C: Ledger>(
    alloc: Global,
    bytes: &[u8],
    format: &RowFormat,
    changes: &mut Steps<C>,
) -> Result<Loaded<NodeOf<P>>, LoadFault>
    requires format { IsRowFormat format.now }
    requires dims { format.now.dims ≡ P.D }
    requires long { 8 ≤ length bytes.now }
    ensures none { IfOk result (λ r. body_fault format.now.kind format.now.width format.now.dims 1 bytes.now ≡ None) }
    ensures tree { IfOk result (λ r. Some r.node ≡ first_node (read_nodes (length bytes.now) format.now.dims 1 (drop 8 bytes.now)).0) }
    ensures rows { IfOk result (λ r. r.rows ≡ points r.node) }
    ensures nodes { IfOk result (λ r. changes.new ≡ changes.old + node_size r.node) }
    ensures err { IfErr result (λ f. IsLoadFault (body_fault format.now.kind format.now.width format.now.dims 1 bytes.now) f) }
    ensures limit { 16 * changes.new ≤ 16 * changes.old + length bytes.now }
    ensures kept { changes.old ≤ changes.new }
{
    match load_node::<P, C>(alloc, bytes, 8, format, &Place::Root, changes) {
        Ok(root) => {
            if root.end < bytes.len() {
                return Err(LoadFault::Extra(root.end as u64));
            }
            Ok(root)
        }
        Err(fault) => Err(fault),
    }
}
