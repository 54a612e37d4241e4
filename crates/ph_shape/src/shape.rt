//! The shape of a table.
ghost use Rattle.std.specs.Prelude.{◌≡◌, ◌<◌, ◌≤◌, ◌+◌, length, map, IfOk};
ghost use Rattle.ph_specs.specs.TreeNames.{rows as rows_in, node_at, node_below, shape};
ghost use Rattle.ph_model.specs.ModelNames.{IsLawful};
ghost use Rattle.ph_specs.specs.TableNames.{IsTable};
ghost use Rattle.ph_shape.specs.Bodies.{IsFilled};
ghost use Rattle.ph_shape.specs.Groups.{HaveAddress, IsGroup, group_entry};
ghost use Rattle.ph_shape.specs.View.{entry_of};

use crate::NoMemory;
use crate::cuts::group_len;
use crate::plain::{EntryOf, HeldOf, Plain, PlainOf};
use crate::space::Space;
use ph_coord::{Dim, Row, Width};
use std::alloc::Global;

/// The shape of a table: the one lawful tree that holds its rows, and Ok(None) exactly where there are none.
///
/// Memory is taken for the entries of each node, and nothing stands after an error. The work is one pass over the rows
/// of each node; no row is copied.
pub fn shape_of<const D: usize>(
    alloc: Global,
    w: Width,
    rows: &[Row<D>],
) -> Result<Option<Plain<D>>, NoMemory>
    requires some_dims { 1 ≤ D }
    requires dims { D ≤ 16 }
    requires table { IsTable w D rows.now }
    ensures shape { IfOk result (λ root. root ≡ shape w rows.now) }
    ensures lawful { IfOk result (λ root. IsLawful w D root) }
    ensures holds { IfOk result (λ root. rows_in w D root ≡ rows.now) }
{
    let bits = w.bits();
    if rows.is_empty() {
        return Ok(None);
    }
    let root = node_of::<Dim<D>>(alloc, w, bits - 1, rows)?;
    Ok(Some(root))
}

// The node that splits rows at a place, where they agree at all places above it.
#[cycle(shape)]
fn node_of<P: Space>(
    alloc: Global,
    w: Width,
    place: u32,
    rows: &[P::Row],
) -> Result<PlainOf<P>, NoMemory>
    requires dims { P.D ≤ 16 }
    requires place { place < w }
    requires rows { IsGroup w P.D (place + 1) (map P.row_of rows.now) }
    ensures { IfOk result (λ node. node ≡ node_at w place (node_below w place) (map P.row_of rows.now)) }
{
    let mut entries = Vec::new(alloc);
    let mut rest = rows;
    while let Some(first) = rest.first() {
        let addr = P::address(w, first, place);
        let (group, behind) = rest.split_at(group_len::<P>(w, place, addr, rest));
        let entry = group_entry_of::<P>(alloc, w, place, addr, group)?;
        entries.push(entry)?;
        rest = behind;
    }
    Ok(PlainOf::new(place, entries))
}

// The entry of a node that holds rows of one address.
#[cycle(shape)]
fn group_entry_of<P: Space>(
    alloc: Global,
    w: Width,
    place: u32,
    addr: u32,
    group: &[P::Row],
) -> Result<EntryOf<P>, NoMemory>
    requires dims { P.D ≤ 16 }
    requires place { place < w }
    requires some { 1 ≤ length group.now }
    requires group { IsGroup w P.D place (map P.row_of group.now) }
    requires addr { HaveAddress w place addr (map P.row_of group.now) }
    ensures { IfOk result (λ e. (entry_of P.D e ≡ group_entry w place (node_below w place) (map P.row_of group.now)) × IsFilled P.D e.body) }
{
    let _bits = w.bits();
    let first = &group[0];
    let last = &group[group.len() - 1];
    match P::top_difference(w, first, last) {
        None => {
            let body = P::point_body(w, first, place);
            let held = HeldOf::Value(P::value(first));
            Ok(EntryOf { addr, body, held })
        }
        Some(level) => {
            let body = P::child_body(w, first, place, level);
            let child = node_of::<P>(alloc, w, level, group)?;
            let held = HeldOf::Child(child);
            Ok(EntryOf { addr, body, held })
        }
    }
}
