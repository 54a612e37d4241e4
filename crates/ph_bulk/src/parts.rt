//! The rows of a node, in parts of one address.
ghost use Rattle.std.specs.Prelude.{◌≡◌, ◌<◌, ◌≤◌, ◌+◌, length, map, IfOk};
ghost use Rattle.std.specs.List.{AllByRecursion as Each};
ghost use Rattle.ph_shape.specs.Groups.{IsGroup};
ghost use Rattle.ph_bulk.specs.Parts.{IsPart, chain_of, node_made};

use crate::NoMemory;
use ph_coord::Width;
use ph_shape::{Space, group_len};
use std::alloc::Global;

/// Rows of one address, and the level of the child that they make; a row alone makes none.
#[derive(Drop)]
pub(crate) struct Part<'t, R> {
    pub(crate) rows: &'t [R],
    pub(crate) level: Option<u32>,
}

/// The parts of rows that a node splits at a place, in the order of their addresses.
pub(crate) fn parts_of<'t, P: Space>(
    alloc: Global,
    w: Width,
    place: u32,
    rows: &'t [P::Row],
) -> Result<Vec<Part<'t, P::Row>>, NoMemory>
    requires dims { P.D ≤ 16 }
    requires place { place < w }
    requires rows { IsGroup w P.D (place + 1) (map P.row_of rows.now) }
    ensures entries { IfOk result (λ v. chain_of P.row_of w place v.items ≡ (node_made w place (map P.row_of rows.now)).chain) }
    ensures parts { IfOk result (λ v. Each (IsPart P.row_of w P.D place) v.items) }
{
    let mut parts = Vec::new(alloc);
    let mut rest = rows;
    while let Some(first) = rest.first() {
        let addr = P::address(w, first, place);
        let (front, behind) = rest.split_at(group_len::<P>(w, place, addr, rest));
        parts.push(part_of::<P>(w, place, front))?;
        rest = behind;
    }
    Ok(parts)
}

// The part of rows that have one address.
fn part_of<'t, P: Space>(w: Width, place: u32, rows: &'t [P::Row]) -> Part<'t, P::Row>
    requires dims { P.D ≤ 16 }
    requires place { place < w }
    requires some { 1 ≤ length rows.now }
    requires group { IsGroup w P.D place (map P.row_of rows.now) }
    ensures rows { result.rows.now ≡ rows.now }
    ensures part { IsPart P.row_of w P.D place result }
{
    let first = &rows[0];
    let last = &rows[rows.len() - 1];
    let level = P::top_difference(w, first, last);
    Part { rows, level }
}
