//! The records of lists of entries.

ghost use Rattle.std.specs.Prelude.{◌≡◌, ◌≤◌, length, IfSome};
ghost use Rattle.ph_specs.specs.RecordNames.{first_in};
ghost use Rattle.ph_model.specs.ModelNames.{IsRecord};

use crate::items::{Item, Items, is_writable};
use ph_bits::Words;
use ph_coord::Dim;
use std::alloc::Global;

// More words than a record of two dimensions has.
const ROOM: usize = 64;

/// The record of entries in the cube layout or the linear one, or none where they make no record or memory is wanted.
pub fn record_of<const D: usize>(
    alloc: Global,
    cube: bool,
    level: u32,
    items: &[Item],
) -> Option<Words>
    requires some { 1 ≤ D }
    requires few { D ≤ 2 }
    ensures { IfSome result (λ w. IsRecord cube D w.words × ((first_in w.words).entries ≡ length items.now)) }
{
    if !is_writable(D, level, items) {
        return None;
    }
    let Ok(mut words) = Words::with_room(alloc, ROOM) else {
        return None;
    };
    let from = Items { items };
    if cube {
        ph_cube::by_dims::write::<Dim<D>, Items<'_>>(&mut words, level, &from);
        return Some(words);
    }
    ph_linear::by_dims::write::<Dim<D>, Items<'_>>(&mut words, level, &from);
    Some(words)
}
