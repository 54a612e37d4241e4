//! The records of nodes, beside records that are written anew of their entries.

ghost use Rattle.std.specs.Prelude.{◌≡◌, ◌+◌, ◌^◌, ◌≤◌, IfOk};
ghost use Rattle.ph_bits.specs.Block.{room_of};
ghost use Rattle.ph_specs.specs.RecordNames.{words_for};
ghost use Rattle.ph_node.specs.Kept.{IsNodeOf};
ghost use Rattle.ph_node.specs.Shown.{shown};

use ph_bits::{Entries, Mark, Packed, Words};
use ph_cube::by_dims as cube;
use ph_linear::by_dims as linear;
use ph_node::{Dims, NoMemory, NodeOf, NodeRefOf, WhatOf};
use ph_steps::Steps;
use std::alloc::Global;
use std::sync::ledger::Ledger;

// The entries that a visit shows, as they are written.
#[derive(Drop)]
struct Gathered<'t, P: Dims> {
    node: NodeRefOf<'t, NodeOf<P>>,
}

impl<'t, P: Dims> Entries<P> for Gathered<'t, P> {
    ghost use Rattle.ph_node.specs.OneEdit.{flats_of};
    ghost use Rattle.ph_node.specs.Shown.{shown};

    ghost list = { λ s. flats_of (shown s.node) };

    fn count(&self) -> usize {
        self.node.len()
    }

    fn at(&self, i: usize, mark: &mut Option<Mark>) -> Packed {
        let _ = mark;
        let entry = self.node.entry(i);
        Packed {
            addr: entry.addr,
            child: matches!(entry.what, WhatOf::Child(_)),
            body: entry.body,
            rank: 0,
        }
    }

    fn value(&self, i: usize, mark: &mut Option<Mark>) -> u64 {
        let _ = mark;
        match self.node.entry(i).what {
            WhatOf::Value(v) => v,
            WhatOf::Child(_) => 0,
        }
    }
}

// Whether the record of a node is its entries as they are written anew, and so are those of all nodes below it.
pub(crate) fn are_written_anew<P: Dims, V: Ledger>(
    alloc: Global,
    node: &NodeOf<P>,
    visits: &mut Steps<V>,
) -> Result<bool, NoMemory> {
    let visited = node.visit(visits);
    let anew = write_anew(alloc, visited)?;
    if *anew.as_slice() != *visited.words() {
        return Ok(false);
    }
    for slot in visited.children() {
        if !are_written_anew(alloc, &slot.node, visits)? {
            return Ok(false);
        }
    }
    Ok(true)
}

// The record of the entries of a node in the smaller layout, in a block of its own.
fn write_anew<P: Dims>(alloc: Global, node: NodeRefOf<'_, NodeOf<P>>) -> Result<Words, NoMemory>
    requires { IsNodeOf P.D (shown node) }
{
    let (dims, level) = (P::D, node.level());
    let count = node.len() as u32;
    let in_list = linear::bits_of(dims, count, level);
    let in_cube = cube::bits_of(dims, count, level);
    let entries = Gathered { node };
    if in_cube < in_list {
        let mut words = block(alloc, in_cube, count)?;
        cube::write::<P, Gathered<'_, P>>(&mut words, level, &entries);
        return Ok(words);
    }
    let mut words = block(alloc, in_list, count)?;
    linear::write::<P, Gathered<'_, P>>(&mut words, level, &entries);
    Ok(words)
}

// A block with room for a first word, tables of so many digits, and a value for each entry.
fn block(alloc: Global, digits: u64, count: u32) -> Result<Words, NoMemory>
    requires digits { digits ≤ 2 ^ 26 }
    requires count { count ≤ 2 ^ 16 }
    ensures { IfOk result (λ w. room_of w ≡ 1 + words_for digits + count) }
{
    Words::with_room(alloc, 1 + digits.div_ceil(64) as usize + count as usize)
}
