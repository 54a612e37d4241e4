//! Looking for a point below a node.

ghost use Rattle.std.specs.Prelude.{◌≡◌, ◌+◌, ◌^◌, ◌<◌, ◌≤◌, None, Some, IfSome, MatchOption};
ghost use Rattle.ph_model.specs.ModelNames.{IsLawful, IsLawfulFrom, find_node, find_tree};
ghost use Rattle.ph_node.specs.Shown.{shown};
ghost use Rattle.ph_tree.specs.Opened.{opened_below, opened_in};
ghost use Rattle.ph_tree.specs.Rooms.{spare_left, spare_left_in};

use crate::key::KeyOf;
use crate::spare::spare_room;
use crate::step::{StepOf, step};
use ph_coord::Dims;
use ph_node::{NodeOf, NodeRefOf};
use ph_steps::Steps;
use std::sync::ledger::Ledger;

// The value at a point, in a visited node or below it.
pub(crate) fn find_in<P: Dims, V: Ledger>(
    node: NodeRefOf<'_, NodeOf<P>>,
    key: &KeyOf<P>,
    visits: &mut Steps<V>,
) -> Option<u64>
    requires lawful { IsLawfulFrom P.D (shown node).level 0 (shown node).chain }
    requires level { (shown node).level < key.now.width }
    ensures found { result ≡ find_node key.now.width (shown node.entry) key.now.point }
    ensures cost { visits.new ≡ visits.old + opened_below key.now.width (shown node.entry).level (shown node.entry).chain key.now.point }
{
    let mut node = node;
    'down: loop {
        match step(node, key, visits) {
            StepOf::Absent(_) => return None,
            StepOf::Same(_, v) => return Some(v),
            StepOf::Below(_, _, below) => node = below,
            StepOf::Other(_) => return None,
        }
    }
}

// A value that was found, and the room that its removal may want behind a put.
#[derive(Clone, Copy)]
pub(crate) struct Found {
    pub(crate) value: u64,
    pub(crate) room: usize,
}

// The value at a point in a tree, and the room that its removal may want behind a put.
pub(crate) fn find_spare<P: Dims, V: Ledger>(
    root: &Option<NodeOf<P>>,
    key: &KeyOf<P>,
    visits: &mut Steps<V>,
) -> Option<Found>
    requires few { P.D ≤ 16 }
    requires lawful { IsLawful key.now.width P.D root.now }
    ensures found { MatchOption result (find_tree key.now.width P.D root.now key.now.point ≡ None)
        (λ f. find_tree key.now.width P.D root.now key.now.point ≡ Some f.value) }
    ensures room { IfSome result (λ f. f.room ≡ spare_left_in key.now.width P.D root.now key.now.point) }
    ensures limit { IfSome result (λ f. f.room < 2 ^ 21) }
    ensures cost { visits.new ≡ visits.old + opened_in key.now.width root.now key.now.point }
{
    // A use that makes the range of the width known.
    let _width = key.width();
    match root {
        Some(node) => find_spare_in(node.visit(visits), key, visits),
        None => None,
    }
}

// The value at a point, in a visited node or below it, and the room that its removal may want behind a put.
fn find_spare_in<P: Dims, V: Ledger>(
    node: NodeRefOf<'_, NodeOf<P>>,
    key: &KeyOf<P>,
    visits: &mut Steps<V>,
) -> Option<Found>
    requires few { P.D ≤ 16 }
    requires lawful { IsLawfulFrom P.D (shown node).level 0 (shown node).chain }
    requires level { (shown node).level < key.now.width }
    ensures found { MatchOption result (find_node key.now.width (shown node.entry) key.now.point ≡ None)
        (λ f. find_node key.now.width (shown node.entry) key.now.point ≡ Some f.value) }
    ensures room { IfSome result (λ f. f.room ≡ spare_left key.now.width P.D (shown node.entry) key.now.point) }
    ensures limit { IfSome result (λ f. f.room < 2 ^ 21) }
    ensures cost { visits.new ≡ visits.old + opened_below key.now.width (shown node.entry).level (shown node.entry).chain key.now.point }
{
    let mut node = node;
    'down: loop {
        match step(node, key, visits) {
            StepOf::Absent(_) => return None,
            StepOf::Same(_, value) => {
                let room = spare_room(node, key.width());
                return Some(Found { value, room });
            }
            StepOf::Below(_, _, below) => node = below,
            StepOf::Other(_) => return None,
        }
    }
}
