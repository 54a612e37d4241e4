//! A tree, as bytes to a sink.

ghost use Rattle.std.specs.Prelude.{◌≡◌, ℕ, ◌*◌, ◌^◌, ◌≤◌, List, [], ◌∷◌, ◌++◌, Some, true, length, if◌then◌else◌, OnOk, OnErr, IfOk};
ghost use Rattle.std.specs.Option.{option_copied};
ghost use Rattle.ph_io.specs.Causes.{HasCause};
ghost use Rattle.ph_io.specs.Giving.{Given, taken_of};
ghost use Rattle.ph_io.specs.Writing.{WritesFront};
ghost use Rattle.ph_specs.specs.declared.Kind.{Kind};
ghost use Rattle.ph_specs.specs.TreeNames.{nodes};
ghost use Rattle.ph_specs.specs.RecordNames.{snap, kind_byte, magic};
ghost use Rattle.ph_specs.specs.TableNames.{Row, IsTable};
ghost use Rattle.ph_specs.specs.WorkNames.{all_nodes};
ghost use Rattle.ph_snap.specs.Saving.{PassesNodes, VisitsAll};

use crate::block::Block;
use ph_coord::{Dim, Dims};
use ph_io::{Failed, Sink};
use ph_node::NodeOf;
use ph_specs::Kind;
use ph_steps::Steps;
use ph_tree::PhTree;
use std::sync::ledger::Ledger;

/// Gives a sink the snapshot of a tree and tells how many bytes it has. It is of version 2, whose header names the width, so
/// that a tree of any width from 1 to 62 and of any number of dimensions from 1 to 16 has one.
///
/// The nodes are visited once each, in preorder, by a recursion no deeper than a coordinate has bits. Their records are
/// gathered on the stack and given in pieces of at most 4,096 bytes. It takes no memory. After an error a front of the
/// snapshot was given, and not the whole of it.
pub fn save<const D: usize, S: Sink, V: Ledger>(
    tree: &PhTree<D>,
    kind: Kind,
    sink: &mut S,
    visits: &mut Steps<V>,
) -> Result<u128, Failed>
    ensures saved { OnOk result (Given
        (taken_of (S.written sink.old) (S.amount sink.old))
        (taken_of (S.written sink.new) (S.amount sink.new))
        (snap kind D tree.now.width tree.now.table)) }
    ensures size { IfOk result (λ n. n ≡ length (snap kind D tree.now.width tree.now.table)) }
    ensures front { OnErr result (WritesFront
        (taken_of (S.written sink.old) (S.amount sink.old))
        (taken_of (S.written sink.new) (S.amount sink.new))
        (snap kind D tree.now.width tree.now.table)) }
    ensures cause { HasCause (S.faults sink.old) (S.faults sink.new) result }
    ensures follows { S.follows sink.old sink.new }
    ensures visits { VisitsAll (length (all_nodes tree.now.width D tree.now.table)) visits.old visits.new result }
    ensures unique { (m : Kind) (dims width : ℕ) (t : List Row) → IsTable width dims t
        → snap kind D tree.now.width tree.now.table ≡ snap m dims width t
        → (kind ≡ m) × (D ≡ dims) × (tree.now.width ≡ width) × (tree.now.table ≡ t) }
{
    // A use that makes known how many rows there are at most.
    let _rows = tree.len();
    let root = tree.root();
    let mut block = Block::new();
    let bits = tree.width().bits();
    block.push(header(kind, D as u8, bits as u8, root.is_some()), sink)?;
    let size = save_tree::<Dim<D>, S, V>(root, &mut block, sink, visits)?;
    block.give(sink)?;
    Ok(8 + size)
}

// The header of version 2.
fn header(kind: Kind, dims: u8, width: u8, root: bool) -> [u8; 8]
    ensures { result ≡ magic 2 ++ (kind_byte kind ∷ dims ∷ width ∷ (if root then 1 else 0) ∷ []) }
{
    let [p, h, t, two] = *b"PHT2";
    [p, h, t, two, kind as u8, dims, width, u8::from(root)]
}

// Gives the records of a tree by way of the block, and tells how many bytes they have.
fn save_tree<P: Dims, S: Sink, V: Ledger>(
    root: Option<&NodeOf<P>>,
    block: &mut Block,
    sink: &mut S,
    visits: &mut Steps<V>,
) -> Result<u128, Failed>
    requires { length (nodes (option_copied root)) ≤ 2 ^ 64 }
    ensures records { PassesNodes P.D (nodes (option_copied root.entry))
        (taken_of (S.written sink.old) (S.amount sink.old)) block.old
        (taken_of (S.written sink.new) (S.amount sink.new)) block.new result }
    ensures few { IfOk result (λ n. n ≤ 2 ^ 127) }
    ensures cause { HasCause (S.faults sink.old) (S.faults sink.new) result }
    ensures follows { S.follows sink.old sink.new }
    ensures visits { VisitsAll (length (nodes (option_copied root.entry))) visits.old visits.new result }
{
    match root {
        Some(root) => save_node(root, block, sink, visits),
        None => Ok(0),
    }
}

// Gives the record of a node and then those of all nodes below it by way of the block, and tells how many bytes they have.
fn save_node<P: Dims, S: Sink, V: Ledger>(
    node: &NodeOf<P>,
    block: &mut Block,
    sink: &mut S,
    visits: &mut Steps<V>,
) -> Result<u128, Failed>
    requires { length (nodes (Some node.now)) ≤ 2 ^ 64 }
    ensures records { PassesNodes P.D (nodes (Some node.now))
        (taken_of (S.written sink.old) (S.amount sink.old)) block.old
        (taken_of (S.written sink.new) (S.amount sink.new)) block.new result }
    ensures few { IfOk result (λ n. n ≤ 2 ^ 63 * length (nodes (Some node.now))) }
    ensures cause { HasCause (S.faults sink.old) (S.faults sink.new) result }
    ensures follows { S.follows sink.old sink.new }
    ensures visits { VisitsAll (length (nodes (Some node.now))) visits.old visits.new result }
{
    let visited = node.visit(visits);
    let words = visited.words();
    block.put(words, sink)?;
    let mut size = 8 * words.len() as u128;
    for held in visited.children() {
        size += save_node(&held.node, block, sink, visits)?;
    }
    Ok(size)
}
