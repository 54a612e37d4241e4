//! The sizes of a tree.

ghost use Rattle.std.specs.Prelude.{◌≡◌, ◌+◌, ◌^◌, ◌<◌, ◌≤◌, Some, length};
ghost use Rattle.std.specs.Option.{option_copied};
ghost use Rattle.ph_specs.specs.TreeNames.{nodes};
ghost use Rattle.ph_specs.specs.RecordNames.{stats};
ghost use Rattle.ph_specs.specs.WorkNames.{all_nodes};
ghost use Rattle.ph_tree.specs.Stats.{counted, no_counts, stats_of, with_node, IsFew};

use crate::tree::PhTree;
use ph_coord::{Dim, Dims};
use ph_node::NodeOf;
use ph_steps::Steps;
use std::sync::ledger::Ledger;

/// The sizes of a tree: its rows, its nodes, those of each layout, and the words of all their records.
#[derive(Clone, Copy, Debug, PartialEq, Eq)]
pub struct Stats {
    pub rows: u128,
    pub nodes: u128,
    pub linear: u128,
    pub cube: u128,
    pub words: u128,
}

// What was counted of some nodes: how many they are, those in the cube layout, and the words of their records.
#[derive(Clone, Copy)]
pub(crate) struct Counts {
    pub(crate) nodes: u128,
    pub(crate) cube: u128,
    pub(crate) words: u128,
}

impl Counts {
    // Adds a node whose record has so many words.
    fn add(&mut self, is_cube: bool, words: usize)
        requires room { self.old.nodes < 2 ^ 64 }
        requires few { IsFew self.old }
        ensures counts { self.new ≡ with_node self.old is_cube words }
        ensures few { IsFew self.new }
    {
        self.nodes += 1;
        if is_cube {
            self.cube += 1;
        }
        self.words += words as u128;
    }
}

impl<const D: usize> PhTree<D> {
    /// The sizes of the tree, of its nodes as they stand in memory. Each node is visited once, and nothing takes memory.
    pub fn stats<V: Ledger>(&self, visits: &mut Steps<V>) -> Stats
        ensures stats { stats_of result ≡ stats self.now.width D self.now.table }
        ensures visits { visits.new ≡ visits.old + length (all_nodes self.now.width D self.now.table) }
    {
        // A use that makes the range of the width known.
        let _bits = self.width().bits();
        let rows = self.len();
        let counts = count_tree::<Dim<D>, V>(self.root(), visits);
        Stats {
            rows: u128::from(rows),
            nodes: counts.nodes,
            linear: counts.nodes - counts.cube,
            cube: counts.cube,
            words: counts.words,
        }
    }
}

// Counts the nodes of a tree, each of which it visits once.
fn count_tree<P: Dims, V: Ledger>(root: Option<&NodeOf<P>>, visits: &mut Steps<V>) -> Counts
    requires { length (nodes (option_copied root)) ≤ 2 ^ 64 }
    ensures counts { result ≡ counted P.D no_counts (nodes (option_copied root.entry)) }
    ensures few { IsFew result }
    ensures visits { visits.new ≡ visits.old + length (nodes (option_copied root.entry)) }
{
    let mut counts = Counts {
        nodes: 0,
        cube: 0,
        words: 0,
    };
    if let Some(root) = root {
        count_node(root, &mut counts, visits);
    }
    counts
}

// Adds a node and all nodes below it, each of which it visits once.
fn count_node<P: Dims, V: Ledger>(node: &NodeOf<P>, counts: &mut Counts, visits: &mut Steps<V>)
    requires room { counts.old.nodes + length (nodes (Some node.now)) ≤ 2 ^ 64 }
    requires few { IsFew counts.old }
    ensures counts { counts.new ≡ counted P.D counts.old (nodes (Some node.now)) }
    ensures few { IsFew counts.new }
    ensures visits { visits.new ≡ visits.old + length (nodes (Some node.now)) }
{
    let visited = node.visit(visits);
    counts.add(visited.is_cube(), visited.words().len());
    for held in visited.children() {
        count_node(&held.node, counts, visits);
    }
}
