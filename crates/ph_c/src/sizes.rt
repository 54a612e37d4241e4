//! The call that tells the sizes of a tree.
ghost use Rattle.std.specs.Prelude.{◌≡◌, ◌-◌, ◌<◌, ◌^◌, min};
ghost use Rattle.ph_c.specs.Trees.{any_table, table_at};
ghost use Rattle.ph_c.specs.Calls.{table_in, Asks};
ghost use Rattle.ph_c.specs.Sizes.{AreSizesOf, TellsSizes};

use crate::answers::{DONE, NO_TREE};
use crate::handle::Handle;
use crate::trees::Tree;
use ph_steps::Steps;
use ph_tree::PhTree;
use std::alloc::Global;
use std::marker::Brand;
use std::sync::ledger::{Blank, Ledger};

/// The sizes of a tree: its rows, its nodes, those of each layout, and the words of all their records, or 2^64 - 1 where these are more.
#[repr(C)]
#[derive(Clone, Copy)]
pub struct TreeSizes {
    pub rows: u64,
    pub nodes: u64,
    pub linear: u64,
    pub cube: u64,
    pub words: u64,
}

/// Writes the sizes of the tree.
#[unsafe(no_mangle)]
pub extern "C" fn ph_sizes(alloc: Global, h: &mut Handle, sizes: &mut TreeSizes) -> u32
    ensures same { h.new.tree ≡ h.old.tree }
    ensures answer { Asks (table_in h.old.tree) result (sizes.new ≡ sizes.old) (λ t. TellsSizes t sizes.new result) }
{
    let Some(tree) = h.take(alloc) else {
        return NO_TREE;
    };
    *sizes = sizes_in::<Brand>(&tree, Blank::new(1));
    h.give(alloc, tree);
    DONE
}

// The sizes with a counter that nobody reads, made of a blank.
fn sizes_in<V: Ledger>(tree: &Tree, visits: Blank) -> TreeSizes
    requires visits { (visits.name ≡ V.name) × (visits.parts ≡ V.parts) × (0 < visits.parts) }
    ensures { AreSizesOf (any_table tree.now) result }
{
    let mut visits: Steps<V> = Steps::new(visits);
    tree.sizes(&mut visits)
}

/// The sizes of a tree of D dimensions. It has no more nodes than rows.
#[tactic(auto, unfolding(crate::specs::Sizes::stats_in))]
pub(crate) fn sizes_of<const D: usize, V: Ledger>(
    tree: &PhTree<D>,
    visits: &mut Steps<V>,
) -> TreeSizes
    ensures { AreSizesOf (table_at D tree.now) result }
{
    // Uses that make known that the rows are a table, and the range of the width.
    let _root = tree.root();
    let _bits = tree.width().bits();
    let rows = tree.len();
    let sizes = tree.stats(visits);
    TreeSizes {
        rows,
        nodes: sizes.nodes as u64,
        linear: sizes.linear as u64,
        cube: sizes.cube as u64,
        words: capped(sizes.words),
    }
}

// A number as one of 64 bits, or the greatest of these where it is more.
fn capped(number: u128) -> u64
    ensures { result ≡ min number (2 ^ 64 - 1) }
{
    number.min(u128::from(u64::MAX)) as u64
}
