//! A tree of 1 to 16 dimensions as one type.
ghost use Rattle.std.specs.Prelude.{◌≡◌, ◌≤◌};
ghost use Rattle.ph_c.specs.Trees.{any_table, empty_table};
ghost use Rattle.ph_c.specs.Edits.{IsPut, IsGet, IsRemove, IsMove};
ghost use Rattle.ph_c.specs.Opens.{IsFrameOf};
ghost use Rattle.ph_c.specs.Sizes.{AreSizesOf};

use crate::frames::{Frame, frame_of};
use crate::rows::{get_row, move_row, put_row, remove_row};
use crate::sizes::{TreeSizes, sizes_of};
use ph_coord::Width;
use ph_steps::{Counters, Steps};
use ph_tree::PhTree;
use std::alloc::Global;
use std::sync::ledger::Ledger;

/// A tree by its number of dimensions: 1 to 16.
#[derive(Drop)]
pub enum Tree {
    D1(PhTree<1>),
    D2(PhTree<2>),
    D3(PhTree<3>),
    D4(PhTree<4>),
    D5(PhTree<5>),
    D6(PhTree<6>),
    D7(PhTree<7>),
    D8(PhTree<8>),
    D9(PhTree<9>),
    D10(PhTree<10>),
    D11(PhTree<11>),
    D12(PhTree<12>),
    D13(PhTree<13>),
    D14(PhTree<14>),
    D15(PhTree<15>),
    D16(PhTree<16>),
}

// Runs a body with the tree of whatever dimensions.
macro_rules! with_tree {
    ($any:expr, $tree:ident => $body:expr) => {
        match $any {
            Tree::D1($tree) => $body,
            Tree::D2($tree) => $body,
            Tree::D3($tree) => $body,
            Tree::D4($tree) => $body,
            Tree::D5($tree) => $body,
            Tree::D6($tree) => $body,
            Tree::D7($tree) => $body,
            Tree::D8($tree) => $body,
            Tree::D9($tree) => $body,
            Tree::D10($tree) => $body,
            Tree::D11($tree) => $body,
            Tree::D12($tree) => $body,
            Tree::D13($tree) => $body,
            Tree::D14($tree) => $body,
            Tree::D15($tree) => $body,
            Tree::D16($tree) => $body,
        }
    };
}

// What a macro makes of a number of dimensions and its variant.
macro_rules! by_dims {
    ($dims:expr, $make:ident) => {
        match $dims {
            1 => $make!(1, D1),
            2 => $make!(2, D2),
            3 => $make!(3, D3),
            4 => $make!(4, D4),
            5 => $make!(5, D5),
            6 => $make!(6, D6),
            7 => $make!(7, D7),
            8 => $make!(8, D8),
            9 => $make!(9, D9),
            10 => $make!(10, D10),
            11 => $make!(11, D11),
            12 => $make!(12, D12),
            13 => $make!(13, D13),
            14 => $make!(14, D14),
            15 => $make!(15, D15),
            _ => $make!(16, D16),
        }
    };
}

mod both;
mod listings;
mod made;
mod saved;

impl Tree {
    /// An empty tree of so many dimensions, for at most so many rows. It takes no memory.
    pub(crate) fn new(alloc: Global, w: Width, dims: u32, most: u64) -> Tree
        requires some { 1 ≤ dims }
        requires limit { dims ≤ 16 }
        ensures { any_table result ≡ empty_table dims w most }
    {
        macro_rules! new {
            ($dims:literal, $variant:ident) => {
                Tree::$variant(PhTree::<$dims>::new(alloc, w, most))
            };
        }
        by_dims!(dims, new)
    }

    /// What it is for, and how many rows it has.
    pub(crate) fn frame(&self) -> Frame
        ensures { IsFrameOf (any_table self.now) result }
    {
        with_tree!(self, tree => frame_of(tree))
    }

    /// Its sizes.
    pub(crate) fn sizes<V: Ledger>(&self, visits: &mut Steps<V>) -> TreeSizes
        ensures { AreSizesOf (any_table self.now) result }
    {
        with_tree!(self, tree => sizes_of(tree, visits))
    }

    /// Puts a value at a point, and writes the one that stood there to `former`.
    pub(crate) fn put<V: Ledger, C: Ledger>(
        &mut self,
        point: &[i64],
        value: u64,
        former: &mut u64,
        counters: &mut Counters<V, C>,
    ) -> u32
        ensures { IsPut (any_table self.old) point.now value (any_table self.new) former.old former.new result }
    {
        with_tree!(self, tree => put_row(tree, point, value, former, counters))
    }

    /// Writes the value at a point.
    pub(crate) fn get<V: Ledger>(
        &self,
        point: &[i64],
        value: &mut u64,
        visits: &mut Steps<V>,
    ) -> u32
        ensures { IsGet (any_table self.now) point.now value.old value.new result }
    {
        with_tree!(self, tree => get_row(tree, point, value, visits))
    }

    /// Takes the row at a point out, and writes its value to `former`.
    pub(crate) fn remove<V: Ledger, C: Ledger>(
        &mut self,
        point: &[i64],
        former: &mut u64,
        counters: &mut Counters<V, C>,
    ) -> u32
        ensures { IsRemove (any_table self.old) point.now (any_table self.new) former.old former.new result }
    {
        with_tree!(self, tree => remove_row(tree, point, former, counters))
    }

    /// Moves the row at one point to another.
    pub(crate) fn relocate<V: Ledger, C: Ledger>(
        &mut self,
        from: &[i64],
        to: &[i64],
        counters: &mut Counters<V, C>,
    ) -> u32
        ensures { IsMove (any_table self.old) from.now to.now (any_table self.new) result }
    {
        with_tree!(self, tree => move_row(tree, from, to, counters))
    }
}
