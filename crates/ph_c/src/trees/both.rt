//! Trees of any number of dimensions that are made of two.
ghost use Rattle.ph_c.specs.Trees.{any_table};
ghost use Rattle.ph_c.specs.Combining.{IsCombined, NotCombined};
ghost use Rattle.ph_c.specs.Openings.{MadeOr};

use super::Tree;
use crate::answers::UNLIKE;
use crate::combining::{Operation, combined};
use ph_steps::Counters;
use std::alloc::Global;
use std::sync::ledger::Ledger;

// Runs a body that makes a tree of two of as many dimensions. Others are unlike.
macro_rules! with_both {
    ($any:expr, $other:expr, $a:ident, $b:ident => $body:expr) => {
        match ($any, $other) {
            (Tree::D1($a), Tree::D1($b)) => $body.map(Tree::D1),
            (Tree::D2($a), Tree::D2($b)) => $body.map(Tree::D2),
            (Tree::D3($a), Tree::D3($b)) => $body.map(Tree::D3),
            (Tree::D4($a), Tree::D4($b)) => $body.map(Tree::D4),
            (Tree::D5($a), Tree::D5($b)) => $body.map(Tree::D5),
            (Tree::D6($a), Tree::D6($b)) => $body.map(Tree::D6),
            (Tree::D7($a), Tree::D7($b)) => $body.map(Tree::D7),
            (Tree::D8($a), Tree::D8($b)) => $body.map(Tree::D8),
            (Tree::D9($a), Tree::D9($b)) => $body.map(Tree::D9),
            (Tree::D10($a), Tree::D10($b)) => $body.map(Tree::D10),
            (Tree::D11($a), Tree::D11($b)) => $body.map(Tree::D11),
            (Tree::D12($a), Tree::D12($b)) => $body.map(Tree::D12),
            (Tree::D13($a), Tree::D13($b)) => $body.map(Tree::D13),
            (Tree::D14($a), Tree::D14($b)) => $body.map(Tree::D14),
            (Tree::D15($a), Tree::D15($b)) => $body.map(Tree::D15),
            (Tree::D16($a), Tree::D16($b)) => $body.map(Tree::D16),
            _ => Err(UNLIKE),
        }
    };
}

impl Tree {
    /// The tree that an operation makes of it and another one, or the answer why there is none.
    pub(crate) fn combined<V: Ledger, C: Ledger>(
        &self,
        alloc: Global,
        other: &Tree,
        operation: Operation,
        counters: &mut Counters<V, C>,
    ) -> Result<Tree, u32>
        ensures { MadeOr
            (IsCombined operation (any_table self.now) (any_table other.now))
            (NotCombined operation (any_table self.now) (any_table other.now)) result }
    {
        with_both!(self, other, a, b => combined(alloc, operation, a, b, counters))
    }
}
