//! Trees of D dimensions that are made of two.
ghost use Rattle.std.specs.Prelude.{◌≡◌, MatchResult};
ghost use Rattle.ph_specs.specs.TableNames.{common as common_of, minus as minus_of};
ghost use Rattle.ph_c.specs.Trees.{table_at};
ghost use Rattle.ph_c.specs.Combining.{IsCombined, NotCombined, IsUnion, NoUnion, IsPart, NoPart};

use crate::answers::{FULL, NO_MEMORY, UNLIKE};
use ph_set::{SetFault, common, minus, union};
use ph_steps::Counters;
use ph_tree::PhTree;
use std::alloc::Global;
use std::sync::ledger::Ledger;

/// What is made of two trees.
#[derive(Clone, Copy)]
pub(crate) enum Operation {
    /// The rows of both, for at most `most` of them. At a point of both the value is that of the first.
    Union { most: u64 },
    /// The rows of the first at points that the second has, for as many as the first may have.
    Common,
    /// The rows of the first at points that the second has not, for as many as the first may have.
    Minus,
}

/// The tree that an operation makes of two, or the answer why there is none.
pub(crate) fn combined<const D: usize, V: Ledger, C: Ledger>(
    alloc: Global,
    operation: Operation,
    a: &PhTree<D>,
    b: &PhTree<D>,
    counters: &mut Counters<V, C>,
) -> Result<PhTree<D>, u32>
    ensures { MatchResult result
        (λ t. IsCombined operation (table_at D a.now) (table_at D b.now) (table_at D t))
        (NotCombined operation (table_at D a.now) (table_at D b.now)) }
{
    match operation {
        Operation::Union { most } => union_of(alloc, a, b, most, counters),
        Operation::Common => common_of(alloc, a, b, counters),
        Operation::Minus => minus_of(alloc, a, b, counters),
    }
}

fn union_of<const D: usize, V: Ledger, C: Ledger>(
    alloc: Global,
    a: &PhTree<D>,
    b: &PhTree<D>,
    most: u64,
    counters: &mut Counters<V, C>,
) -> Result<PhTree<D>, u32>
    ensures { MatchResult result
        (λ t. IsUnion (table_at D a.now) (table_at D b.now) most (table_at D t))
        (NoUnion (table_at D a.now) (table_at D b.now) most) }
{
    if a.width() != b.width() {
        return Err(UNLIKE);
    }
    match union(
        alloc,
        a,
        b,
        most,
        &mut counters.visits,
        &mut counters.changes,
    ) {
        Ok(tree) => Ok(tree),
        Err(SetFault::Full) => Err(FULL),
        Err(SetFault::NoMemory) => Err(NO_MEMORY),
    }
}

fn common_of<const D: usize, V: Ledger, C: Ledger>(
    alloc: Global,
    a: &PhTree<D>,
    b: &PhTree<D>,
    counters: &mut Counters<V, C>,
) -> Result<PhTree<D>, u32>
    ensures { MatchResult result
        (λ t. IsPart (common_of a.now.table b.now.table) (table_at D a.now) (table_at D b.now) (table_at D t))
        (NoPart (table_at D a.now) (table_at D b.now)) }
{
    if a.width() != b.width() {
        return Err(UNLIKE);
    }
    match common(alloc, a, b, &mut counters.visits, &mut counters.changes) {
        Ok(tree) => Ok(tree),
        Err(_) => Err(NO_MEMORY),
    }
}

fn minus_of<const D: usize, V: Ledger, C: Ledger>(
    alloc: Global,
    a: &PhTree<D>,
    b: &PhTree<D>,
    counters: &mut Counters<V, C>,
) -> Result<PhTree<D>, u32>
    ensures { MatchResult result
        (λ t. IsPart (minus_of a.now.table b.now.table) (table_at D a.now) (table_at D b.now) (table_at D t))
        (NoPart (table_at D a.now) (table_at D b.now)) }
{
    if a.width() != b.width() {
        return Err(UNLIKE);
    }
    match minus(alloc, a, b, &mut counters.visits, &mut counters.changes) {
        Ok(tree) => Ok(tree),
        Err(_) => Err(NO_MEMORY),
    }
}
