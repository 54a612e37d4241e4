//! The three set operations, as trees.
ghost use Rattle.std.specs.Prelude.{◌≡◌, ◌+◌, ◌≤◌, ◌<◌, length, IfOk, IsErrOf};
ghost use Rattle.ph_specs.specs.TableNames.{union as union_of, common as common_of, minus as minus_of, IsTable};
ghost use Rattle.ph_specs.specs.WorkNames.{all_nodes, touch};
ghost use Rattle.ph_set.specs.ResultTrees.{IsMade};
ghost use Rattle.ph_set.specs.Operations.{rows_of, visits_of};
ghost use Rattle.ph_set.specs.Visited.{Visits};

use crate::NoMemory;
use crate::error::SetFault;
use crate::operations::{Operation, combined_rows, has_more};
use ph_bulk::build;
use ph_coord::Row;
use ph_steps::Steps;
use ph_tree::PhTree;
use std::alloc::Global;
use std::sync::ledger::Ledger;

/// The tree of the rows of both trees, for at most `max` rows. At a point of both the value is that of `a`.
///
/// Both trees have coordinates of one width, and so has the union. Memory is taken for a vector of as many rows as both trees have,
/// 8 (D + 1) bytes each, before a node is visited, and for the nodes of the union. Each node of both trees is visited exactly once, but for want of
/// memory, and each node of the union is made once. It is `Full` where the union has more than `max` rows, before a node is made and whether
/// there is memory or not: where there is none for the rows, they are only counted. After an error nothing of the union stays; both trees are
/// lent for reading and stay as they are.
pub fn union<const D: usize, V: Ledger, C: Ledger>(
    alloc: Global,
    a: &PhTree<D>,
    b: &PhTree<D>,
    max: u64,
    visits: &mut Steps<V>,
    changes: &mut Steps<C>,
) -> Result<PhTree<D>, SetFault>
    requires { a.now.width ≡ b.now.width }
    ensures made { IsMade a.now.width D max (union_of a.now.width a.now.table b.now.table) changes.old changes.new result }
    ensures full { IsErrOf result SetFault.Full → max < length (union_of a.now.width a.now.table b.now.table) }
    ensures fits { IfOk result (λ t. length (union_of a.now.width a.now.table b.now.table) ≤ max) }
    ensures visits { Visits result (length (all_nodes a.now.width D a.now.table) + length (all_nodes a.now.width D b.now.table)) visits.old visits.new }
    ensures later { visits.old ≤ visits.new }
    ensures refused { IsErrOf result SetFault.Full → changes.new ≡ changes.old }
    ensures seen { IsErrOf result SetFault.Full
        → visits.new ≡ visits.old + (length (all_nodes a.now.width D a.now.table) + length (all_nodes a.now.width D b.now.table)) }
    ensures wanted { IsErrOf result SetFault.NoMemory → length (union_of a.now.width a.now.table b.now.table) ≤ max }
{
    // A use that makes the number of dimensions known.
    let _root = a.root();
    let Ok(rows) = combined_rows(alloc, Operation::Union, a, b, visits) else {
        if has_more(Operation::Union, a, b, max, visits) {
            return Err(SetFault::Full);
        }
        return Err(SetFault::NoMemory);
    };
    if rows.len() as u64 > max {
        return Err(SetFault::Full);
    }
    match built(alloc, a, &rows, max, changes) {
        Ok(tree) => Ok(tree),
        Err(_) => Err(SetFault::NoMemory),
    }
}

/// The tree of the rows of `a` at points that `b` has, for as many rows as `a` may have.
///
/// Both trees have coordinates of one width, and so has the result. Memory is taken for a vector of as many rows as the smaller tree
/// has, 8 (D + 1) bytes each, and for the nodes of the result. Exactly those nodes are visited whose region holds a point of the other
/// tree, each once, and else fewer for want of memory. Each node of the result is made once. After an error nothing of the result stays; both trees are lent for
/// reading and stay as they are.
pub fn common<const D: usize, V: Ledger, C: Ledger>(
    alloc: Global,
    a: &PhTree<D>,
    b: &PhTree<D>,
    visits: &mut Steps<V>,
    changes: &mut Steps<C>,
) -> Result<PhTree<D>, NoMemory>
    requires { a.now.width ≡ b.now.width }
    ensures made { IsMade a.now.width D a.now.max (common_of a.now.table b.now.table) changes.old changes.new result }
    ensures visits { Visits result (length (touch a.now.width D a.now.table b.now.table) + length (touch a.now.width D b.now.table a.now.table)) visits.old visits.new }
    ensures later { visits.old ≤ visits.new }
{
    fewer(alloc, Operation::Common, a, b, visits, changes)
}

/// The tree of the rows of `a` at points that `b` has not, for as many rows as `a` may have.
///
/// Both trees have coordinates of one width, and so has the result. Memory is taken for a vector of as many rows as `a` has,
/// 8 (D + 1) bytes each, and for the nodes of the result. Each node of `a` is visited exactly once, and so is each of `b` whose region holds a
/// point of `a`, but for want of memory. Each node of the result is made once. After an error nothing of the result stays; both trees are lent
/// for reading and stay as they are.
pub fn minus<const D: usize, V: Ledger, C: Ledger>(
    alloc: Global,
    a: &PhTree<D>,
    b: &PhTree<D>,
    visits: &mut Steps<V>,
    changes: &mut Steps<C>,
) -> Result<PhTree<D>, NoMemory>
    requires { a.now.width ≡ b.now.width }
    ensures made { IsMade a.now.width D a.now.max (minus_of a.now.table b.now.table) changes.old changes.new result }
    ensures visits { Visits result (length (all_nodes a.now.width D a.now.table) + length (touch a.now.width D b.now.table a.now.table)) visits.old visits.new }
    ensures later { visits.old ≤ visits.new }
{
    fewer(alloc, Operation::Minus, a, b, visits, changes)
}

// The tree of the rows of an operation that keeps no more than the rows of `a`, for as many rows as `a` may have.
fn fewer<const D: usize, V: Ledger, C: Ledger>(
    alloc: Global,
    operation: Operation,
    a: &PhTree<D>,
    b: &PhTree<D>,
    visits: &mut Steps<V>,
    changes: &mut Steps<C>,
) -> Result<PhTree<D>, NoMemory>
    requires width { a.now.width ≡ b.now.width }
    requires fewer { length (rows_of operation a.now.width a.now.table b.now.table) ≤ length a.now.table }
    ensures made { IsMade a.now.width D a.now.max (rows_of operation a.now.width a.now.table b.now.table) changes.old changes.new result }
    ensures visits { Visits result (visits_of operation a.now.width D a.now.table b.now.table) visits.old visits.new }
    ensures later { visits.old ≤ visits.new }
{
    // Uses that make known how many dimensions and rows there are.
    let _root = a.root();
    let _len = a.len();
    let rows = combined_rows(alloc, operation, a, b, visits)?;
    built(alloc, a, &rows, a.max(), changes)
}

// The tree of these rows, which are a table of the width of a tree, for at most `max` rows.
fn built<const D: usize, C: Ledger>(
    alloc: Global,
    a: &PhTree<D>,
    rows: &[Row<D>],
    max: u64,
    changes: &mut Steps<C>,
) -> Result<PhTree<D>, NoMemory>
    requires few { D ≤ 16 }
    requires table { IsTable a.now.width D rows.now }
    requires room { length rows.now ≤ max }
    ensures made { IsMade a.now.width D max rows.now changes.old changes.new result }
{
    // A use that makes the number of dimensions known.
    let _root = a.root();
    let mut tree = build(alloc, a.width(), rows, changes)?;
    let _set = tree.set_max(max);
    Ok(tree)
}
