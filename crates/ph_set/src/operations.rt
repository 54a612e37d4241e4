//! The three set operations.
ghost use Rattle.std.specs.Prelude.{◌≡◌, ◌+◌, ◌≤◌, [], true, length, nat_lt, vec_capacity, IfOk, IfSome, OnErr};
ghost use Rattle.ph_specs.specs.TableNames.{IsTable};
ghost use Rattle.ph_specs.specs.WorkNames.{all_nodes};
ghost use Rattle.ph_set.specs.Meeting.{kept, work};
ghost use Rattle.ph_set.specs.Operations.{plan_of, rows_of, room_of, visits_of};
ghost use Rattle.ph_set.specs.Visited.{Visits};

use crate::NoMemory;
use crate::plan::Plan;
use crate::roots::list_roots;
use crate::sink::{Allowance, RowSink};
use ph_coord::{Dim, Row, Width};
use ph_steps::Steps;
use ph_tree::PhTree;
use std::alloc::Global;
use std::sync::ledger::Ledger;

/// A set operation on two trees.
#[derive(Clone, Copy)]
pub(crate) enum Operation {
    /// The rows of both. At a point of both the value is that of the first.
    Union,
    /// The rows of the first at points that the second has.
    Common,
    /// The rows of the first at points that the second has not.
    Minus,
}

impl Operation {
    // What it keeps of two trees of a width.
    fn plan(self, width: Width) -> Plan
        ensures { result ≡ plan_of self width }
    {
        match self {
            Operation::Union => Plan {
                width,
                left: true,
                both: true,
                right: true,
            },
            Operation::Common => Plan {
                width,
                left: false,
                both: true,
                right: false,
            },
            Operation::Minus => Plan {
                width,
                left: true,
                both: false,
                right: false,
            },
        }
    }

    // For how many rows of two trees room is taken, where that can be counted. It suffices for all that it keeps.
    fn room<const D: usize>(self, a: &PhTree<D>, b: &PhTree<D>) -> Option<u64>
        requires { a.now.width ≡ b.now.width }
        ensures value { IfSome result (λ n. n ≡ room_of self (length a.now.table) (length b.now.table)) }
        ensures enough { IfSome result (λ n. length (rows_of self a.now.width a.now.table b.now.table) ≤ n) }
    {
        // Uses that make known that both trees have tables, of a width from 1.
        let _left = a.root();
        let _right = b.root();
        let _bits = a.width().bits();
        match self {
            Operation::Union => a.len().checked_add(b.len()),
            Operation::Common => Some(a.len().min(b.len())),
            Operation::Minus => Some(a.len()),
        }
    }

    // No rows yet, with exactly this room.
    fn room_for<const D: usize>(
        self,
        alloc: Global,
        a: &PhTree<D>,
        b: &PhTree<D>,
    ) -> Result<Vec<Row<D>>, NoMemory>
        requires { a.now.width ≡ b.now.width }
        ensures none { IfOk result (λ rows. rows.items ≡ []) }
        ensures room { IfOk result (λ rows. vec_capacity rows ≡ room_of self (length a.now.table) (length b.now.table)) }
        ensures enough { IfOk result (λ rows. length (rows_of self a.now.width a.now.table b.now.table) ≤ vec_capacity rows) }
    {
        let Some(room) = self.room(a, b) else {
            return Err(NoMemory);
        };
        Vec::with_capacity(alloc, room as usize)
    }
}

/// The rows of a set operation on two trees, in Z-order. Without memory no node is visited.
pub(crate) fn combined_rows<const D: usize, V: Ledger>(
    alloc: Global,
    operation: Operation,
    a: &PhTree<D>,
    b: &PhTree<D>,
    visits: &mut Steps<V>,
) -> Result<Vec<Row<D>>, NoMemory>
    requires { a.now.width ≡ b.now.width }
    ensures rows { IfOk result (λ rows. rows.items ≡ rows_of operation a.now.width a.now.table b.now.table) }
    ensures table { IfOk result (λ rows. IsTable a.now.width D rows.items) }
    ensures visits { Visits result (visits_of operation a.now.width D a.now.table b.now.table) visits.old visits.new }
    ensures later { visits.old ≤ visits.new }
    ensures unseen { OnErr result (visits.new ≡ visits.old) }
{
    let mut rows = operation.room_for(alloc, a, b)?;
    hand_rows::<D, Vec<Row<D>>, V>(operation, a, b, &mut rows, visits);
    Ok(rows)
}

/// Whether a set operation on two trees has more rows than `most`. They are counted by the descent that would list them, where both trees
/// together have more.
pub(crate) fn has_more<const D: usize, V: Ledger>(
    operation: Operation,
    a: &PhTree<D>,
    b: &PhTree<D>,
    most: u64,
    visits: &mut Steps<V>,
) -> bool
    requires { a.now.width ≡ b.now.width }
    ensures value { result ≡ nat_lt most (length (rows_of operation a.now.width a.now.table b.now.table)) }
    ensures seen { result ≡ true → visits.new ≡ visits.old + visits_of operation a.now.width D a.now.table b.now.table }
    ensures most { visits.new ≤ visits.old + visits_of operation a.now.width D a.now.table b.now.table }
    ensures later { visits.old ≤ visits.new }
{
    // A use that makes the number of dimensions known.
    let _root = a.root();
    if let Some(room) = operation.room(a, b) {
        if room <= most {
            return false;
        }
    }
    let mut allowance = Allowance::new(most);
    hand_rows::<D, Allowance, V>(operation, a, b, &mut allowance, visits);
    allowance.is_exceeded()
}

// Hands the rows of a set operation on two trees to a sink, in Z-order.
fn hand_rows<const D: usize, S: RowSink<Dim<D>>, V: Ledger>(
    operation: Operation,
    a: &PhTree<D>,
    b: &PhTree<D>,
    rows: &mut S,
    visits: &mut Steps<V>,
)
    requires { a.now.width ≡ b.now.width }
    ensures rows { S.adds rows.old rows.new (rows_of operation a.now.width a.now.table b.now.table) }
    ensures table { IsTable a.now.width D (rows_of operation a.now.width a.now.table b.now.table) }
    ensures visits { visits.new ≡ visits.old + visits_of operation a.now.width D a.now.table b.now.table }
{
    let plan = operation.plan(a.width());
    hand_kept::<D, S, V>(&plan, a, b, rows, visits);
}

// Hands what a plan keeps of two trees of its width to a sink.
fn hand_kept<const D: usize, S: RowSink<Dim<D>>, V: Ledger>(
    plan: &Plan,
    a: &PhTree<D>,
    b: &PhTree<D>,
    rows: &mut S,
    visits: &mut Steps<V>,
)
    requires left { a.now.width ≡ plan.now.width }
    requires right { b.now.width ≡ plan.now.width }
    ensures rows { S.adds rows.old rows.new (kept plan.now a.now.table b.now.table) }
    ensures visits { visits.new
        ≡ visits.old
        + work plan.now a.now.table (all_nodes plan.now.width D a.now.table) b.now.table (all_nodes plan.now.width D b.now.table) }
    ensures left { IsTable plan.now.width D a.now.table }
    ensures right { IsTable plan.now.width D b.now.table }
    ensures wide { 1 ≤ plan.now.width }
{
    // A use that makes the range of the width known.
    let _bits = plan.width.bits();
    let left = a.root();
    let right = b.root();
    list_roots::<Dim<D>, S, V>(plan, left, right, rows, visits);
}
