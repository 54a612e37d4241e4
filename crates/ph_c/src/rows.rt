//! What the calls about one row do to a tree of D dimensions.
ghost use Rattle.std.specs.Prelude.{◌≤◌};
ghost use Rattle.std.specs.Option.{SomeIff};
ghost use Rattle.ph_specs.specs.TableNames.{IsPoint};
ghost use Rattle.ph_c.specs.Trees.{table_at};
ghost use Rattle.ph_c.specs.Edits.{IsPut, IsGet, IsRemove, IsMove};

use crate::answers::{ABSENT, DONE, FULL, NO_MEMORY, NO_POINT, REPLACED, TAKEN};
use ph_coord::Point;
use ph_steps::{Counters, Steps};
use ph_tree::{Moved, PhTree, Put, PutError};
use std::sync::ledger::Ledger;

// The point of these numbers, if they are one of the tree.
pub(crate) fn point_in<const D: usize>(tree: &PhTree<D>, numbers: &[i64]) -> Option<Point<D>>
    requires { D ≤ 16 }
    ensures { SomeIff result (IsPoint tree.now.width D numbers.now) numbers.now }
{
    Point::from_slice(tree.width(), numbers)
}

pub(crate) fn put_row<const D: usize, V: Ledger, C: Ledger>(
    tree: &mut PhTree<D>,
    point: &[i64],
    value: u64,
    former: &mut u64,
    counters: &mut Counters<V, C>,
) -> u32
    ensures { IsPut (table_at D tree.old) point.now value (table_at D tree.new) former.old former.new result }
{
    // A use that makes the number of dimensions known.
    let _root = tree.root();
    let Some(p) = point_in(tree, point) else {
        return NO_POINT;
    };
    match tree.put(p, value, &mut counters.visits, &mut counters.changes) {
        Ok(Put::New) => DONE,
        Ok(Put::Old(old)) => {
            *former = old;
            REPLACED
        }
        Err(PutError::Full) => FULL,
        Err(PutError::NoMemory) => NO_MEMORY,
    }
}

pub(crate) fn get_row<const D: usize, V: Ledger>(
    tree: &PhTree<D>,
    point: &[i64],
    value: &mut u64,
    visits: &mut Steps<V>,
) -> u32
    ensures { IsGet (table_at D tree.now) point.now value.old value.new result }
{
    // A use that makes the number of dimensions known.
    let _root = tree.root();
    let Some(p) = point_in(tree, point) else {
        return NO_POINT;
    };
    match tree.get(&p, visits) {
        Some(found) => {
            *value = found;
            DONE
        }
        None => ABSENT,
    }
}

pub(crate) fn remove_row<const D: usize, V: Ledger, C: Ledger>(
    tree: &mut PhTree<D>,
    point: &[i64],
    former: &mut u64,
    counters: &mut Counters<V, C>,
) -> u32
    ensures { IsRemove (table_at D tree.old) point.now (table_at D tree.new) former.old former.new result }
{
    // A use that makes the number of dimensions known.
    let _root = tree.root();
    let Some(p) = point_in(tree, point) else {
        return NO_POINT;
    };
    match tree.del(&p, &mut counters.visits, &mut counters.changes) {
        Ok(Some(old)) => {
            *former = old;
            DONE
        }
        Ok(None) => ABSENT,
        Err(_) => NO_MEMORY,
    }
}

pub(crate) fn move_row<const D: usize, V: Ledger, C: Ledger>(
    tree: &mut PhTree<D>,
    from: &[i64],
    to: &[i64],
    counters: &mut Counters<V, C>,
) -> u32
    ensures { IsMove (table_at D tree.old) from.now to.now (table_at D tree.new) result }
{
    // A use that makes the number of dimensions known.
    let _root = tree.root();
    let (Some(p), Some(q)) = (point_in(tree, from), point_in(tree, to)) else {
        return NO_POINT;
    };
    match tree.relocate(&p, &q, &mut counters.visits, &mut counters.changes) {
        Ok(Moved::Done) => DONE,
        Ok(Moved::Absent) => ABSENT,
        Ok(Moved::Taken) => TAKEN,
        Err(_) => NO_MEMORY,
    }
}
