//! Inverses of edits.

ghost use Rattle.std.specs.Prelude.{◌≡◌, ◌+◌, ◌*◌, ◌≤◌, length, OnOk, OnErr};
ghost use Rattle.ph_undo.specs.Inverses.{undone, undo_visits, IsInverse, IsChange, is_move, put_inverse as inverse_of};

use ph_coord::Point;
use ph_steps::Steps;
use ph_table::Put;
use ph_tree::{Moved, NoMemory, PhTree, PutError};
use std::sync::ledger::Ledger;

/// What takes an edit back.
#[derive(Clone, Copy)]
pub enum Inverse<const D: usize> {
    /// Of a put at a new point: the row goes.
    Remove(Point<D>),
    /// Of a put at an old point, and of a removal: the value that was there comes back.
    Restore(Point<D>, u64),
    /// Of a move: the value at the first point goes to the second.
    Return(Point<D>, Point<D>),
}

// What takes a put back that was answered so.
pub(crate) fn put_inverse<const D: usize>(p: &Point<D>, answer: Put) -> Inverse<D>
    ensures { result ≡ inverse_of p.now answer }
{
    match answer {
        Put::New => Inverse::Remove(*p),
        Put::Old(value) => Inverse::Restore(*p, value),
    }
}

// Whether a move that was answered so took a row to another point.
pub(crate) fn has_moved<const D: usize>(from: &Point<D>, to: &Point<D>, answer: Moved) -> bool
    ensures { result ≡ is_move from.now to.now answer }
{
    match answer {
        Moved::Done => from != to,
        Moved::Absent | Moved::Taken => false,
    }
}

// Takes an edit back. An error leaves all as it was.
pub(crate) fn take_back<const D: usize, V: Ledger, C: Ledger>(
    tree: &mut PhTree<D>,
    inverse: &Inverse<D>,
    visits: &mut Steps<V>,
    changes: &mut Steps<C>,
) -> Result<(), NoMemory>
    requires points { IsInverse tree.old.width inverse.now }
    requires fit { length (undone tree.old.width tree.old.table inverse.now) ≤ tree.old.max }
    requires change { IsChange tree.old.table inverse.now }
    ensures undone { OnOk result (tree.new ≡ record tree.old { table = undone tree.old.width tree.old.table inverse.now }) }
    ensures err { OnErr result (tree.new ≡ tree.old) }
    ensures visits { visits.new ≤ visits.old + undo_visits tree.old.width D tree.old.table inverse.now }
    ensures limit { visits.new ≤ visits.old + 5 * tree.old.width }
    ensures later { visits.old ≤ visits.new }
    ensures changes { changes.new ≤ changes.old + 4 }
    ensures spared { OnErr result (changes.new ≡ changes.old) }
    ensures made { OnOk result (changes.old + 1 ≤ changes.new) }
{
    // A use that makes known that the tree is a table.
    let _root = tree.root();
    match inverse {
        Inverse::Remove(at) => {
            tree.del(at, visits, changes)?;
            Ok(())
        }
        Inverse::Restore(at, value) => match tree.put(*at, *value, visits, changes) {
            Ok(_) => Ok(()),
            Err(PutError::Full) => unreachable!(),
            Err(PutError::NoMemory) => Err(NoMemory),
        },
        Inverse::Return(from, to) => {
            tree.relocate(from, to, visits, changes)?;
            Ok(())
        }
    }
}
