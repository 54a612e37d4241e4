//! What each command does to a tree.
ghost use Rattle.std.specs.Prelude.{◌≡◌, ◌≤◌, [], None, true, length};
ghost use Rattle.std.specs.List.{list_all};
ghost use Rattle.ph_specs.specs.TableNames.{fits, IsPoint};
ghost use Rattle.ph_specs.specs.ProgramNames.{Command as Asked};
ghost use Rattle.ph_script.specs.Meaning.{number_of_coord, numbers_of, reply_of};
ghost use Rattle.ph_commands.specs.Served.{Looked, Idled, ServedOr};
ghost use Rattle.ph_commands.specs.Tables.{table_at, slot_of};
ghost use Rattle.ph_commands.specs.Comparing.{IsCompared};
ghost use Rattle.ph_specs.specs.declared.Kind.TheVariants.{Points};

use ph_coord::{Point, Width};
use ph_script::{Coord, Coords, Reply};
use ph_steps::Steps;
use ph_tree::{Moved, NoMemory, PhTree, Put, PutError};
use ph_undo::Kept;
use ph_window::Cursor;
use std::alloc::Global;
use std::sync::ledger::Ledger;

// The point at these coordinates, which are in the width.
#[inline(always)]
pub(crate) fn point_at<const D: usize>(w: Width, at: &Coords<'_>) -> Point<D>
    requires dims { length at.now ≡ D }
    requires range { list_all (fits w) (numbers_of at.now) ≡ true }
    ensures value { result ≡ numbers_of at.now }
    ensures point { IsPoint w D result }
{
    // So many coordinates as the compiler knows, so that no loop is left.
    let Some(coords) = at.as_slice().first_chunk::<D>() else {
        unreachable!()
    };
    let mut numbers = [0; D];
    for i in 0..D {
        numbers[i] = number_at(w, &coords[i]);
    }
    Point::new(numbers)
}

// A coordinate that is in the width.
#[inline(always)]
fn number_at(w: Width, coord: &Coord) -> i64
    requires { fits w (number_of_coord coord.now) ≡ true }
    ensures { result ≡ number_of_coord coord.now }
{
    // A use that makes known how wide a coordinate can be.
    let _bits = w.bits();
    match coord {
        Coord::Whole(c) => *c,
        Coord::Far => unreachable!(),
    }
}

/// Puts a value at a point, in place of the one that stands there. It may want memory for a row that is new; without it all is as before.
pub fn put_row<const D: usize, V: Ledger, C: Ledger>(
    kept: &mut Kept<D>,
    at: &Coords<'_>,
    value: u64,
    visits: &mut Steps<V>,
    changes: &mut Steps<C>,
) -> Result<Reply, NoMemory>
    requires dims { length at.now ≡ D }
    requires range { list_all (fits kept.old.width) (numbers_of at.now) ≡ true }
    requires limit { D ≤ 16 }
    ensures { ServedOr (table_at D kept.old) (Asked.Put (numbers_of at.now) value) (table_at D kept.new) visits.old visits.new changes.old changes.new result }
{
    let p = point_at(kept.tree().width(), at);
    // A use that makes known that there are at most so many rows.
    let _len = kept.tree().len();
    match kept.put(p, value, visits, changes) {
        Ok(Put::New) => Ok(Reply::New),
        Ok(Put::Old(old)) => Ok(Reply::Old(old)),
        Err(PutError::Full) => Ok(Reply::ErrorFull),
        Err(PutError::NoMemory) => Err(NoMemory),
    }
}

/// Tells the value at a point.
pub fn get_row<const D: usize, V: Ledger>(
    kept: &Kept<D>,
    at: &Coords<'_>,
    visits: &mut Steps<V>,
) -> Reply
    requires dims { length at.now ≡ D }
    requires range { list_all (fits kept.now.width) (numbers_of at.now) ≡ true }
    requires limit { D ≤ 16 }
    ensures { Looked (table_at D kept.now) (Asked.Get (numbers_of at.now)) (table_at D kept.now) (reply_of result) visits.old visits.new }
{
    let tree = kept.tree();
    let p = point_at(tree.width(), at);
    match tree.get(&p, visits) {
        Some(value) => Reply::Value(value),
        None => Reply::Absent,
    }
}

/// Takes the row at a point out. It may want memory where a record changes its layout; without it all is as before.
pub fn del_row<const D: usize, V: Ledger, C: Ledger>(
    kept: &mut Kept<D>,
    at: &Coords<'_>,
    visits: &mut Steps<V>,
    changes: &mut Steps<C>,
) -> Result<Reply, NoMemory>
    requires dims { length at.now ≡ D }
    requires range { list_all (fits kept.old.width) (numbers_of at.now) ≡ true }
    requires limit { D ≤ 16 }
    ensures { ServedOr (table_at D kept.old) (Asked.Del (numbers_of at.now)) (table_at D kept.new) visits.old visits.new changes.old changes.new result }
{
    let p = point_at(kept.tree().width(), at);
    match kept.del(&p, visits, changes)? {
        Some(value) => Ok(Reply::Gone(value)),
        None => Ok(Reply::Absent),
    }
}

/// Moves the row at a point to another, where none is. It may want memory; without it all is as before.
pub fn move_row<const D: usize, V: Ledger, C: Ledger>(
    kept: &mut Kept<D>,
    from: &Coords<'_>,
    to: &Coords<'_>,
    visits: &mut Steps<V>,
    changes: &mut Steps<C>,
) -> Result<Reply, NoMemory>
    requires from { length from.now ≡ D }
    requires to { length to.now ≡ D }
    requires from_range { list_all (fits kept.old.width) (numbers_of from.now) ≡ true }
    requires to_range { list_all (fits kept.old.width) (numbers_of to.now) ≡ true }
    requires limit { D ≤ 16 }
    ensures { ServedOr (table_at D kept.old) (Asked.Relocate (numbers_of from.now) (numbers_of to.now)) (table_at D kept.new)
        visits.old visits.new changes.old changes.new result }
{
    let p = point_at(kept.tree().width(), from);
    let q = point_at(kept.tree().width(), to);
    match kept.relocate(&p, &q, visits, changes)? {
        Moved::Done => Ok(Reply::Moved),
        Moved::Taken => Ok(Reply::Taken),
        Moved::Absent => Ok(Reply::Absent),
    }
}

/// Tells how many rows there are.
pub fn count_rows<const D: usize>(kept: &Kept<D>) -> Reply
    requires { D ≤ 16 }
    ensures { Idled (table_at D kept.now) Asked.Count (table_at D kept.now) (reply_of result) }
{
    Reply::Rows(kept.tree().len())
}

/// Takes all rows out, and forgets the edits. It wants no memory.
pub fn clear_rows<const D: usize>(kept: &mut Kept<D>, alloc: Global) -> Reply
    requires { D ≤ 16 }
    ensures { Idled (table_at D kept.old) Asked.Clear (table_at D kept.new) (reply_of result) }
{
    let tree = kept.tree();
    // A use that makes the number of dimensions known.
    let _root = tree.root();
    let empty = PhTree::new(alloc, tree.width(), tree.max());
    kept.replace(empty);
    Reply::Cleared
}

/// Whether two trees have the same width and the same rows.
pub fn are_same<const D: usize, V: Ledger>(a: &Kept<D>, b: &Kept<D>, visits: &mut Steps<V>) -> bool
    ensures { IsCompared (slot_of Points (table_at D a.now) []) (slot_of Points (table_at D b.now) []) visits.old visits.new result }
{
    let (first, second) = (a.tree(), b.tree());
    let bits = first.width().bits();
    let others = second.width().bits();
    if bits != others {
        return false;
    }
    first.same(second, visits)
}

/// A cursor between two corners, with no row listed.
pub fn cursor_at<const D: usize>(tree: &PhTree<D>, lo: &Coords<'_>, hi: &Coords<'_>) -> Cursor<D>
    requires lo { length lo.now ≡ D }
    requires hi { length hi.now ≡ D }
    requires lo_range { list_all (fits tree.now.width) (numbers_of lo.now) ≡ true }
    requires hi_range { list_all (fits tree.now.width) (numbers_of hi.now) ≡ true }
    ensures { result ≡ record { lo = numbers_of lo.now; hi = numbers_of hi.now; last = None } }
{
    let w = tree.width();
    Cursor {
        lo: point_at(w, lo),
        hi: point_at(w, hi),
        last: None,
    }
}
