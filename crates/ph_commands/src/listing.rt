//! Commands whose replies list rows, line by line, as a walk finds them.
ghost use Rattle.std.specs.Prelude.{◌≡◌, ◌≤◌, true, length};
ghost use Rattle.std.specs.List.{list_all};
ghost use Rattle.ph_specs.specs.TableNames.{fits, IsPoint};
ghost use Rattle.ph_specs.specs.ProgramNames.{page_end};
ghost use Rattle.ph_script.specs.Meaning.{numbers_of, reply_of};
ghost use Rattle.ph_window.specs.Page.{IsLast};
ghost use Rattle.ph_commands.specs.Listing.{ListsWindow, ListsPage, is_more};
ghost use Rattle.ph_commands.specs.Tables.{tree_at};
ghost use Rattle.ph_commands.specs.Telling.{StopHasCause};
ghost use Rattle.ph_commands.specs.Told.{taken_by};

use crate::answer::{Answer, Stop};
use crate::commands::point_at;
use crate::output::{say, say_row};
use ph_coord::Point;
use ph_io::Sink;
use ph_script::{Coords, Reply, Text};
use ph_steps::Steps;
use ph_tree::PhTree;
use ph_window::{Cursor, Tail, Window};
use std::sync::ledger::Ledger;

/// Gives the sink the rows between two corners, and then their number. It takes no memory.
pub fn list_window<const D: usize, O: Sink, V: Ledger>(
    tree: &PhTree<D>,
    lo: &Coords<'_>,
    hi: &Coords<'_>,
    out: &mut O,
    text: &mut Text,
    visits: &mut Steps<V>,
) -> Result<Answer, Stop>
    requires lo { length lo.now ≡ D }
    requires hi { length hi.now ≡ D }
    requires lo_range { list_all (fits tree.now.width) (numbers_of lo.now) ≡ true }
    requires hi_range { list_all (fits tree.now.width) (numbers_of hi.now) ≡ true }
    requires limit { D ≤ 16 }
    ensures lists { ListsWindow (tree_at D tree.now) (numbers_of lo.now) (numbers_of hi.now)
        (taken_by O.Sink out.old) (taken_by O.Sink out.new) visits.old visits.new result }
    ensures cause { StopHasCause (O.faults out.old) (O.faults out.new) result }
{
    let w = tree.width();
    list_between(tree, point_at(w, lo), point_at(w, hi), out, text, visits)
}

// The same by points.
pub(crate) fn list_between<const D: usize, O: Sink, V: Ledger>(
    tree: &PhTree<D>,
    lo: Point<D>,
    hi: Point<D>,
    out: &mut O,
    text: &mut Text,
    visits: &mut Steps<V>,
) -> Result<Answer, Stop>
    requires lo { IsPoint tree.now.width D lo }
    requires hi { IsPoint tree.now.width D hi }
    requires limit { D ≤ 16 }
    ensures lists { ListsWindow (tree_at D tree.now) lo.entry hi.entry (taken_by O.Sink out.old) (taken_by O.Sink out.new) visits.old visits.new result }
    ensures cause { StopHasCause (O.faults out.old) (O.faults out.new) result }
{
    // A use that makes known that there are at most so many rows.
    let _len = tree.len();
    let mut window = Window::new(tree, lo, hi);
    let mut count = 0u128;
    'rows: while let Some(row) = window.next(visits) {
        say_row(out, text, &row)?;
        count += 1;
    }
    say(out, text, &Reply::End(count))
}

/// Gives the sink the next rows of a cursor, at most `n`, and whether more are left. The cursor that it answers stands behind them. It takes no memory.
pub fn list_page<const D: usize, O: Sink, V: Ledger>(
    tree: &PhTree<D>,
    cursor: &Cursor<D>,
    n: u32,
    out: &mut O,
    text: &mut Text,
    visits: &mut Steps<V>,
) -> Result<Cursor<D>, Stop>
    requires lo { IsPoint tree.now.width D cursor.now.lo }
    requires hi { IsPoint tree.now.width D cursor.now.hi }
    requires last { IsLast tree.now.width D cursor.now.last }
    requires limit { D ≤ 16 }
    ensures lists { ListsPage (tree_at D tree.now) cursor.now n (taken_by O.Sink out.old) (taken_by O.Sink out.new) visits.old visits.new result }
    ensures cause { StopHasCause (O.faults out.old) (O.faults out.new) result }
{
    // A use that makes known that the rows are those of a table.
    let _root = tree.root();
    let mut page = cursor.page(tree, n, visits);
    let mut count = 0u32;
    'rows: while let Some(row) = page.next(visits) {
        say_row(out, text, &row)?;
        count += 1;
    }
    let behind = page.cursor();
    say(out, text, &page_end(page.tail(visits), count))?;
    Ok(behind)
}

// The last line of a page that has listed so many rows.
fn page_end(tail: Tail, count: u32) -> Reply
    ensures { reply_of result ≡ page_end (is_more tail) count }
{
    match tail {
        Tail::More => Reply::More(count),
        Tail::End => Reply::End(u128::from(count)),
    }
}
