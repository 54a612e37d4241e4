//! Commands whose replies list rows with their distances from a point.
ghost use Rattle.std.specs.Prelude.{◌≡◌, ◌≤◌, true, length};
ghost use Rattle.std.specs.List.{list_all};
ghost use Rattle.ph_specs.specs.TableNames.{fits};
ghost use Rattle.ph_script.specs.Meaning.{numbers_of};
ghost use Rattle.ph_commands.specs.Listing.{hit_replies, Lists, ListsNear, ListsBall};
ghost use Rattle.ph_commands.specs.Tables.{tree_at};
ghost use Rattle.ph_commands.specs.Telling.{StopHasCause};
ghost use Rattle.ph_commands.specs.Told.{taken_by};

use crate::answer::{Answer, Stop};
use crate::commands::point_at;
use crate::output::{say, say_hit};
use ph_io::Sink;
use ph_near::{Ball, Hit, nearest};
use ph_script::{Coords, Reply, Text};
use ph_steps::Steps;
use ph_tree::PhTree;
use std::alloc::Global;
use std::sync::ledger::Ledger;

/// Gives the sink the rows nearest to a point, at most `n`, with their distances, and then their number. All are found before the first is given,
/// and take memory until then; without it nothing is given.
pub fn list_near<const D: usize, O: Sink, V: Ledger>(
    tree: &PhTree<D>,
    alloc: Global,
    q: &Coords<'_>,
    n: u32,
    out: &mut O,
    text: &mut Text,
    visits: &mut Steps<V>,
) -> Result<Answer, Stop>
    requires dims { length q.now ≡ D }
    requires range { list_all (fits tree.now.width) (numbers_of q.now) ≡ true }
    requires limit { D ≤ 16 }
    ensures lists { ListsNear (tree_at D tree.now) (numbers_of q.now) n (taken_by O.Sink out.old) (taken_by O.Sink out.new) visits.old visits.new result }
    ensures cause { StopHasCause (O.faults out.old) (O.faults out.new) result }
{
    let Ok(hits) = nearest(alloc, tree, point_at(tree.width(), q), n, visits) else {
        return Err(Stop::NoMemory);
    };
    list_hits(hits.as_slice(), out, text)
}

fn list_hits<const D: usize, O: Sink>(
    hits: &[Hit<D>],
    out: &mut O,
    text: &mut Text,
) -> Result<Answer, Stop>
    requires limit { D ≤ 16 }
    ensures lists { Lists (hit_replies hits.now) 0 0 (taken_by O.Sink out.old) (taken_by O.Sink out.new) 0 0 result }
    ensures cause { StopHasCause (O.faults out.old) (O.faults out.new) result }
{
    for hit in hits {
        say_hit(out, text, hit)?;
    }
    say(out, text, &Reply::End(hits.len() as u128))
}

/// Gives the sink the rows whose distance from a point, squared, is at most `r`, and then their number. It takes no memory.
pub fn list_ball<const D: usize, O: Sink, V: Ledger>(
    tree: &PhTree<D>,
    q: &Coords<'_>,
    r: u128,
    out: &mut O,
    text: &mut Text,
    visits: &mut Steps<V>,
) -> Result<Answer, Stop>
    requires dims { length q.now ≡ D }
    requires range { list_all (fits tree.now.width) (numbers_of q.now) ≡ true }
    requires limit { D ≤ 16 }
    ensures lists { ListsBall (tree_at D tree.now) (numbers_of q.now) r (taken_by O.Sink out.old) (taken_by O.Sink out.new) visits.old visits.new result }
    ensures cause { StopHasCause (O.faults out.old) (O.faults out.new) result }
{
    // A use that makes known that there are at most so many rows.
    let _len = tree.len();
    let mut ball = Ball::new(tree, point_at(tree.width(), q), r);
    let mut count = 0u128;
    'hits: while let Some(hit) = ball.next(visits) {
        say_hit(out, text, &hit)?;
        count += 1;
    }
    say(out, text, &Reply::End(count))
}
