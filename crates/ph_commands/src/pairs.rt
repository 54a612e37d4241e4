//! The pairs of overlapping boxes of two trees, line by line, as a join finds them.
ghost use Rattle.std.specs.Prelude.{◌≡◌, ◌%◌, ◌≤◌};
ghost use Rattle.ph_specs.specs.TableNames.{AreBoxes};
ghost use Rattle.ph_commands.specs.Pairing.{ListsPairs};
ghost use Rattle.ph_commands.specs.Tables.{tree_at};
ghost use Rattle.ph_commands.specs.Telling.{StopHasCause};
ghost use Rattle.ph_commands.specs.Told.{taken_by};

use crate::answer::{Answer, Stop};
use crate::output::{say, say_pair};
use ph_io::Sink;
use ph_join::Join;
use ph_script::{Reply, Text};
use ph_steps::Steps;
use ph_tree::PhTree;
use std::sync::ledger::Ledger;

/// Gives the sink the pairs of a box of one tree and one of another that overlap, and then their number. It takes no memory.
pub fn list_pairs<const D: usize, O: Sink, V: Ledger>(
    a: &PhTree<D>,
    b: &PhTree<D>,
    out: &mut O,
    text: &mut Text,
    visits: &mut Steps<V>,
) -> Result<Answer, Stop>
    requires even { D % 2 ≡ 0 }
    requires limit { D ≤ 16 }
    requires width { a.now.width ≡ b.now.width }
    requires firsts { AreBoxes a.now.table }
    requires seconds { AreBoxes b.now.table }
    ensures lists { ListsPairs (tree_at D a.now) (tree_at D b.now) (taken_by O.Sink out.old) (taken_by O.Sink out.new) visits.old visits.new result }
    ensures cause { StopHasCause (O.faults out.old) (O.faults out.new) result }
{
    // Uses that make known that there are at most so many rows.
    let _firsts = a.len();
    let _seconds = b.len();
    let mut join = Join::new(a, b);
    let mut count = 0u128;
    'pairs: while let Some(pair) = join.next(visits) {
        say_pair(out, text, &pair.0, &pair.1)?;
        count += 1;
    }
    say(out, text, &Reply::End(count))
}
