//! Questions about boxes, which are windows in twice as many dimensions.
ghost use Rattle.std.specs.Prelude.{◌≡◌, ◌%◌, ◌≤◌, true, length};
ghost use Rattle.std.specs.List.{list_all};
ghost use Rattle.ph_specs.specs.TableNames.{AreBoxes, fits};
ghost use Rattle.ph_script.specs.Meaning.{numbers_of};
ghost use Rattle.ph_commands.specs.Listing.{ListsBoxes};
ghost use Rattle.ph_commands.specs.Tables.{tree_at};
ghost use Rattle.ph_commands.specs.Telling.{StopHasCause};
ghost use Rattle.ph_commands.specs.Told.{taken_by};

use crate::answer::{Answer, Stop};
use crate::commands::point_at;
use crate::listing::list_between;
use ph_box::{Question, bounds};
use ph_io::Sink;
use ph_script::{Coords, Text};
use ph_steps::Steps;
use ph_tree::PhTree;
use std::sync::ledger::Ledger;

/// Gives the sink the boxes that a question lists, in a tree of boxes, and then their number. It takes no memory.
pub fn list_boxes<const D: usize, O: Sink, V: Ledger>(
    tree: &PhTree<D>,
    question: Question,
    asked: &Coords<'_>,
    out: &mut O,
    text: &mut Text,
    visits: &mut Steps<V>,
) -> Result<Answer, Stop>
    requires even { D % 2 ≡ 0 }
    requires dims { length asked.now ≡ D }
    requires range { list_all (fits tree.now.width) (numbers_of asked.now) ≡ true }
    requires boxes { AreBoxes tree.now.table }
    requires limit { D ≤ 16 }
    ensures lists { ListsBoxes question (tree_at D tree.now) (numbers_of asked.now) (taken_by O.Sink out.old) (taken_by O.Sink out.new) visits.old visits.new result }
    ensures cause { StopHasCause (O.faults out.old) (O.faults out.new) result }
{
    // A use that makes known that the rows are those of a table.
    let _root = tree.root();
    let w = tree.width();
    let (lo, hi) = bounds(question, w, &point_at(w, asked));
    list_between(tree, lo, hi, out, text, visits)
}
