//! Lines with the sizes of a tree. A line is one piece for a sink, so it is composed in a text first.
ghost use Rattle.std.specs.Prelude.{◌≡◌, ◌≤◌, ◌+◌, ◌∷◌, [], ◌++◌, length};
ghost use Rattle.std.specs.List.{join_with_byte};
ghost use Rattle.ph_specs.specs.ProgramNames.{line_of, stats_words};
ghost use Rattle.ph_tree.specs.Stats.{stats_of};
ghost use Rattle.ph_commands.specs.Listing.{ListsSizes, node_count, sizes_at};
ghost use Rattle.ph_commands.specs.Tables.{table_at};
ghost use Rattle.ph_commands.specs.Telling.{StopHasCause};
ghost use Rattle.ph_commands.specs.Told.{taken_by};

use crate::answer::{Answer, Stop};
use crate::output::send;
use arrayvec::ArrayString;
use itoa::{Buffer, Integer};
use ph_io::Sink;
use ph_steps::Steps;
use ph_tree::Stats;
use ph_undo::Kept;
use std::sync::ledger::Ledger;

/// Room for the longest line that has the sizes of a tree, in bytes.
pub const LINE_BYTES: usize = 320;

/// Appends a word and a number, with a space behind each.
pub fn push_count<I: Integer>(line: &mut ArrayString<LINE_BYTES>, word: &str, number: I)
    requires { length line.old.bytes + length word.now + I.MAX_STR_LEN + 2 ≤ LINE_BYTES }
    ensures bytes { line.new.bytes ≡ line.old.bytes ++ word.now ++ 32 ∷ I.text number ++ 32 ∷ [] }
    ensures len { length line.new.bytes ≤ length line.old.bytes + length word.now + I.MAX_STR_LEN + 2 }
{
    line.push_str(word);
    line.push_str(" ");
    let mut buffer = Buffer::new();
    line.push_str(buffer.format(number));
    line.push_str(" ");
}

/// Appends the sizes of a tree with their words, a space between each two.
pub fn push_sizes(line: &mut ArrayString<LINE_BYTES>, sizes: &Stats)
    requires { length line.old.bytes + 228 ≤ LINE_BYTES }
    ensures bytes { line.new.bytes ≡ line.old.bytes ++ join_with_byte 32 (stats_words (stats_of sizes.now)) }
    ensures len { length line.new.bytes ≤ length line.old.bytes + 228 }
{
    push_count(line, "rows", sizes.rows);
    push_count(line, "nodes", sizes.nodes);
    push_count(line, "linear", sizes.linear);
    push_count(line, "cube", sizes.cube);
    line.push_str("words ");
    let mut buffer = Buffer::new();
    line.push_str(buffer.format(sizes.words));
}

// The line of the sizes of a tree.
fn sizes_line(sizes: &Stats) -> ArrayString<LINE_BYTES>
    ensures { result.bytes ≡ line_of (stats_words (stats_of sizes.now)) }
{
    let mut line = ArrayString::new();
    push_sizes(&mut line, sizes);
    line.push_str("\n");
    line
}

/// The sizes of a tree. Each node is visited once.
pub fn tree_sizes<const D: usize, V: Ledger>(kept: &Kept<D>, visits: &mut Steps<V>) -> Stats
    requires { D ≤ 16 }
    ensures sizes { stats_of result ≡ sizes_at (table_at D kept.now) }
    ensures visits { visits.new ≡ visits.old + node_count (table_at D kept.now) }
{
    kept.tree().stats(visits)
}

/// Gives the sizes of a tree to the sink. Each node is visited once.
pub fn list_sizes<const D: usize, O: Sink, V: Ledger>(
    kept: &Kept<D>,
    out: &mut O,
    visits: &mut Steps<V>,
) -> Result<Answer, Stop>
    requires { D ≤ 16 }
    ensures lists { ListsSizes (table_at D kept.now) (taken_by O.Sink out.old) (taken_by O.Sink out.new) visits.old visits.new result }
    ensures cause { StopHasCause (O.faults out.old) (O.faults out.new) result }
{
    let line = sizes_line(&tree_sizes(kept, visits));
    match send(out, line.as_str()) {
        Ok(()) => Ok(Answer::Good),
        Err(stop) => Err(stop),
    }
}
