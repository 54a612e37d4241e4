//! Replies, and the sink that takes their texts.
ghost use Rattle.std.specs.Prelude.{◌≡◌, ◌≤◌, IfOk, IfErr, OnOk, OnErr};
ghost use Rattle.ph_io.specs.Giving.{Given};
ghost use Rattle.ph_specs.specs.ProgramNames.{Reply as Replied, reply_text as text_of};
ghost use Rattle.ph_script.specs.Meaning.{reply_of};
ghost use Rattle.ph_commands.specs.Telling.{is_refusal, refuses, StopHasCause, ToldOr};
ghost use Rattle.ph_commands.specs.Listing.{hit_said};
ghost use Rattle.ph_io.specs.Writing.{WritesFront};
ghost use Rattle.ph_commands.specs.Told.{taken_by};

use crate::answer::{Answer, Stop};
use ph_coord::Row;
use ph_io::{Failed, Sink, write_piece};
use ph_near::Hit;
use ph_script::{Reply, Text, write_hit, write_pair, write_row, write_text};
use ph_tree::NoMemory;

fn answer_of(reply: &Reply) -> Answer
    ensures { refuses result ≡ is_refusal (text_of (reply_of reply.now)) }
{
    match reply {
        Reply::Opened
        | Reply::New
        | Reply::Old(_)
        | Reply::Value(_)
        | Reply::Absent
        | Reply::Gone(_)
        | Reply::Moved
        | Reply::Taken
        | Reply::Rows(_)
        | Reply::Cleared
        | Reply::End(_)
        | Reply::More(_)
        | Reply::Ready
        | Reply::Saved(_)
        | Reply::Loaded(_)
        | Reply::Imported(_)
        | Reply::Exported(_)
        | Reply::Using(_)
        | Reply::Same
        | Reply::Differ
        | Reply::Combined(_)
        | Reply::Keeping(_)
        | Reply::WentBack(_) => Answer::Good,
        Reply::ErrorLong
        | Reply::ErrorWord
        | Reply::ErrorCount
        | Reply::ErrorNumber
        | Reply::ErrorName
        | Reply::ErrorDims
        | Reply::ErrorKind
        | Reply::ErrorRange
        | Reply::ErrorReversed
        | Reply::ErrorCursor
        | Reply::ErrorCursors
        | Reply::ErrorFile
        | Reply::ErrorFull
        | Reply::ErrorPast
        | Reply::BadMagic
        | Reply::BadHeader(_)
        | Reply::BadDims
        | Reply::BadShort(_)
        | Reply::BadNode(_)
        | Reply::BadExtra(_)
        | Reply::BadFields(_)
        | Reply::BadNumber(_)
        | Reply::BadRange(_)
        | Reply::BadReversed(_) => Answer::Refused,
    }
}

/// Gives a reply to the sink, by way of a text that it fills. After a write fault a front of it was given.
pub fn say<O: Sink>(out: &mut O, text: &mut Text, reply: &Reply) -> Result<Answer, Stop>
    ensures answer { IfOk result (λ answer. refuses answer ≡ is_refusal (text_of (reply_of reply.now))) }
    ensures told { OnOk result (Given (taken_by O.Sink out.old) (taken_by O.Sink out.new) (text_of (reply_of reply.now))) }
    ensures err { IfErr result (λ stop. stop ≡ Stop.WriteFault) }
    ensures front { OnErr result (WritesFront (taken_by O.Sink out.old) (taken_by O.Sink out.new) (text_of (reply_of reply.now))) }
    ensures cause { StopHasCause (O.faults out.old) (O.faults out.new) result }
{
    write_text(text, reply);
    match send(out, text.as_str()) {
        Ok(()) => Ok(answer_of(reply)),
        Err(stop) => Err(stop),
    }
}

// Gives a row to the sink, as the reply that it is.
pub(crate) fn say_row<const D: usize, O: Sink>(
    out: &mut O,
    text: &mut Text,
    row: &Row<D>,
) -> Result<(), Stop>
    requires { D ≤ 16 }
    ensures told { OnOk result (Given (taken_by O.Sink out.old) (taken_by O.Sink out.new) (text_of (Replied.RowIs row.now))) }
    ensures err { IfErr result (λ stop. stop ≡ Stop.WriteFault) }
    ensures front { OnErr result (WritesFront (taken_by O.Sink out.old) (taken_by O.Sink out.new) (text_of (Replied.RowIs row.now))) }
    ensures cause { StopHasCause (O.faults out.old) (O.faults out.new) result }
{
    write_row(text, row);
    send(out, text.as_str())
}

// The same of two rows whose boxes overlap.
pub(crate) fn say_pair<const D: usize, O: Sink>(
    out: &mut O,
    text: &mut Text,
    first: &Row<D>,
    second: &Row<D>,
) -> Result<(), Stop>
    requires { D ≤ 16 }
    ensures told { OnOk result (Given (taken_by O.Sink out.old) (taken_by O.Sink out.new) (text_of (Replied.PairIs first.now second.now))) }
    ensures err { IfErr result (λ stop. stop ≡ Stop.WriteFault) }
    ensures front { OnErr result (WritesFront (taken_by O.Sink out.old) (taken_by O.Sink out.new) (text_of (Replied.PairIs first.now second.now))) }
    ensures cause { StopHasCause (O.faults out.old) (O.faults out.new) result }
{
    write_pair(text, first, second);
    send(out, text.as_str())
}

// Gives a row with its distance to the sink.
pub(crate) fn say_hit<const D: usize, O: Sink>(
    out: &mut O,
    text: &mut Text,
    hit: &Hit<D>,
) -> Result<(), Stop>
    requires { D ≤ 16 }
    ensures told { OnOk result (Given (taken_by O.Sink out.old) (taken_by O.Sink out.new) (text_of (hit_said hit.now))) }
    ensures err { IfErr result (λ stop. stop ≡ Stop.WriteFault) }
    ensures front { OnErr result (WritesFront (taken_by O.Sink out.old) (taken_by O.Sink out.new) (text_of (hit_said hit.now))) }
    ensures cause { StopHasCause (O.faults out.old) (O.faults out.new) result }
{
    write_hit(text, hit.distance, &hit.row);
    send(out, text.as_str())
}

// Gives a line to the sink.
pub(crate) fn send<O: Sink>(out: &mut O, line: &str) -> Result<(), Stop>
    ensures told { OnOk result (Given (taken_by O.Sink out.old) (taken_by O.Sink out.new) line.now) }
    ensures err { IfErr result (λ stop. stop ≡ Stop.WriteFault) }
    ensures front { OnErr result (WritesFront (taken_by O.Sink out.old) (taken_by O.Sink out.new) line.now) }
    ensures cause { StopHasCause (O.faults out.old) (O.faults out.new) result }
{
    match write_piece(out, line.as_bytes()) {
        Ok(()) => Ok(()),
        Err(Failed) => Err(Stop::WriteFault),
    }
}

/// Gives the reply to a command to the sink, or nothing where memory was missing for the command.
pub fn tell<O: Sink>(
    out: &mut O,
    text: &mut Text,
    outcome: &Result<Reply, NoMemory>,
) -> Result<Answer, Stop>
    ensures told { ToldOr (taken_by O.Sink out.old) (taken_by O.Sink out.new) outcome.now result }
    ensures cause { StopHasCause (O.faults out.old) (O.faults out.new) result }
{
    match outcome {
        Ok(reply) => say(out, text, reply),
        Err(NoMemory) => Err(Stop::NoMemory),
    }
}
