//! The check of a file that holds a saved table.
ghost use Rattle.std.specs.Prelude.{◌≡◌, ◌≤◌, ◌+◌, [], false, length, IfOk, IfErr, OnErr, Ok};
ghost use Rattle.ph_io.specs.Causes.{Rose};
ghost use Rattle.ph_specs.specs.ProgramNames.{checked_words, own_fault, words_of_snapshot, line_of};
ghost use Rattle.ph_specs.specs.RecordNames.{stats};
ghost use Rattle.ph_snap.specs.Faults.{IsLoadFault};
ghost use Rattle.ph_slot.specs.AnySlots.{any_slot};
ghost use Rattle.ph_slot.specs.Desks.{SameDesk, beside_at};
ghost use Rattle.ph_engine.specs.Checking.{CheckDone, HasSizes, IsOwnLine, LineGiven, front_of, nodes_saved, status_of};
ghost use Rattle.ph_commands.specs.Working.{nodes_of};
ghost use Rattle.ph_commands.specs.Loading.{IsWithinBytes};
ghost use Rattle.ph_commands.specs.Telling.{is_refusal, StopHasCause};
ghost use Rattle.ph_commands.specs.Told.{taken_by};

use crate::status::Status;
use arrayvec::ArrayString;
use ph_commands::{Answer, LINE_BYTES, Stop, push_count, push_sizes, tell};
use ph_coord::{Kind, Width};
use ph_io::{Failed, Files, Sink, write_piece};
use ph_script::{FileName, Text};
use ph_slot::{Desk, Slot, fault_reply, fetch_reply};
use ph_snap::{LoadFault, read_header};
use ph_steps::Steps;
use std::alloc::Global;
use std::sync::ledger::Ledger;

// Writes the line of a file: the sizes of the table of which it is the snapshot, or why it is none.
pub(crate) fn check<O: Sink, F: Files, V: Ledger, C: Ledger>(
    file: &FileName<'_>,
    desk: &mut Desk<'_, O, F, V, C>,
) -> Status
    ensures done { CheckDone desk.old.limits.now.file_bytes file.now
        (beside_at O.Sink F.Files desk.old) (beside_at O.Sink F.Files desk.new) result }
    ensures cause { result ≡ Status.WriteFault → Rose (O.faults desk.old.out.now) (O.faults desk.new.out.now) }
    ensures later { O.faults desk.old.out.now ≤ O.faults desk.new.out.now }
    ensures begun { F.is_begun desk.new.files.now ≡ F.is_begun desk.old.files.now }
    ensures same { SameDesk desk.old desk.new }
{
    let mut bytes = Vec::new(desk.alloc);
    match desk
        .files
        .fetch(file.as_str(), desk.limits.file_bytes, &mut bytes)
    {
        Ok(()) => status_by(check_bytes(
            desk.alloc,
            bytes.as_slice(),
            desk.out,
            desk.visits,
            desk.changes,
        )),
        Err(fault) => status_by(tell(desk.out, &mut desk.text, &fetch_reply(fault))),
    }
}

// The status by the answer.
fn status_by(answer: Result<Answer, Stop>) -> Status
    ensures { result ≡ status_of answer }
{
    match answer {
        Ok(Answer::Good) => Status::Clean,
        Ok(Answer::Refused) => Status::Refused,
        Err(Stop::WriteFault) => Status::WriteFault,
        Err(Stop::NoMemory) => Status::Memory,
    }
}

// Writes the line of the bytes of a file.
fn check_bytes<O: Sink, V: Ledger, C: Ledger>(
    alloc: Global,
    bytes: &[u8],
    out: &mut O,
    visits: &mut Steps<V>,
    changes: &mut Steps<C>,
) -> Result<Answer, Stop>
    ensures line { LineGiven (taken_by O.Sink out.old) (taken_by O.Sink out.new) (line_of (words_of_snapshot bytes.now)) result }
    ensures sizes { result ≡ Ok Answer.Good → HasSizes bytes.now (line_of (words_of_snapshot bytes.now)) }
    ensures visits { IsWithinBytes bytes.now visits.old visits.new }
    ensures most_visits { visits.new ≤ visits.old + nodes_saved bytes.now }
    ensures changes { IsWithinBytes bytes.now changes.old changes.new }
    ensures nodes { result ≡ Ok Answer.Good → changes.new ≤ changes.old + nodes_saved bytes.now }
    ensures cause { StopHasCause (O.faults out.old) (O.faults out.new) result }
{
    match snapshot_line(alloc, bytes, visits, changes) {
        Ok(line) => say_line(out, line.as_str()),
        Err(fault) => tell(out, &mut Text::new(), &fault_reply(fault)),
    }
}

// The line of the table of which the bytes are the snapshot, by their own header.
fn snapshot_line<V: Ledger, C: Ledger>(
    alloc: Global,
    bytes: &[u8],
    visits: &mut Steps<V>,
    changes: &mut Steps<C>,
) -> Result<ArrayString<LINE_BYTES>, LoadFault>
    ensures line { IfOk result (λ line. IsOwnLine bytes.now line.bytes visits.old visits.new changes.old changes.new) }
    ensures fault { IfErr result (λ e. IsLoadFault (own_fault bytes.now) e) }
    ensures unseen { OnErr result (visits.new ≡ visits.old) }
    ensures within { IsWithinBytes bytes.now changes.old changes.new }
{
    let header = match read_header(bytes) {
        Ok(header) => header,
        Err(fault) => return Err(fault),
    };
    let Some(w) = Width::new(header.width) else {
        unreachable!()
    };
    let slot = Slot::of_snapshot(alloc, bytes, header.kind, header.dims, w, changes)?;
    Ok(slot_line(&slot, visits))
}

// What the rows of a slot are, with their dimensions, and the sizes of its tree.
fn slot_line<V: Ledger>(slot: &Slot, visits: &mut Steps<V>) -> ArrayString<LINE_BYTES>
    ensures line { result.bytes ≡ line_of (checked_words (any_slot slot.now).kind (any_slot slot.now).dims
        (stats (any_slot slot.now).width (any_slot slot.now).dims (any_slot slot.now).table)) }
    ensures visits { visits.new ≡ visits.old + nodes_of (any_slot slot.now) }
{
    let frame = slot.frame();
    let mut line = ArrayString::new();
    push_kind(&mut line, frame.kind, frame.dims);
    push_sizes(&mut line, &slot.sizes(visits));
    line.push_str("\n");
    line
}

// Appends what rows are, and the number with which their table is opened.
fn push_kind(line: &mut ArrayString<LINE_BYTES>, kind: Kind, dims: u32)
    requires { line.old.bytes ≡ [] }
    ensures bytes { line.new.bytes ≡ front_of kind dims }
    ensures len { length line.new.bytes ≤ 18 }
{
    match kind {
        Kind::Points => push_count(line, "points", dims),
        Kind::Boxes => push_count(line, "boxes", dims / 2),
    }
}

// Gives the sink a line that refuses nothing.
fn say_line<O: Sink>(out: &mut O, line: &str) -> Result<Answer, Stop>
    requires { is_refusal line.now ≡ false }
    ensures line { LineGiven (taken_by O.Sink out.old) (taken_by O.Sink out.new) line.now result }
    ensures cause { StopHasCause (O.faults out.old) (O.faults out.new) result }
{
    match write_piece(out, line.as_bytes()) {
        Ok(()) => Ok(Answer::Good),
        Err(Failed) => Err(Stop::WriteFault),
    }
}
