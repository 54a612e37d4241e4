//! Runs of generated commands, with a line about what they leave.
ghost use Rattle.std.specs.Prelude.{◌≡◌, ◌<◌, ◌≤◌, ◌++◌, ◌∷◌, [], ◌^◌, None, Some, OnOk, codes, decimal};
ghost use Rattle.ph_io.specs.Causes.{Rose};
ghost use Rattle.ph_specs.specs.ProgramNames.{line_of, stats_words};
ghost use Rattle.ph_specs.specs.declared.Which.TheVariants.{A};
ghost use Rattle.ph_tree.specs.Stats.{stats_of};
ghost use Rattle.ph_slot.specs.Beside.{beside};
ghost use Rattle.ph_slot.specs.Desks.{SameDesk};
ghost use Rattle.ph_engine.specs.Soaking.{AreDrawn, SoakDone, SoakedOr};
ghost use Rattle.ph_slot.specs.Told.{alone_by};

use crate::engine::Engine;
use crate::status::Status;
use arrayvec::ArrayString;
use itoa::Buffer;
use ph_commands::{LINE_BYTES, Stop, push_count, push_sizes};
use ph_io::{CleanFiles, CountSink, Failed, Files, Sink, write_piece};
use ph_script::{CoordBuffer, Gen, Which};
use ph_slot::Desk;
use ph_tree::{NoMemory, Stats};
use std::sync::ledger::Ledger;

// Does so many generated commands on a new table of points in slot `a`, and writes a line with its sizes and the number of bytes
// of all replies.
//
// Without memory nothing is written, and some first commands are done.
pub(crate) fn soak<O: Sink, F: Files, V: Ledger, C: Ledger>(
    n: u32,
    start: u64,
    desk: &mut Desk<'_, O, F, V, C>,
    eng: &mut Engine,
) -> Status
    requires { desk.old.limits.now.file_bytes < 2 ^ 63 }
    ensures done { SoakDone desk.old.limits.now.file_bytes n start eng.old eng.new
        (alone_by O.Sink desk.old.out.now desk.old.visits.now desk.old.changes.now)
        (alone_by O.Sink desk.new.out.now desk.new.visits.now desk.new.changes.now)
        result }
    ensures later { O.faults desk.old.out.now ≤ O.faults desk.new.out.now }
    ensures cause { result ≡ Status.WriteFault → Rose (O.faults desk.old.out.now) (O.faults desk.new.out.now) }
    ensures files { desk.new.files.now ≡ desk.old.files.now }
    ensures same { SameDesk desk.old desk.new }
{
    eng.open_points(desk.alloc);
    let mut replies = CountSink::new();
    let commands = Gen::new(n, start);
    let Ok(()) = exec_all(commands, &mut replies, desk, eng) else {
        return Status::Memory;
    };
    let sizes = eng.slot(Which::A).sizes(desk.visits);
    let line = soak_line(n, &sizes, replies.taken());
    match write_piece(desk.out, line.as_str().as_bytes()) {
        Ok(()) => Status::Clean,
        Err(Failed) => Status::WriteFault,
    }
}

// Does commands one after another over no files, and gives their replies to a sink. Of the desk the counters alone are touched.
fn exec_all<O: Sink, F: Files, V: Ledger, C: Ledger>(
    commands: Gen,
    replies: &mut CountSink,
    desk: &mut Desk<'_, O, F, V, C>,
    eng: &mut Engine,
) -> Result<(), NoMemory>
    requires file { desk.old.limits.now.file_bytes < 2 ^ 63 }
    requires first { eng.old.current ≡ A }
    requires two { eng.old.a.dims ≡ 2 }
    requires drawn { AreDrawn commands }
    ensures soaked { SoakedOr desk.old.limits.now.file_bytes eng.old commands
        (beside None (Some replies.old) None 0 desk.old.visits.now desk.old.changes.now)
        (beside None (Some replies.new) None 0 desk.new.visits.now desk.new.changes.now)
        eng.new result }
    ensures two { OnOk result (eng.new.a.dims ≡ 2) }
    ensures out { desk.new.out.now ≡ desk.old.out.now }
    ensures files { desk.new.files.now ≡ desk.old.files.now }
    ensures same { SameDesk desk.old desk.new }
{
    let mut files = CleanFiles::new();
    exec_each(
        commands,
        &mut Desk::new(
            desk.alloc,
            replies,
            &mut files,
            desk.limits,
            desk.visits,
            desk.changes,
        ),
        eng,
    )
}

// The same by a desk of these replies.
fn exec_each<V: Ledger, C: Ledger>(
    mut commands: Gen,
    desk: &mut Desk<'_, CountSink, CleanFiles, V, C>,
    eng: &mut Engine,
) -> Result<(), NoMemory>
    requires file { desk.old.limits.now.file_bytes < 2 ^ 63 }
    requires first { eng.old.current ≡ A }
    requires two { eng.old.a.dims ≡ 2 }
    requires drawn { AreDrawn commands }
    ensures soaked { SoakedOr desk.old.limits.now.file_bytes eng.old commands
        (beside None (Some desk.old.out.now) None 0 desk.old.visits.now desk.old.changes.now)
        (beside None (Some desk.new.out.now) None 0 desk.new.visits.now desk.new.changes.now)
        eng.new result }
    ensures two { OnOk result (eng.new.a.dims ≡ 2) }
    ensures same { SameDesk desk.old desk.new }
{
    let mut coords = CoordBuffer::new();
    'commands: while let Some(command) = commands.next(&mut coords) {
        match eng.exec_drawn(&command, desk) {
            Ok(_) => {}
            Err(Stop::NoMemory) => return Err(NoMemory),
            Err(Stop::WriteFault) => unreachable!(),
        }
    }
    Ok(())
}

// The line about so many commands.
fn soak_line(n: u32, sizes: &Stats, bytes: u64) -> ArrayString<LINE_BYTES>
    ensures { result.bytes ≡ line_of (codes "soak" ∷ decimal n ∷ stats_words (stats_of sizes.now) ++ codes "bytes" ∷ decimal bytes ∷ []) }
{
    let mut line = ArrayString::new();
    push_count(&mut line, "soak", n);
    push_sizes(&mut line, sizes);
    line.push_str(" bytes ");
    let mut buffer = Buffer::new();
    line.push_str(buffer.format(bytes));
    line.push_str("\n");
    line
}
