//! The program as one call.
ghost use Rattle.std.specs.Prelude.{◌≡◌, ◌≢◌, ◌<◌, ◌^◌, false, map, string_bytes};
ghost use Rattle.ph_specs.specs.ProgramNames.{Task as Asked, task};
ghost use Rattle.ph_engine.specs.Ending.{TopEnds, TellsUsage};
ghost use Rattle.ph_engine.specs.Statuses.{HasWriteCause};
ghost use Rattle.ph_engine.specs.Told.{seen_by};
ghost use Rattle.ph_commands.specs.Told.{taken_by};

use crate::checking::check;
use crate::engine::Engine;
use crate::run::run;
use crate::soaking::soak;
use crate::status::Status;
use crate::task::{Task, task_of};
use ph_io::{Failed, Files, Sink, Source, write_piece};
use ph_slot::{Desk, Limits};
use ph_steps::Steps;
use std::alloc::Global;
use std::sync::ledger::Ledger;

const USAGE: &str = "usage: phq run | phq check FILE | phq soak N START\n";

/// Does all that the program does, by the words behind its name.
///
/// With the one word `run` it reads a script from the source and gives the replies to its lines to the sink, in their
/// order. Tables go to the files and come from them, as snapshots and as comma-separated rows. With `check` and the name of a file it tells
/// whether the file is a snapshot, by one line. With `soak`, a count and a start it makes slot a current and new, does so many drawn
/// commands in it and tells the sizes of its tree, by one line. Any other words get the usage line, and touch nothing else. Only a run reads
/// the source.
///
/// A run takes two buffers of about 4,096 bytes before its first read, and memory for new rows, for a file that is read and for
/// the rows in it; it takes none for a line or a reply. A check takes memory for the bytes of the file and for its table. The
/// counters rise by the visits and the changes of the tree's nodes.
pub fn top<S: Source, O: Sink, F: Files, V: Ledger, C: Ledger>(
    alloc: Global,
    words: &[String],
    src: &mut S,
    out: &mut O,
    files: &mut F,
    eng: &mut Engine,
    limits: &Limits,
    visits: &mut Steps<V>,
    changes: &mut Steps<C>,
) -> Status
    requires script { limits.now.script_bytes < 2 ^ 63 }
    requires file { limits.now.file_bytes < 2 ^ 63 }

    ensures ends { TopEnds limits.now (task (map string_bytes words.now))
        (seen_by S.Source O.Sink F.Files src.old out.old files.old visits.old changes.old eng.old)
        (seen_by S.Source O.Sink F.Files src.new out.new files.new visits.new changes.new eng.new)
        result }
    ensures source { task (map string_bytes words.now) ≢ Asked.Run → src.new ≡ src.old }
    ensures begun { F.is_begun files.old ≡ false → F.is_begun files.new ≡ false }
{
    let mut desk = Desk::new(alloc, out, files, limits, visits, changes);
    match task_of(words) {
        Task::Run => run(src, &mut desk, eng),
        Task::Check(file) => check(&file, &mut desk),
        Task::Soak { n, start } => soak(n, start, &mut desk, eng),
        Task::Usage => tell_usage(desk.out),
    }
}

// Writes the usage line.
fn tell_usage<O: Sink>(out: &mut O) -> Status
    ensures told { TellsUsage (taken_by O.Sink out.old) (taken_by O.Sink out.new) result }
    ensures cause { HasWriteCause (O.faults out.old) (O.faults out.new) result }
{
    match write_piece(out, USAGE.as_bytes()) {
        Ok(()) => Status::Usage,
        Err(Failed) => Status::WriteFault,
    }
}
