//! Commands on files: a table as a snapshot, and back.
ghost use Rattle.std.specs.Prelude.{◌≡◌, ◌≤◌, true, false, length, IfOk};
ghost use Rattle.ph_snap.specs.Saving.{VisitsAll};
ghost use Rattle.ph_script.specs.Meaning.{reply_of};
ghost use Rattle.ph_slot.specs.Desks.{SameDesk, aside_at};
ghost use Rattle.ph_slot.specs.Drafting.{FilledOr};
ghost use Rattle.ph_slot.specs.Filing.{EnteredOr, LoadsNodes, LoadsOr, TableLoaded, TableSaved, TellsFault, TellsUnfetched, loaded_reply};
ghost use Rattle.ph_slot.specs.Filing.{loaded_table};
ghost use Rattle.ph_commands.specs.Tables.{SameFrame, IsOfKind, table_at};
ghost use Rattle.ph_commands.specs.Loading.{IsWithinBytes};
ghost use Rattle.ph_slot.specs.Told.{aside_by};
ghost use Rattle.ph_commands.specs.Listing.{node_count};
ghost use Rattle.ph_commands.specs.Saving.{snap_of};
ghost use Rattle.ph_commands.specs.Told.{shelf_by};

use crate::desk::Desk;
use crate::file_sink::FileSink;
use ph_commands::{load_kept, save_tree, take_rows};
use ph_coord::Kind;
use ph_io::{Failed, FetchFault, Files, Sink};
use ph_script::{FileName, Reply};
use ph_snap::LoadFault;
use ph_steps::Steps;
use ph_tree::NoMemory;
use ph_undo::Kept;
use std::alloc::Global;
use std::sync::ledger::Ledger;

// Saves the rows of a tree under a name, in place of a file that has it.
pub(crate) fn save_table<const D: usize, F: Files, V: Ledger>(
    kept: &Kept<D>,
    kind: Kind,
    file: &FileName<'_>,
    files: &mut F,
    visits: &mut Steps<V>,
) -> Reply
    ensures saved { TableSaved kind (table_at D kept.now) file.now
        (aside_by F.Files files.old visits.old 0)
        (aside_by F.Files files.new visits.new 0)
        (reply_of result) }
    ensures begun { F.is_begun files.new ≡ false }
{
    match save_file(kept, kind, file, files, visits) {
        Ok(count) => Reply::Saved(count),
        Err(Failed) => Reply::ErrorFile,
    }
}

// Writes the snapshot of a tree to a file of this name, and tells how many bytes it has. Where the files fail, one of the name stays as it was.
fn save_file<const D: usize, F: Files, V: Ledger>(
    kept: &Kept<D>,
    kind: Kind,
    file: &FileName<'_>,
    files: &mut F,
    visits: &mut Steps<V>,
) -> Result<u128, Failed>
    ensures entered { EnteredOr (shelf_by F.Files files.old) (shelf_by F.Files files.new) file.now (snap_of kind (table_at D kept.now)) result }
    ensures visits { VisitsAll (node_count (table_at D kept.now)) visits.old visits.new result }
{
    files.begin(file.as_str())?;
    let count = append_tree(kept, kind, files, visits)?;
    files.finish()?;
    Ok(count)
}

// Appends the snapshot of a tree to the file that is begun.
fn append_tree<const D: usize, F: Files, V: Ledger>(
    kept: &Kept<D>,
    kind: Kind,
    files: &mut F,
    visits: &mut Steps<V>,
) -> Result<u128, Failed>
    requires begun { F.is_begun files.old ≡ true }
    ensures filled { FilledOr (shelf_by F.Files files.old) (shelf_by F.Files files.new) (snap_of kind (table_at D kept.now)) result }
    ensures count { IfOk result (λ n. n ≡ length (snap_of kind (table_at D kept.now))) }
    ensures visits { VisitsAll (node_count (table_at D kept.now)) visits.old visits.new result }
{
    let mut sink = FileSink::new(files);
    match save_tree(kept.tree(), kind, &mut sink, visits) {
        Ok(count) => { if sink.works { Ok(count) } else { Err(Failed) } }
        Err(Failed) => Err(Failed),
    }
}

// Puts the rows of a snapshot in place of those of a tree, once all of them are there.
pub(crate) fn load_table<const D: usize, O: Sink, F: Files, V: Ledger, C: Ledger>(
    kept: &mut Kept<D>,
    kind: Kind,
    file: &FileName<'_>,
    desk: &mut Desk<'_, O, F, V, C>,
) -> Result<Reply, NoMemory>
    requires some { 1 ≤ D }
    requires limit { D ≤ 16 }
    requires of_kind { IsOfKind kind (table_at D kept.old) }
    ensures frame { SameFrame kind (table_at D kept.old) (table_at D kept.new) }
    ensures loaded { TableLoaded desk.old.limits.now.file_bytes kind (table_at D kept.old) file.now
        (aside_at F.Files desk.old) (aside_at F.Files desk.new) (table_at D kept.new) result }
    ensures begun { F.is_begun desk.new.files.now ≡ F.is_begun desk.old.files.now }
    ensures unseen { desk.new.visits.now ≡ desk.old.visits.now }
    ensures out { desk.new.out.now ≡ desk.old.out.now }
    ensures same { SameDesk desk.old desk.new }
{
    let mut bytes = Vec::new(desk.alloc);
    match desk
        .files
        .fetch(file.as_str(), desk.limits.file_bytes, &mut bytes)
    {
        Ok(()) => load_bytes(kept, kind, desk.alloc, bytes.as_slice(), desk.changes),
        Err(fault) => fetch_reply(fault),
    }
}

/// What is replied where a file could not be read. Want of memory has no reply.
pub fn fetch_reply(fault: FetchFault) -> Result<Reply, NoMemory>
    ensures { TellsUnfetched fault result }
{
    match fault {
        FetchFault::Failed | FetchFault::Absent | FetchFault::Over => Ok(Reply::ErrorFile),
        FetchFault::NoMemory => Err(NoMemory),
    }
}

fn load_bytes<const D: usize, C: Ledger>(
    kept: &mut Kept<D>,
    kind: Kind,
    alloc: Global,
    bytes: &[u8],
    changes: &mut Steps<C>,
) -> Result<Reply, NoMemory>
    requires some { 1 ≤ D }
    requires limit { D ≤ 16 }
    requires of_kind { IsOfKind kind (table_at D kept.old) }
    ensures loads { LoadsOr kind (table_at D kept.old) bytes.now (table_at D kept.new) result }
    ensures frame { SameFrame kind (table_at D kept.old) (table_at D kept.new) }
    ensures within { IsWithinBytes bytes.now changes.old changes.new }
    ensures nodes { LoadsNodes kind (table_at D kept.old) bytes.now result changes.old changes.new }
{
    match load_kept(alloc, bytes, kind, kept.tree().width(), changes) {
        Ok(loaded) => Ok(replace(kept, loaded)),
        Err(fault) => fault_reply(fault),
    }
}

// Puts a tree in place of another one, if it may have so many rows.
fn replace<const D: usize>(kept: &mut Kept<D>, loaded: Kept<D>) -> Reply
    requires { loaded.width ≡ kept.old.width }
    ensures table { table_at D kept.new ≡ loaded_table (table_at D kept.old) loaded.entry.table }
    ensures reply { reply_of result ≡ loaded_reply kept.old.max loaded.entry.table }
{
    let rows = loaded.tree().len();
    if rows > kept.tree().max() {
        drop(loaded);
        return Reply::ErrorFull;
    }
    take_rows(kept, loaded);
    Reply::Loaded(rows)
}

/// What is replied to a fault of a snapshot's bytes. Want of memory has no reply.
pub fn fault_reply(fault: LoadFault) -> Result<Reply, NoMemory>
    ensures { TellsFault fault result }
{
    match fault {
        LoadFault::Magic => Ok(Reply::BadMagic),
        LoadFault::Header(at) => Ok(Reply::BadHeader(at)),
        LoadFault::Dims => Ok(Reply::BadDims),
        LoadFault::Short(at) => Ok(Reply::BadShort(at)),
        LoadFault::Node(at) => Ok(Reply::BadNode(at)),
        LoadFault::Extra(at) => Ok(Reply::BadExtra(at)),
        LoadFault::NoMemory => Err(NoMemory),
    }
}
