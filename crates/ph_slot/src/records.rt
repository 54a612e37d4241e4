//! Commands on files of records: rows as comma-separated fields, a line each.
ghost use Rattle.std.specs.Prelude.{◌≡◌, ◌≤◌, false};
ghost use Rattle.ph_script.specs.Meaning.{reply_of};
ghost use Rattle.ph_commands.specs.Tables.{SameFrame, table_at};
ghost use Rattle.ph_slot.specs.Desks.{SameDesk, aside_at};
ghost use Rattle.ph_slot.specs.Recording.{TableExported, TableImported};
ghost use Rattle.ph_slot.specs.Told.{aside_by};

use crate::desk::Desk;
use crate::filing::fetch_reply;
use ph_commands::{export_tree, import_text};
use ph_coord::Kind;
use ph_io::{Failed, Files, Sink};
use ph_script::{FileName, Reply};
use ph_steps::Steps;
use ph_tree::NoMemory;
use ph_undo::Kept;
use std::sync::ledger::Ledger;

// Puts the rows of a file into a tree, once all of them are read and it has room for them.
pub(crate) fn import_table<const D: usize, O: Sink, F: Files, V: Ledger, C: Ledger>(
    kept: &mut Kept<D>,
    kind: Kind,
    file: &FileName<'_>,
    header: bool,
    desk: &mut Desk<'_, O, F, V, C>,
) -> Result<Reply, NoMemory>
    requires { D ≤ 16 }
    ensures frame { SameFrame kind (table_at D kept.old) (table_at D kept.new) }
    ensures imported { TableImported desk.old.limits.now.file_bytes kind (table_at D kept.old) file.now header
        (aside_at F.Files desk.old) (aside_at F.Files desk.new) (table_at D kept.new) result }
    ensures begun { F.is_begun desk.new.files.now ≡ F.is_begun desk.old.files.now }
    ensures out { desk.new.out.now ≡ desk.old.out.now }
    ensures same { SameDesk desk.old desk.new }
{
    let mut bytes = Vec::new(desk.alloc);
    match desk
        .files
        .fetch(file.as_str(), desk.limits.file_bytes, &mut bytes)
    {
        Ok(()) => import_text(
            kept,
            desk.alloc,
            bytes.as_slice(),
            kind,
            header,
            desk.visits,
            desk.changes,
        ),
        Err(fault) => fetch_reply(fault),
    }
}

// Writes the rows of a tree to a file of this name, in place of one that has it.
pub(crate) fn export_table<const D: usize, F: Files, V: Ledger>(
    kept: &Kept<D>,
    file: &FileName<'_>,
    files: &mut F,
    visits: &mut Steps<V>,
) -> Reply
    requires { D ≤ 16 }
    ensures exported { TableExported (table_at D kept.now) file.now
        (aside_by F.Files files.old visits.old 0)
        (aside_by F.Files files.new visits.new 0)
        (reply_of result) }
    ensures begun { F.is_begun files.new ≡ false }
{
    let tree = kept.tree();
    match export_tree(tree, file, files, visits) {
        Ok(()) => Reply::Exported(tree.len()),
        Err(Failed) => Reply::ErrorFile,
    }
}
