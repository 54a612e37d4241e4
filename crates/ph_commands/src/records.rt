//! Rows as records of comma-separated fields: a text that is put into a tree, and a file that is written.
ghost use Rattle.std.specs.Prelude.{◌≡◌, ◌≤◌, ◌+◌, true, length, Ok, OnOk};
ghost use Rattle.std.specs.List.{AllByRecursion as Each};
ghost use Rattle.ph_specs.specs.TableNames.{IsPoint};
ghost use Rattle.ph_specs.specs.ProgramNames.{csv_rows, csv_line, csv_text};
ghost use Rattle.ph_specs.specs.WorkNames.{all_nodes};
ghost use Rattle.ph_snap.specs.Saving.{VisitsAll};
ghost use Rattle.ph_commands.specs.Tables.{table_at};
ghost use Rattle.ph_commands.specs.Recording.{import_changes, import_visits, AppendedOr, ExportedOr, ImportDone, ImportsOr, TellsRecord};
ghost use Rattle.ph_commands.specs.Told.{shelf_by};

use ph_coord::{Kind, Row};
use ph_csv::{CsvFault, read_rows, row_line};
use ph_import::{ImportFault, import_rows};
use ph_io::{Failed, Files};
use ph_script::{FileName, Reply};
use ph_steps::Steps;
use ph_tree::{NoMemory, PhTree};
use ph_undo::Kept;
use ph_window::Window;
use std::alloc::Global;
use std::sync::ledger::Ledger;

/// Puts the rows of a text into a tree, once all of them are read and it has room for them. Without memory some first rows may be in.
pub fn import_text<const D: usize, V: Ledger, C: Ledger>(
    kept: &mut Kept<D>,
    alloc: Global,
    text: &[u8],
    kind: Kind,
    header: bool,
    visits: &mut Steps<V>,
    changes: &mut Steps<C>,
) -> Result<Reply, NoMemory>
    requires { D ≤ 16 }
    ensures { ImportDone kind (table_at D kept.old) (csv_rows kept.old.width D kind header text.now) (table_at D kept.new)
        visits.old visits.new changes.old changes.new result }
{
    match read_rows(alloc, text, kept.tree().width(), kind, header) {
        Ok(rows) => put_read(kept, alloc, rows, visits, changes),
        Err(fault) => record_reply(fault),
    }
}

// Puts rows into a tree, if it has room for all of them.
fn put_read<const D: usize, V: Ledger, C: Ledger>(
    kept: &mut Kept<D>,
    alloc: Global,
    rows: Vec<Row<D>>,
    visits: &mut Steps<V>,
    changes: &mut Steps<C>,
) -> Result<Reply, NoMemory>
    requires { Each (λ r. IsPoint kept.old.width D r.point) rows.items }
    ensures imports { ImportsOr (table_at D kept.old) (Ok rows.entry.items) (table_at D kept.new) result }
    ensures later { visits.old ≤ visits.new }
    ensures few { visits.new ≤ visits.old + import_visits (table_at D kept.old) (Ok rows.entry.items) }
    ensures grown { changes.old ≤ changes.new }
    ensures changes { changes.new ≤ changes.old + import_changes (table_at D kept.old) (Ok rows.entry.items) }
{
    let count = rows.len() as u64;
    match import_rows(alloc, kept, rows, visits, changes) {
        Ok(()) => Ok(Reply::Imported(count)),
        Err(ImportFault::Full) => Ok(Reply::ErrorFull),
        Err(ImportFault::NoMemory) => Err(NoMemory),
    }
}

// What is replied to a fault of a text.
fn record_reply(fault: CsvFault) -> Result<Reply, NoMemory>
    ensures { TellsRecord fault result }
{
    match fault {
        CsvFault::Fields(n) => Ok(Reply::BadFields(n)),
        CsvFault::Number(n) => Ok(Reply::BadNumber(n)),
        CsvFault::Range(n) => Ok(Reply::BadRange(n)),
        CsvFault::Reversed(n) => Ok(Reply::BadReversed(n)),
        CsvFault::NoMemory => Err(NoMemory),
    }
}

/// Writes the rows of a tree to a file of this name, in place of one that has it. Where the files fail, one of the name stays as it was.
pub fn export_tree<const D: usize, F: Files, V: Ledger>(
    tree: &PhTree<D>,
    file: &FileName<'_>,
    files: &mut F,
    visits: &mut Steps<V>,
) -> Result<(), Failed>
    requires { D ≤ 16 }
    ensures exported { ExportedOr (shelf_by F.Files files.old) (shelf_by F.Files files.new) file.now (csv_text tree.now.table) result }
    ensures visits { VisitsAll (length (all_nodes tree.now.width D tree.now.table)) visits.old visits.new result }
{
    files.begin(file.as_str())?;
    append_rows(tree, files, visits)?;
    files.finish()?;
    Ok(())
}

// Appends the lines of all rows to the file that is begun.
fn append_rows<const D: usize, F: Files, V: Ledger>(
    tree: &PhTree<D>,
    files: &mut F,
    visits: &mut Steps<V>,
) -> Result<(), Failed>
    requires limit { D ≤ 16 }
    requires begun { F.is_begun files.old ≡ true }
    ensures appended { AppendedOr (shelf_by F.Files files.old) (shelf_by F.Files files.new) (csv_text tree.now.table) result }
    ensures later { visits.old ≤ visits.new }
    ensures few { visits.new ≤ visits.old + length (all_nodes tree.now.width D tree.now.table) }
    ensures all { OnOk result (visits.new ≡ visits.old + length (all_nodes tree.now.width D tree.now.table)) }
{
    let mut window = Window::whole(tree);
    'rows: while let Some(row) = window.next(visits) {
        append_row(&row, files)?;
    }
    Ok(())
}

// Appends the line of a row to the file that is begun.
fn append_row<const D: usize, F: Files>(row: &Row<D>, files: &mut F) -> Result<(), Failed>
    requires limit { D ≤ 16 }
    requires begun { F.is_begun files.old ≡ true }
    ensures { AppendedOr (shelf_by F.Files files.old) (shelf_by F.Files files.new) (csv_line row.now) result }
{
    files.append(row_line(row).as_str().as_bytes())
}
