//! A table of so many dimensions with what belongs to it, and what a command does to it.
ghost use Rattle.std.specs.Prelude.{IfOk, IfErr, ◌≡◌, ◌<◌, ◌≤◌, ◌+◌, ◌^◌, ◌%◌, None, true, false, not, ◌&&◌, nat_le, length, option_map};
ghost use Rattle.ph_specs.specs.Command.Command.{Back as AskBack, Cursor as AskCursor, Page as AskPage};
ghost use Rattle.ph_specs.specs.ProgramNames.{has_name, lacks_cursor, has_too_many_cursors};
ghost use Rattle.ph_specs.specs.State.{empty_slot};
ghost use Rattle.ph_specs.specs.RecordNames.{load_fault, stats};
ghost use Rattle.ph_specs.specs.declared.Kind.TheVariants.{Boxes};
ghost use Rattle.ph_script.specs.Meaning.{command_of, numbers_of, reply_of};
ghost use Rattle.ph_script.specs.Fit.{HasDims};
ghost use Rattle.ph_tree.specs.Stats.{stats_of};
ghost use Rattle.ph_slot.specs.AnySlots.{IsFrameOf, IsLoadedSlot};
ghost use Rattle.ph_commands.specs.Loading.{IsWithinBytes};
ghost use Rattle.ph_snap.specs.Faults.{IsLoadFault};
ghost use Rattle.ph_slot.specs.Asking.{asking};
ghost use Rattle.ph_slot.specs.Causes.{refusal_reply};
ghost use Rattle.ph_slot.specs.Desks.{SameDesk, aside_at, beside_at};
ghost use Rattle.ph_slot.specs.Doing.{Begun, DoneWith, DoneOr, LeavesBegun, is_begin, is_on_row, is_on_slot, is_sure, is_tried, is_listed};
ghost use Rattle.ph_slot.specs.Filing.{FiledOr, QuietOr, Replies};
ghost use Rattle.ph_slot.specs.Refusing.{early_refusal, cursor_refusal};
ghost use Rattle.ph_commands.specs.Tables.{engine_of};
ghost use Rattle.ph_commands.specs.Telling.{StopHasCause};
ghost use Rattle.ph_commands.specs.Working.{nodes_of};
ghost use Rattle.ph_slot.specs.Told.{aside_by};
ghost use Rattle.ph_commands.specs.Told.{taken_by};

use crate::cursors::{CURSORS, Held, enter, place_of};
use crate::desk::Desk;
use crate::filing::{load_table, save_table};
use crate::frame::Frame;
use crate::records::{export_table, import_table};
use crate::refusals::{Refusal, has_wrong_kind, is_out_of_range, is_reversed};
use arrayvec::ArrayVec;
use ph_box::Question;
use ph_commands::{
    Answer, Stop, back_edits, clear_rows, count_rows, cursor_at, keep_edits, list_ball, list_boxes,
    list_near, list_page, list_sizes, list_window, say, tell, tree_sizes,
};
use ph_coord::{Kind, Width};
use ph_io::{Files, Sink};
use ph_script::{Command, Coords, Name, Reply, Text};
use ph_snap::{LoadFault, load};
use ph_steps::Steps;
use ph_tree::{NoMemory, PhTree, Stats};
use ph_undo::Kept;
use std::alloc::Global;
use std::marker::Model;
use std::sync::ledger::Ledger;

mod both;
mod rows;

/// A table of points or boxes, as a tree with its last edits, and its cursors in the order of their names. Points have `D` dimensions, 1 to 16,
/// boxes half as many, and each coordinate has 1 to 62 bits.
#[derive(Drop)]
pub struct SlotOf<const D: usize> {
    kind: Kind,
    kept: Kept<D>,
    cursors: ArrayVec<Held<D>, CURSORS>,
}

impl<const D: usize> Model for SlotOf<D> {
    ghost use Rattle.ph_specs.specs.ProgramNames.{Slot as State};
    ghost use Rattle.ph_commands.specs.Tables.{table_at, slot_of};
    ghost use Rattle.ph_slot.specs.Slots.{named, IsSlot};

    ghost Value = { State };

    ghost view = { λ s. slot_of s.kind (table_at D s.kept) (named s.cursors.items) };

    ghost invariant = { λ s. IsSlot s.kind (table_at D s.kept) s.cursors.items };
}

impl<const D: usize> SlotOf<D> {
    // An empty table for at most so many rows, without cursors. It takes no memory. It is a call of its own, since it fills the places
    // of sixteen cursors.
    #[inline(never)]
    pub(crate) fn new(alloc: Global, kind: Kind, w: Width, max: u64) -> SlotOf<D>
        requires some { 1 ≤ D }
        requires limit { D ≤ 16 }
        requires even { kind ≡ Boxes → D % 2 ≡ 0 }
        ensures { result ≡ empty_slot kind D w max }
    {
        SlotOf {
            kind,
            kept: Kept::new(PhTree::new(alloc, w, max)),
            cursors: ArrayVec::new(),
        }
    }

    // The table of which the bytes are the snapshot, for any number of rows, without cursors. It is a call of its own as `new` is.
    #[inline(never)]
    pub(crate) fn of_snapshot<C: Ledger>(
        alloc: Global,
        bytes: &[u8],
        kind: Kind,
        w: Width,
        changes: &mut Steps<C>,
    ) -> Result<SlotOf<D>, LoadFault>
        requires some { 1 ≤ D }
        requires limit { D ≤ 16 }
        ensures loaded { IfOk result (λ s. IsLoadedSlot kind D w bytes.now s changes.old changes.new) }
        ensures fault { IfErr result (λ e. IsLoadFault (load_fault kind D w bytes.now) e) }
        ensures within { IsWithinBytes bytes.now changes.old changes.new }
    {
        let tree = load(alloc, bytes, kind, w, changes)?;
        Ok(SlotOf {
            kind,
            kept: Kept::new(tree),
            cursors: ArrayVec::new(),
        })
    }

    // What its rows are.
    #[inline(always)]
    pub(crate) fn frame(&self) -> Frame
        ensures frame { IsFrameOf self.now result }
        ensures known { self.now.dims ≡ D }
    {
        Frame {
            kind: self.kind,
            dims: D as u32,
            width: self.kept.tree().width(),
        }
    }

    // The sizes of its tree. Each node is visited once.
    pub(crate) fn sizes<V: Ledger>(&self, visits: &mut Steps<V>) -> Stats
        ensures sizes { stats_of result ≡ stats self.now.width self.now.dims self.now.table }
        ensures visits { visits.new ≡ visits.old + nodes_of self.now }
    {
        tree_sizes(&self.kept, visits)
    }

    // Does a command that is about this slot alone and leaves its dimensions, as in an engine whose other slot is new.
    pub(crate) fn exec<O: Sink, F: Files, V: Ledger, C: Ledger>(
        &mut self,
        cmd: &Command<'_>,
        desk: &mut Desk<'_, O, F, V, C>,
    ) -> Result<Answer, Stop>
        requires dims { HasDims self.old.dims cmd.now }
        requires file { desk.old.limits.now.file_bytes < 2 ^ 63 }
        requires slot { is_on_slot (command_of cmd.now) ≡ true }
        requires opened { is_begin (command_of cmd.now) ≡ false }
        ensures done { DoneOr desk.old.limits.now.file_bytes (engine_of self.old) (command_of cmd.now)
            (beside_at O.Sink F.Files desk.old) (beside_at O.Sink F.Files desk.new)
            (engine_of self.new) result }
        ensures cause { StopHasCause (O.faults desk.old.out.now) (O.faults desk.new.out.now) result }
        ensures begun { LeavesBegun (command_of cmd.now) (F.is_begun desk.old.files.now) (F.is_begun desk.new.files.now) }
        ensures same { SameDesk desk.old desk.new }
    {
        match cmd {
            Command::Put { at, value } => {
                let outcome = self.put(at, *value, desk.visits, desk.changes);
                tell(desk.out, &mut desk.text, &outcome)
            }
            Command::Get { at } => {
                let reply = self.get(at, desk.visits);
                say(desk.out, &mut desk.text, &reply)
            }
            Command::Del { at } => {
                let outcome = self.del(at, desk.visits, desk.changes);
                tell(desk.out, &mut desk.text, &outcome)
            }
            Command::Relocate { from, to } => {
                let outcome = self.relocate(from, to, desk.visits, desk.changes);
                tell(desk.out, &mut desk.text, &outcome)
            }
            _ => self.exec_other(cmd, desk),
        }
    }

    // The same of a command about no single row. It is a call of its own, so that the short way of the others stays short.
    #[inline(never)]
    fn exec_other<O: Sink, F: Files, V: Ledger, C: Ledger>(
        &mut self,
        cmd: &Command<'_>,
        desk: &mut Desk<'_, O, F, V, C>,
    ) -> Result<Answer, Stop>
        requires dims { HasDims self.old.dims cmd.now }
        requires file { desk.old.limits.now.file_bytes < 2 ^ 63 }
        requires slot { is_on_slot (command_of cmd.now) ≡ true }
        requires opened { is_begin (command_of cmd.now) ≡ false }
        requires other { is_on_row (command_of cmd.now) ≡ false }
        ensures done { DoneOr desk.old.limits.now.file_bytes (engine_of self.old) (command_of cmd.now)
            (beside_at O.Sink F.Files desk.old) (beside_at O.Sink F.Files desk.new)
            (engine_of self.new) result }
        ensures cause { StopHasCause (O.faults desk.old.out.now) (O.faults desk.new.out.now) result }
        ensures begun { LeavesBegun (command_of cmd.now) (F.is_begun desk.old.files.now) (F.is_begun desk.new.files.now) }
        ensures same { SameDesk desk.old desk.new }
    {
        if let Some(refusal) = self.refusal(cmd) {
            return say(desk.out, &mut desk.text, &refusal.reply());
        }
        match cmd {
            Command::Load { .. }
            | Command::Import { .. }
            | Command::Keep { .. }
            | Command::Back { .. } => {
                let outcome = self.try_reply(cmd, desk);
                tell(desk.out, &mut desk.text, &outcome)
            }
            Command::Count
            | Command::Clear
            | Command::Cursor { .. }
            | Command::Save { .. }
            | Command::Export { .. } => {
                let reply = self.reply(desk.alloc, cmd, desk.files, desk.visits);
                say(desk.out, &mut desk.text, &reply)
            }
            Command::Window { .. }
            | Command::Page { .. }
            | Command::Near { .. }
            | Command::Within { .. }
            | Command::Overlap { .. }
            | Command::Inside { .. }
            | Command::Covers { .. }
            | Command::Stats => self.list(desk.alloc, cmd, desk.out, &mut desk.text, desk.visits),
            Command::Begin { .. }
            | Command::Put { .. }
            | Command::Get { .. }
            | Command::Del { .. }
            | Command::Relocate { .. }
            | Command::Select { .. }
            | Command::Same
            | Command::Join
            | Command::Combine { .. } => { unreachable!() }
        }
    }

    // Does a command of one reply that may want memory.
    fn try_reply<O: Sink, F: Files, V: Ledger, C: Ledger>(
        &mut self,
        cmd: &Command<'_>,
        desk: &mut Desk<'_, O, F, V, C>,
    ) -> Result<Reply, NoMemory>
        requires dims { HasDims self.old.dims cmd.now }
        requires file { desk.old.limits.now.file_bytes < 2 ^ 63 }
        requires unrefused { early_refusal self.old (command_of cmd.now) ≡ None }
        requires tried { is_tried (command_of cmd.now) ≡ true }
        ensures filed { FiledOr desk.old.limits.now.file_bytes (engine_of self.old) (command_of cmd.now)
            (aside_at F.Files desk.old) (aside_at F.Files desk.new) (engine_of self.new) result }
        ensures begun { F.is_begun desk.new.files.now ≡ F.is_begun desk.old.files.now }
        ensures out { desk.new.out.now ≡ desk.old.out.now }
        ensures same { SameDesk desk.old desk.new }
    {
        match cmd {
            Command::Load { file } => load_table(&mut self.kept, self.kind, file, desk),
            Command::Import { file, header } => {
                import_table(&mut self.kept, self.kind, file, *header, desk)
            }
            Command::Keep { n } => keep_edits(&mut self.kept, desk.alloc, *n),
            Command::Back { n } => self.back(*n, desk.visits, desk.changes),
            _ => unreachable!(),
        }
    }

    // Does a command of one reply that wants no memory.
    fn reply<F: Files, V: Ledger>(
        &mut self,
        alloc: Global,
        cmd: &Command<'_>,
        files: &mut F,
        visits: &mut Steps<V>,
    ) -> Reply
        requires dims { HasDims self.old.dims cmd.now }
        requires unrefused { early_refusal self.old (command_of cmd.now) ≡ None }
        requires sure { is_sure (command_of cmd.now) ≡ true }
        ensures replies { Replies self.old (command_of cmd.now)
            (aside_by F.Files files.old visits.old 0)
            (aside_by F.Files files.new visits.new 0)
            self.new (reply_of result) }
        ensures begun { LeavesBegun (command_of cmd.now) (F.is_begun files.old) (F.is_begun files.new) }
    {
        match cmd {
            Command::Count => count_rows(&self.kept),
            Command::Clear => clear_rows(&mut self.kept, alloc),
            Command::Cursor { name, lo, hi } => self.set_cursor(name, lo, hi),
            Command::Save { file } => save_table(&self.kept, self.kind, file, files, visits),
            Command::Export { file } => export_table(&self.kept, file, files, visits),
            _ => unreachable!(),
        }
    }

    // Does a command that lists rows, or the sizes of the tree.
    fn list<O: Sink, V: Ledger>(
        &mut self,
        alloc: Global,
        cmd: &Command<'_>,
        out: &mut O,
        text: &mut Text,
        visits: &mut Steps<V>,
    ) -> Result<Answer, Stop>
        requires dims { HasDims self.old.dims cmd.now }
        requires unrefused { early_refusal self.old (command_of cmd.now) ≡ None }
        requires lists { is_listed (command_of cmd.now) ≡ true }
        ensures done { DoneWith self.old (command_of cmd.now) (taken_by O.Sink out.old) (taken_by O.Sink out.new) visits.old visits.new self.new result }
        ensures cause { StopHasCause (O.faults out.old) (O.faults out.new) result }
    {
        match cmd {
            Command::Window { lo, hi } => {
                list_window(self.kept.tree(), lo, hi, out, text, visits)
            }
            Command::Page { name, n } => self.page(name, *n, out, text, visits),
            Command::Near { q, n } => {
                list_near(self.kept.tree(), alloc, q, *n, out, text, visits)
            }
            Command::Within { q, r } => list_ball(self.kept.tree(), q, *r, out, text, visits),
            Command::Overlap { bounds } => {
                self.ask(Question::Overlap, bounds, out, text, visits)
            }
            Command::Inside { bounds } => { self.ask(Question::Inside, bounds, out, text, visits) }
            Command::Covers { bounds } => { self.ask(Question::Cover, bounds, out, text, visits) }
            Command::Stats => list_sizes(&self.kept, out, visits),
            _ => unreachable!(),
        }
    }

    // Lists the boxes that a question lists.
    fn ask<O: Sink, V: Ledger>(
        &self,
        question: Question,
        bounds: &Coords<'_>,
        out: &mut O,
        text: &mut Text,
        visits: &mut Steps<V>,
    ) -> Result<Answer, Stop>
        requires dims { length bounds.now ≡ self.now.dims }
        requires unrefused { early_refusal self.now (asking question (numbers_of bounds.now)) ≡ None }
        ensures done { DoneWith self.now (asking question (numbers_of bounds.now)) (taken_by O.Sink out.old) (taken_by O.Sink out.new)
            visits.old visits.new self.now result }
        ensures cause { StopHasCause (O.faults out.old) (O.faults out.new) result }
    {
        list_boxes(self.kept.tree(), question, bounds, out, text, visits)
    }

    // Why it refuses a command, where that is told without files: the first cause in the order of causes.
    fn refusal(&self, cmd: &Command<'_>) -> Option<Refusal>
        requires { is_begin (command_of cmd.now) ≡ false }
        ensures { option_map refusal_reply result ≡ early_refusal self.now (command_of cmd.now) }
    {
        // A use that makes known what a slot keeps.
        let _kept = &self.kept;
        if has_wrong_kind(self.kind, cmd) {
            return Some(Refusal::Kind);
        }
        if is_out_of_range(self.kept.tree().width(), cmd) {
            return Some(Refusal::Range);
        }
        if is_reversed(self.kind, cmd) {
            return Some(Refusal::Reversed);
        }
        self.cursor_refusal(cmd)
    }

    // The same of the causes that are about cursors, which come behind the others.
    fn cursor_refusal(&self, cmd: &Command<'_>) -> Option<Refusal>
        ensures { option_map refusal_reply result ≡ cursor_refusal self.now (command_of cmd.now) }
    {
        if self.lacks_cursor(cmd) {
            return Some(Refusal::Cursor);
        }
        if self.has_too_many_cursors(cmd) {
            return Some(Refusal::Cursors);
        }
        None
    }

    // Whether the command is a page of a cursor that is not there.
    fn lacks_cursor(&self, cmd: &Command<'_>) -> bool
        ensures { result ≡ lacks_cursor self.now (command_of cmd.now) }
    {
        match cmd {
            Command::Page { name, .. } => !self.has_cursor(name),
            _ => false,
        }
    }

    // Whether the command makes a cursor for which there is no room.
    fn has_too_many_cursors(&self, cmd: &Command<'_>) -> bool
        ensures { result ≡ has_too_many_cursors self.now (command_of cmd.now) }
    {
        match cmd {
            Command::Cursor { name, .. } => self.has_no_room(name),
            _ => false,
        }
    }

    fn has_no_room(&self, name: &Name) -> bool
        ensures { result ≡ (not (has_name name.now self.now.cursors) && nat_le 16 (length self.now.cursors)) }
    {
        !self.has_cursor(name) && self.cursors.len() >= CURSORS
    }

    fn has_cursor(&self, name: &Name) -> bool
        ensures { result ≡ has_name name.now self.now.cursors }
    {
        place_of(self.cursors.as_slice(), name).is_ok()
    }

    // Takes so many of its last edits back, if as many are kept.
    fn back<V: Ledger, C: Ledger>(
        &mut self,
        n: u32,
        visits: &mut Steps<V>,
        changes: &mut Steps<C>,
    ) -> Result<Reply, NoMemory>
        ensures { QuietOr (engine_of self.old) (AskBack n) visits.old visits.new changes.old changes.new (engine_of self.new) result }
    {
        if self.kept.past_len() < n {
            return Ok(Reply::ErrorPast);
        }
        back_edits(&mut self.kept, n, visits, changes)
    }

    // Makes a cursor of this name, in place of one that has it.
    fn set_cursor(&mut self, name: &Name, lo: &Coords<'_>, hi: &Coords<'_>) -> Reply
        requires lo { length lo.now ≡ self.old.dims }
        requires hi { length hi.now ≡ self.old.dims }
        requires unrefused { early_refusal self.old (AskCursor name.now (numbers_of lo.now) (numbers_of hi.now)) ≡ None }
        ensures { Begun self.old (AskCursor name.now (numbers_of lo.now) (numbers_of hi.now)) self.new (reply_of result) }
    {
        let cursor = cursor_at(self.kept.tree(), lo, hi);
        enter(
            &mut self.cursors,
            Held {
                name: *name,
                cursor,
            },
        );
        Reply::Ready
    }

    // Lists the next rows of the cursor of this name, and moves it behind them unless a write fails.
    fn page<O: Sink, V: Ledger>(
        &mut self,
        name: &Name,
        n: u32,
        out: &mut O,
        text: &mut Text,
        visits: &mut Steps<V>,
    ) -> Result<Answer, Stop>
        requires { early_refusal self.old (AskPage name.now n) ≡ None }
        ensures done { DoneWith self.old (AskPage name.now n) (taken_by O.Sink out.old) (taken_by O.Sink out.new) visits.old visits.new self.new result }
        ensures cause { StopHasCause (O.faults out.old) (O.faults out.new) result }
    {
        let Ok(i) = place_of(self.cursors.as_slice(), name) else {
            unreachable!()
        };
        let cursor = self.cursors.as_slice()[i].cursor;
        match list_page(self.kept.tree(), &cursor, n, out, text, visits) {
            Ok(cursor) => {
                enter(
                    &mut self.cursors,
                    Held {
                        name: *name,
                        cursor,
                    },
                );
                Ok(Answer::Good)
            }
            Err(stop) => Err(stop),
        }
    }
}
