//! Two slots of as many dimensions side by side.
ghost use Rattle.std.specs.Prelude.{◌≡◌, None, true, if◌then◌else◌, option_map};
ghost use Rattle.ph_specs.specs.ProgramNames.{Reply as Replied, join_refusal, points_differ};
ghost use Rattle.ph_script.specs.Meaning.{command_of, reply_of};
ghost use Rattle.ph_commands.specs.Comparing.{IsCompared};
ghost use Rattle.ph_commands.specs.Telling.{StopHasCause};
ghost use Rattle.ph_commands.specs.Told.{taken_by};
ghost use Rattle.ph_slot.specs.Causes.{refusal_reply};
ghost use Rattle.ph_slot.specs.Comparing.{Compares};
ghost use Rattle.ph_slot.specs.Desks.{SameDesk, beside_at};
ghost use Rattle.ph_slot.specs.Doing.{DoneOr, LeavesBegun, is_on_both};
ghost use Rattle.ph_slot.specs.Pairing.{CombinesSlots, JoinsBoth, JoinsSlots, SeesAll, VisitsSlots, engine_at};
ghost use Rattle.ph_slot.specs.Refusing.{frame_refusal};

use super::SlotOf;
use crate::desk::Desk;
use crate::refusals::Refusal;
use ph_commands::{Answer, Stop, are_same, combine_trees, list_pairs, say, tell};
use ph_coord::Kind;
use ph_io::{Files, Sink};
use ph_script::{Command, Reply, SetOperation, Text, Which};
use ph_set::SetFault;
use ph_steps::Steps;
use ph_tree::NoMemory;
use std::alloc::Global;
use std::sync::ledger::Ledger;

impl<const D: usize> SlotOf<D> {
    // Does a command that knows both slots, of which this one is current and has a name.
    pub(crate) fn exec_beside<O: Sink, F: Files, V: Ledger, C: Ledger>(
        &mut self,
        other: &SlotOf<D>,
        name: Which,
        cmd: &Command<'_>,
        desk: &mut Desk<'_, O, F, V, C>,
    ) -> Result<Answer, Stop>
        requires both { is_on_both (command_of cmd.now) ≡ true }
        ensures done { DoneOr desk.old.limits.now.file_bytes (engine_at name self.old other.now) (command_of cmd.now)
            (beside_at O.Sink F.Files desk.old) (beside_at O.Sink F.Files desk.new)
            (engine_at name self.new other.now) result }
        ensures cause { StopHasCause (O.faults desk.old.out.now) (O.faults desk.new.out.now) result }
        ensures begun { LeavesBegun (command_of cmd.now) (F.is_begun desk.old.files.now) (F.is_begun desk.new.files.now) }
        ensures same { SameDesk desk.old desk.new }
    {
        match cmd {
            Command::Same => {
                let reply = self.compare(other, name, desk.visits);
                say(desk.out, &mut desk.text, &reply)
            }
            Command::Join => match name {
                Which::A => self.join(other, desk.out, &mut desk.text, desk.visits),
                Which::B => other.join(self, desk.out, &mut desk.text, desk.visits),
            },
            Command::Combine { operation } => {
                let outcome = self.combine(
                    other,
                    desk.alloc,
                    *operation,
                    desk.visits,
                    desk.changes,
                );
                tell(desk.out, &mut desk.text, &outcome)
            }
            _ => unreachable!(),
        }
    }

    // Whether both slots have the same rows, of one kind and one width.
    fn compare<V: Ledger>(&self, other: &SlotOf<D>, name: Which, visits: &mut Steps<V>) -> Reply
        ensures { Compares (engine_at name self.now other.now) visits.old visits.new (reply_of result) }
    {
        match name {
            Which::A => same_reply(self.is_same(other, visits)),
            Which::B => same_reply(other.is_same(self, visits)),
        }
    }

    fn is_same<V: Ledger>(&self, other: &SlotOf<D>, visits: &mut Steps<V>) -> bool
        ensures { IsCompared self.now other.now visits.old visits.new result }
    {
        self.kind == other.kind && are_same(&self.kept, &other.kept, visits)
    }

    // Lists the pairs of one of its boxes and one of another slot that overlap, unless they cannot be joined.
    fn join<O: Sink, V: Ledger>(
        &self,
        other: &SlotOf<D>,
        out: &mut O,
        text: &mut Text,
        visits: &mut Steps<V>,
    ) -> Result<Answer, Stop>
        ensures done { JoinsBoth self.now other.now (taken_by O.Sink out.old) (taken_by O.Sink out.new) visits.old visits.new result }
        ensures cause { StopHasCause (O.faults out.old) (O.faults out.new) result }
    {
        match self.join_refusal(other) {
            Some(refusal) => say(out, text, &refusal.reply()),
            None => self.list_joined(other, out, text, visits),
        }
    }

    // The same of slots that can be.
    fn list_joined<O: Sink, V: Ledger>(
        &self,
        other: &SlotOf<D>,
        out: &mut O,
        text: &mut Text,
        visits: &mut Steps<V>,
    ) -> Result<Answer, Stop>
        requires joined { join_refusal self.now other.now ≡ None }
        ensures lists { JoinsSlots self.now other.now (taken_by O.Sink out.old) (taken_by O.Sink out.new) visits.old visits.new result }
        ensures cause { StopHasCause (O.faults out.old) (O.faults out.new) result }
    {
        list_pairs(self.kept.tree(), other.kept.tree(), out, text, visits)
    }

    // Takes the table that an operation makes of it and another slot, unless they do not go together.
    fn combine<V: Ledger, C: Ledger>(
        &mut self,
        other: &SlotOf<D>,
        alloc: Global,
        operation: SetOperation,
        visits: &mut Steps<V>,
        changes: &mut Steps<C>,
    ) -> Result<Reply, NoMemory>
        ensures combines { CombinesSlots operation self.old other.now self.new changes.old changes.new result }
        ensures visits { VisitsSlots operation self.old other.now visits.old visits.new }
        ensures all { SeesAll operation self.old other.now visits.old visits.new result }
    {
        if let Some(refusal) = self.frame_refusal(other) {
            return Ok(refusal.reply());
        }
        self.take_combined(other, alloc, operation, visits, changes)
    }

    // The same where both go together.
    fn take_combined<V: Ledger, C: Ledger>(
        &mut self,
        other: &SlotOf<D>,
        alloc: Global,
        operation: SetOperation,
        visits: &mut Steps<V>,
        changes: &mut Steps<C>,
    ) -> Result<Reply, NoMemory>
        requires { frame_refusal self.old other.now ≡ None }
        ensures combines { CombinesSlots operation self.old other.now self.new changes.old changes.new result }
        ensures visits { VisitsSlots operation self.old other.now visits.old visits.new }
        ensures all { SeesAll operation self.old other.now visits.old visits.new result }
    {
        match combine_trees(
            &mut self.kept,
            &other.kept,
            alloc,
            operation,
            visits,
            changes,
        ) {
            Ok(count) => Ok(Reply::Combined(count)),
            Err(SetFault::Full) => Ok(Reply::ErrorFull),
            Err(SetFault::NoMemory) => Err(NoMemory),
        }
    }

    // Why its boxes cannot be joined with those of another slot.
    fn join_refusal(&self, other: &SlotOf<D>) -> Option<Refusal>
        ensures { option_map refusal_reply result ≡ join_refusal self.now other.now }
    {
        if self.points_differ(other) {
            Some(Refusal::Dims)
        } else if self.kind == Kind::Points || other.kind == Kind::Points {
            Some(Refusal::Kind)
        } else {
            None
        }
    }

    // Why its table cannot be combined with that of another slot, however many rows there are.
    fn frame_refusal(&self, other: &SlotOf<D>) -> Option<Refusal>
        ensures { option_map refusal_reply result ≡ frame_refusal self.now other.now }
    {
        if self.points_differ(other) {
            Some(Refusal::Dims)
        } else if self.kind != other.kind {
            Some(Refusal::Kind)
        } else {
            None
        }
    }

    // Whether its points differ from those of another slot in their width, as their dimensions do not.
    fn points_differ(&self, other: &SlotOf<D>) -> bool
        ensures { result ≡ points_differ self.now other.now }
    {
        self.frame().width.bits() != other.frame().width.bits()
    }
}

fn same_reply(same: bool) -> Reply
    ensures { reply_of result ≡ (if same then Replied.Same else Replied.Differ) }
{
    if same { Reply::Same } else { Reply::Differ }
}
