//! What a slot does with the row at a point: a put, a get, a removal and a move.
ghost use Rattle.std.specs.Prelude.{◌≡◌, length, option_map};
ghost use Rattle.ph_specs.specs.Command.Command.{Put as AskPut, Get as AskGet, Del as AskDel, Relocate as AskRelocate};
ghost use Rattle.ph_script.specs.Meaning.{numbers_of, reply_of};
ghost use Rattle.ph_slot.specs.Causes.{refusal_reply};
ghost use Rattle.ph_slot.specs.Filing.{QuietOr, Shows};
ghost use Rattle.ph_slot.specs.Refusing.{early_refusal};
ghost use Rattle.ph_commands.specs.Tables.{engine_of};

use super::SlotOf;
use crate::refusals::{Refusal, are_no_boxes, are_outside, is_no_box, is_outside};
use ph_commands::{del_row, get_row, move_row, put_row};
use ph_script::{Coords, Reply};
use ph_steps::Steps;
use ph_tree::NoMemory;
use std::sync::ledger::Ledger;

// Each of these calls knows which causes its command can be refused for, so that a line of the most common kinds passes few tests.
impl<const D: usize> SlotOf<D> {
    // Puts a value at a point.
    #[inline(never)]
    pub(crate) fn put<V: Ledger, C: Ledger>(
        &mut self,
        at: &Coords<'_>,
        value: u64,
        visits: &mut Steps<V>,
        changes: &mut Steps<C>,
    ) -> Result<Reply, NoMemory>
        requires { length at.now ≡ self.old.dims }
        ensures { QuietOr (engine_of self.old) (AskPut (numbers_of at.now) value) visits.old visits.new changes.old changes.new (engine_of self.new) result }
    {
        if let Some(refusal) = self.point_refusal(at) {
            return Ok(refusal.reply());
        }
        put_row(&mut self.kept, at, value, visits, changes)
    }

    // Tells the value at a point.
    #[inline(never)]
    pub(crate) fn get<V: Ledger>(&self, at: &Coords<'_>, visits: &mut Steps<V>) -> Reply
        requires { length at.now ≡ self.now.dims }
        ensures { Shows self.now (AskGet (numbers_of at.now)) visits.old visits.new (reply_of result) }
    {
        if let Some(refusal) = self.point_refusal(at) {
            return refusal.reply();
        }
        get_row(&self.kept, at, visits)
    }

    // Takes the row at a point out.
    #[inline(never)]
    pub(crate) fn del<V: Ledger, C: Ledger>(
        &mut self,
        at: &Coords<'_>,
        visits: &mut Steps<V>,
        changes: &mut Steps<C>,
    ) -> Result<Reply, NoMemory>
        requires { length at.now ≡ self.old.dims }
        ensures { QuietOr (engine_of self.old) (AskDel (numbers_of at.now)) visits.old visits.new changes.old changes.new (engine_of self.new) result }
    {
        if let Some(refusal) = self.point_refusal(at) {
            return Ok(refusal.reply());
        }
        del_row(&mut self.kept, at, visits, changes)
    }

    // Moves the row at a point to another.
    #[inline(never)]
    pub(crate) fn relocate<V: Ledger, C: Ledger>(
        &mut self,
        from: &Coords<'_>,
        to: &Coords<'_>,
        visits: &mut Steps<V>,
        changes: &mut Steps<C>,
    ) -> Result<Reply, NoMemory>
        requires from { length from.now ≡ self.old.dims }
        requires to { length to.now ≡ self.old.dims }
        ensures { QuietOr (engine_of self.old) (AskRelocate (numbers_of from.now) (numbers_of to.now)) visits.old visits.new changes.old changes.new
            (engine_of self.new) result }
    {
        if let Some(refusal) = self.move_refusal(from, to) {
            return Ok(refusal.reply());
        }
        move_row(&mut self.kept, from, to, visits, changes)
    }

    // Why it refuses a command about the row at a point.
    #[inline(always)]
    fn point_refusal(&self, at: &Coords<'_>) -> Option<Refusal>
        ensures { option_map refusal_reply result ≡ early_refusal self.now (AskGet (numbers_of at.now)) }
    {
        if is_outside(self.kept.tree().width(), at) {
            return Some(Refusal::Range);
        }
        if is_no_box(self.kind, at) {
            return Some(Refusal::Reversed);
        }
        None
    }

    // Why it refuses a move.
    #[inline(always)]
    fn move_refusal(&self, from: &Coords<'_>, to: &Coords<'_>) -> Option<Refusal>
        ensures { option_map refusal_reply result ≡ early_refusal self.now (AskRelocate (numbers_of from.now) (numbers_of to.now)) }
    {
        if are_outside(self.kept.tree().width(), from, to) {
            return Some(Refusal::Range);
        }
        if are_no_boxes(self.kind, from, to) {
            return Some(Refusal::Reversed);
        }
        None
    }
}
