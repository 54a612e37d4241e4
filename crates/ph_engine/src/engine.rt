//! The state of the program, and what a command does to it.
ghost use Rattle.std.specs.Prelude.{◌≡◌, ◌<◌, ◌≤◌, ◌^◌, [], true};
ghost use Rattle.ph_specs.specs.ProgramNames.{opened, Reply as Replied, new_engine, current, slot_at};
ghost use Rattle.ph_specs.specs.declared.Which.TheVariants.{A};
ghost use Rattle.ph_script.specs.Meaning.{command_of, reply_of};
ghost use Rattle.ph_script.specs.Fit.{HasDims};
ghost use Rattle.ph_slot.specs.AnySlots.{any_slot};
ghost use Rattle.ph_slot.specs.Desks.{SameDesk, beside_at};
ghost use Rattle.ph_slot.specs.Doing.{DoneOr, LeavesBegun, is_on_both};
ghost use Rattle.ph_commands.specs.Telling.{StopHasCause};
ghost use Rattle.ph_engine.specs.Soaking.{is_drawn};

use ph_commands::{Answer, Stop, say};
use ph_io::{Files, Sink};
use ph_script::{Command, Reply, Which};
use ph_slot::{Desk, Slot};
use std::alloc::Global;
use std::marker::Model;
use std::mem::replace;
use std::sync::ledger::Ledger;

/// The state of the program: two slots, of which one is current. It takes memory for the nodes of its trees alone.
#[derive(Drop)]
pub struct Engine {
    a: Slot,
    b: Slot,
    current: Which,
}

impl Model for Engine {
    ghost use Rattle.ph_specs.specs.ProgramNames.{Engine as State};
    ghost use Rattle.ph_slot.specs.AnySlots.{any_slot};

    ghost Value = { State };

    ghost view = { λ e. record { a = any_slot e.a; b = any_slot e.b; current = e.current } };
}

impl Engine {
    /// An engine whose slots are empty tables of points of two dimensions and 32 bits, with any number of rows. It takes no memory.
    pub fn new(alloc: Global) -> Engine
        ensures { result ≡ new_engine }
    {
        Engine {
            a: Slot::new(alloc),
            b: Slot::new(alloc),
            current: Which::A,
        }
    }

    /// A slot.
    pub fn slot(&self, which: Which) -> &Slot
        ensures { any_slot result.now ≡ slot_at which self.now }
    {
        match which {
            Which::A => &self.a,
            Which::B => &self.b,
        }
    }

    // Makes slot `a` the current one, and a new table of points of two dimensions and 32 bits. It takes no memory.
    pub(crate) fn open_points(&mut self, alloc: Global)
        ensures { self.new ≡ opened self.old [] }
    {
        // An assignment would let the former tree go here, in sixteen arms that each want a proof; `drop` has its own.
        drop(replace(&mut self.a, Slot::new(alloc)));
        self.current = Which::A;
    }

    /// The number of dimensions of the current slot's points: 1 to 16. A box has its two corners.
    pub fn dims(&self) -> u32
        ensures value { result ≡ (current self.now).dims }
        ensures some { 1 ≤ result }
        ensures limit { result ≤ 16 }
    {
        match self.current {
            Which::A => self.a.dims(),
            Which::B => self.b.dims(),
        }
    }

    /// Does a command, and gives its replies to the sink. It may want memory for a row that is new, goes, moves or comes back, for the rows
    /// that are nearest to a point, for a file that is read with its table, for a table that is made of both slots and for the edits that
    /// are to be kept, and for nothing else.
    ///
    /// After a write fault the command is done, but a page leaves its cursor as it was; a front of the replies is written.
    /// Without memory nothing is written, and nothing is done but that of an import some first rows may be in, with no edits kept then, and
    /// of edits that were to be taken back some last ones may be.
    #[inline(always)]
    pub fn exec<O: Sink, F: Files, V: Ledger, C: Ledger>(
        &mut self,
        cmd: &Command<'_>,
        desk: &mut Desk<'_, O, F, V, C>,
    ) -> Result<Answer, Stop>
        requires dims { HasDims (current self.old).dims cmd.now }
        requires file { desk.old.limits.now.file_bytes < 2 ^ 63 }
        ensures done { DoneOr desk.old.limits.now.file_bytes self.old (command_of cmd.now)
            (beside_at O.Sink F.Files desk.old) (beside_at O.Sink F.Files desk.new) self.new result }
        ensures cause { StopHasCause (O.faults desk.old.out.now) (O.faults desk.new.out.now) result }
        ensures begun { LeavesBegun (command_of cmd.now) (F.is_begun desk.old.files.now) (F.is_begun desk.new.files.now) }
        ensures same { SameDesk desk.old desk.new }
    {
        match cmd {
            Command::Select { slot } => say(desk.out, &mut desk.text, &self.select(*slot)),
            Command::Same | Command::Join | Command::Combine { .. } => self.exec_both(cmd, desk),
            _ => match self.current {
                Which::A => self.a.exec(cmd, desk),
                Which::B => self.b.exec(cmd, desk),
            },
        }
    }

    // Does a command that knows both slots.
    #[inline(never)]
    fn exec_both<O: Sink, F: Files, V: Ledger, C: Ledger>(
        &mut self,
        cmd: &Command<'_>,
        desk: &mut Desk<'_, O, F, V, C>,
    ) -> Result<Answer, Stop>
        requires both { is_on_both (command_of cmd.now) ≡ true }
        ensures done { DoneOr desk.old.limits.now.file_bytes self.old (command_of cmd.now)
            (beside_at O.Sink F.Files desk.old) (beside_at O.Sink F.Files desk.new) self.new result }
        ensures cause { StopHasCause (O.faults desk.old.out.now) (O.faults desk.new.out.now) result }
        ensures begun { LeavesBegun (command_of cmd.now) (F.is_begun desk.old.files.now) (F.is_begun desk.new.files.now) }
        ensures same { SameDesk desk.old desk.new }
    {
        match self.current {
            Which::A => self.a.exec_beside(&self.b, Which::A, cmd, desk),
            Which::B => self.b.exec_beside(&self.a, Which::B, cmd, desk),
        }
    }

    // Does a drawn command where slot `a` is the current one and has two dimensions. A soak has a sink of its own, for which `exec` would
    // be compiled with all sixteen kinds of slot.
    pub(crate) fn exec_drawn<O: Sink, F: Files, V: Ledger, C: Ledger>(
        &mut self,
        cmd: &Command<'_>,
        desk: &mut Desk<'_, O, F, V, C>,
    ) -> Result<Answer, Stop>
        requires dims { HasDims 2 cmd.now }
        requires file { desk.old.limits.now.file_bytes < 2 ^ 63 }
        requires first { self.old.current ≡ A }
        requires two { self.old.a.dims ≡ 2 }
        requires drawn { is_drawn (command_of cmd.now) ≡ true }
        ensures done { DoneOr desk.old.limits.now.file_bytes self.old (command_of cmd.now)
            (beside_at O.Sink F.Files desk.old) (beside_at O.Sink F.Files desk.new) self.new result }
        ensures cause { StopHasCause (O.faults desk.old.out.now) (O.faults desk.new.out.now) result }
        ensures same { SameDesk desk.old desk.new }
    {
        self.a.exec_of_two(cmd, desk)
    }

    // Makes a slot the current one.
    fn select(&mut self, slot: Which) -> Reply
        ensures engine { self.new ≡ record self.old { current = slot } }
        ensures reply { reply_of result ≡ Replied.Using slot }
    {
        self.current = slot;
        Reply::Using(slot)
    }
}
