//! Two slots of any number of dimensions side by side.
ghost use Rattle.std.specs.Prelude.{◌≡◌, true};
ghost use Rattle.ph_script.specs.Meaning.{command_of, reply_of};
ghost use Rattle.ph_commands.specs.Telling.{StopHasCause};
ghost use Rattle.ph_slot.specs.AnySlots.{any_slot};
ghost use Rattle.ph_slot.specs.Desks.{SameDesk, beside_at};
ghost use Rattle.ph_slot.specs.Doing.{DoneOr, LeavesBegun, is_on_both};
ghost use Rattle.ph_slot.specs.Pairing.{differing_reply, engine_at};

use super::Slot;
use crate::desk::Desk;
use ph_commands::{Answer, Stop, say};
use ph_io::{Files, Sink};
use ph_script::{Command, Reply, Which};
use std::sync::ledger::Ledger;

impl Slot {
    /// Does a command that knows both slots, of which this one is current and has a name, and gives its replies to the sink. The other slot
    /// stays as it is, and this one too after want of memory, which a set operation alone may meet; after a write fault the command is done.
    pub fn exec_beside<O: Sink, F: Files, V: Ledger, C: Ledger>(
        &mut self,
        other: &Slot,
        name: Which,
        cmd: &Command<'_>,
        desk: &mut Desk<'_, O, F, V, C>,
    ) -> Result<Answer, Stop>
        requires both { is_on_both (command_of cmd.now) ≡ true }
        ensures done { DoneOr desk.old.limits.now.file_bytes (engine_at name (any_slot self.old) (any_slot other.now)) (command_of cmd.now)
            (beside_at O.Sink F.Files desk.old) (beside_at O.Sink F.Files desk.new)
            (engine_at name (any_slot self.new) (any_slot other.now)) result }
        ensures cause { StopHasCause (O.faults desk.old.out.now) (O.faults desk.new.out.now) result }
        ensures begun { LeavesBegun (command_of cmd.now) (F.is_begun desk.old.files.now) (F.is_begun desk.new.files.now) }
        ensures same { SameDesk desk.old desk.new }
    {
        // Uses that make known which variants they are.
        let _first = self.dims();
        let _second = other.dims();
        match (self, other) {
            (Slot::D1(a), Slot::D1(b)) => a.exec_beside(b, name, cmd, desk),
            (Slot::D2(a), Slot::D2(b)) => a.exec_beside(b, name, cmd, desk),
            (Slot::D3(a), Slot::D3(b)) => a.exec_beside(b, name, cmd, desk),
            (Slot::D4(a), Slot::D4(b)) => a.exec_beside(b, name, cmd, desk),
            (Slot::D5(a), Slot::D5(b)) => a.exec_beside(b, name, cmd, desk),
            (Slot::D6(a), Slot::D6(b)) => a.exec_beside(b, name, cmd, desk),
            (Slot::D7(a), Slot::D7(b)) => a.exec_beside(b, name, cmd, desk),
            (Slot::D8(a), Slot::D8(b)) => a.exec_beside(b, name, cmd, desk),
            (Slot::D9(a), Slot::D9(b)) => a.exec_beside(b, name, cmd, desk),
            (Slot::D10(a), Slot::D10(b)) => a.exec_beside(b, name, cmd, desk),
            (Slot::D11(a), Slot::D11(b)) => a.exec_beside(b, name, cmd, desk),
            (Slot::D12(a), Slot::D12(b)) => a.exec_beside(b, name, cmd, desk),
            (Slot::D13(a), Slot::D13(b)) => a.exec_beside(b, name, cmd, desk),
            (Slot::D14(a), Slot::D14(b)) => a.exec_beside(b, name, cmd, desk),
            (Slot::D15(a), Slot::D15(b)) => a.exec_beside(b, name, cmd, desk),
            (Slot::D16(a), Slot::D16(b)) => a.exec_beside(b, name, cmd, desk),
            _ => {
                let reply = differing_reply(cmd);
                say(desk.out, &mut desk.text, &reply)
            }
        }
    }
}

// What is replied to a command that knows both slots where these differ in their dimensions.
fn differing_reply(cmd: &Command<'_>) -> Reply
    requires { is_on_both (command_of cmd.now) ≡ true }
    ensures { reply_of result ≡ differing_reply (command_of cmd.now) }
{
    match cmd {
        Command::Same => Reply::Differ,
        _ => Reply::ErrorDims,
    }
}
