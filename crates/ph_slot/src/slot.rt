//! A slot of any number of dimensions, and the choice of its number.
ghost use Rattle.std.specs.Prelude.{IfOk, IfErr, ◌≡◌, ◌≤◌, ◌<◌, ◌+◌, ◌%◌, ◌^◌, true, false};
ghost use Rattle.ph_specs.specs.Command.Command.{Begin as AskBegin};
ghost use Rattle.ph_specs.specs.ProgramNames.{has_wrong_dims, new_slot, opened_dims};
ghost use Rattle.ph_specs.specs.State.{empty_slot};
ghost use Rattle.ph_specs.specs.RecordNames.{load_fault, stats};
ghost use Rattle.ph_specs.specs.declared.Kind.TheVariants.{Boxes};
ghost use Rattle.ph_script.specs.Meaning.{command_of, reply_of};
ghost use Rattle.ph_script.specs.Fit.{HasDims};
ghost use Rattle.ph_tree.specs.Stats.{stats_of};
ghost use Rattle.ph_slot.specs.AnySlots.{any_slot, variant_dims, IsFrameOf, IsLoadedSlot};
ghost use Rattle.ph_commands.specs.Loading.{IsWithinBytes};
ghost use Rattle.ph_snap.specs.Faults.{IsLoadFault};
ghost use Rattle.ph_slot.specs.Desks.{SameDesk, beside_at};
ghost use Rattle.ph_slot.specs.Doing.{Begun, DoneOr, LeavesBegun, is_begin, is_on_slot};
ghost use Rattle.ph_commands.specs.Tables.{engine_of};
ghost use Rattle.ph_commands.specs.Telling.{StopHasCause};
ghost use Rattle.ph_commands.specs.Working.{nodes_of};

use crate::desk::Desk;
use crate::frame::Frame;
use crate::refusals::has_wrong_dims;
use crate::slot_of::SlotOf;
use ph_commands::{Answer, Stop, say};
use ph_coord::{Kind, Width};
use ph_io::{Files, Sink};
use ph_script::{Command, Reply};
use ph_snap::LoadFault;
use ph_steps::Steps;
use ph_tree::Stats;
use std::alloc::Global;
use std::mem::replace;
use std::sync::ledger::Ledger;

mod both;

/// A table of points or boxes with its cursors, by its number of dimensions: 1 to 16.
#[derive(Drop)]
pub enum Slot {
    D1(SlotOf<1>),
    D2(SlotOf<2>),
    D3(SlotOf<3>),
    D4(SlotOf<4>),
    D5(SlotOf<5>),
    D6(SlotOf<6>),
    D7(SlotOf<7>),
    D8(SlotOf<8>),
    D9(SlotOf<9>),
    D10(SlotOf<10>),
    D11(SlotOf<11>),
    D12(SlotOf<12>),
    D13(SlotOf<13>),
    D14(SlotOf<14>),
    D15(SlotOf<15>),
    D16(SlotOf<16>),
}

// What an expression makes of the slot of whatever number of dimensions.
macro_rules! with_slot {
    ($any:expr, $slot:ident => $made:expr) => {
        match $any {
            Slot::D1($slot) => $made,
            Slot::D2($slot) => $made,
            Slot::D3($slot) => $made,
            Slot::D4($slot) => $made,
            Slot::D5($slot) => $made,
            Slot::D6($slot) => $made,
            Slot::D7($slot) => $made,
            Slot::D8($slot) => $made,
            Slot::D9($slot) => $made,
            Slot::D10($slot) => $made,
            Slot::D11($slot) => $made,
            Slot::D12($slot) => $made,
            Slot::D13($slot) => $made,
            Slot::D14($slot) => $made,
            Slot::D15($slot) => $made,
            Slot::D16($slot) => $made,
        }
    };
}

// What a macro makes of a number of dimensions and its variant.
macro_rules! by_dims {
    ($dims:expr, $make:ident) => {
        match $dims {
            1 => $make!(1, D1),
            2 => $make!(2, D2),
            3 => $make!(3, D3),
            4 => $make!(4, D4),
            5 => $make!(5, D5),
            6 => $make!(6, D6),
            7 => $make!(7, D7),
            8 => $make!(8, D8),
            9 => $make!(9, D9),
            10 => $make!(10, D10),
            11 => $make!(11, D11),
            12 => $make!(12, D12),
            13 => $make!(13, D13),
            14 => $make!(14, D14),
            15 => $make!(15, D15),
            16 => $make!(16, D16),
            _ => unreachable!(),
        }
    };
}

impl Slot {
    /// An empty table of points of two dimensions and 32 bits, with any number of rows. It takes no memory.
    pub fn new(alloc: Global) -> Slot
        ensures { any_slot result ≡ new_slot }
    {
        Slot::D2(SlotOf::new(alloc, Kind::Points, new_width(), u64::MAX))
    }

    // An empty table of so many dimensions, for at most so many rows. It takes no memory.
    fn open(alloc: Global, kind: Kind, w: Width, dims: u32, max: u64) -> Slot
        requires some { 1 ≤ dims }
        requires limit { dims ≤ 16 }
        requires even { kind ≡ Boxes → dims % 2 ≡ 0 }
        ensures { any_slot result ≡ empty_slot kind dims w max }
    {
        macro_rules! open {
            ($dims:literal, $variant:ident) => {
                Slot::$variant(SlotOf::new(alloc, kind, w, max))
            };
        }
        by_dims!(dims, open)
    }

    /// The table of this kind, with points of so many dimensions and bits, of which the bytes are the snapshot, for at most 2^64 - 1 rows, with no cursors, or the first
    /// fault of the bytes. It takes memory for the tree alone; after an error nothing of it stays, and the nodes that were made are counted.
    pub fn of_snapshot<C: Ledger>(
        alloc: Global,
        bytes: &[u8],
        kind: Kind,
        dims: u32,
        w: Width,
        changes: &mut Steps<C>,
    ) -> Result<Slot, LoadFault>
        requires some { 1 ≤ dims }
        requires limit { dims ≤ 16 }
        ensures loaded { IfOk result (λ s. IsLoadedSlot kind dims w bytes.now (any_slot s) changes.old changes.new) }
        ensures fault { IfErr result (λ e. IsLoadFault (load_fault kind dims w bytes.now) e) }
        ensures within { IsWithinBytes bytes.now changes.old changes.new }
    {
        macro_rules! of_snapshot {
            ($dims:literal, $variant:ident) => {
                SlotOf::<$dims>::of_snapshot(alloc, bytes, kind, w, changes).map(Slot::$variant)
            };
        }
        by_dims!(dims, of_snapshot)
    }

    /// What its rows are.
    #[inline(always)]
    pub fn frame(&self) -> Frame
        ensures frame { IsFrameOf (any_slot self.now) result }
        ensures known { (any_slot self.now).dims ≡ variant_dims self.now }
    {
        with_slot!(self, slot => slot.frame())
    }

    /// The number of dimensions of the points: 1 to 16. A box has its two corners.
    #[inline(always)]
    pub fn dims(&self) -> u32
        ensures value { result ≡ (any_slot self.now).dims }
        ensures known { result ≡ variant_dims self.now }
        ensures some { 1 ≤ result }
        ensures limit { result ≤ 16 }
    {
        self.frame().dims
    }

    /// The sizes of its tree. Each node is visited once.
    pub fn sizes<V: Ledger>(&self, visits: &mut Steps<V>) -> Stats
        ensures sizes { stats_of result ≡ stats (any_slot self.now).width (any_slot self.now).dims (any_slot self.now).table }
        ensures visits { visits.new ≡ visits.old + nodes_of (any_slot self.now) }
    {
        with_slot!(self, slot => slot.sizes(visits))
    }

    /// Does a command that is about this slot alone, and gives its replies to the sink. It may want memory for a row that is new, goes, moves
    /// or comes back, for the rows that are nearest to a point, for a file that is read with its table, and for the edits that are to be kept.
    ///
    /// After a write fault the command is done, but a page leaves its cursor as it was; a front of the replies is written. Without memory
    /// nothing is written, and nothing is done but some first rows of an import and some last edits that were to be taken back.
    #[inline(always)]
    pub fn exec<O: Sink, F: Files, V: Ledger, C: Ledger>(
        &mut self,
        cmd: &Command<'_>,
        desk: &mut Desk<'_, O, F, V, C>,
    ) -> Result<Answer, Stop>
        requires dims { HasDims (any_slot self.old).dims cmd.now }
        requires file { desk.old.limits.now.file_bytes < 2 ^ 63 }
        requires slot { is_on_slot (command_of cmd.now) ≡ true }
        ensures done { DoneOr desk.old.limits.now.file_bytes (engine_of (any_slot self.old)) (command_of cmd.now)
            (beside_at O.Sink F.Files desk.old) (beside_at O.Sink F.Files desk.new)
            (engine_of (any_slot self.new)) result }
        ensures cause { StopHasCause (O.faults desk.old.out.now) (O.faults desk.new.out.now) result }
        ensures begun { LeavesBegun (command_of cmd.now) (F.is_begun desk.old.files.now) (F.is_begun desk.new.files.now) }
        ensures same { SameDesk desk.old desk.new }
    {
        match cmd {
            Command::Begin {
                kind,
                k,
                width,
                max,
            } => {
                let reply = self.begin(desk.alloc, *kind, *k, *width, *max);
                say(desk.out, &mut desk.text, &reply)
            }
            _ => self.exec_by(cmd, desk),
        }
    }

    // The same of a command that leaves the number of dimensions.
    #[inline(always)]
    fn exec_by<O: Sink, F: Files, V: Ledger, C: Ledger>(
        &mut self,
        cmd: &Command<'_>,
        desk: &mut Desk<'_, O, F, V, C>,
    ) -> Result<Answer, Stop>
        requires dims { HasDims (any_slot self.old).dims cmd.now }
        requires file { desk.old.limits.now.file_bytes < 2 ^ 63 }
        requires slot { is_on_slot (command_of cmd.now) ≡ true }
        requires opened { is_begin (command_of cmd.now) ≡ false }
        ensures done { DoneOr desk.old.limits.now.file_bytes (engine_of (any_slot self.old)) (command_of cmd.now)
            (beside_at O.Sink F.Files desk.old) (beside_at O.Sink F.Files desk.new)
            (engine_of (any_slot self.new)) result }
        ensures cause { StopHasCause (O.faults desk.old.out.now) (O.faults desk.new.out.now) result }
        ensures begun { LeavesBegun (command_of cmd.now) (F.is_begun desk.old.files.now) (F.is_begun desk.new.files.now) }
        ensures same { SameDesk desk.old desk.new }
    {
        with_slot!(self, slot => slot.exec(cmd, desk))
    }

    /// The same with a slot of two dimensions, of a command that leaves their number. For a sink or files of its own nothing is compiled for
    /// any other number.
    pub fn exec_of_two<O: Sink, F: Files, V: Ledger, C: Ledger>(
        &mut self,
        cmd: &Command<'_>,
        desk: &mut Desk<'_, O, F, V, C>,
    ) -> Result<Answer, Stop>
        requires dims { HasDims 2 cmd.now }
        requires file { desk.old.limits.now.file_bytes < 2 ^ 63 }
        requires two { (any_slot self.old).dims ≡ 2 }
        requires slot { is_on_slot (command_of cmd.now) ≡ true }
        requires opened { is_begin (command_of cmd.now) ≡ false }
        ensures done { DoneOr desk.old.limits.now.file_bytes (engine_of (any_slot self.old)) (command_of cmd.now)
            (beside_at O.Sink F.Files desk.old) (beside_at O.Sink F.Files desk.new)
            (engine_of (any_slot self.new)) result }
        ensures cause { StopHasCause (O.faults desk.old.out.now) (O.faults desk.new.out.now) result }
        ensures begun { LeavesBegun (command_of cmd.now) (F.is_begun desk.old.files.now) (F.is_begun desk.new.files.now) }
        ensures same { SameDesk desk.old desk.new }
    {
        // A use that makes known which variant it is.
        let _dims = self.dims();
        match self {
            Slot::D2(slot) => slot.exec(cmd, desk),
            _ => unreachable!(),
        }
    }

    // Makes it a new one for points or boxes of so many dimensions and bits, without cursors, unless none has so many.
    #[inline(never)]
    fn begin(&mut self, alloc: Global, kind: Kind, k: u32, width: u32, max: u64) -> Reply
        ensures { Begun (any_slot self.old) (AskBegin kind k width max) (any_slot self.new) (reply_of result) }
    {
        if has_wrong_dims(kind, k, width) {
            return Reply::ErrorDims;
        }
        self.renew(alloc, kind, k, width, max)
    }

    // The same where some slot has so many.
    fn renew(&mut self, alloc: Global, kind: Kind, k: u32, width: u32, max: u64) -> Reply
        requires { has_wrong_dims (AskBegin kind k width max) ≡ false }
        ensures { Begun (any_slot self.old) (AskBegin kind k width max) (any_slot self.new) (reply_of result) }
    {
        let Some(w) = Width::new(width) else {
            unreachable!()
        };
        // An assignment would let the former table go here, in sixteen arms that each want a proof; `drop` has its own.
        drop(replace(self, Slot::open(alloc, kind, w, tree_dims(kind, k), max)));
        Reply::Opened
    }
}

// The dimensions of the tree of a slot that is opened with k. A box has its two corners.
fn tree_dims(kind: Kind, k: u32) -> u32
    requires { has_wrong_dims (AskBegin kind k 32 0) ≡ false }
    ensures value { result ≡ opened_dims kind k }
    ensures some { 1 ≤ result }
    ensures limit { result ≤ 16 }
    ensures even { kind ≡ Boxes → result % 2 ≡ 0 }
{
    match kind {
        Kind::Points => k,
        Kind::Boxes => 2 * k,
    }
}

// The width of a slot that is new.
fn new_width() -> Width
    ensures { result ≡ 32 }
{
    match Width::new(32) {
        Some(w) => w,
        None => unreachable!(),
    }
}
