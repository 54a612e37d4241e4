//! What a command may touch beside its engine.
ghost use Rattle.std.specs.Prelude.{◌≡◌};

use crate::limits::Limits;
use ph_io::{Files, Sink};
use ph_script::Text;
use ph_steps::Steps;
use std::alloc::Global;
use std::sync::ledger::Ledger;

/// What a command may touch beside its engine: where memory comes from, where replies and files go, how much is read, and the counters of
/// the tree's work.
///
/// It borrows all of it but the allocator, and the text in which each reply is written: that lies in the desk itself, so that no reply takes memory.
#[derive(Drop)]
pub struct Desk<'d, O: Sink, F: Files, V: Ledger, C: Ledger> {
    pub alloc: Global,
    pub out: &'d mut O,
    pub files: &'d mut F,
    pub limits: &'d Limits,
    pub visits: &'d mut Steps<V>,
    pub changes: &'d mut Steps<C>,
    pub text: Text,
}

impl<'d, O: Sink, F: Files, V: Ledger, C: Ledger> Desk<'d, O, F, V, C> {
    /// A desk with these things. It takes no memory.
    pub fn new(
        alloc: Global,
        out: &'d mut O,
        files: &'d mut F,
        limits: &'d Limits,
        visits: &'d mut Steps<V>,
        changes: &'d mut Steps<C>,
    ) -> Desk<'d, O, F, V, C>
        ensures out { (result.out.ghost_name ≡ out.entry.ghost_name) × (result.out.now ≡ out.old) }
        ensures files { (result.files.ghost_name ≡ files.entry.ghost_name) × (result.files.now ≡ files.old) }
        ensures limits { result.limits.now ≡ limits.now }
        ensures visits { (result.visits.ghost_name ≡ visits.entry.ghost_name) × (result.visits.now ≡ visits.old) }
        ensures changes { (result.changes.ghost_name ≡ changes.entry.ghost_name) × (result.changes.now ≡ changes.old) }
    {
        Desk {
            alloc,
            out,
            files,
            limits,
            visits,
            changes,
            text: Text::new(),
        }
    }
}
