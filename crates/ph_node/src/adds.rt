//! A point entry more.

ghost use Rattle.std.specs.Prelude.{◌≡◌, ◌+◌, ◌^◌, ◌<◌, None, take, position, OnErr, OnOk};
ghost use Rattle.ph_model.specs.ModelNames.{node_of, entries, has_address, point_entry, inserted};
ghost use Rattle.ph_node.specs.Bodies.{IsBodyArray};
ghost use Rattle.ph_node.specs.Places.{place_for};

use crate::NoMemory;
use crate::node::NodeOf;
use crate::points::{add_point, more_edit};
use ph_coord::Dims;
use ph_steps::Steps;
use std::sync::ledger::Ledger;

impl<P: Dims> NodeOf<P> {
    /// Adds a point entry at an address that no entry has, in the place that [`NodeRefOf::search`] gives for it.
    ///
    /// The record is changed where it lies, as long as its layout stays. Takes memory for a block of more room where the node's has too
    /// few spare places, or where the layout changes, before the first change; the old block is given back. Without memory nothing
    /// has changed.
    pub fn add<C: Ledger>(
        &mut self,
        i: usize,
        addr: u32,
        body: [u64; 16],
        v: u64,
        changes: &mut Steps<C>,
    ) -> Result<(), NoMemory>
        requires address { addr < 2 ^ P.D }
        requires absent { position (has_address addr) (entries self.old) ≡ None }
        requires place { i ≡ place_for addr (entries self.old) }
        requires body { IsBodyArray P.D self.old.level body }
        ensures ok { OnOk result (self.new ≡ node_of self.old.level (inserted (point_entry addr (take P.D body) v) (entries self.old))) }
        ensures cost { OnOk result (changes.new ≡ changes.old + 1) }
        ensures err { OnErr result (self.new ≡ self.old) }
        ensures spared { OnErr result (changes.new ≡ changes.old) }
    {
        let edit = more_edit(i, addr, body, v);
        add_point(&mut self.block, &edit)?;
        changes.tick();
        Ok(())
    }
}
