//! A node of one point.

ghost use Rattle.std.specs.Prelude.{◌≡◌, ◌+◌, ◌^◌, ◌<◌, ◌≤◌, [], ◌∷◌, take, OnErr, OnOk, IfOk};
ghost use Rattle.ph_model.specs.ModelNames.{node_of, point_entry};
ghost use Rattle.ph_bits.specs.Packed.{IsPadded};
ghost use Rattle.ph_node.specs.Bodies.{IsBodyArray};

use crate::NoMemory;
use crate::node::NodeOf;
use ph_bits::{Entries, Mark, Packed};
use ph_coord::Dims;
use ph_steps::Steps;
use std::alloc::Global;
use std::marker::PhantomData;
use std::sync::ledger::Ledger;

// The entries of a record of one point.
#[derive(Drop)]
struct OneOf<P: Dims> {
    addr: u32,
    body: [u64; 16],
    value: u64,
    dims: PhantomData<P>,
    ghost padded: { IsPadded P.D body },
}

impl<P: Dims> Entries<P> for OneOf<P> {
    ghost use Rattle.std.specs.Prelude.{◌∷◌, []};
    ghost use Rattle.ph_node.specs.Edits.{point_flat};

    ghost list = { λ s. point_flat s.addr (take P.D s.body) s.value ∷ [] };

    fn count(&self) -> usize {
        1
    }

    #[inline(always)]
    fn at(&self, i: usize, mark: &mut Option<Mark>) -> Packed {
        let _ = mark;
        let _ = i;
        let body = self.body;
        Packed {
            addr: self.addr,
            child: false,
            body,
            rank: 0,
        }
    }

    #[inline(always)]
    fn value(&self, i: usize, mark: &mut Option<Mark>) -> u64 {
        let _ = mark;
        let _ = i;
        self.value
    }
}

impl<P: Dims> NodeOf<P> {
    /// Makes a node of one point entry. Takes memory for its block alone.
    pub fn single<C: Ledger>(
        alloc: Global,
        level: u32,
        addr: u32,
        body: [u64; 16],
        v: u64,
        changes: &mut Steps<C>,
    ) -> Result<NodeOf<P>, NoMemory>
        requires some { 1 ≤ P.D }
        requires few { P.D ≤ 16 }
        requires low { level ≤ 61 }
        requires address { addr < 2 ^ P.D }
        requires body { IsBodyArray P.D level body }
        ensures ok { IfOk result (λ n. n ≡ node_of level (point_entry addr (take P.D body) v ∷ [])) }
        ensures cost { OnOk result (changes.new ≡ changes.old + 1) }
        ensures spared { OnErr result (changes.new ≡ changes.old) }
    {
        let entries: OneOf<P> = OneOf {
            addr,
            body,
            value: v,
            dims: PhantomData,
        };
        let block = NodeOf::block_for::<OneOf<P>>(alloc, level, &entries)?;
        Ok(NodeOf::assemble(block, changes))
    }
}
