//! What edits read of a node.

ghost use Rattle.std.specs.Prelude.{◌≡◌, ◌+◌, ◌^◌, ◌<◌, ◌≤◌, length, take};
ghost use Rattle.ph_model.specs.ModelNames.{what_at, entries};
ghost use Rattle.ph_specs.specs.RecordNames.{values, record_of};
ghost use Rattle.ph_node.specs.OneEdit.{IsOldEntry, flats_of};
ghost use Rattle.ph_node.specs.Split.{IsValue};
ghost use Rattle.ph_node.specs.Spots.{IsSpot};

use crate::node::NodeOf;
use crate::records;
use crate::spots::Spot;
use ph_bits::row;
use ph_coord::Dims;
use ph_linear::level_in;

/// An entry as an edit reads it. A child has the value 0. In front of it stand so many children.
#[derive(Clone, Copy)]
pub(crate) struct OldEntry {
    pub(crate) addr: u32,
    pub(crate) child: bool,
    pub(crate) body: [u64; 16],
    pub(crate) value: u64,
    pub(crate) front: usize,
}

impl<P: Dims> NodeOf<P> {
    /// The place of the digits by which the node tells its entries apart.
    pub(crate) fn level(&self) -> u32
        ensures value { result ≡ self.now.level }
        ensures limit { result ≤ 61 }
    {
        level_in(self.block.words())
    }

    /// Entry `i`, in the order of the addresses, as it stands in the node.
    #[inline(always)]
    pub(crate) fn spot(&self, i: usize) -> Spot
        requires { i < length (entries self.now) }
        ensures place { result.place ≡ i }
        ensures spot { IsSpot (entries self.now) result }
        ensures limit { result.addr < 2 ^ P.D }
    {
        Spot {
            place: i,
            addr: records::address(self.block.words(), P::D, i),
        }
    }

    /// What an entry has.
    #[inline(always)]
    pub(crate) fn old_entry(&self, spot: Spot) -> OldEntry
        requires { IsSpot (entries self.now) spot }
        ensures { IsOldEntry P.D self.now spot.place result }
    {
        let words = self.block.words();
        let dims = P::D;
        let (child, rank) = records::ranked(words, dims, spot);
        let at = records::body_at(words, dims, spot);
        let body = row(words, at, level_in(words), dims);
        if child {
            return OldEntry {
                addr: spot.addr,
                child: true,
                body,
                value: 0,
                front: rank,
            };
        }
        OldEntry {
            addr: spot.addr,
            child: false,
            body,
            value: records::value(words, dims, rank),
            front: spot.place - rank,
        }
    }

    /// How many points stand in front of an entry.
    pub(crate) fn points_before(&self, spot: Spot) -> usize
        requires { IsSpot (entries self.now) spot }
        ensures { result ≡ length (values (take spot.place (flats_of self.now))) }
    {
        records::rank(self.block.words(), P::D, spot, false)
    }

    /// The place of the value of a point entry among the words.
    pub(crate) fn value_place(&self, spot: Spot) -> usize
        requires spot { IsSpot (entries self.now) spot }
        requires point { IsValue (what_at (entries self.now) spot.place) }
        ensures { result + length (values (flats_of self.now))
            ≡ length (record_of P.D self.now.level (flats_of self.now))
            + length (values (take spot.place (flats_of self.now))) }
    {
        let len = self.block.len();
        let children = self.block.count();
        let points = records::count(self.block.words()) - children;
        len - points + self.points_before(spot)
    }
}
