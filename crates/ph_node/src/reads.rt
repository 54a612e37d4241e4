//! What a visit shows of a node.

ghost use Rattle.std.specs.Prelude.{◌≡◌, ◌+◌, ◌*◌, ◌^◌, ◌<◌, ◌≤◌, None, Some, nat_le, length, map, take, position, slice_get, IfOk, IfErr};
ghost use Rattle.ph_specs.specs.TreeNames.{flat, same_digits};
ghost use Rattle.ph_model.specs.ModelNames.{entries, child_nodes, has_address, what_at, HasZerosFrom, IsBody, body_above, body_below};
ghost use Rattle.ph_specs.specs.RecordNames.{is_cube, pack};
ghost use Rattle.ph_bits.specs.Apart.{IsDistanceWithin};
ghost use Rattle.ph_bits.specs.Between.{each_between};
ghost use Rattle.ph_bits.specs.Fields.{cut, digits_row};
ghost use Rattle.ph_node.specs.Bodies.{IsBodyArray};
ghost use Rattle.ph_node.specs.Kept.{IsNodeOf};
ghost use Rattle.ph_node.specs.Kinds.{is_node};
ghost use Rattle.ph_node.specs.Places.{place_for};
ghost use Rattle.ph_node.specs.Shown.{shown, entry_of, what_of};
ghost use Rattle.ph_node.specs.Children.{nodes_of};
ghost use Rattle.ph_node.specs.OneEdit.{before};
ghost use Rattle.ph_node.specs.Relaid.{is_relaid};
ghost use Rattle.ph_node.specs.Split.{IsNode, body_at};
ghost use Rattle.ph_node.specs.Spots.{IsSpot, joined_digits};

use crate::node::{ChildOf, NodeOf};
use crate::records;
use crate::spots::Spot;
use ph_bits::{is_row, is_row_between, join_address, join_row, row, row_distance};
use ph_coord::{Dim, Dims};
use ph_linear::level_in;
use ph_steps::Steps;
use std::sync::ledger::Ledger;

/// A visited node.
#[derive_where(Clone, Copy)]
pub struct NodeRefOf<'t, N> {
    node: &'t N,
}

/// An entry of a visited node: its hypercube address, a body whose first D numbers are its fields and
/// whose others are zeros, and what it holds.
#[derive_where(Clone, Copy)]
pub struct EntryOf<'t, N> {
    pub addr: u32,
    pub body: [u64; 16],
    pub what: WhatOf<'t, N>,
}

/// What an entry holds. A child lives as long as the node that was visited.
#[derive_where(Clone, Copy)]
pub enum WhatOf<'t, N> {
    Value(u64),
    Child(&'t N),
}

pub type NodeRef<'t, const D: usize> = NodeRefOf<'t, NodeOf<Dim<D>>>;

pub type Entry<'t, const D: usize> = EntryOf<'t, NodeOf<Dim<D>>>;

pub type What<'t, const D: usize> = WhatOf<'t, NodeOf<Dim<D>>>;

impl<P: Dims> NodeOf<P> {
    /// Shows the node. Outside of this crate nothing else reads a node's level or its entries.
    pub fn visit<V: Ledger>(&self, visits: &mut Steps<V>) -> NodeRefOf<'_, NodeOf<P>>
        ensures shows { shown result ≡ self.now }
        ensures kept { IsNodeOf P.D self.now }
        ensures cost { visits.new ≡ visits.old + 1 }
    {
        visits.tick();
        // A use of a field, which makes known what every node keeps.
        let _len = self.block.len();
        NodeRefOf { node: self }
    }
}

impl<'t, P: Dims> NodeRefOf<'t, NodeOf<P>> {
    /// The place of the digits by which the node tells its entries apart.
    #[inline(always)]
    pub fn level(&self) -> u32
        ensures value { result ≡ (shown self.now).level }
        ensures limit { result ≤ 61 }
    {
        let node = self.node;
        level_in(node.block.words())
    }

    /// The number of entries.
    #[inline(always)]
    pub fn len(&self) -> usize
        ensures { result ≡ length (entries (shown self.now)) }
    {
        let node = self.node;
        records::count(node.block.words())
    }

    /// The place of the entry with an address below 2^D.
    #[inline(always)]
    pub fn find(&self, addr: u32) -> Option<usize>
        requires { addr < 2 ^ P.D }
        ensures { result ≡ position (has_address addr) (entries (shown self.now)) }
    {
        match self.search(addr) {
            Ok(spot) => Some(spot.place),
            Err(_) => None,
        }
    }

    /// The entry with an address below 2^D, or else the place that an entry with it would have.
    #[inline(always)]
    pub fn search(&self, addr: u32) -> Result<Spot, usize>
        requires { addr < 2 ^ P.D }
        ensures found { IfOk result (λ s. Some s.place ≡ position (has_address addr) (entries (shown self.now))) }
        ensures spot { IfOk result (λ s. IsSpot (entries (shown self.now)) s) }
        ensures absent { IfErr result (λ i. None ≡ position (has_address addr) (entries (shown self.now))) }
        ensures place { IfErr result (λ i. i ≡ place_for addr (entries (shown self.now))) }
    {
        let node = self.node;
        match records::search(node.block.words(), P::D, addr) {
            Ok(place) => Ok(Spot { place, addr }),
            Err(place) => Err(place),
        }
    }

    /// The place of the first entry whose address is at least `addr`, which is below 2^D.
    #[inline(always)]
    pub fn next_at_or_after(&self, addr: u32) -> Option<usize>
        requires { addr < 2 ^ P.D }
        ensures { result ≡ position (λ e. nat_le addr e.addr) (entries (shown self.now)) }
    {
        let node = self.node;
        records::next_at_or_after(node.block.words(), P::D, addr)
    }

    /// The same, where this is above the address of an entry: the entries behind it are looked at first.
    #[inline(always)]
    pub fn next_behind(&self, spot: Spot, addr: u32) -> Option<usize>
        requires spot { IsSpot (entries (shown self.now)) spot }
        requires above { spot.addr < addr }
        ensures { result ≡ position (λ e. nat_le addr e.addr) (entries (shown self.now)) }
    {
        let node = self.node;
        records::next_behind::<P>(node.block.words(), spot, addr)
    }

    /// Entry `i`, in the order of the addresses, as it stands in the node.
    #[inline(always)]
    pub fn spot(&self, i: usize) -> Spot
        requires { i < length (entries (shown self.now)) }
        ensures place { result.place ≡ i }
        ensures spot { IsSpot (entries (shown self.now)) result }
        ensures limit { result.addr < 2 ^ P.D }
    {
        let node = self.node;
        node.spot(i)
    }

    /// Whether an entry is a child.
    #[inline(always)]
    pub fn is_child(&self, spot: Spot) -> bool
        requires { IsSpot (entries (shown self.now)) spot }
        ensures { result ≡ is_node (what_at (entries (shown self.now)) spot.place) }
    {
        let node = self.node;
        records::is_child(node.block.words(), P::D, spot)
    }

    /// What an entry holds.
    #[inline(always)]
    pub fn what(&self, spot: Spot) -> WhatOf<'t, NodeOf<P>>
        requires { IsSpot (entries (shown self.now)) spot }
        ensures { what_of result ≡ what_at (entries (shown self.now)) spot.place }
    {
        let (_, what) = self.ranked(spot);
        what
    }

    /// What an entry holds, and before it, where that is a child, its place among the children.
    #[inline(always)]
    pub fn ranked(&self, spot: Spot) -> (usize, WhatOf<'t, NodeOf<P>>)
        requires { IsSpot (entries (shown self.now)) spot }
        ensures what { what_of result.1 ≡ what_at (entries (shown self.now)) spot.place }
        ensures rank { IsNode (what_at (entries (shown self.now)) spot.place) → result.0 ≡ before (entries (shown self.now)) spot.place }
    {
        let node = self.node;
        let words = node.block.words();
        let dims = P::D;
        let (child, rank) = records::ranked(words, dims, spot);
        if child {
            let held = node.block.value(rank);
            (rank, WhatOf::Child(&held.node))
        } else {
            (rank, WhatOf::Value(records::value(words, dims, rank)))
        }
    }

    /// Whether the body of an entry is the digits of these numbers below the node's level.
    #[inline(always)]
    pub fn is_below(&self, spot: Spot, numbers: &[u64]) -> bool
        requires spot { IsSpot (entries (shown self.now)) spot }
        requires dims { length numbers.now ≡ P.D }
        ensures { result ≡ same_digits (body_at (entries (shown self.now)) spot.place) (body_below (shown self.now).level numbers.now) }
    {
        self.is_body(spot, 0, numbers)
    }

    /// Whether the body of an entry is the digits of these numbers below the node's level and above the place `low`.
    #[inline(always)]
    pub fn is_between(&self, spot: Spot, low: u32, numbers: &[u64]) -> bool
        requires spot { IsSpot (entries (shown self.now)) spot }
        requires low { low < 63 }
        requires dims { length numbers.now ≡ P.D }
        ensures { result ≡ same_digits (body_at (entries (shown self.now)) spot.place) (body_above low (body_below (shown self.now).level numbers.now)) }
    {
        self.is_body(spot, low + 1, numbers)
    }

    /// Puts the digits of an entry, its address at the node's level and its body below it, behind those that are known
    /// above the level. What was known at the level and below it is lost.
    #[inline(always)]
    pub fn join(&self, spot: Spot, known: &mut [u64])
        requires spot { IsSpot (entries (shown self.now)) spot }
        requires known { IsBody P.D 62 known.old }
        ensures known { known.new ≡ joined_digits (shown self.now) spot known.old }
        ensures body { IsBody P.D (shown self.now).level (body_at (entries (shown self.now)) spot.place) }
    {
        let at = self.body_place(spot);
        join_row(self.words(), at, self.level(), spot.addr, known);
    }

    /// The same of a child at the level `low`, which has no digits from there down. Of a child right below the node no digit of the
    /// body is read.
    #[inline(always)]
    pub fn join_child(&self, spot: Spot, low: u32, known: &mut [u64])
        requires spot { IsSpot (entries (shown self.now)) spot }
        requires low { low < (shown self.now).level }
        requires body { IsBody P.D (shown self.now).level (body_at (entries (shown self.now)) spot.place) }
        requires zeros { HasZerosFrom low (body_at (entries (shown self.now)) spot.place) }
        requires few { P.D ≤ 16 }
        requires known { IsBody P.D 62 known.old }
        ensures { known.new ≡ joined_digits (shown self.now) spot known.old }
    {
        let level = self.level();
        if low + 1 == level {
            join_address(level, spot.addr, known);
        } else {
            self.join(spot, known);
        }
    }

    /// Whether each number that [`join`](NodeRefOf::join) would make of those that are known lies between two bounds. It stops
    /// at the first that does not.
    #[inline(always)]
    pub fn lies_between(&self, spot: Spot, known: &[u64], low: &[u64], high: &[u64]) -> bool
        requires spot { IsSpot (entries (shown self.now)) spot }
        requires known { IsBody P.D 62 known.now }
        requires low { length low.now ≡ P.D }
        requires high { length high.now ≡ P.D }
        ensures between { result ≡ each_between low.now high.now (joined_digits (shown self.now) spot known.now) }
        ensures body { IsBody P.D (shown self.now).level (body_at (entries (shown self.now)) spot.place) }
    {
        let at = self.body_place(spot);
        let words = self.words();
        is_row_between(words, at, self.level(), spot.addr, known, low, high)
    }

    /// The sum of the squares of the differences between the numbers that [`join`](NodeRefOf::join) would make of those that are
    /// known, and others. None where it is more than `limit`: it stops at the first number that makes it so.
    #[inline(always)]
    pub fn distance_within(
        &self,
        spot: Spot,
        known: &[u64],
        others: &[u64],
        limit: u128,
    ) -> Option<u128>
        requires spot { IsSpot (entries (shown self.now)) spot }
        requires known { IsBody P.D 62 known.now }
        requires others { IsBody P.D 62 others.now }
        ensures { IsDistanceWithin limit (joined_digits (shown self.now) spot known.now) others.now result }
    {
        let at = self.body_place(spot);
        let words = self.words();
        row_distance(words, at, self.level(), spot.addr, known, others, limit)
    }

    /// Entry `i`, in the order of the addresses.
    pub fn entry(&self, i: usize) -> EntryOf<'t, NodeOf<P>>
        requires { i < length (entries (shown self.now)) }
        ensures shows { slice_get (entries (shown self.now)) i ≡ Some (entry_of P.D result) }
        ensures address { result.addr < 2 ^ P.D }
        ensures body { IsBodyArray P.D (shown self.now).level result.body }
    {
        let spot = self.spot(i);
        let body = self.body(spot);
        EntryOf {
            addr: spot.addr,
            body,
            what: self.what(spot),
        }
    }

    /// The record of the node, which is the words of its block.
    #[inline(always)]
    pub fn words(&self) -> &'t [u64]
        ensures { result.now ≡ pack P.D (shown self.now) }
    {
        let node = self.node;
        node.block.words()
    }

    /// The children, in the order of their addresses.
    #[inline(always)]
    pub fn children(&self) -> &'t [ChildOf<P>]
        ensures { nodes_of result.now ≡ child_nodes (shown self.now).chain }
    {
        let node = self.node;
        node.block.values()
    }

    /// Whether the record of the node has the cube layout.
    #[inline(always)]
    pub fn is_cube(&self) -> bool
        ensures { result ≡ is_cube P.D (shown self.now).level (length (flat (shown self.now).chain)) }
    {
        let node = self.node;
        records::has_cube(node.block.words(), P::D)
    }

    /// Whether the record changes its layout when one of the entries goes: only then
    /// [`drop_entry`](NodeOf::drop_entry) wants words to lay it out in.
    #[inline(always)]
    pub fn is_relaid(&self) -> bool
        ensures { result ≡ is_relaid P.D (shown self.now).level (length (entries (shown self.now))) }
    {
        let node = self.node;
        let dims = P::D;
        let words = node.block.words();
        let left = records::count(words) - 1;
        records::changes_layout(words, dims, left)
    }

    // Whether the body of an entry is the digits of these numbers below the node's level, of which the last `low` count as
    // zeros.
    #[inline(always)]
    fn is_body(&self, spot: Spot, low: u32, numbers: &[u64]) -> bool
        requires spot { IsSpot (entries (shown self.now)) spot }
        requires low { low ≤ 63 }
        requires dims { length numbers.now ≡ P.D }
        ensures { result ≡ same_digits (body_at (entries (shown self.now)) spot.place) (map (cut (shown self.now).level low) numbers.now) }
    {
        let at = self.body_place(spot);
        is_row(self.words(), at, self.level(), low, numbers)
    }

    // The body of an entry, with zeros behind its fields.
    #[inline(always)]
    fn body(&self, spot: Spot) -> [u64; 16]
        requires { IsSpot (entries (shown self.now)) spot }
        ensures fields { take P.D result ≡ body_at (entries (shown self.now)) spot.place }
        ensures body { IsBodyArray P.D (shown self.now).level result }
    {
        let at = self.body_place(spot);
        row(self.words(), at, self.level(), P::D)
    }

    // The digit of the record at which the body of an entry begins.
    #[inline(always)]
    fn body_place(&self, spot: Spot) -> u64
        requires { IsSpot (entries (shown self.now)) spot }
        ensures inside { result + P.D * (shown self.now).level ≤ 64 * length (pack P.D (shown self.now)) }
        ensures near { result ≤ 2 ^ 62 }
        ensures body { digits_row (pack P.D (shown self.now)) result (shown self.now).level P.D ≡ body_at (entries (shown self.now)) spot.place }
        ensures digits { IsBody P.D (shown self.now).level (body_at (entries (shown self.now)) spot.place) }
        ensures few { P.D ≤ 16 }
    {
        let node = self.node;
        records::body_at(node.block.words(), P::D, spot)
    }
}
