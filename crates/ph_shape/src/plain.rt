//! An owned plain tree.
ghost use Rattle.std.specs.Prelude.{◌≡◌, ◌<◌, length, slice_get, IfSome, Some};
ghost use Rattle.ph_model.specs.ModelNames.{entries};
ghost use Rattle.ph_shape.specs.Bodies.{filled, IsFilled};
ghost use Rattle.ph_shape.specs.View.{entry_of};
ghost use Rattle.ph_shape.specs.Shown.{IsValue, IsChild};

use ph_coord::{Dim, Dims};
use std::marker::{Model, PhantomData};

/// A node of a plain tree, and the nodes below it.
///
/// A body is 16 numbers, of which the first are those of the entry, one a dimension, and the others are zeros.
#[cycle(plain)]
#[derive(Drop)]
pub struct PlainOf<P: Dims> {
    level: u32,
    entries: Vec<EntryOf<P>>,
    dims: PhantomData<P>,
}

/// A plain tree of D dimensions.
pub type Plain<const D: usize> = PlainOf<Dim<D>>;

#[cycle(plain)]
#[derive(Drop)]
pub(crate) struct EntryOf<P: Dims> {
    pub(crate) addr: u32,
    pub(crate) body: [u64; 16],
    pub(crate) held: HeldOf<P>,
}

#[cycle(plain)]
#[derive(Drop)]
pub(crate) enum HeldOf<P: Dims> {
    Value(u64),
    Child(PlainOf<P>),
}

impl<P: Dims> Model for PlainOf<P> {
    ghost use Rattle.ph_specs.specs.TreeNames.{PlainNode};
    ghost use Rattle.ph_model.specs.ModelNames.{node_of, coded_node};

    ghost Value = { PlainNode };

    ghost coded = { coded_node };

    ghost use Rattle.std.specs.Prelude.{map};
    ghost use Rattle.ph_model.specs.ModelNames.{node_size};
    ghost use Rattle.ph_shape.specs.View.{entry_of, AreFilled};

    ghost view = { λ a. node_of a.level (map (entry_of P.D) a.entries.items) };

    ghost invariant = { λ a. AreFilled P.D a.entries.items };

    ghost size = { node_size };

    ghost use Rattle.std.proofs.Common.{arith};
    ghost use Rattle.ph_shape.specs.Falls.{falls};

    ghost size_decreases = { λ a h. omega (arith, falls P.Dims P.D a.entries.items) };
}

impl<P: Dims> PlainOf<P> {
    ghost use Rattle.std.specs.Prelude.{map};
    ghost use Rattle.ph_model.specs.ModelNames.{node_of};
    ghost use Rattle.ph_shape.specs.View.{AreFilled};

    pub(crate) fn new(level: u32, entries: Vec<EntryOf<P>>) -> PlainOf<P>
        requires { AreFilled P.D entries.items }
        ensures { result ≡ node_of level (map (entry_of P.D) entries.items) }
    {
        PlainOf {
            level,
            entries,
            dims: PhantomData,
        }
    }

    /// The place at which the node splits, from 0 for the least digits.
    pub fn level(&self) -> u32
        ensures { result ≡ self.now.level }
    {
        self.level
    }

    /// The number of entries.
    pub fn len(&self) -> usize
        ensures { result ≡ length (entries self.now) }
    {
        self.entries.len()
    }

    /// The address of entry i.
    pub fn addr(&self, i: usize) -> u32
        requires { i < length (entries self.now) }
        ensures { IfSome (slice_get (entries self.now) i) (λ e. result ≡ e.addr) }
    {
        self.entry(i).addr
    }

    /// The body of entry i: a number for each dimension, then zeros.
    pub fn body(&self, i: usize) -> [u64; 16]
        requires { i < length (entries self.now) }
        ensures { IfSome (slice_get (entries self.now) i) (λ e. result ≡ filled e.body) }
    {
        self.entry(i).body
    }

    /// The value of entry i, if it is a point.
    pub fn value(&self, i: usize) -> Option<u64>
        requires { i < length (entries self.now) }
        ensures { IfSome (slice_get (entries self.now) i) (λ e. IsValue e.what result) }
    {
        match &self.entry(i).held {
            HeldOf::Value(value) => Some(*value),
            HeldOf::Child(_) => None,
        }
    }

    /// The child of entry i, if it is no point.
    pub fn child(&self, i: usize) -> Option<&PlainOf<P>>
        requires { i < length (entries self.now) }
        ensures { IfSome (slice_get (entries self.now) i) (λ e. IsChild e.what result) }
    {
        match &self.entry(i).held {
            HeldOf::Value(_) => None,
            HeldOf::Child(child) => Some(child),
        }
    }

    pub(crate) fn entries(&self) -> &[EntryOf<P>]
        ensures { map (entry_of P.D) result.now ≡ entries self.now }
    {
        &self.entries
    }

    fn entry(&self, i: usize) -> &EntryOf<P>
        requires { i < length (entries self.now) }
        ensures shows { slice_get (entries self.now) i ≡ Some (entry_of P.D result.now) }
        ensures filled { IsFilled P.D result.now.body }
    {
        &self.entries[i]
    }
}
