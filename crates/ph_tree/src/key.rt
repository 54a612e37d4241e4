//! A point by the offsets of its coordinates, from which the addresses and bodies of nodes are cut.

ghost use Rattle.std.specs.Prelude.{◌≡◌, ◌<◌, ◌≤◌, ◌^◌, length, take, map, IsTrue};
ghost use Rattle.std.specs.List.{list_all};
ghost use Rattle.ph_specs.specs.TableNames.{fits, offset, IsPoint, address};
ghost use Rattle.ph_specs.specs.TreeNames.{digits_below};
ghost use Rattle.ph_node.specs.Bodies.{IsBodyArray, IsFilled};

use ph_coord::{Dims, Width, offsets_of};
use ph_digits::{body_address, body_below};
use std::marker::{Model, PhantomData};

// A point of a width. Of each coordinate is kept how far it lies above the least one.
#[derive(Drop)]
pub(crate) struct KeyOf<P: Dims> {
    width: u32,
    offsets: [u64; 16],
    dims: PhantomData<P>,
}

impl<P: Dims> Model for KeyOf<P> {
    ghost use Rattle.ph_tree.specs.Key.{Key, key, IsKey};

    ghost Value = { Key };

    ghost view = { λ k. key P.D k.width k.offsets };

    ghost invariant = { λ k. IsKey P.D k.width k.offsets };
}

impl<P: Dims> KeyOf<P> {
    pub(crate) fn new(w: Width, coords: &[i64]) -> KeyOf<P>
        requires some { 1 ≤ P.D }
        requires few { P.D ≤ 16 }
        requires point { IsPoint w P.D coords.now }
        ensures width { result.width ≡ w }
        ensures point { result.point ≡ coords.now }
    {
        KeyOf {
            width: w.bits(),
            offsets: offsets_of(w, coords),
            dims: PhantomData,
        }
    }

    // The width, from 1 to 62.
    pub(crate) fn width(&self) -> u32
        ensures value { result ≡ self.now.width }
        ensures some { 1 ≤ result }
        ensures limit { result ≤ 62 }
    {
        self.width
    }

    // How far each coordinate lies above the least one.
    pub(crate) fn offsets(&self) -> &[u64]
        ensures value { result.now ≡ map (offset self.now.width) self.now.point }
        ensures dims { length result.now ≡ P.D }
    {
        &self.offsets[..P::D]
    }

    // The hypercube address at a level.
    pub(crate) fn address(&self, level: u32) -> u32
        requires { level < self.now.width }
        ensures value { result ≡ address self.now.width self.now.point level }
        ensures limit { result < 2 ^ P.D }
    {
        body_address(level, &self.offsets[..P::D])
    }

    // The body of a point entry at a level.
    pub(crate) fn below(&self, level: u32) -> [u64; 16]
        requires { level < self.now.width }
        ensures value { take P.D result ≡ digits_below self.now.width level self.now.point }
        ensures body { IsBodyArray P.D level result }
    {
        body_below(level, self.offsets)
    }
}
