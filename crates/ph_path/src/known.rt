//! The digits that are known where a walk stands.
ghost use Rattle.std.specs.Prelude.{◌≡◌, ◌<◌, ◌≤◌, length, take, replicate};
ghost use Rattle.ph_specs.specs.TableNames.{IsPoint};
ghost use Rattle.ph_model.specs.ModelNames.{HasZerosFrom, IsBody, entries};
ghost use Rattle.ph_node.specs.Shown.{shown};
ghost use Rattle.ph_node.specs.Split.{body_at};
ghost use Rattle.ph_node.specs.Spots.{IsSpot, joined_digits};
ghost use Rattle.ph_path.specs.Known.{known_at, point_at};

use crate::frame::VisitOf;
use ph_coord::{Dim, Dims, Point, Width};
use ph_node::Spot;
use std::marker::{Model, PhantomData};

/// The offsets of a point as far as its digits are known. What is known above a level does not change while digits are joined below
/// it, so one array serves all nodes of a path.
#[derive(Drop)]
pub struct KnownOf<P: Dims> {
    width: Width,
    digits: [u64; 16],
    dims: PhantomData<P>,
}

impl<P: Dims> Model for KnownOf<P> {
    ghost use Rattle.std.specs.Prelude.{take};
    ghost use Rattle.ph_path.specs.Known.{Known, AreKnown, known_at};

    ghost Value = { Known };

    ghost view = { λ a. known_at a.width (take P.D a.digits) };

    ghost invariant = { λ a. AreKnown P.D (known_at a.width (take P.D a.digits)) };
}

impl<P: Dims> KnownOf<P> {
    /// No digits.
    pub fn new(w: Width) -> KnownOf<P>
        requires some { 1 ≤ P.D }
        requires few { P.D ≤ 16 }
        ensures { result ≡ known_at w (replicate P.D 0) }
    {
        let _bits = w.bits();
        KnownOf {
            width: w,
            digits: [0; 16],
            dims: PhantomData,
        }
    }

    /// The width of the coordinates.
    pub fn width(&self) -> Width
        ensures { result ≡ self.now.width }
    {
        self.width
    }

    /// The digits, an offset for each dimension.
    pub fn digits(&self) -> &[u64]
        ensures value { result.now ≡ self.now.digits }
        ensures body { IsBody P.D self.now.width result.now }
        ensures few { length result.now ≤ 16 }
    {
        &self.digits[..P::D]
    }

    /// Puts the digits of an entry behind those that are known above its node's level.
    pub fn join(&mut self, node: VisitOf<'_, P>, spot: Spot)
        requires level { (shown node).level < self.old.width }
        requires spot { IsSpot (entries (shown node)) spot }
        ensures { self.new ≡ known_at self.old.width (joined_digits (shown node.entry) spot self.old.digits) }
    {
        let dims = P::D;
        node.join(spot, &mut self.digits[..dims]);
    }

    /// The same of an entry that is a child at the level `low`.
    #[inline(always)]
    pub fn join_child(&mut self, node: VisitOf<'_, P>, spot: Spot, low: u32)
        requires level { (shown node).level < self.old.width }
        requires spot { IsSpot (entries (shown node)) spot }
        requires low { low < (shown node).level }
        requires body { IsBody P.D (shown node).level (body_at (entries (shown node)) spot.place) }
        requires zeros { HasZerosFrom low (body_at (entries (shown node)) spot.place) }
        ensures { self.new ≡ known_at self.old.width (joined_digits (shown node.entry) spot self.old.digits) }
    {
        let dims = P::D;
        node.join_child(spot, low, &mut self.digits[..dims]);
    }
}

impl<const D: usize> KnownOf<Dim<D>> {
    /// The point with these digits.
    pub fn point(&self) -> Point<D>
        ensures value { result ≡ point_at self.now.width self.now.digits }
        ensures point { IsPoint self.now.width D result }
    {
        Point::from_offsets(self.width(), self.digits())
    }
}
