//! The point behind which a walk goes on.
ghost use Rattle.std.specs.Prelude.{◌≡◌, ◌<◌, ◌≤◌, ◌^◌, map};
ghost use Rattle.ph_specs.specs.TableNames.{offset, IsPoint, address, before};
ghost use Rattle.ph_path.specs.Known.{known_at, point_at};
ghost use Rattle.ph_window.specs.Resumed.{IsStand};

use crate::parting::parting;
use ph_coord::{Dims, Width, offsets_of};
use ph_digits::body_address;
use ph_path::KnownOf;
use std::marker::{Model, PhantomData};

// How a point stands to a region: it holds it, or all its points come later, or earlier.
#[derive(Drop)]
pub(crate) enum Stand {
    Holds,
    Later,
    Earlier,
}

// A point, by the offsets of its coordinates.
#[derive(Drop)]
pub(crate) struct MarkOf<P: Dims> {
    offsets: [u64; 16],
    width: Width,
    dims: PhantomData<P>,
}

impl<P: Dims> Model for MarkOf<P> {
    ghost use Rattle.std.specs.Prelude.{take};
    ghost use Rattle.ph_path.specs.Known.{Known};
    ghost use Rattle.ph_window.specs.Mark.{IsMark};

    ghost Value = { Known };

    ghost view = { λ a. record { width = a.width; digits = take P.D a.offsets } };

    ghost invariant = { λ a. IsMark P.D (record { width = a.width; digits = take P.D a.offsets }) };
}

impl<P: Dims> MarkOf<P> {
    pub(crate) fn new(w: Width, p: &[i64]) -> MarkOf<P>
        requires few { P.D ≤ 16 }
        requires point { IsPoint w P.D p.now }
        ensures { result ≡ known_at w (map (offset w) p.now) }
    {
        let _bits = w.bits();
        MarkOf {
            offsets: offsets_of(w, p),
            width: w,
            dims: PhantomData,
        }
    }

    // The hypercube address of the point at a level.
    pub(crate) fn address(&self, level: u32) -> u32
        requires { level < self.now.width }
        ensures value { result ≡ address self.now.width (point_at self.now.width self.now.digits) level }
        ensures limit { result < 2 ^ P.D }
    {
        body_address(level, &self.offsets[..P::D])
    }

    // How it stands to the region of the digits at hand above a level.
    pub(crate) fn stand(&self, known: &KnownOf<P>, level: u32) -> Stand
        requires width { self.now.width ≡ known.now.width }
        ensures { IsStand level known.now self.now result }
    {
        let point = &self.offsets[..P::D];
        let Some((place, is_later)) = parting(point, known.digits()) else {
            return Stand::Holds;
        };
        if place <= level {
            return Stand::Holds;
        }
        if is_later {
            Stand::Later
        } else {
            Stand::Earlier
        }
    }

    // Whether the digits at hand come behind it.
    pub(crate) fn is_before(&self, known: &KnownOf<P>) -> bool
        requires width { self.now.width ≡ known.now.width }
        ensures { result ≡ before self.now.width (point_at self.now.width self.now.digits) (point_at self.now.width known.now.digits) }
    {
        let point = &self.offsets[..P::D];
        match parting(point, known.digits()) {
            Some((_, is_later)) => is_later,
            None => false,
        }
    }
}
