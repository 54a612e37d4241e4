//! The points between two corners.
ghost use Rattle.std.specs.Prelude.{◌≡◌, ◌<◌, ◌≤◌, ◌-◌, ◌+◌, ◌&&◌, true, false, nat_le, length, map, replicate};
ghost use Rattle.ph_specs.specs.TableNames.{offset, IsPoint, is_between as lies_between};
ghost use Rattle.ph_model.specs.ModelNames.{what_at, IsLawfulFrom, entries, body_above, masks as the_masks, node_region};
ghost use Rattle.ph_specs.specs.WorkNames.{meets_window};
ghost use Rattle.ph_node.specs.Between.{each_between};
ghost use Rattle.ph_node.specs.Kinds.{is_node};
ghost use Rattle.ph_node.specs.Shown.{shown};
ghost use Rattle.ph_node.specs.Spots.{IsSpot, joined_digits};
ghost use Rattle.ph_path.specs.Known.{point_at};
ghost use Rattle.ph_walk.specs.Area.{IsSpotFound, AreDone};
ghost use Rattle.ph_window.specs.Corners.{corners_at, points_of, HasMasks};

use crate::seek::seek;
use ph_coord::{Dims, Width, offsets_of};
use ph_node::Spot;
use ph_path::{FrameOf, KnownOf, VisitOf};
use ph_walk::{Area, Masks};
use ph_zorder::offset_masks;
use std::marker::{Model, PhantomData};

// In up to so many dimensions most of the points that a walk comes to are in the window, and a look ahead does not pay.
const FEW_DIMS: usize = 3;

// Two corners, by their offsets.
#[derive(Drop)]
pub(crate) struct CornersOf<P: Dims> {
    width: Width,
    low: [u64; 16],
    high: [u64; 16],
    dims: PhantomData<P>,
}

impl<P: Dims> Model for CornersOf<P> {
    ghost use Rattle.std.specs.Prelude.{take};
    ghost use Rattle.ph_window.specs.Corners.{Corners, AreCorners, corners_at};

    ghost Value = { Corners };

    ghost view = { λ a. corners_at a.width (take P.D a.low) (take P.D a.high) };

    ghost invariant = { λ a. AreCorners P.D (corners_at a.width (take P.D a.low) (take P.D a.high)) };
}

impl<P: Dims> CornersOf<P> {
    pub(crate) fn new(w: Width, lo: &[i64], hi: &[i64]) -> CornersOf<P>
        requires few { P.D ≤ 16 }
        requires lo { IsPoint w P.D lo.now }
        requires hi { IsPoint w P.D hi.now }
        ensures { result ≡ corners_at w (map (offset w) lo.now) (map (offset w) hi.now) }
    {
        let _bits = w.bits();
        CornersOf {
            width: w,
            low: offsets_of(w, lo),
            high: offsets_of(w, hi),
            dims: PhantomData,
        }
    }

    // Whether a point lies between them.
    pub(crate) fn have_points(&self) -> bool
        requires some { 1 ≤ P.D }
        requires few { P.D ≤ 16 }
        ensures { result
            ≡ meets_window self.now.width (node_region self.now.width (self.now.width - 1) (replicate P.D 0))
            (point_at self.now.width self.now.low) (point_at self.now.width self.now.high) }
    {
        let known = KnownOf::new(self.width);
        self.masks(&known, self.width.bits() - 1).is_some()
    }

    // The masks of the window in a node at a level, below the digits that are known.
    #[inline(always)]
    fn masks(&self, known: &KnownOf<P>, level: u32) -> Option<(u32, u32)>
        requires width { known.now.width ≡ self.now.width }
        requires level { level < known.now.width }
        ensures { result
            ≡ the_masks self.now.width (node_region self.now.width level (body_above level known.now.digits))
            (point_at self.now.width self.now.low) (point_at self.now.width self.now.high) }
    {
        let dims = P::D;
        offset_masks(level, known.digits(), &self.low[..dims], &self.high[..dims])
    }

    // Whether an entry is a point outside of the window, told before anything is joined. In few dimensions it answers no.
    #[inline(always)]
    fn rules_out(&self, known: &KnownOf<P>, node: VisitOf<'_, P>, spot: Spot) -> bool
        requires width { known.now.width ≡ self.now.width }
        requires level { (shown node).level < known.now.width }
        requires spot { IsSpot (entries (shown node)) spot }
        ensures point { result ≡ true → is_node (what_at (entries (shown node.entry)) spot.place) ≡ false }
        ensures outside { result ≡ true
            → lies_between (point_at self.now.width self.now.low) (point_at self.now.width self.now.high)
            (point_at self.now.width (joined_digits (shown node.entry) spot known.now.digits))
            ≡ false }
    {
        let digits = known.digits();
        if digits.len() <= FEW_DIMS || node.is_child(spot) {
            return false;
        }
        let dims = P::D;
        !node.lies_between(spot, digits, &self.low[..dims], &self.high[..dims])
    }

    // Whether an entry stands at the last address that fits the masks. In many dimensions that is rare, and it answers no.
    #[inline(always)]
    fn is_last_to_fit(
        &self,
        known: &KnownOf<P>,
        node: VisitOf<'_, P>,
        spot: Spot,
        note: Masks,
    ) -> bool
        requires width { known.now.width ≡ self.now.width }
        requires level { (shown node).level < known.now.width }
        requires lawful { IsLawfulFrom P.D (shown node).level 0 (shown node).chain }
        requires masks { HasMasks self.now (shown node).level (body_above (shown node).level known.now.digits) note }
        requires spot { IsSpot (entries (shown node)) spot }
        ensures { result ≡ true → AreDone (points_of self.now) (shown node.entry) known.now.digits (spot.place + 1) }
    {
        // Uses that make known that the digits and the corners fit the width.
        let digits = known.digits();
        let _low = &self.low;
        if digits.len() > FEW_DIMS {
            return false;
        }
        spot.addr == note.upper
    }

    // Whether the point with the known digits is in the window.
    fn is_inside(&self, known: &KnownOf<P>) -> bool
        requires { known.now.width ≡ self.now.width }
        ensures { result
            ≡ lies_between (point_at self.now.width self.now.low) (point_at self.now.width self.now.high)
            (point_at known.now.width known.now.digits) }
    {
        let dims = P::D;
        are_between(&self.low[..dims], &self.high[..dims], known.digits())
    }

    // The first entry at or behind a place that fits the masks and is not ruled out.
    fn first_open(
        &self,
        known: &KnownOf<P>,
        node: VisitOf<'_, P>,
        mut place: usize,
        note: Masks,
    ) -> Option<Spot>
        requires width { known.now.width ≡ self.now.width }
        requires level { (shown node).level < known.now.width }
        requires lawful { IsLawfulFrom P.D (shown node).level 0 (shown node).chain }
        requires masks { HasMasks self.now (shown node).level (body_above (shown node).level known.now.digits) note }
        ensures { IsSpotFound (points_of self.now) (shown node.entry) known.now.digits place result }
    {
        // Uses that make known that the digits and the corners fit the width.
        let _digits = known.digits();
        let _low = &self.low;
        // The first entry stands before the loop, since it is mostly the one, and what a loop readies for its later turns costs more.
        let Some(spot) = seek(FrameOf { node, place, note }) else {
            return None;
        };
        if !self.rules_out(known, node, spot) {
            return Some(spot);
        }
        place = spot.place + 1;
        while let Some(spot) = seek(FrameOf { node, place, note }) {
            if !self.rules_out(known, node, spot) {
                return Some(spot);
            }
            place = spot.place + 1;
        }
        None
    }
}

impl<P: Dims> Area<P> for CornersOf<P> {
    ghost use Rattle.ph_window.specs.Corners.{points_of, HasMasks};

    type Told = ();

    ghost points = { points_of };

    ghost told = { λ s p. tt };

    ghost IsNoted = { HasMasks };

    #[inline(always)]
    fn note(&self, known: &KnownOf<P>, level: u32) -> Option<Masks> {
        let Some((lower, upper)) = self.masks(known, level) else {
            return None;
        };
        Some(Masks { lower, upper })
    }

    fn next(
        &self,
        known: &KnownOf<P>,
        node: &VisitOf<'_, P>,
        place: usize,
        note: Masks,
    ) -> Option<Spot> {
        self.first_open(known, *node, place, note)
    }

    #[inline(always)]
    fn is_last(&self, known: &KnownOf<P>, node: &VisitOf<'_, P>, spot: Spot, note: Masks) -> bool {
        self.is_last_to_fit(known, *node, spot, note)
    }

    fn test(&self, known: &KnownOf<P>) -> Option<()> {
        if self.is_inside(known) {
            return Some(());
        }
        None
    }
}

// Whether each number lies between two others.
fn are_between(lo: &[u64], hi: &[u64], p: &[u64]) -> bool
    requires low { length lo.now ≡ length p.now }
    requires high { length hi.now ≡ length p.now }
    ensures { result ≡ each_between lo.now hi.now p.now }
{
    for i in 0..p.len() {
        if !is_between(lo[i], hi[i], p[i]) {
            return false;
        }
    }
    true
}

fn is_between(lo: u64, hi: u64, x: u64) -> bool
    ensures { result ≡ (nat_le lo x && nat_le x hi) }
{
    lo <= x && x <= hi
}
