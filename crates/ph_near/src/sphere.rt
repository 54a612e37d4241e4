//! The points within a radius of a center.
ghost use Rattle.std.specs.Prelude.{◌≡◌, ◌≤◌, ◌-◌, true, false, map};
ghost use Rattle.ph_specs.specs.TableNames.{offset, IsPoint, distance};
ghost use Rattle.ph_model.specs.ModelNames.{what_at, IsBody, IsLawfulFrom, entries};
ghost use Rattle.ph_node.specs.Kinds.{is_node};
ghost use Rattle.ph_node.specs.Shown.{shown};
ghost use Rattle.ph_node.specs.Split.{body_at};
ghost use Rattle.ph_node.specs.Spots.{IsSpot, joined_digits};
ghost use Rattle.ph_walk.specs.Area.{IsSpotFound, IsTold};
ghost use Rattle.ph_near.specs.BallSphere.{sphere_at, center_of, points_of, reaches, IsOut};

use crate::beyond::{is_point_beyond, is_region_beyond};
use ph_coord::{Dims, Width, offsets_of};
use ph_node::Spot;
use ph_path::{KnownOf, VisitOf};
use ph_walk::{Area, Masks};
use ph_zorder::offset_distance;
use std::marker::{Model, PhantomData};

// In up to so many dimensions digits are joined as fast as a distance is told without them.
const FEW_DIMS: usize = 2;

// The center by its offsets, and the square of the radius.
#[derive(Drop)]
pub(crate) struct SphereOf<P: Dims> {
    width: Width,
    center: [u64; 16],
    radius: u128,
    dims: PhantomData<P>,
}

impl<P: Dims> Model for SphereOf<P> {
    ghost use Rattle.std.specs.Prelude.{take};
    ghost use Rattle.ph_near.specs.BallSphere.{Sphere, IsSphere, sphere_at};

    ghost Value = { Sphere };

    ghost view = { λ a. sphere_at a.width (take P.D a.center) a.radius };

    ghost invariant = { λ a. IsSphere P.D (sphere_at a.width (take P.D a.center) a.radius) };
}

impl<P: Dims> SphereOf<P> {
    pub(crate) fn new(w: Width, q: &[i64], r: u128) -> SphereOf<P>
        requires few { P.D ≤ 16 }
        requires point { IsPoint w P.D q.now }
        ensures { result ≡ sphere_at w (map (offset w) q.now) r }
    {
        let _bits = w.bits();
        SphereOf {
            width: w,
            center: offsets_of(w, q),
            radius: r,
            dims: PhantomData,
        }
    }

    // Whether an entry is a point outside of the ball, or a child without a point in it, told before anything is joined. Of a
    // point in few dimensions it answers no.
    #[inline(always)]
    fn rules_out(&self, known: &KnownOf<P>, node: VisitOf<'_, P>, spot: Spot) -> bool
        requires width { known.now.width ≡ self.now.width }
        requires spot { IsSpot (entries (shown node)) spot }
        requires body { IsBody P.D (shown node).level (body_at (entries (shown node)) spot.place) }
        ensures far { result ≡ true
            → IsOut self.now (shown node.entry).level (joined_digits (shown node.entry) spot known.now.digits)
            (what_at (entries (shown node.entry)) spot.place) }
        ensures near { result ≡ false → is_node (what_at (entries (shown node.entry)) spot.place) ≡ true
            → 1 ≤ (shown node.entry).level
            → reaches self.now ((shown node.entry).level - 1) (joined_digits (shown node.entry) spot known.now.digits) ≡ true }
    {
        let center = &self.center[..P::D];
        let digits = known.digits();
        if node.is_child(spot) {
            return is_region_beyond(node.level(), spot.addr, digits, center, self.radius);
        }
        P::D > FEW_DIMS && is_point_beyond(node, spot, digits, center, self.radius)
    }

    // The first entry at or behind a place that is not ruled out. Mostly it is the one at the place, so a loop does not pay there.
    fn first_inside(&self, known: &KnownOf<P>, node: VisitOf<'_, P>, place: usize) -> Option<Spot>
        requires width { known.now.width ≡ self.now.width }
        requires lawful { IsLawfulFrom P.D (shown node).level 0 (shown node).chain }
        ensures { IsSpotFound (points_of self.now) (shown node.entry) known.now.digits place result }
    {
        if place >= node.len() {
            return None;
        }
        let spot = node.spot(place);
        if !self.rules_out(known, node, spot) {
            return Some(spot);
        }
        self.first_behind(known, node, place + 1)
    }

    // The same by a loop.
    fn first_behind(&self, known: &KnownOf<P>, node: VisitOf<'_, P>, place: usize) -> Option<Spot>
        requires width { known.now.width ≡ self.now.width }
        requires lawful { IsLawfulFrom P.D (shown node).level 0 (shown node).chain }
        ensures { IsSpotFound (points_of self.now) (shown node.entry) known.now.digits place result }
    {
        for i in place..node.len() {
            let spot = node.spot(i);
            if !self.rules_out(known, node, spot) {
                return Some(spot);
            }
        }
        None
    }

    // The distance of the point with the known digits, where it is within the radius.
    fn distance_within(&self, known: &KnownOf<P>) -> Option<u128>
        requires width { known.now.width ≡ self.now.width }
        ensures { IsTold (points_of self.now) (λ p. distance p (center_of self.now)) known.now result }
    {
        let center = &self.center[..P::D];
        let distance = offset_distance(known.width(), known.digits(), center);
        if distance > self.radius {
            return None;
        }
        Some(distance)
    }
}

impl<P: Dims> Area<P> for SphereOf<P> {
    ghost use Rattle.ph_specs.specs.TableNames.{distance};
    ghost use Rattle.ph_near.specs.BallSphere.{points_of, center_of};

    type Told = u128;

    ghost points = { points_of };

    ghost told = { λ s p. distance p (center_of s) };

    ghost IsNoted = { λ s level above m. Unit {0} };

    fn note(&self, _known: &KnownOf<P>, _level: u32) -> Option<Masks> {
        Some(Masks {
            lower: 0,
            upper: u32::MAX,
        })
    }

    fn next(
        &self,
        known: &KnownOf<P>,
        node: &VisitOf<'_, P>,
        place: usize,
        _note: Masks,
    ) -> Option<Spot> {
        self.first_inside(known, *node, place)
    }

    #[inline(always)]
    fn is_last(
        &self,
        _known: &KnownOf<P>,
        node: &VisitOf<'_, P>,
        spot: Spot,
        _note: Masks,
    ) -> bool {
        node.len() <= spot.place + 1
    }

    fn test(&self, known: &KnownOf<P>) -> Option<u128> {
        self.distance_within(known)
    }
}
