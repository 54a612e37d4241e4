//! Sets of points, as a walk asks for them.
ghost use Rattle.std.specs.Prelude.{◌≡◌, ◌<◌, ◌+◌, true};
ghost use Rattle.ph_model.specs.ModelNames.{IsLawfulFrom, entries, body_above};
ghost use Rattle.ph_node.specs.Shown.{shown};
ghost use Rattle.ph_node.specs.Spots.{IsSpot};
ghost use Rattle.ph_walk.specs.Area.{IsNote, IsSpotFound, AreDone, IsTold};

use ph_coord::Dims;
use ph_node::Spot;
use ph_path::{KnownOf, VisitOf};

/// Which addresses of a node may matter: those with every digit of the lower mask and none that the upper mask has not.
#[derive(Clone, Copy)]
pub struct Masks {
    pub lower: u32,
    pub upper: u32,
}

/// A set of points of one width.
pub trait Area<P: Dims> {
    ghost use Rattle.std.specs.Prelude.{ℕ, List, ℤ};
    ghost use Rattle.ph_walk.specs.Area.{Area as Points};
    ghost use Rattle.ph_walk.specs.declared.area.Masks.{Masks};

    /// What is told of a point that belongs to the set.
    type Told: Drop;

    /// The points, and the regions that have one of them.
    ghost points: { Self → Points };

    ghost told: { Self → List ℤ → Self.Told };

    /// What a note says of a node at a level, below the digits that are known above it.
    ghost IsNoted: { Self → ℕ → List ℕ → Masks → Type 0 };

    /// What is to be noted of a node at a level. None only where its region has no point of the set.
    fn note(&self, known: &KnownOf<P>, level: u32) -> Option<Masks>
        requires width { known.now.width ≡ (points self.now).width }
        requires level { level < known.now.width }
        ensures { IsNote (points self.now) (IsNoted self.now) level known.now.digits result };

    /// The first entry at or behind a place that is a child whose region has a point of the set, or a point that may belong to it.
    fn next(
        &self,
        known: &KnownOf<P>,
        node: &VisitOf<'_, P>,
        place: usize,
        note: Masks,
    ) -> Option<Spot>
        requires width { known.now.width ≡ (points self.now).width }
        requires level { (shown node.now).level < known.now.width }
        requires lawful { IsLawfulFrom P.D (shown node.now).level 0 (shown node.now).chain }
        requires noted { IsNoted self.now (shown node.now).level (body_above (shown node.now).level known.now.digits) note }
        ensures { IsSpotFound (points self.now) (shown node.now) known.now.digits place result };

    /// Whether no entry behind one holds a point of the set. It answers no where that is not known at once.
    fn is_last(&self, known: &KnownOf<P>, node: &VisitOf<'_, P>, spot: Spot, note: Masks) -> bool
        requires width { known.now.width ≡ (points self.now).width }
        requires level { (shown node.now).level < known.now.width }
        requires lawful { IsLawfulFrom P.D (shown node.now).level 0 (shown node.now).chain }
        requires noted { IsNoted self.now (shown node.now).level (body_above (shown node.now).level known.now.digits) note }
        requires spot { IsSpot (entries (shown node.now)) spot }
        ensures { result ≡ true → AreDone (points self.now) (shown node.now) known.now.digits (spot.place + 1) };

    /// What is told of the point with the known digits; None where it does not belong to the set.
    fn test(&self, known: &KnownOf<P>) -> Option<Self::Told>
        requires width { known.now.width ≡ (points self.now).width }
        ensures { IsTold (points self.now) (told self.now) known.now result };
}
