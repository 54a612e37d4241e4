//! The entries that parts of rows make, as a record keeps them.
ghost use Rattle.std.specs.Prelude.{◌≡◌, ◌<◌, ◌≤◌, map, IsTrue};
ghost use Rattle.std.specs.List.{list_all};
ghost use Rattle.ph_model.specs.ModelNames.{unvalued};
ghost use Rattle.ph_bits.specs.Packed.{read_of, IsPadded};
ghost use Rattle.ph_bulk.specs.Parts.{flat_in, is_ready};

use crate::parts::Part;
use ph_bits::{Entries, Mark, Packed};
use ph_coord::Width;
use ph_shape::Space;
use std::marker::PhantomData;

/// The entries of a node that splits rows at a place.
#[derive(Drop)]
pub(crate) struct PartsOf<'t, P: Space> {
    pub(crate) w: Width,
    pub(crate) place: u32,
    pub(crate) parts: &'t [Part<'t, P::Row>],
    pub(crate) dims: PhantomData<P>,
    ghost few: { P.D ≤ 16 },
    ghost low: { place < w },
    ghost ready: { IsTrue (list_all (is_ready P.row_of w P.D place) parts.now) },
}

impl<'t, P: Space> Entries<P> for PartsOf<'t, P> {
    ghost list = { λ s. map (flat_in P.row_of s.w s.place) s.parts.now };

    fn count(&self) -> usize {
        self.parts.len()
    }

    #[inline(always)]
    fn at(&self, i: usize, mark: &mut Option<Mark>) -> Packed {
        let _ = mark;
        entry_of::<P>(self.w, self.place, &self.parts[i])
    }

    #[inline(always)]
    fn value(&self, i: usize, mark: &mut Option<Mark>) -> u64 {
        let _ = mark;
        let part = &self.parts[i];
        P::value(&part.rows[0])
    }
}

// The entry that a part makes.
#[inline(always)]
fn entry_of<P: Space>(w: Width, place: u32, part: &Part<'_, P::Row>) -> Packed
    requires few { P.D ≤ 16 }
    requires place { place < w }
    requires ready { IsTrue (is_ready P.row_of w P.D place part.now) }
    ensures entry { read_of P.D result ≡ unvalued (flat_in P.row_of w place part.now) }
    ensures zeros { IsPadded P.D result.body }
{
    let _bits = w.bits();
    let first = &part.rows[0];
    let addr = P::address(w, first, place);
    match part.level {
        None => Packed {
            addr,
            child: false,
            body: P::point_body(w, first, place),
            rank: 0,
        },
        Some(level) => Packed {
            addr,
            child: true,
            body: P::child_body(w, first, place, level),
            rank: 0,
        },
    }
}
