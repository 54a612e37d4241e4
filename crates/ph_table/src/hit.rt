//! Rows that were found near a point.
ghost use Rattle.std.specs.Prelude.{◌≡◌};
ghost use Rattle.ph_table.specs.Hits.{IsPlaceFor};

use ph_coord::Row;
use std::marker::Model;

/// A row, and the square of its distance from the point that was asked.
#[derive(Clone, Copy, Debug, PartialEq, Eq)]
pub struct Hit<const D: usize> {
    pub row: Row<D>,
    pub distance: u128,
}

impl<const D: usize> Model for Hit<D> {
    ghost use Rattle.ph_table.specs.Hits.{TableHit};

    ghost Value = { TableHit };

    ghost view = { λ h. record { row = h.row; distance = h.distance } };

    ghost inverse = { λ h. record { row = h.row; distance = h.distance } };
}

// How many of the first hits are no farther than a distance.
pub(crate) fn hits_before<const D: usize>(hits: &[Hit<D>], distance: u128) -> usize
    ensures { IsPlaceFor hits.now distance result }
{
    let mut place = 0;
    for hit in hits {
        if distance < hit.distance {
            return place;
        }
        place += 1;
    }
    place
}
