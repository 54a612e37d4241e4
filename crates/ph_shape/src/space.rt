//! What trees need of the rows of so many dimensions.
//!
//! The recursions over a tree are generic in the number of dimensions as a type, and reach what is written for a const
//! parameter through this trait.
ghost use Rattle.std.specs.Prelude.{◌≡◌, ◌<◌, ◌≤◌, take, map, MatchOption};
ghost use Rattle.ph_specs.specs.TableNames.{IsPoint, coordinate, Row as TableRow, address};
ghost use Rattle.ph_specs.specs.TreeNames.{digits_below, digits_between};
ghost use Rattle.ph_zorder.specs.Compared.{IsTopDifference};
ghost use Rattle.ph_shape.specs.Bodies.{filled, AreBelow};

use ph_coord::{Dim, Dims, Point, Row, Width, offsets_of};
use ph_digits::{body_above, body_below};

/// Rows of points of so many dimensions, their addresses, and the bodies of their entries.
pub trait Space: Dims {
    /// A point of the dimensions, with a value.
    type Row: Drop;

    ghost row_of: { Self.Row → TableRow };

    /// The hypercube address of a row's point at a place of the width.
    fn address(w: Width, row: &Self::Row, place: u32) -> u32
        requires dims { Self.D ≤ 16 }
        requires point { IsPoint w Self.D (row_of row.now).point }
        requires place { place < w }
        ensures { result ≡ address w (row_of row.now).point place };

    /// The value of a row.
    fn value(row: &Self::Row) -> u64
        ensures { result ≡ (row_of row.now).value };

    /// The greatest place at which the points of two rows differ, and none where they are one point.
    fn top_difference(w: Width, first: &Self::Row, last: &Self::Row) -> Option<u32>
        requires first { IsPoint w Self.D (row_of first.now).point }
        requires last { IsPoint w Self.D (row_of last.now).point }
        ensures { MatchOption result ((row_of first.now).point ≡ (row_of last.now).point)
            (λ place. IsTopDifference w (row_of first.now).point (row_of last.now).point place) };

    /// The body of a row's point entry in a node that splits at a place: the digits below the place, then zeros.
    fn point_body(w: Width, row: &Self::Row, place: u32) -> [u64; 16]
        requires dims { Self.D ≤ 16 }
        requires point { IsPoint w Self.D (row_of row.now).point }
        requires place { place < 64 }
        ensures { result ≡ filled (digits_below w place (row_of row.now).point) };

    /// The body of the child entry that a row is behind: the digits below the place and above `low`, the place at which the child
    /// splits, then zeros.
    fn child_body(w: Width, row: &Self::Row, place: u32, low: u32) -> [u64; 16]
        requires dims { Self.D ≤ 16 }
        requires point { IsPoint w Self.D (row_of row.now).point }
        requires place { place < 64 }
        requires low { low < place }
        ensures { result ≡ filled (digits_between w place low (row_of row.now).point) };

    /// The row whose coordinates have these offsets.
    fn with_offsets(w: Width, digits: &[u64; 16], value: u64) -> Self::Row
        requires dims { Self.D ≤ 16 }
        requires small { AreBelow w (take Self.D digits.now) }
        ensures { row_of result ≡ record { point = map (coordinate w) (take Self.D digits.now); value = value } };
}

impl<const D: usize> Space for Dim<D> {
    type Row = Row<D>;

    ghost row_of = { λ r. r };

    fn address(w: Width, row: &Row<D>, place: u32) -> u32 {
        ph_zorder::address(w, &row.point, place)
    }

    fn value(row: &Row<D>) -> u64 {
        row.value
    }

    fn top_difference(w: Width, first: &Row<D>, last: &Row<D>) -> Option<u32> {
        ph_zorder::top_difference(w, &first.point, &last.point)
    }

    fn point_body(w: Width, row: &Row<D>, place: u32) -> [u64; 16] {
        body_below(place, offsets_of(w, row.point.as_slice()))
    }

    fn child_body(w: Width, row: &Row<D>, place: u32, low: u32) -> [u64; 16] {
        body_above(low, body_below(place, offsets_of(w, row.point.as_slice())))
    }

    fn with_offsets(w: Width, digits: &[u64; 16], value: u64) -> Row<D> {
        Row {
            point: Point::from_offsets(w, &digits[..D]),
            value,
        }
    }
}
