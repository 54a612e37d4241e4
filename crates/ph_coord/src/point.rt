//! Points and rows.
ghost use Rattle.std.specs.Prelude.{◌≡◌, ◌<◌, ◌^◌, length, map, slice_get, Some, IsTrue};
ghost use Rattle.std.specs.List.{list_all, AllByRecursion as Each};
ghost use Rattle.std.specs.Option.{SomeIff};
ghost use Rattle.ph_specs.specs.TableNames.{coordinate, fits, offset, IsPoint};

use crate::offsets::offsets_of;
use crate::width::Width;
use std::marker::Model;

/// A point of D dimensions, D numbers in the order of the dimensions. It takes `8 * D` bytes.
#[derive(Clone, Copy, Debug, PartialEq, Eq)]
pub struct Point<const D: usize> {
    coords: [i64; D],
}

impl<const D: usize> Model for Point<D> {
    ghost use Rattle.std.specs.Prelude.{List, ℤ};

    ghost Value = { List ℤ };

    ghost view = { λ p. p.coords };

    ghost inverse = { λ coords. record { coords = coords } };
}

impl<const D: usize> Point<D> {
    /// The point of these coordinates, whatever width they have.
    pub fn new(coords: [i64; D]) -> Point<D>
        ensures { result ≡ coords.entry }
    {
        Point { coords }
    }

    /// The point of these coordinates, if they are D numbers of the width.
    pub fn from_slice(w: Width, c: &[i64]) -> Option<Point<D>>
        ensures { SomeIff result (IsPoint w D c.now) c.now }
    {
        if c.len() != D || !all_fit(w, c) {
            return None;
        }
        let mut coords = [0; D];
        coords.copy_from_slice(c);
        Some(Point { coords })
    }

    /// The point whose coordinates lie so far above the least one.
    pub fn from_offsets(w: Width, offsets: &[u64]) -> Point<D>
        requires dims { length offsets.now ≡ D }
        requires small { Each (λ x. x < 2 ^ w) offsets.now }
        ensures value { result ≡ map (coordinate w) offsets.now }
        ensures point { IsPoint w D result }
    {
        let _bits = w.bits();
        let mut coords = [0; D];
        for i in 0..D {
            coords[i] = w.coordinate(offsets[i]);
        }
        Point { coords }
    }

    /// How far each coordinate lies above the least one.
    pub fn offsets(&self, w: Width) -> [u64; D]
        requires { IsPoint w D self.now }
        ensures { result ≡ map (offset w) self.now }
    {
        offsets_of(w, &self.coords)
    }

    /// The coordinate in dimension i, counted from 0.
    pub fn at(&self, i: usize) -> i64
        requires { i < D }
        ensures { slice_get self.now i ≡ Some result }
    {
        self.coords[i]
    }

    /// The coordinates, in the order of the dimensions.
    pub fn as_slice(&self) -> &[i64]
        ensures value { result.now ≡ self.now }
        ensures dims { length result.now ≡ D }
    {
        &self.coords
    }
}

// Whether each number is a coordinate of the width.
fn all_fit(w: Width, c: &[i64]) -> bool
    ensures { result ≡ list_all (fits w) c.now }
{
    c.iter().all(|x| w.fits(*x))
}

/// A point and the value that stands at it.
#[derive(Clone, Copy, Debug, PartialEq, Eq)]
pub struct Row<const D: usize> {
    pub point: Point<D>,
    pub value: u64,
}

impl<const D: usize> Model for Row<D> {
    ghost use Rattle.ph_specs.specs.TableNames.{Row as TableRow};

    ghost Value = { TableRow };

    ghost view = { λ r. record { point = r.point; value = r.value } };

    ghost inverse = { λ r. record { point = r.point; value = r.value } };
}
