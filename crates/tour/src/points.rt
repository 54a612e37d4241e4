//! The points of the tour.

ghost use Rattle.std.specs.Prelude.{◌≡◌, IfOk};
ghost use Rattle.ph_specs.specs.TableNames.{IsPoint};

use crate::error::TourError;
use ph_coord::{Point, Width};

/// The rows that are put, each as its two coordinates and its value.
pub const ROWS: [(i64, i64, u64); 4] = [(-3, 2, 10), (2, 0, 20), (3, 0, 30), (3, 1, 40)];

/// How many rows the tree may have.
pub const MOST: u64 = 4;

/// The width of the coordinates: 3 bits, for numbers from -4 to 3.
pub fn width() -> Width
    ensures { result ≡ 3 }
{
    match Width::new(3) {
        Some(w) => w,
        None => unreachable!(),
    }
}

/// The point of two coordinates, if they fit the width.
pub fn point(x: i64, y: i64) -> Result<Point<2>, TourError>
    ensures { IfOk result (λ p. IsPoint 3 2 p) }
{
    match Point::from_slice(width(), &[x, y]) {
        Some(p) => Ok(p),
        None => Err(TourError::Range),
    }
}
