//! The points that are put.

ghost use Rattle.std.specs.Prelude.{◌≡◌, ◌<◌, ◌^◌, IsTrue};
ghost use Rattle.ph_specs.specs.TableNames.{fits, IsPoint};

use ph_coord::{Point, Width};
use rand_core::{Rng, SeedableRng};
use rand_xoshiro::SplitMix64;

const SEED: u64 = 2014;

const OTHER_SEED: u64 = 1999;

const CENTRES: u64 = 1000;

const COORDINATES: u64 = 1 << 32;
// How many coordinates lie at less than 2^16 from that of a centre.
const SIDE: u64 = (1 << 17) - 1;

/// How points lie in space.
#[derive(Clone, Copy)]
pub enum Kind {
    /// All over it.
    Uniform,
    /// Each at less than 2^16, in each dimension, from one of 1,000 centres, which lie all over it.
    Clustered,
}

/// The width of the coordinates.
pub fn width() -> Width
    ensures { result ≡ 32 }
{
    match Width::new(32) {
        Some(w) => w,
        None => unreachable!(),
    }
}

/// An endless sequence of points, the same one each time that it is begun.
#[derive(Drop)]
pub struct Points {
    kind: Kind,
    numbers: SplitMix64,
}

impl Points {
    /// The sequence of a kind, at its first point.
    pub fn new(kind: Kind) -> Points {
        Points {
            kind,
            numbers: SplitMix64::seed_from_u64(SEED),
        }
    }

    /// Another sequence of a kind, around the same centres.
    pub fn others(kind: Kind) -> Points {
        Points {
            kind,
            numbers: SplitMix64::seed_from_u64(OTHER_SEED),
        }
    }

    /// The next point of the sequence.
    pub fn next_point(&mut self) -> Point<3>
        ensures { IsPoint 32 3 result }
    {
        match self.kind {
            Kind::Uniform => anywhere(&mut self.numbers),
            Kind::Clustered => {
                let centre = self.numbers.next_u64() % CENTRES;
                near(centre, &mut self.numbers)
            }
        }
    }
}

fn anywhere(numbers: &mut SplitMix64) -> Point<3>
    ensures { IsPoint 32 3 result }
{
    point(
        numbers.next_u64() % COORDINATES,
        numbers.next_u64() % COORDINATES,
        numbers.next_u64() % COORDINATES,
    )
}

// A point near a centre, whose number also seeds the numbers that say where it is.
fn near(centre: u64, numbers: &mut SplitMix64) -> Point<3>
    ensures { IsPoint 32 3 result }
{
    let mut corner = SplitMix64::seed_from_u64(centre);
    point(
        from_corner(&mut corner, numbers),
        from_corner(&mut corner, numbers),
        from_corner(&mut corner, numbers),
    )
}

// Where a point near a centre is in one dimension. All such places lie in the space.
fn from_corner(corner: &mut SplitMix64, numbers: &mut SplitMix64) -> u64
    ensures { result < 2 ^ 32 }
{
    corner.next_u64() % (COORDINATES - SIDE + 1) + numbers.next_u64() % SIDE
}

// The point whose coordinates lie so far above the least one.
fn point(x: u64, y: u64, z: u64) -> Point<3>
    requires x { x < 2 ^ 32 }
    requires y { y < 2 ^ 32 }
    requires z { z < 2 ^ 32 }
    ensures { IsPoint 32 3 result }
{
    match Point::from_slice(width(), &[coordinate(x), coordinate(y), coordinate(z)]) {
        Some(p) => p,
        None => unreachable!(),
    }
}

fn coordinate(offset: u64) -> i64
    requires { offset < 2 ^ 32 }
    ensures { IsTrue (fits 32 result) }
{
    offset as i64 - (1 << 31)
}
