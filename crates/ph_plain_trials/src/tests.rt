//! Tests by what is asked, and the points that they are about.
ghost use Rattle.std.specs.Prelude.{◌≡◌};
ghost use Rattle.ph_specs.specs.TableNames.{IsPoint};

mod boxes;
mod claims;
mod csv;
mod distances;
mod shapes;
mod tables;
mod values;
mod zorder;

use ph_coord::{Point, Width};
use std::process::Abort;

fn width(rt: &impl Abort, bits: u32) -> Width
    ensures { result ≡ bits }
{
    let Some(w) = Width::new(bits) else {
        panic!(rt; "no width");
    };
    w
}

fn point<const D: usize>(rt: &impl Abort, w: Width, coords: &[i64]) -> Point<D>
    ensures point { IsPoint w D result }
    ensures value { result ≡ coords.now }
{
    let Some(p) = Point::from_slice(w, coords) else {
        panic!(rt; "no point");
    };
    p
}
