//! Squared Euclidean distances of points and of regions.
ghost use Rattle.std.specs.Prelude.{◌≡◌, ◌*◌, ◌+◌, ◌-◌, ◌^◌, ◌<◌, ◌≤◌, length, map, List, ℤ, true, IsTrue};
ghost use Rattle.std.specs.List.{list_all, AllByRecursion as Each};
ghost use Rattle.ph_specs.specs.TableNames.{coordinate, fits, IsPoint, distance as the_distance};
ghost use Rattle.ph_specs.specs.WorkNames.{is_in, least_distance as the_least_distance};
ghost use Rattle.ph_model.specs.ModelNames.{gap};
ghost use Rattle.ph_zorder.specs.Squares.{greatest_square};

use crate::regions::{Region, ones_below};
use ph_coord::{Point, Width};
use ph_digits::digits_above;

/// The sum of the squares of the differences of two points' coordinates. It is exact.
///
/// The work is one pass over the dimensions, with one product for each.
pub fn distance<const D: usize>(p: &Point<D>, q: &Point<D>) -> u128
    requires dims { D ≤ 16 }
    requires first { IsPoint 62 D p.now }
    requires second { IsPoint 62 D q.now }
    ensures { result ≡ the_distance p.now q.now }
{
    distance_of(p.as_slice(), q.as_slice())
}

fn distance_of(p: &[i64], q: &[i64]) -> u128
    requires few { length p.now ≤ 16 }
    requires same { length p.now ≡ length q.now }
    requires first { IsTrue (list_all (fits 62) p.now) }
    requires second { IsTrue (list_all (fits 62) q.now) }
    ensures { result ≡ the_distance p.now q.now }
{
    let mut sum = 0;
    for (c, d) in p.iter().zip(q) {
        sum += square(c.abs_diff(*d));
    }
    sum
}

/// The least distance from a point to a point of a region, squared (the MINDIST of N. Roussopoulos, S. Kelley and F. Vincent, 1995).
///
/// The work is one pass over the dimensions, with one product for each.
pub fn least_distance<const D: usize>(w: Width, r: &Region<D>, q: &Point<D>) -> u128
    requires dims { D ≤ 16 }
    requires level { r.now.level < w }
    requires corner { IsPoint w D r.now.corner }
    requires point { IsPoint w D q.now }
    ensures value { result ≡ the_least_distance w r.now q.now }
    ensures nearest { (p : List ℤ) → IsPoint w D p → is_in w r.now p ≡ true → result ≤ the_distance p q.now }
    ensures reached { (p : List ℤ) × IsPoint w D p × (is_in w r.now p ≡ true) × (the_distance p q.now ≡ result) }
{
    least_of(w, r, q)
}

fn least_of<const D: usize>(w: Width, r: &Region<D>, q: &Point<D>) -> u128
    requires dims { D ≤ 16 }
    requires level { r.now.level < w }
    requires corner { IsPoint w D r.now.corner }
    requires point { IsPoint w D q.now }
    ensures { result ≡ the_least_distance w r.now q.now }
{
    let _bits = w.bits();
    offset_least_distance(w, r.level, &r.corner.offsets(w), &q.offsets(w))
}

/// The distance of two points that are given by the offsets of their coordinates.
pub fn offset_distance(w: Width, p: &[u64], q: &[u64]) -> u128
    requires few { length p.now ≤ 16 }
    requires same { length p.now ≡ length q.now }
    requires first { Each (λ x. x < 2 ^ w) p.now }
    requires second { Each (λ x. x < 2 ^ w) q.now }
    ensures { result ≡ the_distance (map (coordinate w) p.now) (map (coordinate w) q.now) }
{
    let _bits = w.bits();
    let mut sum = 0;
    for (x, y) in p.iter().zip(q) {
        sum += square(x.abs_diff(*y));
    }
    sum
}

// As `least_of`, where the region's corner and the point are given by the offsets of coordinates.
fn offset_least_distance(w: Width, level: u32, corner: &[u64], q: &[u64]) -> u128
    requires few { length corner.now ≤ 16 }
    requires same { length corner.now ≡ length q.now }
    requires level { level < w }
    requires first { Each (λ x. x < 2 ^ w) corner.now }
    requires second { Each (λ x. x < 2 ^ w) q.now }
    ensures { result ≡ the_least_distance w (record { corner = map (coordinate w) corner.now; level = level }) (map (coordinate w) q.now) }
{
    let _bits = w.bits();
    let mut sum = 0;
    for (x, y) in corner.iter().zip(q) {
        sum += square(region_gap(level, *x, *y));
    }
    sum
}

// How far an offset lies from those that have the digits of a known one above a level.
fn region_gap(level: u32, known: u64, x: u64) -> u64
    requires level { level ≤ 61 }
    requires first { known < 2 ^ 62 }
    requires second { x < 2 ^ 62 }
    ensures value { result ≡ gap level known x }
    ensures limit { result < 2 ^ 62 }
{
    let low = digits_above(level, known);
    let high = low + ones_below(level + 1);
    low.saturating_sub(x) + x.saturating_sub(high)
}

fn square(gap: u64) -> u128
    requires { gap < 2 ^ 62 }
    ensures value { result ≡ gap * gap }
    ensures limit { result ≤ greatest_square }
{
    u128::from(gap) * u128::from(gap)
}
