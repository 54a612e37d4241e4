//! Rows near a point, written into lent arrays with their distances.
ghost use Rattle.std.specs.Prelude.{◌≡◌, ◌+◌, ◌*◌, ◌<◌, ◌≤◌, ◌++◌, ◌∷◌, [], length, take, drop};
ghost use Rattle.ph_c.specs.Trees.{table_at};
ghost use Rattle.ph_c.specs.Pages.{overlaid};
ghost use Rattle.ph_c.specs.Nears.{FitHits, IsHitRoom, IsNear, halves, hit_distances, hit_points, hit_values};
ghost use Rattle.ph_c.specs.Arrays.{SameHits, of_hits};

use crate::answers::{DONE, NO_MEMORY, NO_POINT};
use crate::arrays::HitArrays;
use crate::pages::{overlay, overlay_word, room_for};
use crate::rows::point_in;
use ph_near::nearest;
use ph_steps::Steps;
use ph_table::Hit;
use ph_tree::PhTree;
use std::alloc::Global;
use std::sync::ledger::Ledger;

// How many hits fit into arrays of so many coordinates, values and halves of distances.
fn room_for_hits<const D: usize>(points: usize, values: usize, distances: usize) -> u32
    requires some { 1 ≤ D }
    requires few { D ≤ 16 }
    ensures { IsHitRoom D points values distances result }
{
    let rows = room_for::<D>(points, values);
    let pairs = distances / 2;
    let least = if rows < pairs { rows } else { pairs };
    if least < u32::MAX as usize {
        least as u32
    } else {
        u32::MAX
    }
}

// The low and the high half of a number.
fn halves_of(number: u128) -> [u64; 2]
    ensures { result ≡ halves number }
{
    let low = number % (1 << 64);
    let high = number / (1 << 64);
    [low as u64, high as u64]
}

// Writes words over those of an array from a place on.
fn overlay_words(array: &mut [u64], place: usize, words: &[u64])
    requires { place + length words.now ≤ length array.old }
    ensures { array.new ≡ take place array.old ++ words.now ++ drop (place + length words.now) array.old }
{
    array[place..place + words.len()].copy_from_slice(words);
}

// Writes the i-th hit into arrays that have room for it.
fn write_hit<const D: usize>(
    hit: &Hit<D>,
    i: usize,
    points: &mut [i64],
    values: &mut [u64],
    distances: &mut [u64],
)
    requires few { D ≤ 16 }
    requires points_room { i * D + D ≤ length points.old }
    requires values_room { i < length values.old }
    requires distances_room { i * 2 + 2 ≤ length distances.old }
    ensures dims { length hit.now.row.point ≡ D }
    ensures points { points.new ≡ take (i * D) points.old ++ hit.now.row.point ++ drop (i * D + D) points.old }
    ensures values { values.new ≡ take i values.old ++ (hit.now.row.value ∷ []) ++ drop (i + 1) values.old }
    ensures distances { distances.new ≡ take (i * 2) distances.old ++ halves hit.now.distance ++ drop (i * 2 + 2) distances.old }
{
    overlay(points, i * D, hit.row.point.as_slice());
    overlay_word(values, i, hit.row.value);
    overlay_words(distances, i * 2, &halves_of(hit.distance));
}

// Writes hits into arrays that have room for them.
fn write_hits<const D: usize>(
    hits: &[Hit<D>],
    points: &mut [i64],
    values: &mut [u64],
    distances: &mut [u64],
)
    requires few { D ≤ 16 }
    requires room { FitHits D (length points.old) (length values.old) (length distances.old) (length hits.now) }
    ensures points { points.new ≡ overlaid (hit_points hits.now) points.old }
    ensures values { values.new ≡ overlaid (hit_values hits.now) values.old }
    ensures distances { distances.new ≡ overlaid (hit_distances hits.now) distances.old }
{
    for i in 0..hits.len() {
        write_hit(&hits[i], i, points, values, distances);
    }
}

/// Writes the rows nearest to a point, as many as there is room for, with their distances.
pub(crate) fn list_nearest<const D: usize, V: Ledger>(
    alloc: Global,
    tree: &PhTree<D>,
    center: &[i64],
    arrays: &mut HitArrays<'_>,
    visits: &mut Steps<V>,
) -> u32
    ensures near { IsNear (table_at D tree.now) center.now (of_hits arrays.old) (of_hits arrays.new) result }
    ensures same { SameHits arrays.old arrays.new }
{
    // A use that makes the number of dimensions known.
    let _root = tree.root();
    let Some(q) = point_in(tree, center) else {
        return NO_POINT;
    };
    let room = room_for_hits::<D>(
        arrays.points.len(),
        arrays.values.len(),
        arrays.distances.len(),
    );
    match nearest(alloc, tree, q, room, visits) {
        Ok(hits) => {
            write_hits(&hits, arrays.points, arrays.values, arrays.distances);
            *arrays.count = hits.len();
            DONE
        }
        Err(_) => NO_MEMORY,
    }
}
