//! The call that lists the rows nearest to a point.
ghost use Rattle.std.specs.Prelude.{◌≡◌, ◌<◌};
ghost use Rattle.ph_c.specs.Trees.{any_table};
ghost use Rattle.ph_c.specs.Calls.{table_in, Asks};
ghost use Rattle.ph_c.specs.Nears.{IsNear, lent_hits};
ghost use Rattle.ph_c.specs.Arrays.{SameHits, of_hits};

use crate::answers::NO_TREE;
use crate::arrays::HitArrays;
use crate::handle::Handle;
use crate::trees::Tree;
use ph_steps::Steps;
use std::alloc::Global;
use std::marker::Brand;
use std::sync::ledger::{Blank, Ledger};

/// Writes the rows nearest to a point into lent arrays, with the squares of their distances, each in two halves: the nearest first, as
/// many as fit.
#[unsafe(no_mangle)]
pub extern "C" fn ph_nearest(
    alloc: Global,
    h: &mut Handle,
    center: &[i64],
    points: &mut [i64],
    values: &mut [u64],
    distances: &mut [u64],
    count: &mut usize,
) -> u32
    ensures same { h.new.tree ≡ h.old.tree }
    ensures answer { Asks (table_in h.old.tree) result
        (lent_hits points.new values.new distances.new count.new ≡ lent_hits points.old values.old distances.old count.old)
        (λ t. IsNear t center.now (lent_hits points.old values.old distances.old count.old)
        (lent_hits points.new values.new distances.new count.new) result) }
{
    let Some(tree) = h.take(alloc) else {
        return NO_TREE;
    };
    let mut arrays = HitArrays {
        points,
        values,
        distances,
        count,
    };
    let answer = nearest_in::<Brand>(alloc, &tree, center, &mut arrays, Blank::new(1));
    h.give(alloc, tree);
    answer
}

// The rows with a counter that nobody reads, made of a blank.
fn nearest_in<V: Ledger>(
    alloc: Global,
    tree: &Tree,
    center: &[i64],
    arrays: &mut HitArrays<'_>,
    visits: Blank,
) -> u32
    requires visits { (visits.name ≡ V.name) × (visits.parts ≡ V.parts) × (0 < visits.parts) }
    ensures near { IsNear (any_table tree.now) center.now (of_hits arrays.old) (of_hits arrays.new) result }
    ensures same { SameHits arrays.old arrays.new }
{
    let mut visits: Steps<V> = Steps::new(visits);
    tree.nearest(alloc, center, arrays, &mut visits)
}
