//! The rows that are nearest to a point, best first.

ghost use Rattle.std.specs.Prelude.{◌≡◌, ◌+◌, ◌≤◌, [], None, length, map, IfOk, IsOk};
ghost use Rattle.std.specs.Option.{option_copied};
ghost use Rattle.ph_specs.specs.TableNames.{coordinate, IsPoint, near};
ghost use Rattle.ph_model.specs.ModelNames.{IsNearest, IsBody, IsLawful};
ghost use Rattle.ph_specs.specs.TreeNames.{rows};
ghost use Rattle.ph_near.specs.Nearest.{rows_hit};
ghost use Rattle.ph_specs.specs.WorkNames.{reach};
ghost use Rattle.ph_table.specs.Hits.{hits_of};

use crate::opening::{Opened, enter, none_opened, open};
use crate::ranking::Ranking;
use crate::waiting::Queue;
use ph_coord::{Point, Width};
use ph_node::{NoMemory, Node};
use ph_steps::Steps;
use ph_table::Hit;
use ph_tree::PhTree;
use std::alloc::Global;
use std::sync::ledger::Ledger;

/// The first `n` rows by their distance from a point, and of equal distances in Z-order, each with the square of its distance.
///
/// It is the best-first search of G. R. Hjaltason and H. Samet ("Distance Browsing in Spatial Databases", ACM TODS 24, 1999).
/// The nodes that were found wait in a queue by the least distances of their regions, and the best `n` rows that were found stand apart. What is
/// farther than the last of these is left out, and the search ends where the nearest node that waits is farther.
///
/// It takes memory for the children that wait and for the nodes that it visits, from room for 64 and 32 of them on, and twice for `n` rows, or for all
/// of the tree where these are fewer. It takes none where `n` is 0 or the tree is empty. Without memory it gives no rows; the nodes visited by then are counted.
pub fn nearest<const D: usize, V: Ledger>(
    alloc: Global,
    tree: &PhTree<D>,
    q: Point<D>,
    n: u32,
    visits: &mut Steps<V>,
) -> Result<Vec<Hit<D>>, NoMemory>
    requires point { IsPoint tree.now.width D q }
    ensures hits { IfOk result (λ hits. hits.items ≡ hits_of q.entry (near q.entry n tree.now.table)) }
    ensures nearest { IfOk result (λ hits. IsNearest tree.now.width q.entry n tree.now.table (rows_hit hits.items)) }
    ensures none { n ≡ 0 → IsOk result }
    ensures empty { tree.now.table ≡ [] → IsOk result }
    ensures visits { visits.new ≤ visits.old + length (reach tree.now.width D tree.now.table q.entry n) }
    ensures grows { visits.old ≤ visits.new }
{
    let w = tree.width();
    let _bits = w.bits();
    search(alloc, tree, w, tree.root(), &q.offsets(w), n, visits)
}

// The search below the root of a tree, from the point of these offsets.
fn search<const D: usize, V: Ledger>(
    alloc: Global,
    tree: &PhTree<D>,
    w: Width,
    root: Option<&Node<D>>,
    center: &[u64; D],
    n: u32,
    visits: &mut Steps<V>,
) -> Result<Vec<Hit<D>>, NoMemory>
    requires some { 1 ≤ D }
    requires few { D ≤ 16 }
    requires point { IsBody D w center.now }
    requires tree { IsLawful w D (option_copied root) }
    ensures hits { IfOk result
        (λ hits.
        hits.items
        ≡ hits_of (map (coordinate w) center.now)
        (near (map (coordinate w) center.now) n (rows w D (option_copied root.entry)))) }
    ensures none { n ≡ 0 → IsOk result }
    ensures empty { option_copied root.entry ≡ None → IsOk result }
    ensures visits { visits.new ≤ visits.old + length (reach w D (rows w D (option_copied root.entry)) (map (coordinate w) center.now) n) }
    ensures grows { visits.old ≤ visits.new }
{
    let _bits = w.bits();
    if n == 0 {
        return Ok(Vec::new(alloc));
    }
    let Some(root) = root else {
        return Ok(Vec::new(alloc));
    };
    let mut ranking = Ranking::new(alloc, tree, n as usize)?;
    let mut queue = Queue::new(alloc)?;
    let mut opened = none_opened(alloc)?;
    let node = root.visit(visits);
    let known = [0; D];
    let top = Opened { node, known };
    open(&top, &mut opened, w, center, &mut ranking, &mut queue)?;
    while let Some(item) = queue.next_within(ranking.limit()) {
        let next = enter(w, &opened[item.opened], item.place, visits);
        open(&next, &mut opened, w, center, &mut ranking, &mut queue)?;
    }
    ranking.into_hits(alloc, w)
}
