//! Puts three points in a tree, and lists those of a window and the nearest one to a corner of it.
#![tactic(auto)]

ghost use Rattle.std.specs.Prelude.{◌≡◌, ◌<◌};

use ph_coord::{Point, Width};
use ph_near::nearest;
use ph_steps::Steps;
use ph_tree::PhTree;
use ph_window::Window;
use std::marker::Brand;
use std::sync::ledger::{Blank, Ledger};

fn main(rt: HostRuntime) -> anyhow::Result<()> {
    show::<Brand, Brand>(&rt, Blank::new(1), Blank::new(1))
}

// The same with counters of these blanks, whatever their ledgers are.
fn show<V: Ledger, C: Ledger>(rt: &HostRuntime, visits: Blank, changes: Blank) -> anyhow::Result<()>
    requires visits { (visits.name ≡ V.name) × (visits.parts ≡ V.parts) × (0 < visits.parts) }
    requires changes { (changes.name ≡ C.name) × (changes.parts ≡ C.parts) × (0 < changes.parts) }
{
    let mut visits: Steps<V> = Steps::new(visits);
    let mut changes: Steps<C> = Steps::new(changes);
    let Some(width) = Width::new(32) else {
        return Ok(());
    };
    let mut tree = PhTree::<2>::new(rt.alloc(), width, 100);
    for (x, y, value) in [(3, 4, 17), (5, 1, 18), (-7, 2, 19)] {
        if let Some(p) = Point::from_slice(tree.width(), &[x, y]) {
            tree.put(p, value, &mut visits, &mut changes)?;
        }
    }
    let corners = (
        Point::from_slice(tree.width(), &[0, 0]),
        Point::from_slice(tree.width(), &[9, 9]),
    );
    let (Some(lo), Some(hi)) = corners else {
        return Ok(());
    };
    let mut window = Window::new(&tree, lo, hi);
    for _ in 0..tree.len() {
        let Some(row) = window.next(&mut visits) else {
            break;
        };
        println!(rt; "{:?} {}", row.point.as_slice(), row.value)?;
    }
    for hit in nearest(rt.alloc(), &tree, lo, 1, &mut visits)?.as_slice() {
        println!(rt; "nearest {:?}", hit.row.point.as_slice())?;
    }
    Ok(())
}
