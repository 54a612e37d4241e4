//! The puts, the look-ups and the searches.

ghost use Rattle.std.specs.Prelude.{◌≡◌};

use crate::points::{Kind, Points, width};
use crate::request::Request;
use ph_near::nearest;
use ph_steps::Steps;
use ph_tree::{PhTree, PutError};
use std::alloc::Global;
use std::sync::ledger::Ledger;

/// What stands in the tree, how many look-ups found their point, and how many rows the searches gave.
#[derive(Clone, Copy)]
pub struct Done {
    pub rows: u64,
    pub found: u64,
    pub near: u64,
}

/// Puts the points of a request in an empty tree, looks them up, and asks for the nearest of other points. Takes memory for the
/// tree and for one search at a time.
pub fn do_request<V: Ledger, C: Ledger>(
    alloc: Global,
    request: &Request,
    visits: &mut Steps<V>,
    changes: &mut Steps<C>,
) -> Result<Done, PutError> {
    let mut tree: PhTree<3> = PhTree::new(alloc, width(), u64::MAX);
    put_points(&mut tree, request.kind, request.count, visits, changes)?;
    let mut found = 0u64;
    for _ in 0..request.gets {
        found = found.saturating_add(count_found(&tree, request.kind, request.count, visits));
    }
    let near = count_near(alloc, &tree, request, visits)?;
    Ok(Done {
        rows: tree.len(),
        found,
        near,
    })
}

// Puts the first points of a kind, each with its place in their sequence as its value.
fn put_points<V: Ledger, C: Ledger>(
    tree: &mut PhTree<3>,
    kind: Kind,
    count: u64,
    visits: &mut Steps<V>,
    changes: &mut Steps<C>,
) -> Result<(), PutError>
    requires { tree.old.width ≡ 32 }
    ensures { tree.new.width ≡ 32 }
{
    let mut points = Points::new(kind);
    for i in 0..count {
        tree.put(points.next_point(), i, visits, changes)?;
    }
    Ok(())
}

// How many of the first points of a kind stand in the tree.
fn count_found<V: Ledger>(tree: &PhTree<3>, kind: Kind, count: u64, visits: &mut Steps<V>) -> u64
    requires { tree.now.width ≡ 32 }
{
    let mut points = Points::new(kind);
    let mut found = 0u64;
    for _ in 0..count {
        if tree.get(&points.next_point(), visits).is_some() {
            found = found.saturating_add(1);
        }
    }
    found
}

// How many rows are given in all as the nearest of other points.
fn count_near<V: Ledger>(
    alloc: Global,
    tree: &PhTree<3>,
    request: &Request,
    visits: &mut Steps<V>,
) -> Result<u64, PutError>
    requires { tree.now.width ≡ 32 }
{
    let mut points = Points::others(request.kind);
    let mut near = 0u64;
    for _ in 0..request.asked {
        let Ok(hits) = nearest(alloc, tree, points.next_point(), request.n, visits) else {
            return Err(PutError::NoMemory);
        };
        near = near.saturating_add(hits.len() as u64);
    }
    Ok(near)
}
