//! A tree and the plain table beside it, which are edited alike.

ghost use Rattle.std.specs.Prelude.{◌≡◌, ◌<◌, ◌≤◌};
ghost use Rattle.ph_specs.specs.TableNames.{IsPoint};

use crate::claims::holds;
use crate::is_shape;
use crate::records::are_written_anew;
use ph_coord::{Point, Width};
use ph_steps::Counters;
use ph_table::Table;
use ph_tree::{Moved, PhTree, PutError};
use std::alloc::Global;
use std::process::Abort;
use std::sync::ledger::Ledger;

// Of W bits a coordinate.
#[derive(Drop)]
pub(crate) struct Pair<const D: usize, const W: u32> {
    pub tree: PhTree<D>,
    pub table: Table<D>,
    ghost tree_width: { tree.width ≡ W },
    ghost table_width: { table.width ≡ W },
}

// The point of these coordinates of W bits.
pub(crate) fn point<const D: usize, const W: u32>(rt: &impl Abort, coords: &[i64]) -> Point<D>
    ensures { IsPoint W D result }
{
    let Some(p) = Point::from_slice(width::<W>(rt), coords) else {
        panic!(rt; "no point");
    };
    p
}

fn width<const W: u32>(rt: &impl Abort) -> Width
    ensures { result ≡ W }
{
    let Some(w) = Width::new(W) else {
        panic!(rt; "no width");
    };
    w
}

impl<const D: usize, const W: u32> Pair<D, W> {
    // An empty tree of at most so many rows, and an empty table.
    pub(crate) fn new(rt: &impl Abort, alloc: Global, max: u64) -> Pair<D, W>
        requires some { 1 ≤ D }
        requires few { D ≤ 16 }
    {
        let width = width::<W>(rt);
        Pair {
            tree: PhTree::new(alloc, width, max),
            table: Table::new(alloc, width),
        }
    }

    pub(crate) fn put<V: Ledger, C: Ledger>(
        &mut self,
        rt: &impl Abort,
        p: Point<D>,
        v: u64,
        counters: &mut Counters<V, C>,
    )
        requires few { D ≤ 16 }
        requires point { IsPoint W D p }
    {
        let is_full = self.table.rows().len() as u64 == self.tree.max();
        let is_refused = is_full && self.table.get(&p).is_none();
        let answer = self
            .tree
            .put(p, v, &mut counters.visits, &mut counters.changes);
        if is_refused {
            holds(rt, answer == Err(PutError::Full));
            return;
        }
        let found = self.table.put(p, v).expect(rt, "memory");
        holds(rt, answer == Ok(found));
    }

    pub(crate) fn del<V: Ledger, C: Ledger>(
        &mut self,
        rt: &impl Abort,
        p: &Point<D>,
        counters: &mut Counters<V, C>,
    )
        requires few { D ≤ 16 }
        requires point { IsPoint W D p.now }
    {
        let answer = self
            .tree
            .del(p, &mut counters.visits, &mut counters.changes);
        let found = self.table.del(p);
        holds(rt, answer == Ok(found));
    }

    pub(crate) fn relocate<V: Ledger, C: Ledger>(
        &mut self,
        rt: &impl Abort,
        from: &Point<D>,
        to: &Point<D>,
        counters: &mut Counters<V, C>,
    )
        requires few { D ≤ 16 }
        requires from { IsPoint W D from.now }
        requires to { IsPoint W D to.now }
    {
        let answer = self
            .tree
            .relocate(from, to, &mut counters.visits, &mut counters.changes);
        let found = self.move_row(rt, from, to);
        holds(rt, answer == Ok(found));
    }

    // Moves a row of the table.
    fn move_row(&mut self, rt: &impl Abort, from: &Point<D>, to: &Point<D>) -> Moved
        requires few { D ≤ 16 }
        requires from { IsPoint W D from.now }
        requires to { IsPoint W D to.now }
    {
        let Some(v) = self.table.get(from) else {
            return Moved::Absent;
        };
        if from != to && self.table.get(to).is_some() {
            return Moved::Taken;
        }
        let _value = self.table.del(from);
        let _put = self.table.put(*to, v).expect(rt, "memory");
        Moved::Done
    }

    // The tree is to be the shape of the table's rows, and the records of its nodes those of their entries.
    pub(crate) fn compare<V: Ledger, C: Ledger>(
        &self,
        rt: &impl Abort,
        alloc: Global,
        counters: &mut Counters<V, C>,
    )
        requires some { 1 ≤ D }
        requires few { D ≤ 16 }
    {
        let rows = self.table.rows();
        holds(rt, self.tree.len() == rows.len() as u64);
        let root = self.tree.root();
        let width = self.table.width();
        holds(
            rt,
            is_shape(alloc, root, width, rows, &mut counters.visits) == Ok(true),
        );
        if let Some(node) = root {
            holds(
                rt,
                are_written_anew(alloc, node, &mut counters.visits) == Ok(true),
            );
        }
    }
}
