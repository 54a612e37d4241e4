//! The plain tree of rows, and the rows of a plain tree.
ghost use Rattle.std.specs.Prelude.{◌≡◌};
ghost use Rattle.ph_specs.specs.TableNames.{row};

use super::claims::holds;
use super::{point, width};
use ph_coord::{Row, Width};
use ph_shape::{Plain, rows_of, shape_of};
use std::process::Abort;

#[test]
fn no_rows(rt: HostRuntime) {
    let w = width(&rt, 32);
    let root = shape_of::<2>(rt.alloc(), w, &[]).expect(&rt, "memory");
    holds(&rt, root.is_none());
    let rows = rows_of::<2>(rt.alloc(), w, None).expect(&rt, "memory");
    holds(&rt, rows.is_empty());
}

fn row(rt: &impl Abort, w: Width, coords: [i64; 2], value: u64) -> Row<2>
    ensures { result ≡ row coords value }
{
    Row {
        point: point(rt, w, &coords),
        value,
    }
}

// The level of a node, and the address and the value of each entry, which is a child where it has none.
fn check_node(rt: &impl Abort, node: &Plain<2>, level: u32, entries: &[(u32, Option<u64>)]) {
    holds(rt, (node.level(), node.len()) == (level, entries.len()));
    for (i, entry) in entries.iter().enumerate() {
        assert!(rt; i < node.len());
        holds(rt, (node.addr(i), node.value(i)) == *entry);
    }
}

// A root that has one child, which has three rows.
fn check_root(rt: &impl Abort, root: &Plain<2>) {
    check_node(rt, root, 31, &[(0b11, None)]);
    assert!(rt; root.len() == 1);
    let child = root.child(0).expect(rt, "no child");
    let entries = [(0b00, Some(1)), (0b01, Some(3)), (0b11, Some(2))];
    check_node(rt, child, 0, &entries);
    assert!(rt; child.len() == 3);
    holds(rt, child.body(2) == [0; 16] && child.child(2).is_none());
}

#[test]
fn three_rows(rt: HostRuntime) {
    let w = width(&rt, 32);
    let rows = [
        row(&rt, w, [0, 0], 1),
        row(&rt, w, [0, 1], 3),
        row(&rt, w, [1, 1], 2),
    ];
    let shape = shape_of(rt.alloc(), w, &rows).expect(&rt, "memory");
    let Some(root) = &shape else {
        panic!(rt; "no root")
    };
    check_root(&rt, root);
    let again = rows_of(rt.alloc(), w, Some(root)).expect(&rt, "memory");
    holds(&rt, again.as_slice() == rows.as_slice());
}
