//! The rows of a tree.
ghost use Rattle.std.specs.Prelude.{◌≡◌, ◌<◌, ◌≤◌, ◌++◌, map, take, IfOk, OnOk};
ghost use Rattle.ph_specs.specs.TreeNames.{put_together, rows as the_rows, rows_behind};
ghost use Rattle.ph_model.specs.ModelNames.{IsLawful, IsLawfulEntry, IsLawfulFrom};
ghost use Rattle.ph_shape.specs.Known.{IsKnown, entry_rows, lent, IsOnly};
ghost use Rattle.ph_shape.specs.View.{entry_of};

use crate::NoMemory;
use crate::plain::{EntryOf, HeldOf, Plain, PlainOf};
use crate::space::Space;
use ph_coord::{Dim, Row, Width};
use ph_digits::join;
use std::alloc::Global;

/// The rows of a lawful tree in Z-order: no other lawful tree has them.
///
/// Memory is taken for the rows, and nothing stands after an error. The work is one pass over the entries, D steps each.
pub fn rows_of<const D: usize>(
    alloc: Global,
    w: Width,
    root: Option<&Plain<D>>,
) -> Result<Vec<Row<D>>, NoMemory>
    requires some_dims { 1 ≤ D }
    requires dims { D ≤ 16 }
    requires lawful { IsLawful w D (lent root) }
    ensures rows { IfOk result (λ rows. rows.items ≡ the_rows w D (lent root.entry)) }
    ensures only { IfOk result (λ rows. IsOnly w D rows.items (lent root.entry)) }
{
    let _bits = w.bits();
    let mut rows = Vec::new(alloc);
    let Some(node) = root else {
        return Ok(rows);
    };
    gather::<Dim<D>>(w, node, &[0; 16], &mut rows)?;
    Ok(rows)
}

// Puts the rows of a node, whose digits above its level are known, behind others.
#[cycle(rows)]
fn gather<P: Space>(
    w: Width,
    node: &PlainOf<P>,
    above: &[u64; 16],
    rows: &mut Vec<P::Row>,
) -> Result<(), NoMemory>
    requires dims { P.D ≤ 16 }
    requires level { node.now.level < w }
    requires lawful { IsLawfulFrom P.D node.now.level 0 node.now.chain }
    requires above { IsKnown w P.D node.now.level (take P.D above.now) }
    ensures { OnOk result (map P.row_of rows.new.items ≡ map P.row_of rows.old.items ++ rows_behind w node.now.level (take P.D above.now) node.now.chain) }
{
    let level = node.level();
    let entries = node.entries();
    for entry in entries {
        gather_entry::<P>(w, level, entry, above, rows)?;
    }
    Ok(())
}

#[cycle(rows)]
fn gather_entry<P: Space>(
    w: Width,
    level: u32,
    entry: &EntryOf<P>,
    above: &[u64; 16],
    rows: &mut Vec<P::Row>,
) -> Result<(), NoMemory>
    requires dims { P.D ≤ 16 }
    requires level { level < w }
    requires lawful { IsLawfulEntry P.D level (entry_of P.D entry.now) }
    requires above { IsKnown w P.D level (take P.D above.now) }
    ensures { OnOk result (map P.row_of rows.new.items ≡ map P.row_of rows.old.items ++ entry_rows w level (take P.D above.now) (entry_of P.D entry.now)) }
{
    let digits = digits_behind::<P>(w, level, entry, above);
    match &entry.held {
        HeldOf::Value(value) => {
            rows.push(P::with_offsets(w, &digits, *value))?;
            Ok(())
        }
        HeldOf::Child(child) => gather::<P>(w, child, &digits, rows),
    }
}

// The digits that are known behind an entry.
fn digits_behind<P: Space>(w: Width, level: u32, entry: &EntryOf<P>, above: &[u64; 16]) -> [u64; 16]
    requires dims { P.D ≤ 16 }
    requires level { level < w }
    requires lawful { IsLawfulEntry P.D level (entry_of P.D entry.now) }
    requires above { IsKnown w P.D level (take P.D above.now) }
    ensures { take P.D result ≡ put_together level entry.now.addr (take P.D above.now) (take P.D entry.now.body) }
{
    let _bits = w.bits();
    let dims = P::D;
    let mut digits = *above;
    join(&mut digits[..dims], level, entry.addr, &entry.body[..dims]);
    digits
}
