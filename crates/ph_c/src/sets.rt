//! The calls that make a tree of two.
ghost use Rattle.std.specs.Prelude.{◌≡◌, ◌<◌, Some, MatchOption};
ghost use Rattle.ph_specs.specs.TableNames.{common, minus};
ghost use Rattle.ph_c.specs.Trees.{any_table};
ghost use Rattle.ph_c.specs.Calls.{table_in};
ghost use Rattle.ph_c.specs.Combining.{Combines, LackOne, IsCombined, NotCombined, IsUnion, NoUnion, IsPart, NoPart};
ghost use Rattle.ph_c.specs.Openings.{BoxedOr, Opening};

use crate::answers::{NO_MEMORY, NO_TREE};
use crate::combining::Operation;
use crate::handle::Handle;
use crate::openings::give_made;
use crate::trees::Tree;
use ph_steps::Counters;
use std::alloc::Global;
use std::marker::Brand;
use std::sync::ledger::{Blank, Ledger};

/// Opens the tree of the rows of both trees, for at most `most` of them. Where both have a row at a point, that of `a` stands.
#[unsafe(no_mangle)]
pub extern "C" fn ph_union(
    alloc: Global,
    into: &mut Handle,
    a: &mut Handle,
    b: &mut Handle,
    most: u64,
) -> u32
    ensures first { a.new.tree ≡ a.old.tree }
    ensures second { b.new.tree ≡ b.old.tree }
    ensures answer { Combines (table_in a.old.tree) (table_in b.old.tree) result (into.new.tree ≡ into.old.tree)
        (λ t u. Opening (IsUnion t u most) (NoUnion t u most) (table_in into.old.tree) (table_in into.new.tree) result) }
{
    combine(alloc, into, a, b, Operation::Union { most })
}

/// Opens the tree of the rows of `a` at whose points `b` has a row.
#[unsafe(no_mangle)]
pub extern "C" fn ph_common(alloc: Global, into: &mut Handle, a: &mut Handle, b: &mut Handle) -> u32
    ensures first { a.new.tree ≡ a.old.tree }
    ensures second { b.new.tree ≡ b.old.tree }
    ensures answer { Combines (table_in a.old.tree) (table_in b.old.tree) result (into.new.tree ≡ into.old.tree)
        (λ t u. Opening (IsPart (common t.tree.table u.tree.table) t u) (NoPart t u) (table_in into.old.tree) (table_in into.new.tree) result) }
{
    combine(alloc, into, a, b, Operation::Common)
}

/// Opens the tree of the rows of `a` at whose points `b` has no row.
#[unsafe(no_mangle)]
pub extern "C" fn ph_minus(alloc: Global, into: &mut Handle, a: &mut Handle, b: &mut Handle) -> u32
    ensures first { a.new.tree ≡ a.old.tree }
    ensures second { b.new.tree ≡ b.old.tree }
    ensures answer { Combines (table_in a.old.tree) (table_in b.old.tree) result (into.new.tree ≡ into.old.tree)
        (λ t u. Opening (IsPart (minus t.tree.table u.tree.table) t u) (NoPart t u) (table_in into.old.tree) (table_in into.new.tree) result) }
{
    combine(alloc, into, a, b, Operation::Minus)
}

// Opens the tree that an operation makes of both trees.
fn combine(
    alloc: Global,
    into: &mut Handle,
    a: &mut Handle,
    b: &mut Handle,
    operation: Operation,
) -> u32
    ensures first { a.new.tree ≡ a.old.tree }
    ensures second { b.new.tree ≡ b.old.tree }
    ensures answer { Combines (table_in a.old.tree) (table_in b.old.tree) result (into.new.tree ≡ into.old.tree)
        (λ t u. Opening (IsCombined operation t u) (NotCombined operation t u) (table_in into.old.tree) (table_in into.new.tree) result) }
{
    let Some((left, right)) = take_both(alloc, a, b) else {
        return NO_TREE;
    };
    let made = combine_in::<Brand, Brand>(
        alloc,
        &left,
        &right,
        operation,
        Blank::new(1),
        Blank::new(1),
    );
    a.give(alloc, left);
    b.give(alloc, right);
    give_made(alloc, into, made)
}

// Takes the trees out of two handles. Where one has none, both stay as they are.
fn take_both(alloc: Global, a: &mut Handle, b: &mut Handle) -> Option<(Box<Tree>, Box<Tree>)>
    ensures { MatchOption result
        (LackOne a.old.tree b.old.tree × (a.new.tree ≡ a.old.tree) × (b.new.tree ≡ b.old.tree))
        (λ p. (a.old.tree ≡ Some p.0.value) × (b.old.tree ≡ Some p.1.value)) }
{
    let Some(left) = a.take(alloc) else {
        return None;
    };
    match b.take(alloc) {
        Some(right) => Some((left, right)),
        None => {
            a.give(alloc, left);
            None
        }
    }
}

// The tree in a box, with counters that nobody reads, made of blanks.
fn combine_in<V: Ledger, C: Ledger>(
    alloc: Global,
    a: &Tree,
    b: &Tree,
    operation: Operation,
    visits: Blank,
    changes: Blank,
) -> Result<Box<Tree>, u32>
    requires visits { (visits.name ≡ V.name) × (visits.parts ≡ V.parts) × (0 < visits.parts) }
    requires changes { (changes.name ≡ C.name) × (changes.parts ≡ C.parts) × (0 < changes.parts) }
    ensures { BoxedOr (IsCombined operation (any_table a.now) (any_table b.now)) (NotCombined operation (any_table a.now) (any_table b.now)) result }
{
    let mut counters: Counters<V, C> = Counters::new(visits, changes);
    let tree = a.combined(alloc, b, operation, &mut counters)?;
    match Box::new(alloc, tree) {
        Ok(tree) => Ok(tree),
        Err(_) => Err(NO_MEMORY),
    }
}
