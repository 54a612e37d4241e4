//! A descent of two trees from their roots.
ghost use Rattle.std.specs.Prelude.{◌≡◌, ◌+◌, ◌≤◌, [], take, replicate, Some};
ghost use Rattle.std.specs.Option.{option_copied};
ghost use Rattle.ph_specs.specs.TreeNames.{rows as rows_of};
ghost use Rattle.ph_model.specs.ModelNames.{IsLawful, node as held_node, seen_nodes, chosen};
ghost use Rattle.ph_specs.specs.WorkNames.{placed};
ghost use Rattle.ph_set.specs.Held.{held_what};
ghost use Rattle.ph_set.specs.Meeting.{kept_trees, work_trees};

use crate::lists::list_part;
use crate::meet::meet;
use crate::part::{HeldOf, PartOf};
use crate::plan::Plan;
use crate::sink::RowSink;
use ph_coord::{Dims, Width};
use ph_node::NodeOf;
use ph_shape::Space;
use ph_steps::Steps;
use std::sync::ledger::Ledger;

/// Lists what a plan keeps of two lawful trees of its width.
pub(crate) fn list_roots<P: Space, S: RowSink<P>, V: Ledger>(
    plan: &Plan,
    a: Option<&NodeOf<P>>,
    b: Option<&NodeOf<P>>,
    rows: &mut S,
    visits: &mut Steps<V>,
)
    requires dims { P.D ≤ 16 }
    requires left { IsLawful plan.now.width P.D (option_copied a) }
    requires right { IsLawful plan.now.width P.D (option_copied b) }
    ensures rows { S.adds rows.old rows.new (kept_trees plan.now P.D (option_copied a.entry) (option_copied b.entry)) }
    ensures visits { visits.new ≡ visits.old + work_trees plan.now P.D (option_copied a.entry) (option_copied b.entry) }
{
    match (a, b) {
        (Some(x), Some(y)) => meet_roots::<P, S, V>(plan, x, y, rows, visits),
        (Some(x), None) => list_root::<P, S, V>(plan.left, plan.width, x, rows, visits),
        (None, Some(y)) => list_root::<P, S, V>(plan.right, plan.width, y, rows, visits),
        (None, None) => {}
    }
}

// The same of two trees that have rows.
fn meet_roots<P: Space, S: RowSink<P>, V: Ledger>(
    plan: &Plan,
    x: &NodeOf<P>,
    y: &NodeOf<P>,
    rows: &mut S,
    visits: &mut Steps<V>,
)
    requires dims { P.D ≤ 16 }
    requires left { IsLawful plan.now.width P.D (Some x.now) }
    requires right { IsLawful plan.now.width P.D (Some y.now) }
    ensures rows { S.adds rows.old rows.new (kept_trees plan.now P.D (Some x.now) (Some y.now)) }
    ensures visits { visits.new ≡ visits.old + work_trees plan.now P.D (Some x.now) (Some y.now) }
{
    // A use that makes the range of the width known.
    let _bits = plan.width.bits();
    let left = root_part(x, visits);
    let right = root_part(y, visits);
    meet::<P, S, V>(plan, &left, &right, rows, visits)
}

// Lists all rows of a tree where they are kept, and else nothing.
fn list_root<P: Space, S: RowSink<P>, V: Ledger>(
    keep: bool,
    w: Width,
    x: &NodeOf<P>,
    rows: &mut S,
    visits: &mut Steps<V>,
)
    requires dims { P.D ≤ 16 }
    requires tree { IsLawful w P.D (Some x.now) }
    ensures rows { S.adds rows.old rows.new (chosen keep (rows_of w P.D (Some x.now))) }
    ensures visits { visits.new ≡ visits.old + seen_nodes w keep [] (placed w P.D (Some x.now)) }
{
    // A use that makes the range of the width known.
    let _bits = w.bits();
    if keep {
        let part = root_part(x, visits);
        list_part::<P, S, V>(w, &part, rows, visits);
    }
}

// A root, of which no digit is known.
fn root_part<'t, P: Dims, V: Ledger>(
    root: &'t NodeOf<P>,
    visits: &mut Steps<V>,
) -> PartOf<'t, NodeOf<P>>
    requires dims { P.D ≤ 16 }
    ensures digits { take P.D result.digits ≡ replicate P.D 0 }
    ensures held { held_what result.held ≡ held_node root.now }
    ensures cost { visits.new ≡ visits.old + 1 }
{
    PartOf {
        digits: [0; 16],
        held: HeldOf::Node(root.visit(visits)),
    }
}
