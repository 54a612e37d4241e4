//! Whether nodes are the same.

ghost use Rattle.std.specs.Prelude.{◌≡◌, ◌+◌, ◌≤◌, ◌↔◌, Some, length, IsTrue};
ghost use Rattle.ph_specs.specs.TreeNames.{nodes};
ghost use Rattle.ph_model.specs.ModelNames.{IsLawfulFrom};

use ph_coord::Dims;
use ph_node::NodeOf;
use ph_steps::Steps;
use std::sync::ledger::Ledger;

// Whether two nodes are the same, with all that is below them: their records have the same words, and their children are
// the same. Ends at the first difference.
pub(crate) fn is_same_node<P: Dims, V: Ledger>(
    a: &NodeOf<P>,
    b: &NodeOf<P>,
    visits: &mut Steps<V>,
) -> bool
    requires left { IsLawfulFrom P.D a.now.level 0 a.now.chain }
    requires right { IsLawfulFrom P.D b.now.level 0 b.now.chain }
    ensures same { IsTrue result ↔ (a.now ≡ b.now) }
    ensures visits { visits.new ≤ visits.old + length (nodes (Some a.now)) + length (nodes (Some b.now)) }
    ensures all { IsTrue result → visits.new ≡ visits.old + length (nodes (Some a.now)) + length (nodes (Some b.now)) }
    ensures later { visits.old ≤ visits.new }
{
    let left = a.visit(visits);
    let right = b.visit(visits);
    if left.words() != right.words() {
        return false;
    }
    for (x, y) in left.children().iter().zip(right.children()) {
        if !is_same_node(&x.node, &y.node, visits) {
            return false;
        }
    }
    true
}
