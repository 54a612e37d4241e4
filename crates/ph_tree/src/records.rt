//! How much room a node takes.

ghost use Rattle.std.specs.Prelude.{◌≡◌, ◌+◌, ◌^◌, ◌≤◌};
ghost use Rattle.ph_model.specs.ModelNames.{IsLawfulFrom};
ghost use Rattle.ph_node.specs.Shown.{shown};
ghost use Rattle.ph_tree.specs.Rooms.{room_of_entries, relaid_room};

use ph_coord::Dims;
use ph_node::{NodeOf, NodeRefOf};

// How many words a visited node takes: those of its record, and one for each child.
pub(crate) fn record_room<P: Dims>(node: NodeRefOf<'_, NodeOf<P>>) -> usize
    requires few { P.D ≤ 16 }
    requires lawful { IsLawfulFrom P.D (shown node).level 0 (shown node).chain }
    ensures room { result ≡ room_of_entries P.D (shown node.entry).level (shown node.entry).chain }
    ensures some { 1 ≤ result }
    ensures limit { result ≤ 2 ^ 20 + 2 ^ 16 }
{
    // A use that makes the range of the level known.
    let _level = node.level();
    node.words().len() + node.children().len()
}

// The same where the node's record is laid out anew once an entry goes, and else nothing: the record is changed where it lies then.
pub(crate) fn relaid_room<P: Dims>(node: NodeRefOf<'_, NodeOf<P>>) -> usize
    requires few { P.D ≤ 16 }
    requires lawful { IsLawfulFrom P.D (shown node).level 0 (shown node).chain }
    ensures room { result ≡ relaid_room P.D (shown node.entry).level (shown node.entry).chain }
    ensures limit { result ≤ 2 ^ 20 + 2 ^ 16 }
{
    if node.is_relaid() {
        record_room(node)
    } else {
        0
    }
}
