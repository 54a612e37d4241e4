//! Moving the value at one point to another.

ghost use Rattle.std.specs.Prelude.{◌≡◌, ◌+◌, ◌-◌, ◌*◌, ◌^◌, ◌<◌, ◌≤◌, Some};
ghost use Rattle.ph_specs.specs.TableNames.{IsPoint};
ghost use Rattle.ph_model.specs.ModelNames.{IsLawful, find_tree, put_tree, del_tree};
ghost use Rattle.ph_tree.specs.Moves.{IsMoveOf};
ghost use Rattle.ph_tree.specs.Opened.{opened_in};
ghost use Rattle.ph_tree.specs.Rooms.{spare_left_in};

use crate::find::Found;
use crate::key::KeyOf;
use crate::puts::{PutOf, put_in};
use crate::removals::{Removal, del_in};
use crate::spare::Spare;
use ph_coord::Dims;
use ph_node::{NoMemory, NodeOf};
use ph_steps::Steps;
use ph_table::Put;
use std::alloc::Global;
use std::sync::ledger::Ledger;

/// What a move found.
#[derive(Clone, Copy, Debug, PartialEq, Eq)]
pub enum Moved {
    /// A row at the first point, and none at the second but for itself.
    Done,
    /// No row at the first point.
    Absent,
    /// A row at each of the two points.
    Taken,
}

// Puts the value at one point of a tree to another, and then takes the first out, where no row is at the other. The put sees
// whether one is there, and then takes no memory. Else all memory is taken before the first change: the put takes the block for
// the removal, where the node of the first point may want one then.
pub(crate) fn move_in<P: Dims, V: Ledger, C: Ledger>(
    root: &mut Option<NodeOf<P>>,
    alloc: Global,
    from: &KeyOf<P>,
    to: &KeyOf<P>,
    found: Found,
    visits: &mut Steps<V>,
    changes: &mut Steps<C>,
) -> Result<Moved, NoMemory>
    requires some { 1 ≤ P.D }
    requires few { P.D ≤ 16 }
    requires width { from.now.width ≡ to.now.width }
    requires wide { 1 ≤ to.now.width }
    requires point { IsPoint to.now.width P.D to.now.point }
    requires lawful { IsLawful to.now.width P.D root.old }
    requires found { find_tree from.now.width P.D root.old from.now.point ≡ Some found.value }
    requires room { found.room ≡ spare_left_in from.now.width P.D root.old from.now.point }
    requires limit { found.room < 2 ^ 21 }
    ensures done { IsMoveOf (find_tree to.now.width P.D root.old to.now.point) root.old
        (del_tree from.now.width P.D (put_tree to.now.width P.D root.old to.now.point found.value) from.now.point)
        root.new changes.old changes.new result }
    ensures visits { visits.new
        ≤ visits.old
        + (2 * opened_in to.now.width root.old to.now.point - 1)
        + (2
        * opened_in from.now.width (put_tree to.now.width P.D root.old to.now.point found.value)
        from.now.point - 1) }
    ensures later { visits.old ≤ visits.new }
{
    let mut put = PutOf {
        key: to,
        value: found.value,
        room: true,
        fresh: true,
        former: 0,
        spare: Spare::new(alloc, found.room),
    };
    match put_in(root, alloc, &mut put, visits, changes) {
        Ok(Put::New) => {
            let mut removal = Removal {
                alloc,
                there: put.spare.block,
                value: 0,
            };
            match del_in(root, from, &mut removal, visits, changes) {
                Ok(_) => Ok(Moved::Done),
                Err(_) => unreachable!(),
            }
        }
        Ok(Put::Old(_)) => Ok(Moved::Taken),
        Err(_) => Err(NoMemory),
    }
}
