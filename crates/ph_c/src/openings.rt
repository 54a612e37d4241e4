//! Trees that are put into handles.
ghost use Rattle.ph_c.specs.Openings.{GivenOr};

use crate::answers::DONE;
use crate::handle::Handle;
use crate::trees::Tree;
use std::alloc::Global;

/// Gives a handle the tree that was made, in place of the one that it has, or leaves it and answers why there is none.
pub(crate) fn give_made(alloc: Global, h: &mut Handle, made: Result<Box<Tree>, u32>) -> u32
    ensures { GivenOr made h.old.tree h.new.tree result }
{
    match made {
        Ok(tree) => {
            h.give(alloc, tree);
            DONE
        }
        Err(answer) => answer,
    }
}
