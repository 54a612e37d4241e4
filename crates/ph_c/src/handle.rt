//! A tree behind one pointer.

ghost use Rattle.std.specs.Prelude.{◌≡◌, Option, None, Some};
ghost use Rattle.std.specs.Coded.{coded_option};
ghost use Rattle.ph_c.specs.declared.trees.Tree.{Tree};
ghost use Rattle.ph_c.specs.contracts.trees.Tree.{the_row};
ghost use Rattle.ph_c.specs.Handle.{handle_owns, held_in, unboxed};

use crate::loose::{Loose, put_together, take_apart};
use crate::trees::Tree;
use std::alloc::Global;
use std::marker::Model;
use std::mem::replace;
use std::ptr::null_mut;

/// A tree that C holds, or none where all is zero.
#[repr(C)]
pub struct Handle {
    at: *mut u8,
    pub ghost tree: { Option Tree } by { coded_option the_row.coded },
}

impl Model for Handle {
    ghost also_owns = { λ h. handle_owns h.at h.tree };
}

impl Handle {
    /// No tree.
    pub(crate) fn none() -> Handle
        ensures { result.tree ≡ None }
    {
        Handle { at: null_mut() }
    }

    /// The tree of a box that was taken apart.
    pub(crate) fn of(parts: Loose<Tree, Global>) -> Handle
        ensures { result.tree ≡ Some parts.held }
    {
        let Loose { place, heap: _ } = parts;
        Handle {
            at: place as *mut u8,
        }
    }

    /// The parts of the box, if there is a tree.
    pub(crate) fn into_parts(self, alloc: Global) -> Option<Loose<Tree, Global>>
        ensures { held_in result ≡ self.tree }
    {
        let Handle { at } = self;
        if at.is_null() {
            None
        } else {
            Some(Loose {
                place: at as *mut Tree,
                heap: alloc,
            })
        }
    }

    /// Takes the tree out, so that there is none.
    pub(crate) fn take(&mut self, alloc: Global) -> Option<Box<Tree>>
        ensures tree { unboxed result ≡ self.old.tree }
        ensures none { self.new.tree ≡ None }
    {
        match replace(self, Handle::none()).into_parts(alloc) {
            Some(parts) => Some(put_together(parts)),
            None => None,
        }
    }

    /// Gives it a tree, in place of the one that it has.
    pub(crate) fn give(&mut self, alloc: Global, tree: Box<Tree>)
        ensures { self.new.tree ≡ Some tree.value }
    {
        if let Some(former) = replace(self, Handle::of(take_apart(tree))).into_parts(alloc) {
            drop(put_together(former));
        }
    }
}
