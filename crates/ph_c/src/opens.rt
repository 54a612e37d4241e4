//! The calls that open and close a tree, and tell what it is.
ghost use Rattle.std.specs.Prelude.{◌≡◌, None, length};
ghost use Rattle.ph_c.specs.Calls.{table_in, Asks};
ghost use Rattle.ph_c.specs.Opens.{IsOpen, Tells};

use crate::answers::{DONE, NO_DIMENSIONS, NO_MEMORY, NO_TREE, NO_WIDTH};
use crate::handle::Handle;
use crate::trees::Tree;
use ph_coord::Width;
use std::alloc::Global;

/// Opens an empty tree of so many dimensions and of a width, for at most so many rows, in place of the one that is there.
#[unsafe(no_mangle)]
pub extern "C" fn ph_open(alloc: Global, h: &mut Handle, dims: u32, width: u32, most: u64) -> u32
    ensures { IsOpen dims width most (table_in h.old.tree) (table_in h.new.tree) result }
{
    if dims < 1 || 16 < dims {
        return NO_DIMENSIONS;
    }
    let Some(w) = Width::new(width) else {
        return NO_WIDTH;
    };
    match Box::new(alloc, Tree::new(alloc, w, dims, most)) {
        Ok(tree) => {
            h.give(alloc, tree);
            DONE
        }
        Err(_) => NO_MEMORY,
    }
}

/// Closes the tree, if there is one, and gives its memory back.
#[unsafe(no_mangle)]
pub extern "C" fn ph_close(alloc: Global, h: &mut Handle)
    ensures { h.new.tree ≡ None }
{
    drop(h.take(alloc));
}

/// Writes the number of rows.
#[unsafe(no_mangle)]
pub extern "C" fn ph_length(alloc: Global, h: &mut Handle, rows: &mut u64) -> u32
    ensures same { h.new.tree ≡ h.old.tree }
    ensures answer { Asks (table_in h.old.tree) result (rows.new ≡ rows.old) (λ t. Tells (length t.tree.table) rows.new result) }
{
    let Some(tree) = h.take(alloc) else {
        return NO_TREE;
    };
    *rows = tree.frame().rows;
    h.give(alloc, tree);
    DONE
}

/// Writes how many rows the tree may have.
#[unsafe(no_mangle)]
pub extern "C" fn ph_most(alloc: Global, h: &mut Handle, most: &mut u64) -> u32
    ensures same { h.new.tree ≡ h.old.tree }
    ensures answer { Asks (table_in h.old.tree) result (most.new ≡ most.old) (λ t. Tells t.tree.max most.new result) }
{
    let Some(tree) = h.take(alloc) else {
        return NO_TREE;
    };
    *most = tree.frame().most;
    h.give(alloc, tree);
    DONE
}

/// Writes the width of the coordinates.
#[unsafe(no_mangle)]
pub extern "C" fn ph_width(alloc: Global, h: &mut Handle, width: &mut u32) -> u32
    ensures same { h.new.tree ≡ h.old.tree }
    ensures answer { Asks (table_in h.old.tree) result (width.new ≡ width.old) (λ t. Tells t.tree.width width.new result) }
{
    let Some(tree) = h.take(alloc) else {
        return NO_TREE;
    };
    *width = tree.frame().width.bits();
    h.give(alloc, tree);
    DONE
}

/// Writes the number of dimensions.
#[unsafe(no_mangle)]
pub extern "C" fn ph_dimensions(alloc: Global, h: &mut Handle, dims: &mut u32) -> u32
    ensures same { h.new.tree ≡ h.old.tree }
    ensures answer { Asks (table_in h.old.tree) result (dims.new ≡ dims.old) (λ t. Tells t.dims dims.new result) }
{
    let Some(tree) = h.take(alloc) else {
        return NO_TREE;
    };
    *dims = tree.frame().dims;
    h.give(alloc, tree);
    DONE
}
