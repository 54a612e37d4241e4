//! The window of all rows of a tree.
ghost use Rattle.std.specs.Prelude.{◌≡◌, ◌≤◌, length};
ghost use Rattle.ph_specs.specs.TableNames.{IsPoint};
ghost use Rattle.ph_model.specs.ModelNames.{lowest, highest};
ghost use Rattle.ph_specs.specs.WorkNames.{all_nodes};

use crate::window::{Window, WindowOf};
use ph_coord::{Dim, Point, Width};
use ph_tree::PhTree;

impl<'t, const D: usize> WindowOf<'t, Dim<D>> {
    /// The window from the least corner to the greatest, in which are all rows of a tree.
    pub fn whole(tree: &'t PhTree<D>) -> Window<'t, D>
        ensures rows { result.rows ≡ tree.now.table }
        ensures visits { result.visits ≡ length (all_nodes tree.now.width D tree.now.table) }
    {
        let w = tree.width();
        // Uses that make known that the rows are those of a table, of a width from 1 to 62.
        let _root = tree.root();
        let _bits = w.bits();
        Window::new(tree, least_corner(w), greatest_corner(w))
    }
}

fn least_corner<const D: usize>(w: Width) -> Point<D>
    requires { D ≤ 16 }
    ensures value { result ≡ lowest w D }
    ensures point { IsPoint w D result }
{
    Point::new([w.least(); D])
}

fn greatest_corner<const D: usize>(w: Width) -> Point<D>
    requires { D ≤ 16 }
    ensures value { result ≡ highest w D }
    ensures point { IsPoint w D result }
{
    Point::new([w.greatest(); D])
}
