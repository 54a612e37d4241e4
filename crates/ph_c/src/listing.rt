//! What a page lists: a window, a ball, or the boxes that a question about a box asks for.
ghost use Rattle.ph_c.specs.Trees.{table_at};
ghost use Rattle.ph_c.specs.Arrays.{SamePage, on_page};
ghost use Rattle.ph_c.specs.Listings.{IsPage};

use crate::arrays::PageArrays;
use crate::asked::list_boxes;
use crate::balls::list_ball;
use crate::pages::list_window;
use ph_box::Question;
use ph_steps::Steps;
use ph_tree::PhTree;
use std::sync::ledger::Ledger;

/// What a page lists, by numbers from outside.
#[derive(Clone, Copy)]
pub(crate) enum Listing<'a> {
    /// The rows between two corners.
    Window {
        low: &'a [i64],
        high: &'a [i64],
    },
    /// The rows whose distance from a point, squared, is at most `radius`.
    Ball {
        center: &'a [i64],
        radius: u128,
    },
    /// The boxes that a question about the box between two corners asks for.
    Boxes {
        question: Question,
        low: &'a [i64],
        high: &'a [i64],
    },
}

/// Writes a page: the rows behind the last point, or from the beginning where no numbers are given for it.
pub(crate) fn list_page<const D: usize, V: Ledger>(
    tree: &PhTree<D>,
    listing: &Listing<'_>,
    last: &[i64],
    page: &mut PageArrays<'_>,
    visits: &mut Steps<V>,
) -> u32
    ensures page { IsPage listing.now (table_at D tree.now) last.now (on_page page.old) (on_page page.new) result }
    ensures same { SamePage page.old page.new }
{
    match *listing {
        Listing::Window { low, high } => list_window(tree, low, high, last, page, visits),
        Listing::Ball { center, radius } => list_ball(tree, center, radius, last, page, visits),
        Listing::Boxes {
            question,
            low,
            high,
        } => list_boxes(tree, question, low, high, last, page, visits),
    }
}
