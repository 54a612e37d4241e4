//! The calls that list pages: of windows, of balls and of boxes.
ghost use Rattle.std.specs.Prelude.{◌≡◌, ◌<◌};
ghost use Rattle.ph_c.specs.Trees.{any_table};
ghost use Rattle.ph_c.specs.Calls.{table_in, Asks};
ghost use Rattle.ph_c.specs.Windows.{IsWindow, lent};
ghost use Rattle.ph_c.specs.Balls.{IsBall, number_of_halves};
ghost use Rattle.ph_c.specs.Asked.{IsAsked};
ghost use Rattle.ph_c.specs.Listings.{IsPage};
ghost use Rattle.ph_c.specs.Arrays.{SamePage, on_page};

use crate::answers::NO_TREE;
use crate::arrays::PageArrays;
use crate::handle::Handle;
use crate::listing::Listing;
use crate::trees::Tree;
use ph_box::Question;
use ph_steps::Steps;
use std::alloc::Global;
use std::marker::Brand;
use std::sync::ledger::{Blank, Ledger};

/// Writes a page of a window into lent arrays: the rows between two corners behind the last point, or from the beginning where no
/// numbers are given for it.
#[unsafe(no_mangle)]
pub extern "C" fn ph_window(
    alloc: Global,
    h: &mut Handle,
    low: &[i64],
    high: &[i64],
    last: &[i64],
    points: &mut [i64],
    values: &mut [u64],
    count: &mut usize,
    more: &mut u32,
) -> u32
    ensures same { h.new.tree ≡ h.old.tree }
    ensures answer { Asks (table_in h.old.tree) result
        (lent points.new values.new count.new more.new ≡ lent points.old values.old count.old more.old)
        (λ t. IsWindow t low.now high.now last.now (lent points.old values.old count.old more.old) (lent points.new values.new count.new more.new) result) }
{
    let listing = Listing::Window { low, high };
    let mut page = PageArrays {
        points,
        values,
        count,
        more,
    };
    list(alloc, h, &listing, last, &mut page)
}

/// Writes a page of a ball into lent arrays: the rows within a radius of a point, behind the last point, or from the beginning where no
/// numbers are given for it. The square of the radius is given in two halves.
#[unsafe(no_mangle)]
pub extern "C" fn ph_ball(
    alloc: Global,
    h: &mut Handle,
    center: &[i64],
    radius_low: u64,
    radius_high: u64,
    last: &[i64],
    points: &mut [i64],
    values: &mut [u64],
    count: &mut usize,
    more: &mut u32,
) -> u32
    ensures same { h.new.tree ≡ h.old.tree }
    ensures answer { Asks (table_in h.old.tree) result
        (lent points.new values.new count.new more.new ≡ lent points.old values.old count.old more.old)
        (λ t. IsBall t center.now (number_of_halves radius_low radius_high) last.now
        (lent points.old values.old count.old more.old) (lent points.new values.new count.new more.new) result) }
{
    let listing = Listing::Ball {
        center,
        radius: number_of_halves(radius_low, radius_high),
    };
    let mut page = PageArrays {
        points,
        values,
        count,
        more,
    };
    list(alloc, h, &listing, last, &mut page)
}

/// Writes a page of the boxes that have a point in common with the asked one into lent arrays.
#[unsafe(no_mangle)]
pub extern "C" fn ph_overlapping(
    alloc: Global,
    h: &mut Handle,
    low: &[i64],
    high: &[i64],
    last: &[i64],
    points: &mut [i64],
    values: &mut [u64],
    count: &mut usize,
    more: &mut u32,
) -> u32
    ensures same { h.new.tree ≡ h.old.tree }
    ensures answer { Asks (table_in h.old.tree) result
        (lent points.new values.new count.new more.new ≡ lent points.old values.old count.old more.old)
        (λ t. IsAsked Question.Overlap t low.now high.now last.now (lent points.old values.old count.old more.old)
        (lent points.new values.new count.new more.new) result) }
{
    let listing = Listing::Boxes {
        question: Question::Overlap,
        low,
        high,
    };
    let mut page = PageArrays {
        points,
        values,
        count,
        more,
    };
    list(alloc, h, &listing, last, &mut page)
}

/// Writes a page of the boxes that lie inside the asked one into lent arrays.
#[unsafe(no_mangle)]
pub extern "C" fn ph_inside(
    alloc: Global,
    h: &mut Handle,
    low: &[i64],
    high: &[i64],
    last: &[i64],
    points: &mut [i64],
    values: &mut [u64],
    count: &mut usize,
    more: &mut u32,
) -> u32
    ensures same { h.new.tree ≡ h.old.tree }
    ensures answer { Asks (table_in h.old.tree) result
        (lent points.new values.new count.new more.new ≡ lent points.old values.old count.old more.old)
        (λ t. IsAsked Question.Inside t low.now high.now last.now (lent points.old values.old count.old more.old)
        (lent points.new values.new count.new more.new) result) }
{
    let listing = Listing::Boxes {
        question: Question::Inside,
        low,
        high,
    };
    let mut page = PageArrays {
        points,
        values,
        count,
        more,
    };
    list(alloc, h, &listing, last, &mut page)
}

/// Writes a page of the boxes that cover the asked one into lent arrays.
#[unsafe(no_mangle)]
pub extern "C" fn ph_covering(
    alloc: Global,
    h: &mut Handle,
    low: &[i64],
    high: &[i64],
    last: &[i64],
    points: &mut [i64],
    values: &mut [u64],
    count: &mut usize,
    more: &mut u32,
) -> u32
    ensures same { h.new.tree ≡ h.old.tree }
    ensures answer { Asks (table_in h.old.tree) result
        (lent points.new values.new count.new more.new ≡ lent points.old values.old count.old more.old)
        (λ t. IsAsked Question.Cover t low.now high.now last.now (lent points.old values.old count.old more.old)
        (lent points.new values.new count.new more.new) result) }
{
    let listing = Listing::Boxes {
        question: Question::Cover,
        low,
        high,
    };
    let mut page = PageArrays {
        points,
        values,
        count,
        more,
    };
    list(alloc, h, &listing, last, &mut page)
}

// The number of these two halves.
fn number_of_halves(low: u64, high: u64) -> u128
    ensures { result ≡ number_of_halves low high }
{
    u128::from(low) + (1 << 64) * u128::from(high)
}

// Writes a page of a listing.
fn list(
    alloc: Global,
    h: &mut Handle,
    listing: &Listing<'_>,
    last: &[i64],
    page: &mut PageArrays<'_>,
) -> u32
    ensures same { h.new.tree ≡ h.old.tree }
    ensures answer { Asks (table_in h.old.tree) result (on_page page.new ≡ on_page page.old)
        (λ t. IsPage listing.now t last.now (on_page page.old) (on_page page.new) result) }
    ensures page { SamePage page.old page.new }
{
    let Some(tree) = h.take(alloc) else {
        return NO_TREE;
    };
    let answer = list_in::<Brand>(&tree, listing, last, page, Blank::new(1));
    h.give(alloc, tree);
    answer
}

// The page with a counter that nobody reads, made of a blank.
fn list_in<V: Ledger>(
    tree: &Tree,
    listing: &Listing<'_>,
    last: &[i64],
    page: &mut PageArrays<'_>,
    visits: Blank,
) -> u32
    requires visits { (visits.name ≡ V.name) × (visits.parts ≡ V.parts) × (0 < visits.parts) }
    ensures page { IsPage listing.now (any_table tree.now) last.now (on_page page.old) (on_page page.new) result }
    ensures same { SamePage page.old page.new }
{
    let mut visits: Steps<V> = Steps::new(visits);
    tree.page(listing, last, page, &mut visits)
}
