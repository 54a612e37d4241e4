//! The Z-order of lists of words, by whole words.

ghost use Rattle.std.specs.Prelude.{◌≡◌, ◌↔◌, length, IsTrue};
ghost use Rattle.ph_digits.specs.WordOrder.{words_cmp, IsHigher};

use std::cmp::Ordering;

/// How two lists of words stand in Z-order: of the words that differ at the greatest place the first ones decide.
///
/// The work is one pass over the words, with no branch that depends on them.
pub fn words_cmp(xs: &[u64], ys: &[u64]) -> Ordering
    requires { length xs.now ≡ length ys.now }
    ensures { result ≡ words_cmp xs.now ys.now }
{
    let mut first = 0;
    let mut second = 0;
    let mut difference = 0;
    for (x, y) in xs.iter().zip(ys) {
        let here = *x ^ *y;
        if is_higher(here, difference) {
            first = *x;
            second = *y;
            difference = here;
        }
    }
    first.cmp(&second)
}

// Whether the greatest 1 of a word is above all those of another. Where both have it, it is masked away, and what is left is less.
fn is_higher(word: u64, other: u64) -> bool
    ensures { IsTrue result ↔ IsHigher word other }
{
    other < word & !other
}
