//! Where two lists of words differ, by whole words.

ghost use Rattle.std.specs.Prelude.{◌≡◌, length, MatchOption};
ghost use Rattle.ph_digits.specs.Differences.{differences, IsTopDifference};

/// The greatest place at which two lists of words differ; None exactly where they are the same.
///
/// The work is one pass over the words, however far down the place is.
pub fn top_difference(xs: &[u64], ys: &[u64]) -> Option<u32>
    requires { length xs.now ≡ length ys.now }
    ensures { MatchOption result (xs.now ≡ ys.now) (λ place. IsTopDifference xs.now ys.now place) }
{
    let places = differing_places(xs, ys);
    if places == 0 {
        return None;
    }
    Some(63 - places.leading_zeros())
}

// A word with a 1 at each place at which the words of some pair differ.
fn differing_places(xs: &[u64], ys: &[u64]) -> u64
    requires { length xs.now ≡ length ys.now }
    ensures { result ≡ differences 0 xs.now ys.now }
{
    let mut places = 0;
    for (x, y) in xs.iter().zip(ys) {
        places |= *x ^ *y;
    }
    places
}
