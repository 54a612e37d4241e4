//! The step from an address to the next one that fits masks, by whole words.
ghost use Rattle.std.specs.Prelude.{◌≡◌, bit_and};
ghost use Rattle.ph_model.specs.ModelNames.{IsNextOf};
ghost use Rattle.ph_zorder.specs.Fill.{IsFill};

/// The least address above a number that has every digit of the lower mask and none that the upper mask has not; None where
/// there is none.
///
/// Below the highest digit of the number that does not fit, and at each digit that may not rise, a 1 is set, so that one addition
/// raises the digit that has to rise.
pub fn next_address(address: u32, lower: u32, upper: u32) -> Option<u32>
    requires { bit_and lower upper ≡ lower }
    ensures { IsNextOf address lower upper result }
{
    let stops = (address & !upper) | (lower & !address);
    let full = address | !upper | below_top(stops);
    match full.checked_add(1) {
        Some(raised) => Some((raised & upper) | lower),
        None => None,
    }
}

// A 1 at each place below the highest digit of a word.
fn below_top(word: u32) -> u32
    ensures { IsFill word result }
{
    if word == 0 {
        return 0;
    }
    (1 << (31 - word.leading_zeros())) - 1
}
