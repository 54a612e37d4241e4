//! How far the parts of a region are from a point.

ghost use Rattle.std.specs.Prelude.{◌≡◌, ◌<◌, ◌^◌};

// What tells how far the parts of a region are from a point.
pub(crate) trait Distances<const D: usize> {
    ghost use Rattle.std.specs.Prelude.{ℕ};

    // The square of the least distance of the part with an address.
    ghost told: { Self → ℕ → ℕ };

    ghost IsSound: { Self → Type 0 };

    fn least(&self, addr: u32) -> u128
        requires sound { IsSound self.now }
        requires address { addr < 2 ^ D }
        ensures { result ≡ told self.now addr };
}
