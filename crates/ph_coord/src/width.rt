//! The width of a coordinate in bits.
ghost use Rattle.std.specs.Prelude.{IsTrue, ◌≡◌, ◌+◌, ◌<◌, ◌≤◌, ◌^◌, ◌-◌};
ghost use Rattle.std.specs.Option.{SomeIff};
ghost use Rattle.ph_specs.specs.TableNames.{half, least, greatest, offset, coordinate, fits};

use std::marker::Model;

/// How many bits a coordinate has: 1 to 62.
///
/// The coordinates of width w are the whole numbers from `-2^(w-1)` to `2^(w-1) - 1`.
#[derive(Clone, Copy, Debug, PartialEq, Eq)]
pub struct Width {
    bits: u32,
}

impl Model for Width {
    ghost use Rattle.std.specs.Prelude.{ℕ, ◌≤◌};

    ghost Value = { ℕ };

    ghost view = { λ w. w.bits };

    ghost invariant = { λ w. (1 ≤ w.bits) × (w.bits ≤ 62) };

    ghost inverse = { λ n. record { bits = n } };
}

impl Width {
    /// The width of so many bits, if it is one of 1 to 62.
    pub fn new(bits: u32) -> Option<Width>
        ensures { SomeIff result ((1 ≤ bits) × (bits ≤ 62)) bits }
    {
        if 1 <= bits && bits <= 62 {
            Some(Width { bits })
        } else {
            None
        }
    }

    /// The number of bits, from 1 to 62.
    pub fn bits(&self) -> u32
        ensures value { result ≡ self.now }
        ensures some { 1 ≤ result }
        ensures limit { result ≤ 62 }
    {
        self.bits
    }

    /// The least coordinate, `-2^(bits-1)`.
    pub fn least(&self) -> i64
        ensures { result ≡ least self.now }
    {
        -(self.half() as i64)
    }

    /// The greatest coordinate, `2^(bits-1) - 1`.
    pub fn greatest(&self) -> i64
        ensures { result ≡ greatest self.now }
    {
        self.half() as i64 - 1
    }

    /// Whether a number is a coordinate of this width.
    pub fn fits(&self, c: i64) -> bool
        ensures { result ≡ fits self.now c }
    {
        self.least() <= c && c <= self.greatest()
    }

    /// How far a coordinate lies above the least one: 0 to `2^bits - 1`.
    pub fn offset(&self, c: i64) -> u64
        requires { IsTrue (fits self.now c) }
        ensures { result ≡ offset self.now c }
    {
        (c + self.half() as i64) as u64
    }

    /// The coordinate that lies so far above the least one.
    pub fn coordinate(&self, offset: u64) -> i64
        requires { offset < 2 ^ self.now }
        ensures { result ≡ coordinate self.now offset }
    {
        let half = self.half() as i64;
        offset as i64 - half
    }

    // Half of the numbers that a coordinate can be.
    #[tactic(auto, using(crate::proofs::Halves::half_limits, crate::proofs::Halves::half_twice))]
    fn half(&self) -> u64
        ensures value { result ≡ half self.now }
        ensures twice { result + result ≡ 2 ^ self.now }
        ensures some { 1 ≤ result }
        ensures limit { result < 2 ^ 62 }
    {
        1u64 << (self.bits - 1)
    }
}
