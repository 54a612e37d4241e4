//! The entries that are written.

ghost use Rattle.std.specs.Prelude.{◌≡◌, ◌*◌, ◌^◌, ◌<◌, ◌≤◌, ◌++◌, drop, replicate};

use ph_bits::{Entries, Mark, Packed};
use ph_coord::Dims;
use std::marker::PhantomData;

/// Points whose addresses lie as far apart as the addresses of D dimensions let them, from address 0 on. The fields of all
/// bodies are one number, since a time does not depend on them, and the value of a point is its address.
#[derive(Drop)]
pub struct Points<P: Dims> {
    pub level: u32,
    pub count: u32,
    pub step: u32,
    field: u64,
    dims: PhantomData<P>,
    ghost some: { 1 ≤ P.D },
    ghost few: { P.D ≤ 16 },
    ghost low: { level ≤ 61 },
    ghost least: { 1 ≤ count },
    ghost apart: { 1 ≤ step },
    ghost within: { count * step ≤ 2 ^ P.D },
    ghost fits: { field < 2 ^ level },
}

impl<P: Dims> Points<P> {
    /// So many points at a level, whose fields are the lower digits of a number. Less than one point is one, and more than
    /// there are addresses are as many as these.
    #[inline(always)]
    pub fn new(level: u32, count: u32, number: u64) -> Points<P>
        requires some { 1 ≤ P.D }
        requires few { P.D ≤ 16 }
        requires low { level ≤ 61 }
    {
        let addresses = 1u32 << P::D;
        let count = count.clamp(1, addresses);
        Points {
            level,
            count,
            step: addresses / count,
            field: number % (1 << level),
            dims: PhantomData,
        }
    }

    /// Takes the fields of another number.
    #[inline(always)]
    pub fn refill(&mut self, number: u64)
        ensures level { self.new.level ≡ self.old.level }
        ensures count { self.new.count ≡ self.old.count }
    {
        self.field = number % (1 << self.level);
    }
}

impl<P: Dims> Entries<P> for Points<P> {
    ghost use Rattle.record_bench.specs.Listed.{points};

    ghost list = { λ s. points P.D s.count 0 s.step s.field };

    fn count(&self) -> usize {
        self.count as usize
    }

    fn at(&self, i: usize, mark: &mut Option<Mark>) -> Packed {
        let _ = mark;
        let body = body_of(P::D, self.field);
        Packed {
            addr: i as u32 * self.step,
            child: false,
            body,
            rank: 0,
        }
    }

    fn value(&self, i: usize, mark: &mut Option<Mark>) -> u64 {
        let _ = mark;
        i as u64 * self.step as u64
    }
}

// A body whose fields are one number.
fn body_of(dims: usize, field: u64) -> [u64; 16]
    requires { dims ≤ 16 }
    ensures { result ≡ replicate dims field ++ drop dims (replicate 16 0) }
{
    let mut body = [0; 16];
    'fields: for i in 0..dims {
        body[i] = field;
    }
    body
}
