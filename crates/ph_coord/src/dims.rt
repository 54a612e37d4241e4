//! A number of dimensions, as a type.
//!
//! A recursive type over a const parameter gets no theorem, so trees are generic over a type that stands for the number.
ghost use Rattle.std.specs.Prelude.{ℕ};

/// A number of dimensions.
pub trait Dims {
    const D: usize;

    ghost D: { ℕ };
}

/// D dimensions.
#[derive(Clone, Copy)]
pub struct Dim<const D: usize>;

impl<const D: usize> Dims for Dim<D> {
    const D: usize = D;

    ghost D = { D };
}
