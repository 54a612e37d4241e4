//! Entries as a record has them.

ghost use Rattle.std.specs.Prelude.{◌≡◌, ℕ, ◌<◌, Some, List, length, map, slice_get, IfSome, ⊤};
ghost use Rattle.ph_specs.specs.TreeNames.{Flat};
ghost use Rattle.ph_model.specs.ModelNames.{unvalued};

use ph_coord::Dims;

/// One entry of a record, as it is read or written. Of the body, the first D numbers are the fields, and
/// the others are zeros. The rank is the place among the points or among the children.
#[derive(Clone, Copy)]
pub struct Packed {
    pub addr: u32,
    pub child: bool,
    pub body: [u64; 16],
    pub rank: usize,
}

/// Where an entry of a record stands: its place, its address, and how many points there are in front of it.
#[derive(Clone, Copy)]
pub struct Mark {
    pub place: usize,
    pub addr: u32,
    pub points: usize,
}

/// Entries that are to be written. A mark keeps where the last one was read, so that those that are read in order are each
/// found from the one in front.
pub trait Entries<P: Dims> {
    ghost use Rattle.ph_bits.specs.Packed.{read_of, IsPadded};
    ghost use Rattle.ph_bits.specs.declared.entries.Mark.{Mark};

    ghost list: { Self → List Flat };

    ghost stands: { Self → Mark → Type 0 } = { λ _ _. ⊤ };

    fn count(&self) -> usize
        ensures { result ≡ length (list self.now) };

    /// Entry `i`. Its rank is any number.
    fn at(&self, i: usize, mark: &mut Option<Mark>) -> Packed
        requires within { i < length (list self.now) }
        requires stands { IfSome mark.old (stands self.now) }
        ensures stands { IfSome mark.new (stands self.now) }
        ensures entry { slice_get (map unvalued (list self.now)) i ≡ Some (read_of P.D result) }
        ensures zeros { IsPadded P.D result.body };

    /// The value of point entry `i`.
    fn value(&self, i: usize, mark: &mut Option<Mark>) -> u64
        requires within { i < length (list self.now) }
        requires stands { IfSome mark.old (stands self.now) }
        requires point { (v : ℕ) × (slice_get (map (λ e. e.value) (list self.now)) i ≡ Some (Some v)) }
        ensures stands { IfSome mark.new (stands self.now) }
        ensures value { (v : ℕ) → slice_get (map (λ e. e.value) (list self.now)) i ≡ Some (Some v) → result ≡ v };
}
