//! What takes the rows that a descent lists.
ghost use Rattle.std.specs.Prelude.{◌≡◌, Some, is_none, ◌∷◌, []};
ghost use Rattle.ph_specs.specs.TableNames.{Row as TableRow};

use ph_coord::{Dim, Row};
use ph_shape::Space;

/// Takes rows, one after another.
pub(crate) trait RowSink<P: Space> {
    ghost use Rattle.std.specs.Prelude.{List, ◌++◌};

    /// Which rows were taken from a state of the sink to a later one.
    ghost adds: { Self → Self → List TableRow → Type 0 };

    fn take(&mut self, row: P::Row)
        ensures { adds self.old self.new (P.row_of row ∷ []) };

    ghost adds_none: { (s : Self) → adds s s [] };

    ghost adds_more: { (r s t : Self) (xs ys : List TableRow) → adds r s xs → adds s t ys → adds r t (xs ++ ys) };
}

/// A vector keeps rows behind those that it has. It takes no memory for them: there has to be room for all that come.
impl<const D: usize> RowSink<Dim<D>> for Vec<Row<D>> {
    ghost use Rattle.ph_set.specs.Sinks.{Keeps};
    ghost use Rattle.ph_set.specs.SinkLaws.{keeps-none, keeps-more};

    ghost adds = { λ s t rows. Keeps s t rows };

    fn take(&mut self, row: Row<D>) {
        let _ = self.push(row);
    }

    ghost adds_none = { λ s. keeps-none s };

    ghost adds_more = { λ r s t xs ys h k. keeps-more r s t xs ys h k };
}

/// How many more rows may come. It keeps none of them.
#[derive(Drop)]
pub(crate) struct Allowance {
    // None once more came than might.
    left: Option<u64>,
}

impl Allowance {
    pub(crate) fn new(most: u64) -> Allowance
        ensures { result.left ≡ Some most }
    {
        Allowance { left: Some(most) }
    }

    /// Whether more came than might.
    pub(crate) fn is_exceeded(&self) -> bool
        ensures { result ≡ is_none self.now.left }
    {
        self.left.is_none()
    }
}

impl<P: Space> RowSink<P> for Allowance {
    ghost use Rattle.std.specs.Prelude.{length};
    ghost use Rattle.ph_set.specs.Sinks.{left_behind};
    ghost use Rattle.ph_set.specs.SinkLaws.{left-none, left-more};

    ghost adds = { λ s t rows. t.left ≡ left_behind s.left (length rows) };

    fn take(&mut self, _row: P::Row) {
        self.left = match self.left {
            Some(left) => left.checked_sub(1),
            None => None,
        };
    }

    ghost adds_none = { λ s. left-none s.left };

    ghost adds_more = { λ r s t xs ys h k. left-more r.left s.left t.left xs ys h k };
}
