//! Where a record stands.

ghost use Rattle.std.specs.Prelude.{◌≡◌, ◌≤◌, take};
ghost use Rattle.ph_model.specs.ModelNames.{IsBody};
ghost use Rattle.ph_specs.specs.RecordNames.{known, least_entries};
ghost use Rattle.ph_snap.specs.RowFormats.{IsRowFormat};
ghost use Rattle.ph_snap.specs.RecordPlaces.{place_of, IsStanding};

use crate::row_format::RowFormat;

/// Where a record stands.
#[derive(Clone, Copy)]
pub(crate) enum Place {
    /// As the root.
    Root,
    /// Under a child entry of a node at a level, behind which these digits of its points are known. Behind them are zeros.
    Under { level: u32, known: [u64; 16] },
}

impl Place {
    /// The digits that are known of the points of the record, with zeros behind them.
    pub(crate) fn known(&self, format: &RowFormat) -> [u64; 16]
        requires format { IsRowFormat format.now }
        requires standing { IsStanding format.now.width format.now.dims self.now }
        ensures known { take format.now.dims result ≡ known format.now.dims (place_of format.now.dims self.now) }
        ensures body { IsBody format.now.dims 62 (take format.now.dims result) }
    {
        let _ = format;
        match self {
            Place::Root => [0; 16],
            Place::Under { known, .. } => *known,
        }
    }

    /// How many entries a record there has at least.
    pub(crate) fn least_entries(&self, format: &RowFormat) -> u32
        ensures { result ≡ least_entries (place_of format.now.dims self.now) }
    {
        let _ = format;
        match self {
            Place::Root => 1,
            Place::Under { .. } => 2,
        }
    }
}
