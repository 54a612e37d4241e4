//! The first word of a record, and the rules on it.

ghost use Rattle.std.specs.Prelude.{◌≡◌, ◌+◌, ◌*◌, ◌^◌, ◌<◌, ◌≤◌, ◌==◌, ◌&&◌, ◌||◌, nat_le, nat_lt, false};
ghost use Rattle.ph_specs.specs.RecordNames.{first_fits as the_first_fits, level_fits as the_level_fits, least_entries, known, has_zeros_from, is_cube, layout};
ghost use Rattle.ph_specs.specs.RecordNames.{first_of, has_cube, table_digits, record_words};
ghost use Rattle.ph_snap.specs.RowFormats.{IsRowFormat};
ghost use Rattle.ph_snap.specs.Frames.{said_by};
ghost use Rattle.ph_snap.specs.RecordPlaces.{place_of, IsStanding};

use crate::places::Place;
use crate::row_format::RowFormat;
use ph_cube::by_dims as cube;
use ph_digits::digits_below;
use ph_linear::by_dims as linear;
use std::cmp::min;

/// What the first word of a record says.
#[derive(Clone, Copy)]
pub(crate) struct First {
    pub(crate) level: u32,
    pub(crate) layout: u32,
    pub(crate) entries: u32,
    pub(crate) children: u32,
}

impl First {
    pub(crate) fn new(word: u64) -> First
        ensures { said_by result ≡ first_of word }
    {
        First {
            level: (word >> 56) as u32,
            layout: ((word >> 48) % 0x100) as u32,
            entries: ((word >> 24) % 0x100_0000) as u32,
            children: (word % 0x100_0000) as u32,
        }
    }

    /// Whether a record at a place may begin with it.
    pub(crate) fn fits(&self, format: &RowFormat, place: &Place) -> bool
        requires format { IsRowFormat format.now }
        requires standing { IsStanding format.now.width format.now.dims place.now }
        ensures { result ≡ the_first_fits format.now.width format.now.dims (place_of format.now.dims place.now) (said_by self.now) }
    {
        if !self.level_fits(format, place) || !self.entries_fit(format, place) {
            return false;
        }
        self.children_fit() && self.layout_fits(format.dims) && self.ends_known(format, place)
    }

    /// How many words the record has.
    pub(crate) fn words(&self, dims: usize) -> usize
        requires few { dims ≤ 16 }
        requires low { self.now.level ≤ 61 }
        requires entries { self.now.entries ≤ 2 ^ dims }
        requires children { self.now.children ≤ self.now.entries }
        ensures value { result ≡ record_words dims (said_by self.now) }
        ensures limit { result + self.now.children ≤ 2 ^ 20 + self.now.entries }
    {
        let digits = self.table_digits(dims);
        1 + ((digits + 63) / 64) as usize + (self.entries - self.children) as usize
    }

    /// How many digits its tables have, in the smaller layout.
    pub(crate) fn table_digits(&self, dims: usize) -> u64
        requires few { dims ≤ 16 }
        requires low { self.now.level ≤ 61 }
        requires entries { self.now.entries ≤ 2 ^ dims }
        ensures value { result ≡ table_digits dims (said_by self.now) }
        ensures limit { result ≤ 2 ^ 16 * 993 }
    {
        min(
            cube::bits_of(dims, self.entries, self.level),
            linear::bits_of(dims, self.entries, self.level),
        )
    }

    // Whether its level is the highest, or that of a node below the one that the place is in.
    fn level_fits(&self, format: &RowFormat, place: &Place) -> bool
        requires format { IsRowFormat format.now }
        ensures { result ≡ the_level_fits format.now.width (place_of format.now.dims place.now) self.now.level }
    {
        match place {
            Place::Root => self.level == format.width - 1,
            Place::Under { level, .. } => self.level < *level,
        }
    }

    fn entries_fit(&self, format: &RowFormat, place: &Place) -> bool
        requires format { IsRowFormat format.now }
        ensures { result ≡ (nat_le (least_entries (place_of format.now.dims place.now)) self.now.entries && nat_le self.now.entries (2 ^ format.now.dims)) }
    {
        place.least_entries(format) <= self.entries && self.entries <= 1 << format.dims
    }

    fn children_fit(&self) -> bool
        ensures { result ≡ (nat_le self.now.children self.now.entries && (nat_lt 0 self.now.level || (self.now.children == 0))) }
    {
        self.children <= self.entries && (0 < self.level || self.children == 0)
    }

    // Whether its layout is the smaller one.
    fn layout_fits(&self, dims: usize) -> bool
        requires few { dims ≤ 16 }
        requires low { self.now.level ≤ 61 }
        requires entries { self.now.entries ≤ 2 ^ dims }
        ensures { result ≡ (self.now.layout == layout (has_cube dims (said_by self.now))) }
    {
        let layout = if self.wants_cube(dims) { 1 } else { 0 };
        self.layout == layout
    }

    fn wants_cube(&self, dims: usize) -> bool
        requires few { dims ≤ 16 }
        requires low { self.now.level ≤ 61 }
        requires entries { self.now.entries ≤ 2 ^ dims }
        ensures { result ≡ has_cube dims (said_by self.now) }
    {
        cube::bits_of(dims, self.entries, self.level)
            < linear::bits_of(dims, self.entries, self.level)
    }

    // Whether no digit is known at its level and below.
    fn ends_known(&self, format: &RowFormat, place: &Place) -> bool
        requires format { IsRowFormat format.now }
        requires low { self.now.level ≤ 61 }
        requires standing { IsStanding format.now.width format.now.dims place.now }
        ensures { result ≡ has_zeros_from self.now.level (known format.now.dims (place_of format.now.dims place.now)) }
    {
        let known = place.known(format);
        let end = self.level + 1;
        known[..format.dims]
            .iter()
            .all(|x| digits_below(end, *x) == 0)
    }
}
