//! The places of a form, one by one.
ghost use Rattle.std.specs.Prelude.{◌≡◌, ◌∷◌, [], MatchOption};
ghost use Rattle.ph_script.specs.Forms.{place_of, places_of, spread_of};

use crate::forms::Place;

/// The places of a form that are still to come.
#[derive(Clone, Copy)]
pub(crate) struct Spread {
    dims: usize,
    // A place that comes so many times, and those behind it in the form.
    place: Place,
    times: usize,
    more: &'static [Place],
}

impl Spread {
    /// All places of a form.
    pub(crate) fn new(places: &'static [Place], dims: usize) -> Spread
        ensures { spread_of result ≡ places_of dims places.now }
    {
        Spread {
            dims,
            place: Place::Coordinate,
            times: 0,
            more: places,
        }
    }

    /// The next place.
    pub(crate) fn next_place(&mut self) -> Option<Place>
        ensures { MatchOption result
            (spread_of self.old ≡ [])
            (λ place. spread_of self.old ≡ place_of place ∷ spread_of self.new) }
    {
        while self.times == 0 {
            let Some((place, more)) = self.more.split_first() else {
                return None;
            };
            self.place = *place;
            self.times = place.count(self.dims);
            self.more = more;
        }
        self.times -= 1;
        Some(self.place)
    }
}
