//! Coordinates as a command has them.
ghost use Rattle.std.specs.Prelude.{◌≡◌, ◌<◌, ◌≤◌, ◌∷◌, ◌++◌, [], length};
ghost use Rattle.std.specs.Option.{SomeIff};

use std::marker::Model;

// The most coordinates of a point.
const MOST: usize = 16;

/// The most coordinates of a command, which has two points at most.
pub(crate) const MOST_OF_COMMAND: usize = 32;

/// A coordinate that a script names.
#[derive(Clone, Copy, Debug, Default, PartialEq, Eq)]
pub enum Coord {
    /// A number that is not one of 64 bits. No width has it.
    #[default]
    Far,
    /// A number of 64 bits.
    Whole(i64),
}

/// At most 16 coordinates, in the order of the dimensions. They lie elsewhere, as in the buffer that a line is read into.
#[derive(Debug, Drop)]
pub struct Coords<'c> {
    list: &'c [Coord],
}

impl<'c> Model for Coords<'c> {
    ghost use Rattle.std.specs.Prelude.{List, ◌≤◌, length};
    ghost use Rattle.ph_script.specs.declared.coords.Coord.{Coord};

    ghost Value = { List Coord };

    ghost view = { λ c. c.list.now };

    ghost invariant = { λ c. length c.list.now ≤ 16 };
}

impl<'c> Coords<'c> {
    pub(crate) fn new(list: &'c [Coord]) -> Coords<'c>
        requires { length list.now ≤ 16 }
        ensures { result ≡ list.now }
    {
        Coords { list }
    }

    /// Coordinates in this order, if there are at most 16.
    pub fn from_slice(list: &'c [Coord]) -> Option<Coords<'c>>
        ensures { SomeIff result (length list.now ≤ 16) list.now }
    {
        if list.len() <= MOST {
            Some(Coords::new(list))
        } else {
            None
        }
    }

    /// The coordinates.
    pub fn as_slice(&self) -> &[Coord]
        ensures value { result.now ≡ self.now }
        ensures limit { length result.now ≤ 16 }
    {
        self.list
    }
}

/// Room for the coordinates of a command. They lie in the value itself, and it is seen as them.
///
/// One buffer can serve for many commands, one after another.
#[derive(Debug, Drop)]
pub struct CoordBuffer {
    // Behind the coordinates stands what earlier commands left.
    room: [Coord; MOST_OF_COMMAND],
    len: usize,
}

impl Model for CoordBuffer {
    ghost use Rattle.std.specs.Prelude.{List, ◌≤◌, take};
    ghost use Rattle.ph_script.specs.declared.coords.Coord.{Coord};

    ghost Value = { List Coord };

    ghost view = { λ b. take b.len b.room };

    ghost invariant = { λ b. b.len ≤ 32 };
}

impl CoordBuffer {
    /// A buffer without a coordinate.
    pub fn new() -> CoordBuffer
        ensures { result ≡ [] }
    {
        CoordBuffer {
            room: [Coord::Far; MOST_OF_COMMAND],
            len: 0,
        }
    }

    pub(crate) fn clear(&mut self)
        ensures { self.new ≡ [] }
    {
        self.len = 0;
    }

    // Writes a coordinate behind the others.
    pub(crate) fn push(&mut self, coord: Coord)
        requires { length self.old < MOST_OF_COMMAND }
        ensures { self.new ≡ self.old ++ coord ∷ [] }
    {
        let at = self.len;
        self.room[at] = coord;
        self.len = at + 1;
    }

    pub(crate) fn as_slice(&self) -> &[Coord]
        ensures { result.now ≡ self.now }
    {
        &self.room[..self.len]
    }
}
