//! The nodes on the way of a walk, from the root to the node that it stands in.
ghost use Rattle.std.specs.Prelude.{◌≡◌, ◌∷◌, [], ◌<◌, length, drop, slice_get};

use arrayvec::ArrayVec;
use std::marker::Model;

/// The frames of at most 62 nodes, seen from the last one. They stand in the path itself.
#[derive(Drop)]
pub struct PathOf<T> {
    // The last frame changes at each entry, and stands apart.
    last: Option<T>,
    above: ArrayVec<Option<T>, 62>,
}

impl<T> Model for PathOf<T> {
    ghost use Rattle.std.specs.Prelude.{List};
    ghost use Rattle.ph_path.specs.Stacked.{last_first, AreStacked};

    ghost Value = { List T };

    ghost view = { λ p. last_first p.last p.above.items };

    ghost invariant = { λ p. AreStacked p.last p.above.items };
}

impl<T: Copy> PathOf<T> {
    /// The path of no node.
    pub fn new() -> PathOf<T>
        ensures { result ≡ [] }
    {
        PathOf {
            last: None,
            above: ArrayVec::new(),
        }
    }

    /// The last frame.
    pub fn last(&self) -> Option<T>
        ensures { result ≡ slice_get self.now 0 }
    {
        self.last
    }

    /// Puts a frame in place of the last one, if there is one.
    pub fn set_last(&mut self, frame: T)
        ensures { self.new ≡ frame ∷ drop 1 self.old }
    {
        self.last = Some(frame);
    }

    /// Goes down to a frame.
    pub fn push(&mut self, frame: T)
        requires { length self.old < 62 }
        ensures { self.new ≡ frame ∷ self.old }
    {
        let Some(last) = self.last else {
            self.last = Some(frame);
            return;
        };
        self.above.push(Some(last));
        self.last = Some(frame);
    }

    /// Takes the last frame away.
    pub fn leave(&mut self)
        ensures { self.new ≡ drop 1 self.old }
    {
        let Some(frame) = self.above.pop() else {
            self.last = None;
            return;
        };
        self.last = frame;
    }
}
