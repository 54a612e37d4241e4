//! A counter of steps that contracts speak of. It takes no bytes and costs nothing when the program runs.
#![tactic(auto)]

ghost use Rattle.std.specs.Prelude.{◌≡◌, ◌+◌, ◌<◌};

use std::marker::{Brand, Model};
use std::sync::ledger::{Blank, Book, Ledger, Share};

/// The number of steps taken so far, without bound. Only [`Steps::tick`] changes it.
///
/// A function that counts takes `&mut Steps<L>` for any `L`. One whose caller counts nothing is
/// reached through a function that is given `Blank::new(1)` and makes its counter of it, as [`with_new_counters`] does.
#[derive(Drop)]
pub struct Steps<L: Ledger> {
    book: Book<L>,
    share: Share<L>,
}

impl<L: Ledger> Model for Steps<L> {
    ghost use Rattle.std.specs.Prelude.{ℕ, ◌<◌};

    ghost Value = { ℕ };

    ghost view = { λ s. s.book.total };

    ghost invariant = { λ s. 0 < s.share.parts };
}

impl<L: Ledger> Steps<L> {
    /// A counter at 0, of a blank for its ledger.
    pub fn new(blank: Blank) -> Steps<L>
        requires name { blank.name ≡ L.name }
        requires parts { blank.parts ≡ L.parts }
        requires some { 0 < blank.parts }
        ensures { result ≡ 0 }
    {
        let (book, share) = blank.open();
        Steps { book, share }
    }

    /// Takes one step.
    pub fn tick(&mut self)
        ensures { self.new ≡ self.old + 1 }
    {
        self.book.add(&mut self.share, 1);
    }
}

/// What edits of a tree count: the nodes that they visit, and those that they change.
#[derive(Drop)]
pub struct Counters<V: Ledger, C: Ledger> {
    pub visits: Steps<V>,
    pub changes: Steps<C>,
}

impl<V: Ledger, C: Ledger> Counters<V, C> {
    /// Both at 0, each of a blank for its ledger.
    pub fn new(visits: Blank, changes: Blank) -> Counters<V, C>
        requires visits { (visits.name ≡ V.name) × (visits.parts ≡ V.parts) × (0 < visits.parts) }
        requires changes { (changes.name ≡ C.name) × (changes.parts ≡ C.parts) × (0 < changes.parts) }
        ensures visits { result.visits ≡ 0 }
        ensures changes { result.changes ≡ 0 }
    {
        Counters {
            visits: Steps::new(visits),
            changes: Steps::new(changes),
        }
    }
}

/// Work that counts, whatever the ledgers of its counters are.
pub trait Counting {
    /// What comes of it.
    type Outcome;

    ghost gives: { Self → Self.Outcome → Type 0 } = { λ _ _. Unit {0} };

    /// Does the work.
    fn run<V: Ledger, C: Ledger>(self, counters: &mut Counters<V, C>) -> Self::Outcome
        ensures { gives self result };
}

/// Does work with new counters, which nobody reads. It is for programs and tests: elsewhere it would hide what is counted.
pub fn with_new_counters<W: Counting>(work: W) -> W::Outcome
    ensures { W.gives work result }
{
    with_counters::<W, Brand, Brand>(work, Blank::new(1), Blank::new(1))
}

// Does work with counters of these blanks.
fn with_counters<W: Counting, V: Ledger, C: Ledger>(
    work: W,
    visits: Blank,
    changes: Blank,
) -> W::Outcome
    requires visits { (visits.name ≡ V.name) × (visits.parts ≡ V.parts) × (0 < visits.parts) }
    requires changes { (changes.name ≡ C.name) × (changes.parts ≡ C.parts) × (0 < changes.parts) }
    ensures { W.gives work result }
{
    work.run(&mut Counters::<V, C>::new(visits, changes))
}
