//! How many turns the loops of a step take.

ghost use Rattle.std.specs.Prelude.{◌≡◌, ◌≤◌, ◌<◌, ◌+◌, ℕ};

use std::marker::Model;
use std::sync::ledger::{Blank, Book, Ledger, Share};

/// Counts the turns of loops. What is proved of a count by any of these holds of [`TurnCount`], which leaves none out.
pub trait Turns {
    /// How many turns were counted so far.
    ghost counted: { Self → ℕ };

    /// Counts a turn, or leaves it out.
    fn count(&mut self)
        ensures { counted self.new ≤ counted self.old + 1 };
}

/// Counts no turn.
#[derive(Drop)]
pub struct Uncounted;

impl Turns for Uncounted {
    ghost counted = { λ _. 0 };

    fn count(&mut self) {}
}

/// The number of turns that were counted. It takes no bytes and no time, and only `count` changes it.
#[derive(Drop)]
pub struct TurnCount<L: Ledger> {
    book: Book<L>,
    share: Share<L>,
}

impl<L: Ledger> Model for TurnCount<L> {
    ghost use Rattle.std.specs.Prelude.{◌<◌, ℕ};

    ghost Value = { ℕ };

    ghost view = { λ count. count.book.total };

    ghost invariant = { λ count. 0 < count.share.parts };
}

impl<L: Ledger> TurnCount<L> {
    /// No turn is counted yet.
    pub fn new(blank: Blank) -> Self
        requires name { blank.name ≡ L.name }
        requires parts { blank.parts ≡ L.parts }
        requires some { 0 < blank.parts }
        ensures { result ≡ 0 }
    {
        let (book, share) = blank.open::<L>();
        TurnCount { book, share }
    }
}

impl<L: Ledger> Turns for TurnCount<L> {
    ghost counted = { λ count. count };

    /// Counts a turn.
    fn count(&mut self)
        ensures exact { self.new ≡ self.old + 1 }
        ensures at_most { self.new ≤ self.old + 1 }
    {
        self.book.add(&mut self.share, 1);
    }
}
