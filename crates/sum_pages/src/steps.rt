//! Steps that contracts count, and the program doesn't.
ghost use Rattle.std.specs.Prelude.{◌≡◌, ℕ, ◌+◌, ◌<◌};

use std::marker::Model;
use std::sync::ledger::{Blank, Book, Ledger, Share};

/// How many steps were taken, seen as that number. What a step stands for is said where `tick` is
/// called.
///
/// A call that bounds its steps takes `steps: &mut Steps<L>` last, for any ledger. A caller that
/// counts nothing makes its own in a function that is generic in the ledger, and gives that one
/// the ledger `Brand` and a `Blank::new(1)`.
#[derive(Drop)]
pub struct Steps<L: Ledger> {
    book: Book<L>,
    share: Share<L>,
}

impl<L: Ledger> Model for Steps<L> {
    ghost Value = { ℕ };

    ghost view = { λ a. a.book.total };

    ghost invariant = { λ a. 0 < a.share.parts };
}

impl<L: Ledger> Steps<L> {
    /// No steps yet. The blank is one of the ledger.
    pub fn new(blank: Blank) -> Steps<L>
        requires name { blank.name ≡ L.name }
        requires parts { blank.parts ≡ L.parts }
        requires some { 0 < L.parts }
        ensures { result ≡ 0 }
    {
        let (book, share) = blank.open();
        Steps { book, share }
    }

    /// Takes a step.
    pub fn tick(&mut self)
        ensures { self.new ≡ self.old + 1 }
    {
        self.book.add(&mut self.share, 1);
    }

    /// Takes so many steps.
    pub fn tick_times(&mut self, count: u32)
        ensures { self.new ≡ self.old + count }
    {
        self.book.add(&mut self.share, u64::from(count));
    }
}
