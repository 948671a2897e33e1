// Steps of work that contracts count: the sums that are read to find a place.
ghost use Rattle.std.specs.Prelude.{◌≡◌, ℕ, ◌+◌, ◌<◌};

use std::marker::Model;
use std::sync::ledger::{Blank, Book, Ledger as Account, Share};

/// What counts steps of work.
pub trait Ledger: Drop {
    /// How many steps were counted.
    ghost count: { Self → ℕ };

    /// Counts one step more.
    fn add(&mut self)
        ensures { count self.new ≡ count self.old + 1 };
}

/// Steps of work, as a ledger counts them. A step is a sum that is read.
#[derive(Drop)]
pub struct Steps<L: Ledger> {
    ledger: L,
}

impl<L: Ledger> Model for Steps<L> {
    ghost Value = { ℕ };

    ghost view = { λ steps. L.count steps.ledger };
}

impl<L: Ledger> Steps<L> {
    /// Steps that go on where the ledger is.
    pub fn new(ledger: L) -> Steps<L>
        ensures { result ≡ L.count ledger }
    {
        Steps { ledger }
    }

    /// The ledger that counts the steps.
    pub fn ledger(&self) -> &L
        ensures { L.count result.now ≡ self.now }
    {
        &self.ledger
    }

    /// Counts one step more.
    pub(crate) fn add(&mut self)
        ensures { self.new ≡ self.old + 1 }
    {
        self.ledger.add();
    }
}

/// A ledger that counts in contracts alone: it takes no memory and does nothing at run time.
#[derive(Drop)]
pub struct NoLedger<A: Account> {
    book: Book<A>,
    share: Share<A>,
}

impl<A: Account> Model for NoLedger<A> {
    ghost use Rattle.std.specs.Prelude.{ℕ, ◌<◌};

    ghost Value = { ℕ };

    ghost view = { λ ledger. ledger.book.total };

    ghost invariant = { λ ledger. 0 < ledger.share.parts };
}

impl<A: Account> NoLedger<A> {
    /// A ledger that has counted nothing. The blank represents the account of the type.
    pub fn new(blank: Blank) -> NoLedger<A>
        requires name { blank.name ≡ A.name }
        requires parts { blank.parts ≡ A.parts }
        requires some { 0 < A.parts }
        ensures { result ≡ 0 }
    {
        let (book, share) = blank.open::<A>();
        NoLedger { book, share }
    }
}

impl<A: Account> Ledger for NoLedger<A> {
    ghost count = { λ ledger. ledger };

    fn add(&mut self) {
        let NoLedger { book, share } = self;
        book.add(share, 1);
    }
}
