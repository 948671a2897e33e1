// A ledger of steps that tells how many there were.
ghost use Rattle.std.specs.Prelude.{◌≡◌, ◌<◌};

use doc_bits::{Ledger, NoLedger};
use std::sync::ledger::{Blank, Ledger as Account};

/// A ledger that counts at run time too.
#[derive(Drop)]
pub(crate) struct Tally<A: Account> {
    steps: NoLedger<A>,
    pub(crate) seen: u64,
}

impl<A: Account> Tally<A> {
    /// A tally that has counted nothing. The blank represents the account of the type.
    pub(crate) fn new(blank: Blank) -> Tally<A>
        requires name { blank.name ≡ A.name }
        requires parts { blank.parts ≡ A.parts }
        requires some { 0 < A.parts }
    {
        Tally {
            steps: NoLedger::new(blank),
            seen: 0,
        }
    }
}

impl<A: Account> Ledger for Tally<A> {
    ghost count = { λ tally. tally.steps };

    fn add(&mut self) {
        self.steps.add();
        self.seen = self.seen.saturating_add(1);
    }
}
