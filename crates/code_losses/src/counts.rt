// How many lists have each code, list by list.
ghost use Rattle.std.specs.Prelude.{◌≡◌, ◌^◌, ◌<◌, ◌≤◌, ◌+◌, ℕ, List, [], ◌∷◌, ◌++◌, IfOk};
ghost use Rattle.sprm_table.specs.Sprm.{Prl, SpellsSprmList, IsAcceptedList};
ghost use Rattle.code_losses.specs.Tallies.{HasCodes, HasNone, MeetsCode};
ghost use Rattle.code_losses.specs.Counted.{HasAllCodes, AreCodeCounts, IsFoundPrlList, IsListing, CountsPart};

use doc_bits::Memory;
use sprm_table::{SprmIter, list_fault};
use std::alloc::Global;

/// How many codes of 16 bits there are.
pub(crate) const CODES: usize = 65536;

/// For each code how many lists were met with it, and the number of the last of them.
#[derive(Drop)]
pub(crate) struct Tally {
    pub(crate) counts: Vec<u64>,
    pub(crate) lists: Vec<u64>,
}

/// How many lists were met, and how many of them have each code, and have it again.
#[derive(Drop)]
pub(crate) struct CodeCounts {
    pub(crate) seen: u64,
    pub(crate) first: Tally,
    pub(crate) again: Tally,
}

impl Tally {
    /// No list was met.
    fn new(alloc: Global) -> Result<Tally, Memory>
        ensures { IfOk result HasNone }
    {
        let mut counts = Vec::with_capacity(alloc, CODES)?;
        counts.resize(CODES, 0)?;
        let mut lists = Vec::with_capacity(alloc, CODES)?;
        lists.resize(CODES, 0)?;
        Ok(Tally { counts, lists })
    }

    /// Meets a code in the list of this number, and tells whether it was met there before.
    fn meet(&mut self, code: u16, number: u64) -> bool
        requires { HasCodes self.old }
        ensures { MeetsCode self.old self.new code number result }
    {
        let code = code as usize;
        if self.lists[code] == number {
            return true;
        }
        self.lists[code] = number;
        self.counts[code] = self.counts[code].saturating_add(1);
        false
    }
}

impl CodeCounts {
    /// No list was met.
    pub(crate) fn new(alloc: Global) -> Result<CodeCounts, Memory>
        ensures { IfOk result (AreCodeCounts []) }
    {
        Ok(CodeCounts {
            seen: 0,
            first: Tally::new(alloc)?,
            again: Tally::new(alloc)?,
        })
    }

    /// Meets a code in the list that comes next.
    fn meet(&mut self, code: u16)
        requires codes { HasAllCodes self.old }
        requires few { self.old.seen < 2 ^ 63 }
        ensures codes { HasAllCodes self.new }
        ensures seen { self.new.seen ≡ self.old.seen }
        ensures listing { (lists : List (List Prl)) → (front : List Prl) → (value : List ℕ)
            → IsListing lists front self.old → IsListing lists (front ++ (code, value) ∷ []) self.new }
    {
        let number = self.seen + 1;
        if !self.first.meet(code, number) {
            return;
        }
        let _again = self.again.meet(code, number);
    }

    /// Counts a list that is not cut short.
    fn count_spelt(&mut self, list: &[u8])
        requires spelt { IsAcceptedList list.now 0 }
        requires codes { HasAllCodes self.old }
        requires few { self.old.seen < 2 ^ 63 }
        ensures codes { HasAllCodes self.new }
        ensures seen { self.new.seen ≡ self.old.seen + 1 }
        ensures counted { (lists : List (List Prl)) → (prls : List Prl) → AreCodeCounts lists self.old
            → SpellsSprmList list.now prls → AreCodeCounts (lists ++ prls ∷ []) self.new }
    {
        let mut prls = SprmIter::new(list);
        while let Some((code, _, _)) = prls.next() {
            self.meet(code.0);
        }
        self.seen += 1;
    }

    /// Counts a list, where it is not cut short.
    pub(crate) fn count(&mut self, list: &[u8])
        requires codes { HasAllCodes self.old }
        requires few { self.old.seen < 2 ^ 63 }
        ensures codes { HasAllCodes self.new }
        ensures seen { self.new.seen ≤ self.old.seen + 1 }
        ensures counted { (lists : List (List Prl))
            → AreCodeCounts lists self.old → CountsPart (IsFoundPrlList list.now) lists self.new }
    {
        match list_fault(list, 0) {
            Some(_) => {}
            None => self.count_spelt(list),
        }
    }
}
