// Lists of a stream that were met, each of which is found again by its place or by its bytes.
ghost use Rattle.std.specs.Prelude.{◌≡◌, ◌≤◌, ◌++◌, [], ◌∷◌, ℕ, List, length, slice_range};
ghost use Rattle.std.specs.Prelude.{IfSome, IsTrue, OnOk, OnErr};
ghost use Rattle.grpprl_index.specs.Places.{IsListLike};

use crate::grpprl_index::{GrpprlIndex, sum_of};
use doc_bits::Memory;
use std::alloc::Global;
use std::marker::Model;

/// So many lists of one row are looked at.
const MAX_TURNS: usize = 64;

/// Where a list is.
#[derive(Clone, Copy)]
struct MetList {
    from: usize,
    to: usize,
}

/// Lists that were met in a stream, each with a number: the first that is added has 0.
#[derive(Drop)]
pub struct SeenGrpprls {
    items: Vec<MetList>,
    finder: GrpprlIndex,
}

impl Model for SeenGrpprls {
    ghost use Rattle.std.specs.Prelude.{List, ℕ, map};

    ghost Value = { List (ℕ × ℕ) };

    ghost view = { λ m. map (λ list. (list.from, list.to)) m.items.items };
}

impl SeenGrpprls {
    /// No lists. It takes no memory.
    pub fn new(alloc: Global) -> SeenGrpprls
        ensures { result ≡ [] }
    {
        SeenGrpprls {
            items: Vec::new(alloc),
            finder: GrpprlIndex::new(alloc),
        }
    }

    /// The number of a list that has the bytes of a place in the stream. The bytes of a place that was met are not
    /// looked at.
    pub fn number_at(&mut self, stream: &[u8], from: usize, to: usize) -> Option<usize>
        requires { (from ≤ to) × (to ≤ length stream.now) }
        ensures same { self.new ≡ self.old }
        ensures found { IfSome result (IsListLike stream.now (slice_range stream.now from to) self.old) }
    {
        let guess = self.finder.guess(from);
        if self.stands_at(guess, from, to) {
            return Some(guess);
        }
        let list = &stream[from..to];
        if self.is_like(guess, stream, list) {
            return Some(guess);
        }
        let found = self.number_of(stream, list);
        if let Some(number) = found {
            self.finder.keep_guess(from, number);
        }
        found
    }

    /// The number of a list that has these bytes in the stream.
    pub fn number_of(&self, stream: &[u8], list: &[u8]) -> Option<usize>
        ensures { IfSome result (IsListLike stream.now list.now self.now) }
    {
        let sum = sum_of(list);
        let mut left = self.finder.last_of(sum);
        for _turn in 0..MAX_TURNS {
            if left == 0 {
                return None;
            }
            let number = left - 1;
            if self.finder.has_sum(number, sum) && self.is_like(number, stream, list) {
                return Some(number);
            }
            left = self.finder.before(number);
        }
        None
    }

    /// Adds a list that is in the stream. It gets the next number.
    pub fn add(&mut self, stream: &[u8], from: usize, to: usize) -> Result<(), Memory>
        requires { (from ≤ to) × (to ≤ length stream.now) }
        ensures ok { OnOk result (self.new ≡ self.old ++ (from, to) ∷ []) }
        ensures err { OnErr result (self.new ≡ self.old) }
    {
        let number = self.items.len();
        self.finder.add(number, sum_of(&stream[from..to]))?;
        self.finder.keep_guess(from, number);
        self.items.push(MetList { from, to })?;
        Ok(())
    }

    /// Whether the list of a number is at a place.
    fn stands_at(&self, number: usize, from: usize, to: usize) -> bool
        ensures { IsTrue result → (stream : List ℕ)
            → IsListLike stream (slice_range stream from to) self.now number }
    {
        match self.items.get(number) {
            None => false,
            Some(met) => met.from == from && met.to == to,
        }
    }

    /// Whether the list of a number has these bytes.
    fn is_like(&self, number: usize, stream: &[u8], list: &[u8]) -> bool
        ensures { IsTrue result → IsListLike stream.now list.now self.now number }
    {
        match self.items.get(number) {
            None => false,
            Some(met) => has_list(stream, *met, list),
        }
    }
}

/// Whether a list that was met has these bytes.
fn has_list(stream: &[u8], met: MetList, list: &[u8]) -> bool
    ensures { IsTrue result → slice_range stream.now met.from met.to ≡ list.now }
{
    if met.to < met.from || stream.len() < met.to {
        return false;
    }
    let here = &stream[met.from..met.to];
    here == list
}
