// Sums that are read step by step.
ghost use Rattle.std.specs.Prelude.{◌≡◌, ℕ, ◌+◌, ◌<◌, ◌≤◌, take, drop, ◌++◌, ◌∷◌, [], length, OnOk, OnErr};
ghost use Rattle.std.specs.Prelude.{slice_get, slice_set, Some};
ghost use Rattle.doc_bits.specs.Sums.{SumList};

use crate::Memory;
use crate::steps::{Ledger, Steps};
use std::alloc::Global;
use std::marker::Model;

/// A list of sums. Those that there is room for are put in without memory.
#[derive(Drop)]
pub struct Sums {
    items: Vec<u32>,
    spare: usize,
}

impl Model for Sums {
    ghost use Rattle.std.specs.Prelude.{◌+◌, ◌≤◌, vec_len, vec_capacity};
    ghost use Rattle.doc_bits.specs.Sums.{SumList, sum_list_code};

    ghost Value = { SumList };

    ghost coded = { sum_list_code };

    ghost view = { λ s. record {
      sums = s.items.items;
      spare = s.spare;
    } };

    ghost invariant = { λ s. vec_len s.items + s.spare ≤ vec_capacity s.items };
}

impl Sums {
    /// No sums, and room for none.
    pub fn new(alloc: Global) -> Sums
        ensures sums { result.sums ≡ [] }
        ensures spare { result.spare ≡ 0 }
    {
        Sums {
            items: Vec::new(alloc),
            spare: 0,
        }
    }

    /// The number of sums.
    pub fn len(&self) -> usize
        ensures { result ≡ length self.now.sums }
    {
        self.items.len()
    }

    /// Makes room for so many more at least.
    pub fn reserve(&mut self, n: usize) -> Result<(), Memory>
        ensures sums { self.new.sums ≡ self.old.sums }
        ensures ok { OnOk result (n ≤ self.new.spare) }
        ensures more { self.old.spare ≤ self.new.spare }
        ensures err { OnErr result (self.new ≡ self.old) }
    {
        if n <= self.spare {
            return Ok(());
        }
        self.items.reserve(n)?;
        self.spare = n;
        Ok(())
    }

    /// Puts a sum before that of this number. No memory is taken.
    pub fn insert(&mut self, i: usize, value: u32)
        requires within { i ≤ length self.old.sums }
        requires room { 1 ≤ self.old.spare }
        ensures sums { self.new.sums ≡ take i self.old.sums ++ (value ∷ drop i self.old.sums) }
        ensures spare { self.new.spare + 1 ≡ self.old.spare }
    {
        let _ = self.items.insert(i, value);
        self.spare -= 1;
    }

    /// Puts a sum in the place of that of this number. No memory is taken.
    pub fn set(&mut self, i: usize, value: u32)
        requires within { i < length self.old.sums }
        ensures sums { self.new.sums ≡ slice_set self.old.sums i value }
        ensures spare { self.old.spare ≤ self.new.spare }
    {
        self.items[i] = value;
    }

    /// Takes the sum of this number away. No memory is taken.
    pub fn remove(&mut self, i: usize)
        requires within { i < length self.old.sums }
        ensures sums { self.new.sums ≡ take i self.old.sums ++ drop (i + 1) self.old.sums }
        ensures spare { self.old.spare ≤ self.new.spare }
    {
        let _ = self.items.remove(i);
    }

    /// The sum of this number: one step. There is no other way to read it.
    pub fn get<L: Ledger>(&self, i: usize, steps: &mut Steps<L>) -> u32
        requires within { i < length self.now.sums }
        ensures found { slice_get self.now.sums i ≡ Some result }
        ensures step { steps.new ≡ steps.old + 1 }
    {
        steps.add();
        self.items[i]
    }
}
