// A block of items: 128 at most. There is always room for all of them.
ghost use Rattle.std.specs.Prelude.{◌≡◌, ◌+◌, ◌^◌, ◌<◌, ◌≤◌, [], ◌∷◌, ◌++◌};
ghost use Rattle.std.specs.Prelude.{length, take, drop, map, slice_get, slice_set, slice_range, Some, IfOk, OnOk};
ghost use Rattle.std.specs.Prelude.{vec_capacity};
ghost use Rattle.std.specs.List.{splice};
ghost use Rattle.chunked_list.specs.Blocks.{total_units, map_range, IsSpotOf};

use crate::{Mapping, Measured, Spot};
use doc_bits::{Ledger, Memory, Steps, Sums};
use std::alloc::Global;
use std::marker::Model;

/// So many items a block has at most.
pub(crate) const MAX_ITEMS: usize = 128;

/// Items, and their lengths. There are always 128 lengths: those behind the items' tell nothing.
#[derive(Drop)]
pub(crate) struct Block<T: Measured> {
    items: Vec<T>,
    lens: Sums,
}

impl<T: Measured> Model for Block<T> {
    ghost use Rattle.std.specs.Prelude.{List, vec_capacity};
    ghost use Rattle.std.specs.Coded.{coded_list};
    ghost use Rattle.chunked_list.specs.Blocks.{IsMeasuredBlock};

    ghost Value = { List T };

    ghost coded = { coded_list T.code };

    ghost view = { λ b. b.items.items };

    ghost invariant = { λ b. IsMeasuredBlock T.units b.items.items b.lens (vec_capacity b.items) };
}

impl<T: Measured> Block<T> {
    /// A block of no items.
    pub(crate) fn new(alloc: Global) -> Result<Block<T>, Memory>
        ensures { IfOk result (λ block. block ≡ []) }
    {
        let items = Vec::with_capacity(alloc, MAX_ITEMS)?;
        let mut lens = Sums::new(alloc);
        lens.reserve(MAX_ITEMS)?;
        for turn in 0..MAX_ITEMS {
            lens.insert(turn, 0);
        }
        Ok(Block { items, lens })
    }

    /// The number of items.
    pub(crate) fn len(&self) -> usize
        ensures value { result ≡ length self.now }
        ensures most { result ≤ 128 }
    {
        self.items.len()
    }

    /// An item.
    pub(crate) fn get(&self, i: usize) -> T
        requires { i < length self.now }
        ensures { slice_get self.now i ≡ Some result }
    {
        self.items[i]
    }

    /// The units of all items.
    pub(crate) fn units(&self) -> u32
        requires { total_units T.units self.now < 2 ^ 32 }
        ensures { result ≡ total_units T.units self.now }
    {
        let mut total = 0;
        for i in 0..self.items.len() {
            total += self.items[i].units();
        }
        total
    }

    /// The item of a unit. Each length that is read is a step.
    pub(crate) fn find<L: Ledger>(&self, place: u32, steps: &mut Steps<L>) -> Spot
        requires { place < total_units T.units self.now }
        ensures spot { IsSpotOf T.units self.now place result }
        ensures steps { steps.new ≤ steps.old + 128 }
    {
        let mut within = place;
        for item in 0..self.items.len() {
            let units = self.lens.get(item, steps);
            if within < units {
                return Spot { item, within };
            }
            within -= units;
        }
        Spot { item: 0, within }
    }

    /// Puts an item before that of this number.
    pub(crate) fn insert(&mut self, i: usize, item: T)
        requires within { i ≤ length self.old }
        requires room { length self.old < 128 }
        ensures { self.new ≡ take i self.old ++ (item ∷ drop i self.old) }
    {
        let _ = self.items.insert(i, item);
        write_lengths(&self.items, &mut self.lens, i);
    }

    /// Puts an item in the place of another.
    pub(crate) fn set(&mut self, i: usize, item: T)
        requires { i < length self.old }
        ensures { self.new ≡ slice_set self.old i item }
    {
        self.items[i] = item;
        write_lengths(&self.items, &mut self.lens, i);
    }

    /// Takes an item out.
    pub(crate) fn remove(&mut self, i: usize) -> T
        requires { i < length self.old }
        ensures value { slice_get self.old i ≡ Some result }
        ensures items { self.new ≡ take i self.old ++ drop (i + 1) self.old }
    {
        let item = self.items.remove(i);
        write_lengths(&self.items, &mut self.lens, i);
        item
    }

    /// Puts items behind the last one.
    pub(crate) fn append(&mut self, items: &[T])
        requires { length self.old + length items.now ≤ 128 }
        ensures { self.new ≡ self.old ++ items.now }
    {
        for i in 0..items.len() {
            let end = self.len();
            self.insert(end, items[i]);
        }
    }

    /// Takes the items from `first` to before `last` out.
    pub(crate) fn cut(&mut self, first: usize, last: usize)
        requires order { first ≤ last }
        requires within { last ≤ length self.old }
        ensures { self.new ≡ splice self.old first last [] }
    {
        let _ = self.items.drain(first..last);
        write_lengths(&self.items, &mut self.lens, first);
    }

    /// Appends the items from `first` to before `last` to a list. Where the block is shorter there are fewer.
    pub(crate) fn copy(&self, first: usize, last: usize, copy: &mut Vec<T>) -> Result<(), Memory>
        requires { first ≤ last }
        ensures { OnOk result (copy.new.items ≡ copy.old.items ++ slice_range self.now first last) }
    {
        let len = self.items.len();
        copy.extend_from_slice(&self.items[first.min(len)..last.min(len)])?;
        Ok(())
    }

    /// Exchanges the items from `first` to before `last` for what they become.
    pub(crate) fn change<C: Mapping<T>>(&mut self, first: usize, last: usize, by: &C)
        requires { first ≤ last }
        ensures items { self.new ≡ map_range (C.image by.now) self.old first last }
        ensures units { total_units T.units self.new ≡ total_units T.units self.old }
    {
        let len = self.items.len();
        change_all(&mut self.items, first.min(len), last.min(len), by);
    }

    /// Moves so many of the last items to the front of the next block.
    pub(crate) fn move_tail(&mut self, next: &mut Block<T>, count: usize)
        requires count { count ≤ length self.old }
        requires room { length next.old + count ≤ 128 }
        ensures joined { self.new ++ next.new ≡ self.old ++ next.old }
        ensures len { length self.new + count ≡ length self.old }
    {
        for _turn in 0..count {
            let last = self.len() - 1;
            let item = self.remove(last);
            next.insert(0, item);
        }
    }
}

/// Writes down the lengths of the items from `from` on.
fn write_lengths<T: Measured>(items: &Vec<T>, lens: &mut Sums, from: usize)
    requires from { from ≤ length items.now.items }
    requires long { length items.now.items ≤ length lens.old.sums }
    requires before { take from lens.old.sums ≡ take from (map T.units items.now.items) }
    ensures told { take (length items.now.items) lens.new.sums ≡ map T.units items.now.items }
    ensures long { length lens.new.sums ≡ length lens.old.sums }
{
    for i in from..items.len() {
        lens.set(i, items[i].units());
    }
}

/// Exchanges items for what they become.
fn change_all<T: Measured, C: Mapping<T>>(items: &mut Vec<T>, first: usize, last: usize, by: &C)
    requires order { first ≤ last }
    requires within { last ≤ length items.old.items }
    ensures items { items.new.items ≡ map_range (C.image by.now) items.old.items first last }
    ensures units { map T.units items.new.items ≡ map T.units items.old.items }
    ensures room { vec_capacity items.new ≡ vec_capacity items.old }
{
    for i in first..last {
        items[i] = by.apply(items[i]);
    }
}
