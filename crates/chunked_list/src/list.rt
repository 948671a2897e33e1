// A list in blocks.
ghost use Rattle.std.specs.Prelude.{◌≡◌, ◌+◌, ◌-◌, ◌/◌, ◌^◌, ◌<◌, ◌≤◌, [], ◌∷◌, ◌++◌};
ghost use Rattle.std.specs.Prelude.{length, take, drop, slice_get, All, Some, OnOk};
ghost use Rattle.chunked_list.specs.Blocks.{joined, total_units, AreSized, IsSpotOf, IsNoLarger};

use crate::block::{Block, MAX_ITEMS};
use crate::put::{put, put_first};
use crate::row::Row;
use crate::{Measured, Spot};
use doc_bits::{Ledger, Memory, NoLedger, Steps};
use std::alloc::Global;
use std::marker::{Brand, Model};
use std::sync::ledger::{Blank, Ledger as Account};

/// A list in blocks of 128 items at most; each but the last has 32 at least. The first ones are told to be full.
#[derive(Drop)]
pub struct BlockList<T: Measured> {
    pub(crate) row: Row<T>,
    ready: Vec<Block<T>>,
    pub(crate) count: usize,
    pub(crate) full: usize,
    pub(crate) alloc: Global,
}

impl<T: Measured> Model for BlockList<T> {
    ghost use Rattle.std.specs.Prelude.{◌+◌, length};
    ghost use Rattle.chunked_list.specs.Blocks.{MeasuredList, measured_list_code, joined, AreInBlocks};

    ghost Value = { MeasuredList T };

    ghost coded = { measured_list_code T.code };

    ghost view = { λ list. record {
      items = joined list.row.blocks;
      spare = length list.ready.items;
      blocks = length list.row.blocks + length list.ready.items;
      room = length list.row.blocks + list.row.spare;
    } };

    ghost invariant = { λ list. AreInBlocks T.units list.row list.ready.items list.count list.full };
}

impl<T: Measured> BlockList<T> {
    /// A list of no items.
    pub fn new(alloc: Global) -> BlockList<T>
        ensures items { result.items ≡ [] }
        ensures spare { result.spare ≡ 0 }
    {
        BlockList {
            row: Row::new(alloc),
            ready: Vec::new(alloc),
            count: 0,
            full: 0,
            alloc,
        }
    }

    /// A list of these blocks. None is ready.
    pub(crate) fn from_blocks(alloc: Global, row: Row<T>, count: usize, full: usize) -> BlockList<T>
        requires sized { AreSized row.blocks full }
        requires counted { count ≡ length (joined row.blocks) }
        requires few { length (joined row.blocks) < 2 ^ 32 }
        requires units { total_units T.units (joined row.blocks) < 2 ^ 32 }
        ensures items { result.items ≡ joined row.blocks }
        ensures spare { result.spare ≡ 0 }
    {
        BlockList {
            row,
            ready: Vec::new(alloc),
            count,
            full,
            alloc,
        }
    }

    /// The number of items.
    pub fn len(&self) -> usize
        ensures value { result ≡ length self.now.items }
        ensures few { result < 2 ^ 32 }
        ensures units { total_units T.units self.now.items < 2 ^ 32 }
    {
        self.count
    }

    /// The number of blocks that are ready.
    pub fn spare(&self) -> usize
        ensures { result ≡ self.now.spare }
    {
        self.ready.len()
    }

    /// An item by its number.
    pub fn get(&self, i: usize) -> T
        requires { i < length self.now.items }
        ensures { slice_get self.now.items i ≡ Some result }
    {
        if i / MAX_ITEMS < self.full {
            return self.row.get(i / MAX_ITEMS, i % MAX_ITEMS);
        }
        let place = self.row.place(i);
        self.row.get(place.block, place.within)
    }

    /// Makes blocks ready for so many insertions, less those that are ready.
    pub fn reserve(&mut self, n: usize) -> Result<(), Memory>
        ensures ok { OnOk result (n ≤ self.new.spare) }
        ensures items { self.new.items ≡ self.old.items }
        ensures more { self.old.spare ≤ self.new.spare }
        ensures most { self.new.spare ≤ self.old.spare + (n - self.old.spare) }
        ensures blocks { self.new.blocks + self.old.spare ≡ self.old.blocks + self.new.spare }
    {
        self.row.reserve(n)?;
        make_ready(self.alloc, &mut self.ready, n)?;
        Ok(())
    }

    /// The item of a unit. A step is a sum or a length that is read.
    pub fn locate<L: Ledger>(&self, cp: u32, steps: &mut Steps<L>) -> Spot
        requires { cp < total_units T.units self.now.items }
        ensures spot { IsSpotOf T.units self.now.items cp result }
        ensures steps { steps.new ≤ steps.old + (length self.now.items / 32 + 130) }
    {
        let found = self.row.find(cp, steps);
        Spot {
            item: found.item,
            within: found.within,
        }
    }

    /// The item of a unit. Nobody counts the steps.
    pub fn spot(&self, cp: u32) -> Spot
        requires { cp < total_units T.units self.now.items }
        ensures { IsSpotOf T.units self.now.items cp result }
    {
        self.spot_with::<Brand>(cp, Blank::new(1))
    }

    /// The item of a unit, where the blank represents the account of the steps.
    fn spot_with<A: Account>(&self, cp: u32, blank: Blank) -> Spot
        requires cp { cp < total_units T.units self.now.items }
        requires name { blank.name ≡ A.name }
        requires parts { blank.parts ≡ A.parts }
        requires some { 0 < A.parts }
        ensures { IsSpotOf T.units self.now.items cp result }
    {
        let mut steps = Steps::new(NoLedger::<A>::new(blank));
        self.locate(cp, &mut steps)
    }

    /// Puts an item before that of this number. No memory is taken.
    pub fn insert(&mut self, i: usize, item: T)
        requires within { i ≤ length self.old.items }
        requires room { 1 ≤ self.old.spare }
        requires few { length self.old.items + 1 < 2 ^ 32 }
        requires units { total_units T.units self.old.items + T.units item < 2 ^ 32 }
        ensures items { self.new.items ≡ take i self.old.items ++ (item ∷ drop i self.old.items) }
        ensures spare { self.old.spare ≤ self.new.spare + 1 }
        ensures no_more { self.new.spare ≤ self.old.spare }
        ensures memory { IsNoLarger self.old self.new }
        ensures blocks { self.new.blocks ≡ self.old.blocks }
        ensures room { self.new.room ≡ self.old.room }
    {
        if self.count == 0 {
            self.insert_first(item);
        } else {
            self.insert_next(i, item);
        }
    }

    /// Puts an item into a list of none.
    fn insert_first(&mut self, item: T)
        requires none { length self.old.items ≡ 0 }
        requires room { 1 ≤ self.old.spare }
        requires units { T.units item < 2 ^ 32 }
        ensures items { self.new.items ≡ item ∷ [] }
        ensures spare { self.old.spare ≤ self.new.spare + 1 }
        ensures no_more { self.new.spare ≤ self.old.spare }
        ensures memory { IsNoLarger self.old self.new }
        ensures blocks { self.new.blocks ≡ self.old.blocks }
        ensures room { self.new.room ≡ self.old.room }
    {
        put_first(&mut self.row, &mut self.ready, item);
        self.count = 1;
        self.full = 0;
    }

    /// Puts an item into a list of some.
    fn insert_next(&mut self, i: usize, item: T)
        requires within { i ≤ length self.old.items }
        requires some { 0 < length self.old.items }
        requires room { 1 ≤ self.old.spare }
        requires few { length self.old.items + 1 < 2 ^ 32 }
        requires units { total_units T.units self.old.items + T.units item < 2 ^ 32 }
        ensures items { self.new.items ≡ take i self.old.items ++ (item ∷ drop i self.old.items) }
        ensures spare { self.old.spare ≤ self.new.spare + 1 }
        ensures no_more { self.new.spare ≤ self.old.spare }
        ensures memory { IsNoLarger self.old self.new }
        ensures blocks { self.new.blocks ≡ self.old.blocks }
        ensures room { self.new.room ≡ self.old.room }
    {
        let place = self.row.place(i);
        let full = self.full.min(place.block);
        put(&mut self.row, &mut self.ready, place, item);
        self.count += 1;
        self.full = full;
    }
}

/// Makes blocks of no items until there are so many.
fn make_ready<T: Measured>(alloc: Global, ready: &mut Vec<Block<T>>, n: usize) -> Result<(), Memory>
    requires empty { All (λ block. block ≡ []) ready.old.items }
    ensures empty { All (λ block. block ≡ []) ready.new.items }
    ensures ok { OnOk result (n ≤ length ready.new.items) }
    ensures more { length ready.old.items ≤ length ready.new.items }
    ensures most { length ready.new.items ≤ length ready.old.items + (n - length ready.old.items) }
{
    let there = ready.len();
    for _turn in there..n {
        let block = Block::new(alloc)?;
        ready.push(block)?;
    }
    Ok(())
}
