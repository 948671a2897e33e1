// Blocks with their sums.
ghost use Rattle.std.specs.Prelude.{◌≡◌, ◌+◌, ◌^◌, ◌<◌, ◌≤◌, [], ◌∷◌, ◌++◌};
ghost use Rattle.std.specs.Prelude.{length, take, drop, slice_get, slice_set, slice_range, Some, IfOk, OnOk};
ghost use Rattle.std.specs.List.{splice};
ghost use Rattle.chunked_list.specs.Blocks.{joined, total_units, map_range, block_at, IsFoundOf, IsPlace, IsAtMark};

use crate::block::Block;
use crate::places::{Found, Mark, Place};
use crate::{Mapping, Measured};
use doc_bits::{Ledger, Memory, Steps, Sums};
use std::alloc::Global;
use std::marker::Model;

/// Blocks, and the sum of the lengths of each one's items. Those that there is room for are put in without memory.
#[derive(Drop)]
pub(crate) struct Row<T: Measured> {
    blocks: Vec<Block<T>>,
    sums: Sums,
    spare: usize,
}

impl<T: Measured> Model for Row<T> {
    ghost use Rattle.std.specs.Prelude.{vec_capacity};
    ghost use Rattle.chunked_list.specs.Blocks.{BlockRow, block_row_code, IsBlockRow};

    ghost Value = { BlockRow T };

    ghost coded = { block_row_code T.code };

    ghost view = { λ r. record {
      blocks = r.blocks.items;
      spare = r.spare;
    } };

    ghost invariant = { λ r. IsBlockRow T.units r.blocks.items r.sums r.spare (vec_capacity r.blocks) };
}

impl<T: Measured> Row<T> {
    /// No blocks.
    pub(crate) fn new(alloc: Global) -> Row<T>
        ensures blocks { result.blocks ≡ [] }
        ensures spare { result.spare ≡ 0 }
    {
        Row {
            blocks: Vec::new(alloc),
            sums: Sums::new(alloc),
            spare: 0,
        }
    }

    /// The number of blocks.
    pub(crate) fn count(&self) -> usize
        ensures { result ≡ length self.now.blocks }
    {
        self.blocks.len()
    }

    /// The number of items of a block.
    pub(crate) fn len(&self, block: usize) -> usize
        requires { block < length self.now.blocks }
        ensures value { result ≡ length (block_at self.now.blocks block) }
        ensures most { result ≤ 128 }
    {
        self.blocks[block].len()
    }

    /// An item of a block.
    pub(crate) fn get(&self, block: usize, i: usize) -> T
        requires block { block < length self.now.blocks }
        requires item { i < length (block_at self.now.blocks block) }
        ensures { slice_get (block_at self.now.blocks block) i ≡ Some result }
    {
        self.blocks[block].get(i)
    }

    /// Makes room for so many blocks more at least.
    pub(crate) fn reserve(&mut self, n: usize) -> Result<(), Memory>
        ensures blocks { self.new.blocks ≡ self.old.blocks }
        ensures ok { OnOk result (n ≤ self.new.spare) }
        ensures more { self.old.spare ≤ self.new.spare }
    {
        if n <= self.spare {
            return Ok(());
        }
        self.blocks.reserve(n)?;
        self.sums.reserve(n)?;
        self.spare = n;
        Ok(())
    }

    /// Puts a block before that of this number.
    pub(crate) fn insert(&mut self, number: usize, block: Block<T>)
        requires within { number ≤ length self.old.blocks }
        requires room { 1 ≤ self.old.spare }
        requires units { total_units T.units block < 2 ^ 32 }
        ensures blocks { self.new.blocks ≡ splice self.old.blocks number number (block ∷ []) }
        ensures spare { self.new.spare + 1 ≡ self.old.spare }
        ensures count { length self.new.blocks ≡ length self.old.blocks + 1 }
    {
        let units = block.units();
        let _ = self.blocks.insert(number, block);
        self.sums.insert(number, units);
        self.spare -= 1;
    }

    /// Puts an item into a block that has room.
    pub(crate) fn put(&mut self, block: usize, i: usize, item: T)
        requires block { block < length self.old.blocks }
        requires within { i ≤ length (block_at self.old.blocks block) }
        requires room { length (block_at self.old.blocks block) < 128 }
        requires units { total_units T.units (block_at self.old.blocks block) + T.units item < 2 ^ 32 }
        ensures blocks { self.new.blocks ≡ splice self.old.blocks block (block + 1)
            ((take i (block_at self.old.blocks block) ++ (item ∷ drop i (block_at self.old.blocks block))) ∷ []) }
        ensures spare { self.new.spare ≡ self.old.spare }
        ensures count { length self.new.blocks ≡ length self.old.blocks }
    {
        let changed = &mut self.blocks[block];
        changed.insert(i, item);
        let units = changed.units();
        self.sums.set(block, units);
    }

    /// Puts an item in the place of another.
    pub(crate) fn set(&mut self, block: usize, i: usize, item: T)
        requires block { block < length self.old.blocks }
        requires within { i < length (block_at self.old.blocks block) }
        requires units { total_units T.units (slice_set (block_at self.old.blocks block) i item) < 2 ^ 32 }
        ensures blocks { self.new.blocks
            ≡ slice_set self.old.blocks block (slice_set (block_at self.old.blocks block) i item) }
        ensures spare { self.new.spare ≡ self.old.spare }
        ensures count { length self.new.blocks ≡ length self.old.blocks }
    {
        let changed = &mut self.blocks[block];
        changed.set(i, item);
        let units = changed.units();
        self.sums.set(block, units);
    }

    /// Takes the items from `first` to before `last` out of a block.
    pub(crate) fn cut(&mut self, block: usize, first: usize, last: usize)
        requires block { block < length self.old.blocks }
        requires order { first ≤ last }
        requires within { last ≤ length (block_at self.old.blocks block) }
        requires units { total_units T.units (block_at self.old.blocks block) < 2 ^ 32 }
        ensures blocks { self.new.blocks
            ≡ slice_set self.old.blocks block (splice (block_at self.old.blocks block) first last []) }
        ensures spare { self.new.spare ≡ self.old.spare }
        ensures count { length self.new.blocks ≡ length self.old.blocks }
    {
        let changed = &mut self.blocks[block];
        changed.cut(first, last);
        let units = changed.units();
        self.sums.set(block, units);
    }

    /// Takes a block out.
    pub(crate) fn take_out(&mut self, block: usize)
        requires { block < length self.old.blocks }
        ensures blocks { self.new.blocks ≡ splice self.old.blocks block (block + 1) [] }
        ensures spare { self.new.spare ≡ self.old.spare }
        ensures count { length self.new.blocks + 1 ≡ length self.old.blocks }
    {
        let _ = self.blocks.remove(block);
        self.sums.remove(block);
    }

    /// Appends items of a block to a list.
    pub(crate) fn copy(
        &self,
        block: usize,
        first: usize,
        last: usize,
        copy: &mut Vec<T>,
    ) -> Result<(), Memory>
        requires block { block < length self.now.blocks }
        requires order { first ≤ last }
        ensures { OnOk result (copy.new.items
            ≡ copy.old.items ++ slice_range (block_at self.now.blocks block) first last) }
    {
        self.blocks[block].copy(first, last, copy)
    }

    /// Exchanges items of a block for what they become.
    pub(crate) fn change<C: Mapping<T>>(&mut self, block: usize, first: usize, last: usize, by: &C)
        requires block { block < length self.old.blocks }
        requires order { first ≤ last }
        ensures blocks { self.new.blocks
            ≡ slice_set self.old.blocks block (map_range (C.image by.now) (block_at self.old.blocks block) first last) }
        ensures units { total_units T.units (map_range (C.image by.now) (block_at self.old.blocks block) first last)
            ≡ total_units T.units (block_at self.old.blocks block) }
        ensures spare { self.new.spare ≡ self.old.spare }
        ensures count { length self.new.blocks ≡ length self.old.blocks }
    {
        let changed = &mut self.blocks[block];
        changed.change(first, last, by);
    }

    /// Moves the last 64 items of a full block to a block of none, which comes behind it. The answer is its number.
    pub(crate) fn divide(&mut self, block: usize, fresh: Block<T>) -> usize
        requires block { block < length self.old.blocks }
        requires full { length (block_at self.old.blocks block) ≡ 128 }
        requires fresh { fresh ≡ [] }
        requires room { 1 ≤ self.old.spare }
        requires units { total_units T.units (block_at self.old.blocks block) < 2 ^ 32 }
        ensures blocks { self.new.blocks ≡ splice self.old.blocks block (block + 1)
            (take 64 (block_at self.old.blocks block) ∷ drop 64 (block_at self.old.blocks block) ∷ []) }
        ensures spare { self.new.spare + 1 ≡ self.old.spare }
        ensures next { result ≡ block + 1 }
        ensures count { length self.new.blocks ≡ length self.old.blocks + 1 }
    {
        let mut next = fresh;
        let first = &mut self.blocks[block];
        first.move_tail(&mut next, 64);
        let units = first.units();
        self.sums.set(block, units);
        self.insert(block + 1, next);
        block + 1
    }

    /// The place of an item, or the end of the last block.
    pub(crate) fn place(&self, i: usize) -> Place
        requires within { i ≤ length (joined self.now.blocks) }
        requires some { 0 < length self.now.blocks }
        ensures place { IsPlace self.now.blocks i result }
        ensures item { i < length (joined self.now.blocks)
            → result.within < length (block_at self.now.blocks result.block) }
        ensures next { result.block + 1 < 2 ^ 64 }
    {
        let mut within = i;
        let last = self.blocks.len() - 1;
        for block in 0..last {
            let len = self.blocks[block].len();
            if within < len {
                return Place { block, within };
            }
            within -= len;
        }
        Place {
            block: last,
            within,
        }
    }

    /// The item of a unit. Each sum that is read is a step.
    pub(crate) fn find<L: Ledger>(&self, place: u32, steps: &mut Steps<L>) -> Found
        requires place { place < total_units T.units (joined self.now.blocks) }
        requires few { length (joined self.now.blocks) < 2 ^ 32 }
        ensures found { IsFoundOf T.units self.now.blocks place result }
        ensures steps { steps.new ≤ steps.old + (result.block + 129) }
    {
        let mut left = place;
        let mut before = 0;
        for block in 0..self.blocks.len() {
            let units = self.sums.get(block, steps);
            if left < units {
                let spot = self.blocks[block].find(left, steps);
                return Found {
                    block,
                    item: before + spot.item,
                    within: spot.within,
                };
            }
            left -= units;
            before += self.blocks[block].len();
        }
        Found {
            block: 0,
            item: 0,
            within: left,
        }
    }

    /// The block of an item, from a mark on; from the start where the mark is behind the item.
    pub(crate) fn reach(&self, mark: Mark, i: usize) -> Mark
        requires at { IsAtMark self.now.blocks mark }
        requires within { i < length (joined self.now.blocks) }
        ensures at { IsAtMark self.now.blocks result }
        ensures there { result.block < length self.now.blocks }
        ensures ahead { result.before ≤ i }
        ensures inside { i < result.before + length (block_at self.now.blocks result.block) }
    {
        let from = self.mark_before(mark, i);
        let mut before = from.before;
        for block in from.block..self.blocks.len() {
            let len = self.blocks[block].len();
            if i - before < len {
                return Mark { block, before };
            }
            before += len;
        }
        from
    }

    /// The mark, or that of the start where the item is before the mark.
    fn mark_before(&self, mark: Mark, i: usize) -> Mark
        requires at { IsAtMark self.now.blocks mark }
        ensures at { IsAtMark self.now.blocks result }
        ensures ahead { result.before ≤ i }
    {
        if mark.before <= i {
            return mark;
        }
        Mark {
            block: 0,
            before: 0,
        }
    }
}
