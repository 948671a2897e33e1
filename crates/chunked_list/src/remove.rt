// Items that are taken out of blocks: blocks that became short are joined with the next ones.
ghost use Rattle.std.specs.Prelude.{◌≡◌, ◌+◌, ◌^◌, ◌<◌, ◌≤◌, ℕ, [], ◌++◌, length, take, drop, slice_set};
ghost use Rattle.std.specs.List.{splice};
ghost use Rattle.chunked_list.specs.Blocks.{joined, total_units, block_at, number_of, IsPlaceIn, AreSizedBut};
ghost use Rattle.chunked_list.specs.Blocks.{IsNoLarger};

use crate::block::MAX_ITEMS;
use crate::places::Place;
use crate::row::Row;
use crate::{BlockList, Measured};

/// So many items each block but the last has at least.
const MIN_ITEMS: usize = 32;

/// So many items a short block gets where the next one can't join it.
const HALF: usize = 64;

impl<T: Measured> BlockList<T> {
    /// Takes the items from `first` to before `last` out. No memory is taken.
    pub fn remove(&mut self, first: usize, last: usize)
        requires order { first ≤ last }
        requires within { last ≤ length self.old.items }
        ensures items { self.new.items ≡ splice self.old.items first last [] }
        ensures spare { self.new.spare ≡ self.old.spare }
        ensures memory { IsNoLarger self.old self.new }
    {
        if first == last {
            return;
        }
        let place = self.row.place(first);
        erase(&mut self.row, place, last - first);
        mend(&mut self.row, place.block + 1);
        mend(&mut self.row, place.block);
        self.count -= last - first;
        self.full = self.full.min(place.block);
    }
}

/// Takes so many items out from a place on. That block may be short then, and the next one too.
fn erase<T: Measured>(row: &mut Row<T>, place: Place, count: usize)
    requires place { IsPlaceIn row.old.blocks place }
    requires next { place.block + 1 < 2 ^ 64 }
    requires within { number_of row.old.blocks place + count ≤ length (joined row.old.blocks) }
    requires units { total_units T.units (joined row.old.blocks) < 2 ^ 32 }
    ensures items { joined row.new.blocks ≡ splice (joined row.old.blocks)
        (number_of row.old.blocks place) (number_of row.old.blocks place + count) [] }
    ensures spare { row.new.spare ≡ row.old.spare }
    ensures sized { (full : ℕ) → AreSizedBut row.old.blocks full place.block place.block
        → AreSizedBut row.new.blocks full place.block (place.block + 2) }
    ensures fewer { length row.new.blocks ≤ length row.old.blocks }
{
    let rest = row.len(place.block) - place.within;
    let here = count.min(rest);
    row.cut(place.block, place.within, place.within + here);
    drop_front(row, place.block + 1, count - here);
}

/// Takes the first items of the blocks from `block` on out. The block that is there then may be short.
fn drop_front<T: Measured>(row: &mut Row<T>, block: usize, count: usize)
    requires block { block ≤ length row.old.blocks }
    requires within { count ≤ length (joined (drop block row.old.blocks)) }
    requires units { total_units T.units (joined row.old.blocks) < 2 ^ 32 }
    ensures front { take block row.new.blocks ≡ take block row.old.blocks }
    ensures back { joined (drop block row.new.blocks) ≡ drop count (joined (drop block row.old.blocks)) }
    ensures there { block ≤ length row.new.blocks }
    ensures spare { row.new.spare ≡ row.old.spare }
    ensures sized { (full from : ℕ) → from ≤ block → AreSizedBut row.old.blocks full from block
        → AreSizedBut row.new.blocks full from (block + 1) }
    ensures fewer { length row.new.blocks ≤ length row.old.blocks }
{
    let mut left = count;
    for _turn in block..row.count() {
        let len = row.len(block);
        if left < len {
            row.cut(block, 0, left);
            return;
        }
        row.take_out(block);
        left -= len;
    }
}

/// Fills a block that may be short. Those behind it are not.
fn mend<T: Measured>(row: &mut Row<T>, block: usize)
    requires { total_units T.units (joined row.old.blocks) < 2 ^ 32 }
    ensures same { joined row.new.blocks ≡ joined row.old.blocks }
    ensures spare { row.new.spare ≡ row.old.spare }
    ensures sized { (full from : ℕ) → from ≤ block → AreSizedBut row.old.blocks full from (block + 1)
        → AreSizedBut row.new.blocks full from block }
    ensures fewer { length row.new.blocks ≤ length row.old.blocks }
{
    if block >= row.count() {
        return;
    }
    let len = row.len(block);
    let next = block + 1;
    if next < row.count() {
        if len < MIN_ITEMS {
            fill(row, block, next);
        }
    } else if len == 0 {
        row.take_out(block);
    }
}

/// Joins a short block and the next one, or moves items to it from the next one's front.
fn fill<T: Measured>(row: &mut Row<T>, block: usize, next: usize)
    requires next { next ≡ block + 1 }
    requires there { next < length row.old.blocks }
    requires short { length (block_at row.old.blocks block) < 32 }
    requires units { total_units T.units (joined row.old.blocks) < 2 ^ 32 }
    ensures same { joined row.new.blocks ≡ joined row.old.blocks }
    ensures spare { row.new.spare ≡ row.old.spare }
    ensures sized { (full from : ℕ) → from ≤ block → AreSizedBut row.old.blocks full from (block + 1)
        → AreSizedBut row.new.blocks full from block }
    ensures fewer { length row.new.blocks ≤ length row.old.blocks }
{
    let len = row.len(block);
    let rest = row.len(next);
    if len + rest <= MAX_ITEMS {
        lend(row, block, next, rest);
        row.take_out(next);
        return;
    }
    lend(row, block, next, HALF - len);
    row.cut(next, 0, HALF - len);
}

/// Appends the first items of the next block to a block. They stay in the next one too.
fn lend<T: Measured>(row: &mut Row<T>, block: usize, next: usize, count: usize)
    requires next { next ≡ block + 1 }
    requires there { next < length row.old.blocks }
    requires room { length (block_at row.old.blocks block) + count ≤ 128 }
    requires within { count ≤ length (block_at row.old.blocks next) }
    requires units { total_units T.units (joined row.old.blocks) < 2 ^ 32 }
    ensures blocks { row.new.blocks ≡ slice_set row.old.blocks block
        (block_at row.old.blocks block ++ take count (block_at row.old.blocks (block + 1))) }
    ensures spare { row.new.spare ≡ row.old.spare }
    ensures count { length row.new.blocks ≡ length row.old.blocks }
{
    for i in 0..count {
        let item = row.get(next, i);
        let end = row.len(block);
        row.put(block, end, item);
    }
}
