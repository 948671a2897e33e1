// Items that become others.
ghost use Rattle.std.specs.Prelude.{◌≡◌, ◌^◌, ◌<◌, ◌≤◌, ℕ, length, slice_set};
ghost use Rattle.chunked_list.specs.Blocks.{joined, total_units, map_range, AreSized, IsNoLarger};

use crate::row::Row;
use crate::{BlockList, Mapping, Measured};

impl<T: Measured> BlockList<T> {
    /// Puts an item in the place of another. No memory is taken.
    pub fn set(&mut self, i: usize, item: T)
        requires within { i < length self.old.items }
        requires units { total_units T.units (slice_set self.old.items i item) < 2 ^ 32 }
        ensures items { self.new.items ≡ slice_set self.old.items i item }
        ensures spare { self.new.spare ≡ self.old.spare }
        ensures memory { IsNoLarger self.old self.new }
        ensures blocks { self.new.blocks ≡ self.old.blocks }
        ensures room { self.new.room ≡ self.old.room }
    {
        let place = self.row.place(i);
        self.row.set(place.block, place.within, item);
    }

    /// Exchanges the items from `first` to before `last` for what they become. No memory is taken.
    pub fn change<C: Mapping<T>>(&mut self, first: usize, last: usize, by: &C)
        requires order { first ≤ last }
        requires within { last ≤ length self.old.items }
        ensures items { self.new.items ≡ map_range (C.image by.now) self.old.items first last }
        ensures spare { self.new.spare ≡ self.old.spare }
        ensures memory { IsNoLarger self.old self.new }
        ensures blocks { self.new.blocks ≡ self.old.blocks }
        ensures room { self.new.room ≡ self.old.room }
    {
        change_range(&mut self.row, first, last, by);
    }
}

/// Exchanges items of blocks for what they become: one walk over the blocks.
fn change_range<T: Measured, C: Mapping<T>>(row: &mut Row<T>, first: usize, last: usize, by: &C)
    requires order { first ≤ last }
    requires few { length (joined row.old.blocks) < 2 ^ 32 }
    ensures items { joined row.new.blocks ≡ map_range (C.image by.now) (joined row.old.blocks) first last }
    ensures units { total_units T.units (joined row.new.blocks) ≡ total_units T.units (joined row.old.blocks) }
    ensures sized { (full : ℕ) → AreSized row.old.blocks full → AreSized row.new.blocks full }
    ensures spare { row.new.spare ≡ row.old.spare }
    ensures count { length row.new.blocks ≡ length row.old.blocks }
{
    let mut before = 0;
    for block in 0..row.count() {
        row.change(
            block,
            first.saturating_sub(before),
            last.saturating_sub(before),
            by,
        );
        before += row.len(block);
    }
}
