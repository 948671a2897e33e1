// Items of a list, flat.
ghost use Rattle.std.specs.Prelude.{◌≡◌, ◌^◌, ◌<◌, ◌≤◌, length, slice_range, IfOk};
ghost use Rattle.chunked_list.specs.Blocks.{joined};

use crate::row::Row;
use crate::{BlockList, Measured};
use doc_bits::Memory;
use std::alloc::Global;

impl<T: Measured> BlockList<T> {
    /// The items from `first` to before `last`.
    pub fn copy(&self, first: usize, last: usize) -> Result<Vec<T>, Memory>
        requires order { first ≤ last }
        requires within { last ≤ length self.now.items }
        ensures { IfOk result (λ copy. copy.items ≡ slice_range self.now.items first last) }
    {
        copy_range(self.alloc, &self.row, first, last)
    }

    /// All items.
    pub fn to_vec(&self) -> Result<Vec<T>, Memory>
        ensures { IfOk result (λ copy. copy.items ≡ self.now.items) }
    {
        let copy = self.copy(0, self.len())?;
        Ok(copy)
    }
}

/// The items of blocks from `first` to before `last`: one walk over the blocks.
fn copy_range<T: Measured>(
    alloc: Global,
    row: &Row<T>,
    first: usize,
    last: usize,
) -> Result<Vec<T>, Memory>
    requires order { first ≤ last }
    requires few { length (joined row.now.blocks) < 2 ^ 32 }
    ensures { IfOk result (λ copy. copy.items ≡ slice_range (joined row.now.blocks) first last) }
{
    let mut copy = Vec::with_capacity(alloc, last - first)?;
    let mut before = 0;
    for block in 0..row.count() {
        row.copy(
            block,
            first.saturating_sub(before),
            last.saturating_sub(before),
            &mut copy,
        )?;
        before += row.len(block);
    }
    Ok(copy)
}
