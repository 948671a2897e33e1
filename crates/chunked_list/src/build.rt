// Lists in blocks of items that are there already.
ghost use Rattle.std.specs.Prelude.{◌≡◌, ◌+◌, ◌*◌, ◌^◌, ◌<◌, ◌≤◌, [], ◌∷◌, ◌++◌, length, IfOk, OnOk};
ghost use Rattle.chunked_list.specs.Blocks.{joined, total_units, AreSized};

use crate::block::{Block, MAX_ITEMS};
use crate::row::Row;
use crate::{BlockList, Measured};
use doc_bits::Memory;
use std::alloc::Global;

impl<T: Measured> BlockList<T> {
    /// The items, in full blocks and a last one. No block is ready.
    pub fn of(alloc: Global, items: &[T]) -> Result<BlockList<T>, Memory>
        requires few { length items.now < 2 ^ 32 }
        requires units { total_units T.units items.now < 2 ^ 32 }
        ensures items { IfOk result (λ list. list.items ≡ items.now) }
        ensures spare { IfOk result (λ list. list.spare ≡ 0) }
    {
        let full = items.len() / MAX_ITEMS;
        let mut row = Row::new(alloc);
        row.reserve(full + 1)?;
        for block in 0..full {
            push(
                &mut row,
                alloc,
                &items[MAX_ITEMS * block..MAX_ITEMS * block + MAX_ITEMS],
            )?;
        }
        push_rest(&mut row, alloc, &items[MAX_ITEMS * full..])?;
        Ok(BlockList::from_blocks(alloc, row, items.len(), full))
    }
}

/// Puts a block of items behind the last one.
fn push<T: Measured>(row: &mut Row<T>, alloc: Global, items: &[T]) -> Result<(), Memory>
    requires most { length items.now ≤ 128 }
    requires room { 1 ≤ row.old.spare }
    requires units { total_units T.units items.now < 2 ^ 32 }
    ensures blocks { OnOk result (row.new.blocks ≡ row.old.blocks ++ (items.now ∷ [])) }
    ensures spare { OnOk result (row.new.spare + 1 ≡ row.old.spare) }
{
    let mut block = Block::new(alloc)?;
    block.append(items);
    let end = row.count();
    row.insert(end, block);
    Ok(())
}

/// Puts a block of the last items behind full ones, if there are some.
fn push_rest<T: Measured>(row: &mut Row<T>, alloc: Global, items: &[T]) -> Result<(), Memory>
    requires most { length items.now ≤ 128 }
    requires room { 1 ≤ row.old.spare }
    requires units { total_units T.units items.now < 2 ^ 32 }
    ensures items { OnOk result (joined row.new.blocks ≡ joined row.old.blocks ++ items.now) }
    ensures sized { OnOk result (AreSized row.old.blocks (length row.old.blocks)
        → AreSized row.new.blocks (length row.old.blocks)) }
{
    if items.is_empty() {
        return Ok(());
    }
    push(row, alloc, items)?;
    Ok(())
}
