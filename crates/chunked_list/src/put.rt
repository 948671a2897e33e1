// An item put into blocks: one of them divides at most.
ghost use Rattle.std.specs.Prelude.{◌≡◌, ◌+◌, ◌^◌, ◌<◌, ◌≤◌, [], ◌∷◌, All, length};
ghost use Rattle.chunked_list.specs.Blocks.{joined, total_units, block_at, IsInserted, IsPlaceIn, IsMadeRoom};

use crate::Measured;
use crate::block::{Block, MAX_ITEMS};
use crate::places::Place;
use crate::row::Row;

/// Puts an item in a place of blocks.
pub(crate) fn put<T: Measured>(row: &mut Row<T>, ready: &mut Vec<Block<T>>, place: Place, item: T)
    requires place { IsPlaceIn row.old.blocks place }
    requires most { length (block_at row.old.blocks place.block) ≤ 128 }
    requires room { length ready.old.items ≤ row.old.spare }
    requires ready { 1 ≤ length ready.old.items }
    requires empty { All (λ block. block ≡ []) ready.old.items }
    requires units { total_units T.units (joined row.old.blocks) + T.units item < 2 ^ 32 }
    ensures put { IsInserted row.old.blocks row.new.blocks place item }
    ensures room { length ready.new.items ≤ row.new.spare }
    ensures ready { length ready.old.items ≤ length ready.new.items + 1 }
    ensures no_more { length ready.new.items ≤ length ready.old.items }
    ensures empty { All (λ block. block ≡ []) ready.new.items }
    ensures count { length row.new.blocks + length ready.new.items ≡ length row.old.blocks + length ready.old.items }
    ensures held { length row.new.blocks + row.new.spare ≡ length row.old.blocks + row.old.spare }
{
    let seat = make_room(row, ready, place);
    row.put(seat.block, seat.within, item);
}

/// Gives the last items of a full block to a ready one. The answer is where the place is then.
fn make_room<T: Measured>(row: &mut Row<T>, ready: &mut Vec<Block<T>>, place: Place) -> Place
    requires place { IsPlaceIn row.old.blocks place }
    requires most { length (block_at row.old.blocks place.block) ≤ 128 }
    requires room { length ready.old.items ≤ row.old.spare }
    requires ready { 1 ≤ length ready.old.items }
    requires empty { All (λ block. block ≡ []) ready.old.items }
    requires units { total_units T.units (joined row.old.blocks) < 2 ^ 32 }
    ensures made { IsMadeRoom row.old.blocks row.new.blocks place result }
    ensures room { length ready.new.items ≤ row.new.spare }
    ensures ready { length ready.old.items ≤ length ready.new.items + 1 }
    ensures no_more { length ready.new.items ≤ length ready.old.items }
    ensures empty { All (λ block. block ≡ []) ready.new.items }
    ensures count { length row.new.blocks + length ready.new.items ≡ length row.old.blocks + length ready.old.items }
    ensures held { length row.new.blocks + row.new.spare ≡ length row.old.blocks + row.old.spare }
{
    if row.len(place.block) < MAX_ITEMS {
        return place;
    }
    let Some(fresh) = ready.pop() else {
        return place;
    };
    let next = row.divide(place.block, fresh);
    if place.within <= 64 {
        return place;
    }
    Place {
        block: next,
        within: place.within - 64,
    }
}

/// Puts an item into a list of no blocks.
pub(crate) fn put_first<T: Measured>(row: &mut Row<T>, ready: &mut Vec<Block<T>>, item: T)
    requires none { row.old.blocks ≡ [] }
    requires room { length ready.old.items ≤ row.old.spare }
    requires ready { 1 ≤ length ready.old.items }
    requires empty { All (λ block. block ≡ []) ready.old.items }
    requires units { T.units item < 2 ^ 32 }
    ensures blocks { row.new.blocks ≡ (item ∷ []) ∷ [] }
    ensures room { length ready.new.items ≤ row.new.spare }
    ensures ready { length ready.old.items ≤ length ready.new.items + 1 }
    ensures no_more { length ready.new.items ≤ length ready.old.items }
    ensures empty { All (λ block. block ≡ []) ready.new.items }
    ensures count { length row.new.blocks + length ready.new.items ≡ length row.old.blocks + length ready.old.items }
    ensures held { length row.new.blocks + row.new.spare ≡ length row.old.blocks + row.old.spare }
{
    let Some(fresh) = ready.pop() else {
        return;
    };
    let mut first = fresh;
    first.insert(0, item);
    row.insert(0, first);
}
