// How entries are cut and put: what `split`, `splice` and `modify` do to a list of entries.
ghost use Rattle.std.specs.Prelude.{◌≡◌, ◌+◌, ◌<◌, ◌≤◌, ◌++◌};
ghost use Rattle.std.specs.Prelude.{◌^◌, length, take, drop, All, IfOk};
ghost use Rattle.piece_table.specs.Piece.{IsPiece};
ghost use Rattle.piece_table.specs.Changes.{fresh_units};
ghost use Rattle.piece_table.specs.Cuts.{entry_units, front_entry, back_entry, fresh_entries};
ghost use Rattle.piece_table.specs.Cuts.{AreCutEntries, IsCutTwice, AreMetEntries};

use crate::pieces::{Entry, Piece};
use chunked_list::BlockList;
use doc_bits::Memory;

impl Entry {
    /// The first units.
    fn front(self, units: u32) -> Entry
        ensures { result ≡ front_entry self units }
    {
        let piece = Piece {
            at: self.piece.at,
            wide: self.piece.wide,
            len: units,
        };
        Entry {
            piece,
            modifier: self.modifier,
        }
    }

    /// The units behind the first ones.
    fn back(self, units: u32) -> Entry
        requires sound { IsPiece self.piece }
        requires inside { units < self.piece.len }
        ensures { result ≡ back_entry self units }
    {
        let piece = Piece {
            at: self.piece.at + units * self.piece.unit_bytes(),
            wide: self.piece.wide,
            len: self.piece.len - units,
        };
        Entry {
            piece,
            modifier: self.modifier,
        }
    }
}

/// Cuts the entry that holds a CP, so that one begins there. The answer is the number of entries before it.
pub(crate) fn cut(entries: &mut BlockList<Entry>, cp: u32, total: u32) -> usize
    requires total { total ≡ entry_units entries.old.items }
    requires within { cp ≤ total }
    requires sound { All (λ entry. IsPiece entry.piece) entries.old.items }
    requires few { length entries.old.items + 1 < 2 ^ 32 }
    requires room { 1 ≤ entries.old.spare }
    ensures cut { AreCutEntries entries.old.items entries.new.items cp result }
    ensures spare { entries.old.spare ≤ entries.new.spare + 1 }
    ensures no_more { entries.new.spare ≤ entries.old.spare }
    ensures blocks { entries.new.blocks ≡ entries.old.blocks }
    ensures room { entries.new.room ≡ entries.old.room }
{
    if cp == total {
        return entries.len();
    }
    let spot = entries.spot(cp);
    if spot.within == 0 {
        return spot.item;
    }
    let entry = entries.get(spot.item);
    entries.set(spot.item, entry.back(spot.within));
    entries.insert(spot.item, entry.front(spot.within));
    spot.item + 1
}

/// Cuts at both ends of a range of CPs. The answer is the range of entries between them.
pub(crate) fn cut_range(
    entries: &mut BlockList<Entry>,
    from: u32,
    to: u32,
    total: u32,
) -> (usize, usize)
    requires total { total ≡ entry_units entries.old.items }
    requires order { from ≤ to }
    requires within { to ≤ total }
    requires sound { All (λ entry. IsPiece entry.piece) entries.old.items }
    requires few { length entries.old.items + 2 < 2 ^ 32 }
    requires room { 2 ≤ entries.old.spare }
    ensures cut { IsCutTwice entries.old.items entries.new.items from to result.0 result.1 }
    ensures spare { entries.old.spare ≤ entries.new.spare + 2 }
    ensures no_more { entries.new.spare ≤ entries.old.spare }
    ensures blocks { entries.new.blocks ≡ entries.old.blocks }
    ensures room { entries.new.room ≡ entries.old.room }
{
    let first = cut(entries, from, total);
    let last = cut(entries, to, total);
    (first, last)
}

/// Puts the entry of a fresh piece, if there is one, before others.
pub(crate) fn put(entries: &mut BlockList<Entry>, number: usize, fresh: Option<Piece>)
    requires within { number ≤ length entries.old.items }
    requires few { length entries.old.items + 1 < 2 ^ 32 }
    requires units { entry_units entries.old.items + fresh_units fresh < 2 ^ 32 }
    requires room { 1 ≤ entries.old.spare }
    ensures items { entries.new.items
        ≡ take number entries.old.items ++ (fresh_entries fresh ++ drop number entries.old.items) }
    ensures spare { entries.old.spare ≤ entries.new.spare + 1 }
    ensures no_more { entries.new.spare ≤ entries.old.spare }
    ensures blocks { entries.new.blocks ≡ entries.old.blocks }
    ensures room { entries.new.room ≡ entries.old.room }
{
    if let Some(piece) = fresh {
        entries.insert(number, Entry { piece, modifier: 0 });
    }
}

/// The units of a fresh piece, if there is one.
pub(crate) fn units_of(fresh: Option<Piece>) -> u32
    ensures { result ≡ fresh_units fresh }
{
    match fresh {
        None => 0,
        Some(piece) => piece.len,
    }
}

/// The entries that a range of CPs meets.
pub(crate) fn entries_in(
    entries: &BlockList<Entry>,
    from: u32,
    to: u32,
) -> Result<Vec<Entry>, Memory>
    requires order { from < to }
    requires within { to ≤ entry_units entries.now.items }
    requires few { length entries.now.items < 2 ^ 32 }
    ensures { IfOk result (λ met. AreMetEntries entries.now.items from to met.items) }
{
    let begin = entries.spot(from);
    let end = entries.spot(to - 1);
    let range = entries.copy(begin.item, end.item + 1)?;
    Ok(range)
}
