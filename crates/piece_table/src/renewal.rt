// Pieces that are at new places: a text that is written again names its new units.
ghost use Rattle.std.specs.Prelude.{◌≡◌, length, IfOk};
ghost use Rattle.piece_table.specs.Renewals.{AreNewPlaces, renewed_pieces, moved_entry, moved_entries};

use crate::PieceList;
use crate::pieces::{Entry, Piece};
use crate::renumber::{Copies, copy_all, renumber};
use doc_bits::Memory;
use std::alloc::Global;

impl PieceList {
    /// The pieces again, each at the byte of `WordDocument` that is given beside it, or where it was. A piece at a new
    /// place has units of two bytes and no modifier.
    pub fn renew(&self, alloc: Global, places: &[Option<u32>]) -> Result<PieceList, Memory>
        requires places { AreNewPlaces places.now self.now.pieces }
        ensures { IfOk result (λ list. list.pieces ≡ renewed_pieces places.now self.now.pieces) }
    {
        let entries = self.entries.to_vec()?;
        let mut items = moved(alloc, &entries, places)?;
        let Copies { modifiers, numbers } = copy_all(alloc, &items, &self.modifiers)?;
        let count = items.len();
        renumber(&mut items, 0, count, &numbers);
        let list = PieceList::of(alloc, &items, modifiers, self.total)?;
        Ok(list)
    }
}

/// The entries at their new places, where they have some.
fn moved(alloc: Global, entries: &[Entry], places: &[Option<u32>]) -> Result<Vec<Entry>, Memory>
    requires { length places.now ≡ length entries.now }
    ensures { IfOk result (λ new. new.items ≡ moved_entries places.now entries.now) }
{
    let mut new = Vec::with_capacity(alloc, entries.len())?;
    for k in 0..entries.len() {
        new.push(entries[k].moved(places[k]))?;
    }
    Ok(new)
}

impl Entry {
    /// The entry, or one at a new place.
    fn moved(self, place: Option<u32>) -> Entry
        ensures { result ≡ moved_entry place self }
    {
        match place {
            None => self,
            Some(at) => {
                let piece = Piece {
                    at,
                    wide: true,
                    len: self.piece.len,
                };
                Entry { piece, modifier: 0 }
            }
        }
    }
}
