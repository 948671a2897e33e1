ghost use Rattle.std.specs.Prelude.{◌≡◌, ◌+◌, ◌*◌, ◌^◌, ◌<◌, ◌≤◌};
ghost use Rattle.std.specs.Prelude.{length, map, slice_get, Some, option_map, IfOk};
ghost use Rattle.piece_table.specs.Piece.{PieceTable, total_length, unit_bytes, piece_end, IsPiece};

use chunked_list::{BlockList, Measured};
use doc_bits::Memory;
use prop_map::Modifier;
use std::alloc::Global;
use std::marker::Model;

/// A piece of text: the byte of `WordDocument` where it begins, whether its units have two bytes, and its number of
/// units.
#[derive(Clone, Copy)]
pub struct Piece {
    pub at: u32,
    pub wide: bool,
    pub len: u32,
}

impl Piece {
    /// The byte after the last one.
    pub fn end(self) -> u64
        ensures { result ≡ piece_end self }
    {
        self.at as u64 + self.len as u64 * self.unit_bytes() as u64
    }

    /// The number of bytes of a unit.
    pub(crate) fn unit_bytes(self) -> u32
        ensures value { result ≡ unit_bytes self.wide }
        ensures bound { result ≤ 2 }
    {
        if self.wide { 2 } else { 1 }
    }
}

/// Where a CP is: the number of its piece, and its place within the piece, in units.
#[derive(Clone, Copy)]
pub struct Spot {
    pub piece: usize,
    pub within: u32,
}

/// Where text may be in `WordDocument`: from the end of the FIB to the end of the stream, in bytes.
#[derive(Clone, Copy)]
pub struct TextBounds {
    pub from: u32,
    pub end: u32,
}

/// A piece, and the number of its modifier in the list.
#[derive(Clone, Copy)]
pub(crate) struct Entry {
    pub(crate) piece: Piece,
    pub(crate) modifier: usize,
}

impl Measured for Entry {
    ghost units = { λ entry. entry.piece.len };

    fn units(&self) -> u32 {
        self.piece.len
    }
}

/// The pieces of a text, one after the other, in blocks. A modifier that several pieces have is kept once.
#[derive(Drop)]
pub struct PieceList {
    pub(crate) entries: BlockList<Entry>,
    pub(crate) modifiers: Vec<Modifier>,
    pub(crate) total: u32,
}

impl Model for PieceList {
    ghost use Rattle.std.specs.Prelude.{◌≡◌, map};
    ghost use Rattle.piece_table.specs.Piece.{PieceTable, ArePieces, total_length};
    ghost use Rattle.piece_table.specs.Codes.{table_code};
    ghost use Rattle.piece_table.specs.Numbering.{AreNumbered, text_piece};

    ghost Value = { PieceTable };

    ghost coded = { table_code };

    ghost view = { λ list. record {
      pieces = map (text_piece list.modifiers.items) list.entries.items;
      spare = list.entries.spare;
      blocks = list.entries.blocks;
      room = list.entries.room;
    } };

    ghost invariant = { λ list. AreNumbered list.modifiers.items list.entries.items
        × (ArePieces (map (text_piece list.modifiers.items) list.entries.items)
        × (list.total ≡ total_length (map (text_piece list.modifiers.items) list.entries.items))) };
}

impl PieceList {
    ghost use Rattle.piece_table.specs.Piece.{bare_piece, one_piece, ArePieces};
    ghost use Rattle.piece_table.specs.Numbering.{AreNumbered, text_piece};
    ghost use Rattle.prop_map.specs.Modifiers.{IsFormedModifier};

    /// One piece of 16-bit units from a byte of `WordDocument` on. It has no modifier.
    pub fn one(alloc: Global, at: u32, len: u32) -> Result<PieceList, Memory>
        requires some { 1 ≤ len }
        requires most { len ≤ 500001 }
        requires end { at + 2 * len < 2 ^ 32 }
        ensures { IfOk result (λ list. list.pieces ≡ one_piece at len) }
    {
        let mut modifiers = Vec::new(alloc);
        modifiers.push(Modifier::none(alloc))?;
        let piece = Piece {
            at,
            wide: true,
            len,
        };
        let entries = [Entry { piece, modifier: 0 }];
        let list = PieceList::of(alloc, &entries, modifiers, len)?;
        Ok(list)
    }

    /// The pieces that are listed.
    pub(crate) fn of(
        alloc: Global,
        entries: &[Entry],
        modifiers: Vec<Modifier>,
        total: u32,
    ) -> Result<PieceList, Memory>
        requires numbered { AreNumbered modifiers.items entries.now }
        requires pieces { ArePieces (map (text_piece modifiers.items) entries.now) }
        requires total { total ≡ total_length (map (text_piece modifiers.items) entries.now) }
        ensures { IfOk result (λ list. list.pieces ≡ map (text_piece modifiers.items) entries.now) }
    {
        let entries = BlockList::of(alloc, entries)?;
        Ok(PieceList {
            entries,
            modifiers,
            total,
        })
    }

    /// The number of pieces.
    pub fn len(&self) -> usize
        ensures value { result ≡ length self.now.pieces }
        ensures sound { ArePieces self.now.pieces }
    {
        self.entries.len()
    }

    /// The number of CPs of all pieces.
    pub fn total(&self) -> u32
        ensures value { result ≡ total_length self.now.pieces }
        ensures bound { result ≤ 500001 }
    {
        self.total
    }

    /// A piece by its number.
    pub fn piece(&self, i: usize) -> Piece
        requires { i < length self.now.pieces }
        ensures value { option_map bare_piece (slice_get self.now.pieces i) ≡ Some result }
        ensures sound { IsPiece result }
    {
        self.entries.get(i).piece
    }

    /// What the sprms of a piece do.
    pub fn modifier(&self, i: usize) -> &Modifier
        requires { i < length self.now.pieces }
        ensures value { option_map (λ piece. piece.modifier) (slice_get self.now.pieces i) ≡ Some result.now }
        ensures formed { IsFormedModifier result.now }
    {
        &self.modifiers[self.entries.get(i).modifier]
    }
}
