// A walk over the pieces of a text.
ghost use Rattle.std.specs.Prelude.{◌≡◌, ◌<◌, length, slice_get, Some, option_map};
ghost use Rattle.prop_map.specs.Modifiers.{IsFormedModifier};
ghost use Rattle.piece_table.specs.Piece.{bare_piece, IsPiece};

use crate::pieces::{Entry, Piece, PieceList};
use chunked_list::Walk;
use prop_map::Modifier;
use std::marker::Model;

/// A walk over the pieces of a text: the piece behind the last one that was asked for is found at once.
#[derive(Drop)]
pub struct PieceWalk<'a> {
    entries: Walk<'a, Entry>,
    modifiers: &'a [Modifier],
}

impl<'a> Model for PieceWalk<'a> {
    ghost use Rattle.std.specs.Prelude.{List, map};
    ghost use Rattle.std.specs.Coded.{coded_list};
    ghost use Rattle.piece_table.specs.Piece.{TextPiece, ArePieces};
    ghost use Rattle.piece_table.specs.Codes.{piece_code};
    ghost use Rattle.piece_table.specs.Numbering.{AreNumbered, text_piece};

    ghost Value = { List TextPiece };

    ghost coded = { coded_list piece_code };

    ghost view = { λ walk. map (text_piece walk.modifiers.now) walk.entries };

    ghost invariant = { λ walk. AreNumbered walk.modifiers.now walk.entries
        × ArePieces (map (text_piece walk.modifiers.now) walk.entries) };
}

impl PieceList {
    /// A walk from the first piece on.
    pub fn walk(&self) -> PieceWalk<'_>
        ensures { result ≡ self.now.pieces }
    {
        PieceWalk {
            entries: self.entries.walk(),
            modifiers: &self.modifiers,
        }
    }
}

impl<'a> PieceWalk<'a> {
    /// A piece by its number.
    pub fn piece(&mut self, i: usize) -> Piece
        requires { i < length self.old }
        ensures value { option_map bare_piece (slice_get self.old i) ≡ Some result }
        ensures sound { IsPiece result }
        ensures same { self.new ≡ self.old }
    {
        self.entries.get(i).piece
    }

    /// What the sprms of a piece do.
    pub fn modifier(&mut self, i: usize) -> &'a Modifier
        requires { i < length self.old }
        ensures value { option_map (λ piece. piece.modifier) (slice_get self.old i) ≡ Some result.now }
        ensures formed { IsFormedModifier result.now }
        ensures same { self.new ≡ self.old }
    {
        &self.modifiers[self.entries.get(i).modifier]
    }
}
