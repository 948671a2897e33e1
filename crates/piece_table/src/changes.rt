// Changes of a list of pieces, each by its meaning on the flat entries.
ghost use Rattle.std.specs.Prelude.{◌≡◌, ◌+◌, ◌-◌, ◌/◌, ◌<◌, ◌≤◌, length, take};
ghost use Rattle.std.specs.Prelude.{⊤, OnOk, OnErr, Option, MatchOption, option_to_list};
ghost use Rattle.std.specs.List.{splice};
ghost use Rattle.prop_map.specs.Modifiers.{IsFormedModifier};
ghost use Rattle.piece_table.specs.Piece.{ArePieces, IsPiece, IsNoLarger, flat_pieces, total_length};
ghost use Rattle.piece_table.specs.Changes.{IsSpot, HasPieceBegin, fresh_places, fresh_units, AreModified};

use crate::cutting::{cut, cut_range, entries_in, put, units_of};
use crate::renumber::{Copies, Renumbering, compose_all, copy_all};
use crate::{Piece, PieceList, Spot};
use doc_bits::{Ledger, Memory, Steps};
use prop_map::Modifier;

/// So many modifiers are kept, whether pieces name them or not.
const MODIFIERS_KEPT: usize = 64;

/// So many further pieces a splice may need.
const SPLICE_PIECES: usize = 3;

impl PieceList {
    /// Takes memory for the blocks that so many further pieces may divide, less those that are ready.
    pub fn reserve(&mut self, n: usize) -> Result<(), Memory>
        ensures ok { OnOk result (n ≤ self.new.spare) }
        ensures pieces { self.new.pieces ≡ self.old.pieces }
        ensures more { self.old.spare ≤ self.new.spare }
        ensures most { self.new.spare ≤ self.old.spare + (n - self.old.spare) }
        ensures blocks { self.new.blocks + self.old.spare ≡ self.old.blocks + self.new.spare }
    {
        self.entries.reserve(n)?;
        Ok(())
    }

    /// The piece of a CP, and the place of the CP within it. A step is a sum or a length that is read.
    pub fn locate<L: Ledger>(&self, cp: u32, steps: &mut Steps<L>) -> Spot
        requires { cp < total_length self.now.pieces }
        ensures spot { IsSpot self.now.pieces cp result }
        ensures steps { steps.new ≤ steps.old + (length self.now.pieces / 32 + 130) }
    {
        let spot = self.entries.locate(cp, steps);
        Spot {
            piece: spot.item,
            within: spot.within,
        }
    }

    /// Splits the piece that holds a CP, so that one begins there. No memory is taken.
    pub fn split(&mut self, cp: u32)
        requires within { cp ≤ total_length self.old.pieces }
        requires spare { 1 ≤ self.old.spare }
        ensures text { flat_pieces self.new.pieces ≡ flat_pieces self.old.pieces }
        ensures begins { HasPieceBegin self.new.pieces cp }
        ensures count { length self.new.pieces ≤ length self.old.pieces + 1 }
        ensures spare { self.old.spare ≤ self.new.spare + 1 }
        ensures no_more { self.new.spare ≤ self.old.spare }
        ensures memory { IsNoLarger self.old self.new }
    {
        let _ = cut(&mut self.entries, cp, self.total);
    }

    /// Puts a fresh piece, which has no modifier, or nothing in the place of a range of CPs. No memory is taken.
    pub fn splice(&mut self, from: u32, to: u32, fresh: Option<Piece>)
        requires order { from ≤ to }
        requires within { to ≤ total_length self.old.pieces }
        requires spare { 3 ≤ self.old.spare }
        requires fresh { MatchOption fresh ⊤ IsPiece }
        requires total { total_length self.old.pieces + fresh_units fresh ≤ 500001 + (to - from) }
        ensures text { flat_pieces self.new.pieces
            ≡ splice (flat_pieces self.old.pieces) from to (fresh_places fresh) }
        ensures count { length self.new.pieces ≤ length self.old.pieces + 1 + length (option_to_list fresh) }
        ensures spare { self.old.spare ≤ self.new.spare + 3 }
        ensures no_more { self.new.spare ≤ self.old.spare }
        ensures memory { IsNoLarger self.old self.new }
    {
        let (first, last) = cut_range(&mut self.entries, from, to, self.total);
        self.entries.remove(first, last);
        put(&mut self.entries, first, fresh);
        self.total = self.total - (to - from) + units_of(fresh);
    }

    /// Takes out all CPs behind the first `count`.
    pub fn truncate(&mut self, count: u32) -> Result<(), Memory>
        requires { count ≤ total_length self.old.pieces }
        ensures text { OnOk result (flat_pieces self.new.pieces ≡ take count (flat_pieces self.old.pieces)) }
        ensures sound { OnOk result (ArePieces self.new.pieces) }
        ensures err { OnErr result (self.new.pieces ≡ self.old.pieces) }
    {
        self.reserve(SPLICE_PIECES)?;
        let total = self.total();
        self.splice(count, total, None);
        let _ = &self.entries;
        Ok(())
    }

    /// Composes the modifiers of a range of CPs with another. Its ends are split first.
    pub fn modify(&mut self, from: u32, to: u32, by: &Modifier) -> Result<(), Memory>
        requires order { from < to }
        requires within { to ≤ total_length self.old.pieces }
        requires spare { 2 ≤ self.old.spare }
        requires formed { IsFormedModifier by.now }
        ensures text { OnOk result
            (AreModified by.now from to (flat_pieces self.old.pieces) (flat_pieces self.new.pieces)) }
        ensures count { OnOk result (length self.new.pieces ≤ length self.old.pieces + 2) }
        ensures spare { OnOk result (self.old.spare ≤ self.new.spare + 2) }
        ensures begins { OnOk result (HasPieceBegin self.new.pieces from) }
        ensures ends { OnOk result (HasPieceBegin self.new.pieces to) }
        ensures err { OnErr result (self.new ≡ self.old) }
        ensures memory { OnOk result (IsNoLarger self.old self.new) }
    {
        let alloc = *self.modifiers.allocator();
        let range = entries_in(&self.entries, from, to)?;
        let numbers = compose_all(alloc, &range, &mut self.modifiers, by)?;
        let (first, last) = cut_range(&mut self.entries, from, to, self.total);
        self.entries.change(first, last, &Renumbering { numbers });
        self.lighten();
        Ok(())
    }

    /// Lets go of the modifiers that no piece names, where most of many are such. Where memory is wanting they stay.
    fn lighten(&mut self)
        ensures { self.new ≡ self.old }
    {
        let count = self.modifiers.len();
        let pieces = self.entries.len();
        if count > MODIFIERS_KEPT && count.saturating_sub(pieces) > pieces {
            let _ = self.drop_unused_modifiers();
        }
    }

    /// Lets go of the modifiers that no piece names any longer.
    pub fn drop_unused_modifiers(&mut self) -> Result<(), Memory>
        ensures { self.new ≡ self.old }
    {
        let alloc = *self.modifiers.allocator();
        let entries = self.entries.to_vec()?;
        let Copies { modifiers, numbers } = copy_all(alloc, &entries, &self.modifiers)?;
        self.entries
            .change(0, entries.len(), &Renumbering { numbers });
        self.modifiers = modifiers;
        Ok(())
    }
}
