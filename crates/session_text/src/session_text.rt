// The text of a session's document, beside the document.
ghost use Rattle.std.specs.Prelude.{◌≡◌, ◌≢◌, ℕ, ◌+◌, ◌*◌, ◌^◌, ◌<◌, ◌≤◌, [], ◌∷◌, length, OnOk, OnErr, MatchOption};
ghost use Rattle.std.specs.List.{sum_by};
ghost use Rattle.doc_bits.specs.declared.places.Story.{Story as StoryName};
ghost use Rattle.prop_map.specs.declared.modifiers.Modifier.{Modifier as ModifierValue};
ghost use Rattle.piece_table.specs.Piece.{flat_pieces, total_length};
ghost use Rattle.plain_doc.specs.Sound.{IsSound};
ghost use Rattle.doc_patch.specs.declared.changes.Change.TheVariants.{ModifyItems};
ghost use Rattle.save_laws.specs.Slots.{document_slots};
ghost use Rattle.save_laws.specs.Ends.{ends_of};
ghost use Rattle.session_text.specs.SessionText.{IsSameText, section_properties};
ghost use Rattle.session_text.specs.EditSteps.{AreEditSteps, ArePutSteps, IsActStep};
ghost use Rattle.session_text.specs.TextEdits.{IsTextEdit, IsSectionsEdit};
ghost use Rattle.session_text.specs.Puts.{CanPut, CanPutAll, places_after, all_places_after, ends_after_all};
ghost use Rattle.session_text.specs.Puts.{pieces_cut};

use crate::added::Added;
use crate::blocks::{Blocks, blocks_of};
use crate::sections::sections_after;
use crate::stories::Stories;
use crate::text_changes::range_in_whole;
use doc_bits::{Memory, Story};
use doc_columns::{ColumnDocument, Columns};
use doc_patch::{Change, Changes};
use piece_table::{Piece, PieceList};
use prop_map::Modifier;
use save_laws::Ends;
use std::alloc::Global;

/// A range of CPs of the whole text, the block of added text that is put in its place, and the marks behind the stories
/// after that.
#[derive(Clone, Copy)]
pub(crate) struct TextSplice {
    pub(crate) from: u32,
    pub(crate) to: u32,
    pub(crate) block: Option<Piece>,
    pub(crate) ends: Ends,
}

/// The text of a session's document: its pieces, in the stream of the last save and in added text; the marks behind its
/// stories; and where the properties of its sections are in that stream, or that they are still to be written.
#[derive(Drop)]
pub struct SessionText {
    pub pieces: PieceList,
    pub added: Added,
    pub ends: Ends,
    pub sections: Vec<Option<u32>>,
}

impl SessionText {
    /// The text of pieces. Added text will be from a byte of `WordDocument` on.
    pub fn new(
        alloc: Global,
        pieces: PieceList,
        base: u32,
        ends: Ends,
        sections: Vec<Option<u32>>,
    ) -> SessionText
        ensures { result ≡ record {
          pieces = pieces;
          added = record { base = base; items = [] };
          ends = ends;
          sections = sections;
        } }
    {
        let items = Columns::new(alloc);
        SessionText {
            pieces,
            added: Added { base, items },
            ends,
            sections,
        }
    }

    /// Makes the changes of a command on the text of a document. After want of memory the text is what it was.
    pub fn edit(
        &mut self,
        alloc: Global,
        document: &ColumnDocument,
        changes: &Changes,
    ) -> Result<(), Memory>
        requires sound { IsSound document.now }
        requires steps { AreEditSteps document.now changes.now }
        requires few { length changes.now ≤ 3 }
        requires count { total_length self.old.pieces.pieces
            ≡ length (document_slots document.now (ends_of self.old.ends)) }
        requires sections { length self.old.sections.items ≡ length (section_properties document.now.main) }
        requires room { self.old.added.base + (2 * length self.old.added.items + 3000000) < 2 ^ 32 }
        ensures text { OnOk result (IsTextEdit document.now changes.now self.old self.new) }
        ensures sections { OnOk result
            (IsSectionsEdit document.now changes.now self.old.sections.items self.new.sections.items) }
        ensures err { OnErr result (IsSameText self.old self.new) }
    {
        let sections = sections_after(alloc, &self.sections, document, changes)?;
        self.make_changes(alloc, document, changes)?;
        self.sections = sections;
        Ok(())
    }

    /// Makes the changes of a command, but for the places of the sections.
    fn make_changes(
        &mut self,
        alloc: Global,
        document: &ColumnDocument,
        changes: &Changes,
    ) -> Result<(), Memory>
        requires sound { IsSound document.now }
        requires steps { AreEditSteps document.now changes.now }
        requires few { length changes.now ≤ 3 }
        requires count { total_length self.old.pieces.pieces
            ≡ length (document_slots document.now (ends_of self.old.ends)) }
        requires room { self.old.added.base + (2 * length self.old.added.items + 3000000) < 2 ^ 32 }
        ensures text { OnOk result (IsTextEdit document.now changes.now self.old self.new) }
        ensures sections { self.new.sections ≡ self.old.sections }
        ensures err { OnErr result (IsSameText self.old self.new) }
    {
        match lone_modifier(changes) {
            Some((story, from, to, by)) => self.act(document, story, (from, to), by),
            None => self.put_changes(alloc, document, changes),
        }
    }

    /// Makes the changes of a command that are no modifiers.
    fn put_changes(
        &mut self,
        alloc: Global,
        document: &ColumnDocument,
        changes: &Changes,
    ) -> Result<(), Memory>
        requires sound { IsSound document.now }
        requires steps { ArePutSteps document.now document.now changes.now }
        requires few { length changes.now ≤ 3 }
        requires count { total_length self.old.pieces.pieces
            ≡ length (document_slots document.now (ends_of self.old.ends)) }
        requires room { self.old.added.base + (2 * length self.old.added.items + 3000000) < 2 ^ 32 }
        ensures text { OnOk result (IsTextEdit document.now changes.now self.old self.new) }
        ensures sections { self.new.sections ≡ self.old.sections }
        ensures err { OnErr result (IsSameText self.old self.new) }
    {
        let Blocks { splices, added } = blocks_of(
            alloc,
            &self.added,
            document,
            self.ends,
            changes,
        )?;
        self.pieces.reserve(3 * changes.len())?;
        self.added = added;
        self.put_all(&splices);
        Ok(())
    }

    /// Makes splices one after another. It takes no memory.
    fn put_all(&mut self, splices: &[TextSplice])
        requires can { CanPutAll (total_length self.old.pieces.pieces) splices.now }
        requires spare { 3 * length splices.now ≤ self.old.pieces.spare }
        ensures places { flat_pieces self.new.pieces.pieces
            ≡ all_places_after (flat_pieces self.old.pieces.pieces) splices.now }
        ensures count { length self.new.pieces.pieces
            ≤ length self.old.pieces.pieces + sum_by pieces_cut splices.now }
        ensures added { self.new.added ≡ self.old.added }
        ensures ends { self.new.ends ≡ ends_after_all self.old.ends splices.now }
        ensures sections { self.new.sections ≡ self.old.sections }
    {
        for splice in splices {
            self.put(*splice);
        }
    }

    /// Puts a block of added text, or nothing, in place of a range of CPs. It takes no memory.
    fn put(&mut self, splice: TextSplice)
        requires can { CanPut (total_length self.old.pieces.pieces) splice }
        requires spare { 3 ≤ self.old.pieces.spare }
        ensures places { flat_pieces self.new.pieces.pieces
            ≡ places_after (flat_pieces self.old.pieces.pieces) splice }
        ensures count { length self.new.pieces.pieces ≤ length self.old.pieces.pieces + pieces_cut splice }
        ensures added { self.new.added ≡ self.old.added }
        ensures ends { self.new.ends ≡ splice.ends }
        ensures sections { self.new.sections ≡ self.old.sections }
        ensures spare { self.old.pieces.spare ≤ self.new.pieces.spare + 3 }
    {
        self.pieces.splice(splice.from, splice.to, splice.block);
        self.ends = splice.ends;
    }

    /// Acts with a modifier on the items of a range of a text of the document.
    fn act(
        &mut self,
        document: &ColumnDocument,
        story: Story,
        range: (usize, usize),
        by: &Modifier,
    ) -> Result<(), Memory>
        requires sound { IsSound document.now }
        requires acts { IsActStep document.now story range.0 range.1 by.now }
        requires count { total_length self.old.pieces.pieces
            ≡ length (document_slots document.now (ends_of self.old.ends)) }
        ensures text { OnOk result
            (IsTextEdit document.now (ModifyItems story range.0 range.1 by.now ∷ []) self.old self.new) }
        ensures sections { self.new.sections ≡ self.old.sections }
        ensures err { OnErr result (IsSameText self.old self.new) }
    {
        let stories = Stories::of(document, self.ends);
        let all = range_in_whole(document, stories, story, range);
        self.pieces.reserve(2)?;
        self.pieces.modify(all.0, all.1, by)?;
        Ok(())
    }
}

/// The modifier of changes that are one modifier: its text, its range, and what it does.
fn lone_modifier(changes: &Changes) -> Option<(Story, usize, usize, &Modifier)>
    ensures { MatchOption result
        ((story : StoryName) (from to : ℕ) (by : ModifierValue) → changes.now ≢ ModifyItems story from to by ∷ [])
        (λ found. changes.now ≡ ModifyItems found.0 found.1 found.2 found.3.now ∷ []) }
{
    if changes.len() != 1 {
        return None;
    }
    match changes.get(0) {
        Change::ModifyItems(story, from, to, by) => Some((*story, *from, *to, by)),
        Change::SpliceText(_, _, _, _) => None,
        Change::SetSection(_, _) => None,
        Change::SpliceNotes(_, _, _) => None,
        Change::SpliceHeads(_, _, _) => None,
        Change::SetStyleCharacters(_, _) => None,
        Change::SetStyleParagraphs(_, _) => None,
        Change::SetBookmarks(_) => None,
    }
}
