// A text that is written again: the items of its pieces, in the order of the text, in fresh added text.
ghost use Rattle.std.specs.Prelude.{◌≡◌, ◌↔◌, ◌+◌, ◌*◌, ◌^◌, ◌<◌, ◌≤◌, ◌++◌, length, map, IsTrue, MatchOption};
ghost use Rattle.std.specs.Prelude.{slice_get, IfOk};
ghost use Rattle.piece_table.specs.Piece.{total_length};
ghost use Rattle.plain_doc.specs.Sound.{IsSound};
ghost use Rattle.save_laws.specs.Slots.{document_slots};
ghost use Rattle.save_laws.specs.Ends.{ends_of};
ghost use Rattle.session_text.specs.WrittenAgain.{IsRewritten, IsWrittenAgain, AreChosen, slot_item};
ghost use Rattle.session_text.specs.WrittenAgain.{place_if_again, len_for, renewed_values};
ghost use Rattle.session_text.specs.Picked.{whole_items};
ghost use Rattle.piece_table.specs.Renewals.{renewed_pieces, AreNewPlaces};

use crate::added::Added;
use crate::gathered::TextBuilder;
use crate::old_pieces::OldPieces;
use crate::picked::{NewPlaces, WholeText};
use crate::session_text::SessionText;
use doc_bits::Memory;
use doc_columns::{ColumnDocument, Columns};
use piece_table::PieceWalk;
use save_laws::Ends;
use std::alloc::Global;

/// The text behind the main text of a document: the notes and the header texts with the marks behind these.
fn behind_main(alloc: Global, document: &ColumnDocument, ends: Ends) -> Result<Columns, Memory>
    requires { length (document_slots document.now (ends_of ends)) < 2 ^ 31 }
    ensures { IfOk result (λ behind.
        document.now.main ++ behind ≡ map slot_item (document_slots document.now (ends_of ends))) }
{
    let notes = TextBuilder::new(alloc).with_story(alloc, &document.notes, ends.notes)?;
    let both = notes.with_story(alloc, &document.heads, ends.heads)?;
    let all = both.with_last(alloc)?;
    Ok(all.finish())
}

/// Whether a piece is written again: it ends in added text, from a byte on, or is among the old pieces that are.
fn is_rewritten(walk: &mut PieceWalk<'_>, number: usize, base: u32, which: OldPieces) -> bool
    requires { number < length walk.old }
    ensures again { MatchOption (slice_get walk.old number) ⊥
        (λ piece. IsTrue result ↔ IsRewritten base which piece) }
    ensures walk { walk.new ≡ walk.old }
{
    let piece = walk.piece(number);
    let modifier = walk.modifier(number);
    piece.end() > base as u64 || which.include(modifier)
}

/// Beside each piece of a text its place in fresh added text, where it is written again.
fn new_places(
    alloc: Global,
    text: &SessionText,
    which: OldPieces,
) -> Result<Vec<Option<u32>>, Memory>
    requires { text.now.added.base + 2 * total_length text.now.pieces.pieces < 2 ^ 32 }
    ensures { IfOk result (λ places. AreChosen which text.now text.now.pieces.pieces places.items) }
{
    let mut places = Vec::new(alloc);
    let mut walk = text.pieces.walk();
    let mut at = text.added.base;
    for number in 0..text.pieces.len() {
        let piece = walk.piece(number);
        let again = is_rewritten(&mut walk, number, text.added.base, which);
        let (place, end) = place_for(again, at, piece.len);
        places.push(place)?;
        at = end;
    }
    Ok(places)
}

/// The place of a piece at a byte, where it is written again, and the byte behind it.
fn place_for(again: bool, at: u32, len: u32) -> (Option<u32>, u32)
    requires { at + 2 * len < 2 ^ 32 }
    ensures place { result.0 ≡ place_if_again again at }
    ensures end { result.1 ≡ at + 2 * len_for again len }
{
    if again {
        (Some(at), at + 2 * len)
    } else {
        (None, at)
    }
}

impl SessionText {
    /// The text of the document with its added pieces written again, in the order of the text, with the properties that
    /// the document has now and without modifiers, and the old pieces of these.
    pub fn written_again(
        &self,
        alloc: Global,
        document: &ColumnDocument,
        which: OldPieces,
    ) -> Result<SessionText, Memory>
        requires sound { IsSound document.now }
        requires count { total_length self.now.pieces.pieces
            ≡ length (document_slots document.now (ends_of self.now.ends)) }
        requires room { self.now.added.base + 2 * total_length self.now.pieces.pieces < 2 ^ 32 }
        ensures { IfOk result (λ text. IsWrittenAgain document.now which self.now text) }
    {
        let behind = behind_main(alloc, document, self.ends)?;
        let made = self.written_over(alloc, document, &behind, which);
        drop(behind);
        made
    }

    /// The text with its added pieces written again, where the text behind the main text is there.
    fn written_over(
        &self,
        alloc: Global,
        document: &ColumnDocument,
        behind: &Columns,
        which: OldPieces,
    ) -> Result<SessionText, Memory>
        requires sound { IsSound document.now }
        requires count { total_length self.now.pieces.pieces
            ≡ length (document_slots document.now (ends_of self.now.ends)) }
        requires room { self.now.added.base + 2 * total_length self.now.pieces.pieces < 2 ^ 32 }
        requires behind { document.now.main ++ behind.now
            ≡ map slot_item (document_slots document.now (ends_of self.now.ends)) }
        ensures { IfOk result (λ text. IsWrittenAgain document.now which self.now text) }
    {
        let whole = WholeText {
            main: &document.main,
            behind,
        };
        let places = new_places(alloc, self, which)?;
        let made = self.renewed_at(alloc, &whole, &places)?;
        Ok(made)
    }

    /// The text of a whole text whose pieces have new places.
    fn renewed_at(
        &self,
        alloc: Global,
        whole: &WholeText<'_>,
        places: &[Option<u32>],
    ) -> Result<SessionText, Memory>
        requires places { length places.now ≡ length self.now.pieces.pieces }
        requires within { total_length self.now.pieces.pieces ≤ length (whole_items whole.now) }
        requires few { length (whole_items whole.now) < 2 ^ 32 }
        requires room { AreNewPlaces places.now self.now.pieces.pieces }
        ensures items { IfOk result
            (λ text. text.added.items ≡ renewed_values places.now self.now.pieces.pieces (whole_items whole.now)) }
        ensures base { IfOk result (λ text. text.added.base ≡ self.now.added.base) }
        ensures pieces { IfOk result
            (λ text. text.pieces.pieces ≡ renewed_pieces places.now self.now.pieces.pieces) }
        ensures ends { IfOk result (λ text. text.ends ≡ self.now.ends) }
        ensures sections { IfOk result (λ text. text.sections.items ≡ self.now.sections.items) }
    {
        let placed = NewPlaces {
            pieces: &self.pieces,
            places,
        };
        let mut sections = Vec::new(alloc);
        sections.extend_from_slice(&self.sections)?;
        let pieces = self.pieces.renew(alloc, places)?;
        let items = whole.text_at(alloc, &placed)?;
        Ok(SessionText {
            pieces,
            added: Added {
                base: self.added.base,
                items,
            },
            ends: self.ends,
            sections,
        })
    }
}
