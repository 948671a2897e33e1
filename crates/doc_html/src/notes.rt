// The notes of a page.
ghost use Rattle.std.specs.Prelude.{◌≡◌, ℕ, ◌+◌, ◌^◌, ◌<◌, ◌++◌, [], ◌∷◌, length, List, slice_get, true, Some};
ghost use Rattle.style_sheet.specs.Chain.{style_kind_at};
ghost use Rattle.doc_model.specs.declared.item.Item.{Item};
ghost use Rattle.plain_doc.specs.RightDocument.{HoldsAtItems};
ghost use Rattle.plain_doc.specs.RulesOfTexts.{HasParagraphStyle};
ghost use Rattle.doc_view.specs.Page.{AreFormats};
ghost use Rattle.doc_view.specs.Seen.{Formats};
ghost use Rattle.doc_places.specs.Places.{label_of, note_path, note_places, notes_places, shown_place};
ghost use Rattle.form_page.specs.Forms.{PutsPlaces};
ghost use Rattle.view_places.specs.declared.element.Element.TheVariants.{BackLink};
ghost use Rattle.doc_view.specs.declared.reading.TextKind.TheVariants as text_kind;

use crate::reading::{Context, write_text};
use crate::writer::Writer;
use char_formats::StyleFormats;
use doc_columns::ColumnTexts;
use doc_outer::Sink;
use doc_parts::Bookmarks;
use doc_places::TableCells;
use doc_view::{Manner, Reference, References, Text, TextKind};
use list_numbers::ParagraphValuesList;
use std::alloc::Global;
use symbol_fonts::SymbolFonts;
use view_places::{Element, Glyph};

/// An arrow back: the label of a note without a number.
const ARROW_BACK: u16 = 0x21A9;

/// The notes of a document, the formats of its styles, whether hidden text is shown, and the symbol fonts.
#[derive(Drop)]
pub(crate) struct Notes<'a> {
    pub(crate) alloc: Global,
    pub(crate) texts: &'a ColumnTexts,
    pub(crate) formats: &'a StyleFormats,
    pub(crate) hidden: bool,
    pub(crate) fonts: SymbolFonts,
}

impl Notes<'_> {
    /// Writes each note whose reference is shown behind its label.
    pub(crate) fn write<K: Sink>(
        &self,
        writer: &mut Writer<'_>,
        out: &mut K,
        references: &References,
    )
        requires normal { style_kind_at self.now.formats.now 0 ≡ 1 }
        requires styles { (k : ℕ) (note : List Item) → slice_get self.now.texts.now k ≡ Some note
            → HoldsAtItems note (λ i item. HasParagraphStyle self.now.formats.now item) }
        requires path { writer.old.path ≡ [] }
        ensures path { writer.new.path ≡ [] }
        ensures puts { (formats : Formats) → AreFormats self.now.formats.now formats
            → PutsPlaces K.Sink out.old writer.old.page out.new writer.new.page
            (notes_places formats (record { hidden = self.now.hidden; kind = text_kind.Note; fonts = self.now.fonts }) 1 references.now.list
            self.now.texts.now) }
    {
        let count = references.len().min(self.texts.len());
        for k in 0..count {
            self.write_note(writer, out, k, references.get(k));
        }
    }

    /// Writes the note of a place where its reference is shown.
    fn write_note<K: Sink>(
        &self,
        writer: &mut Writer<'_>,
        out: &mut K,
        k: usize,
        reference: Reference,
    )
        requires normal { style_kind_at self.now.formats.now 0 ≡ 1 }
        requires styles { (k : ℕ) (note : List Item) → slice_get self.now.texts.now k ≡ Some note
            → HoldsAtItems note (λ i item. HasParagraphStyle self.now.formats.now item) }
        requires there { k < length self.now.texts.now }
        requires few { k + 1 < 2 ^ 64 }
        requires path { writer.old.path ≡ [] }
        ensures path { writer.new.path ≡ [] }
        ensures puts { (formats : Formats) (note : List Item) → AreFormats self.now.formats.now formats
            → slice_get self.now.texts.now k ≡ Some note
            → PutsPlaces K.Sink out.old writer.old.page out.new writer.new.page
            (note_places formats (record { hidden = self.now.hidden; kind = text_kind.Note; fonts = self.now.fonts }) (k + 1) reference note) }
    {
        if !reference.is_shown {
            return;
        }
        open_note(writer, out, k + 1, reference.number);
        let text = Text {
            parts: self.texts.get(k).parts(),
            formats: self.formats,
            manner: Manner {
                hidden: self.hidden,
                kind: TextKind::Note,
                fonts: self.fonts,
            },
        };
        let bookmarks = Bookmarks::new(self.alloc);
        let values = ParagraphValuesList::new(self.alloc);
        let cells = TableCells::new(self.alloc);
        let context = Context {
            note: k + 1,
            bookmarks: &bookmarks,
            values: &values,
            cells: &cells,
        };
        let references = References::none(self.alloc);
        let _ = write_text(writer, out, &text, &context, references);
        writer.path.truncate(0);
    }
}

/// Opens the note with this number, and writes its label.
fn open_note<K: Sink>(writer: &mut Writer<'_>, out: &mut K, number: usize, label: Option<u32>)
    requires { writer.old.path ≡ [] }
    ensures path { writer.new.path ≡ note_path number }
    ensures puts { PutsPlaces K.Sink out.old writer.old.page out.new writer.new.page
        (shown_place (note_path number ++ BackLink number ∷ []) (label_of label) ∷ []) }
{
    writer.path.push(Element::Notes);
    writer.path.push(Element::Note(number));
    writer.path.push(Element::BackLink(number));
    writer.page.put(out, &writer.path, Some(label_of(label)));
    writer.path.truncate(2);
}

/// The label of a note.
fn label_of(number: Option<u32>) -> Glyph
    ensures { result ≡ label_of number }
{
    match number {
        None => Glyph::Unit(ARROW_BACK),
        Some(number) => Glyph::NoteMark(number),
    }
}
