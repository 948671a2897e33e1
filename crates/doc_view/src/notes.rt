// The notes of a page.
ghost use Rattle.std.specs.Prelude.{◌≡◌, ℕ, ◌<◌, length, List, ◌||◌, [], false, true, slice_get, Some, if◌then◌else◌};
ghost use Rattle.style_sheet.specs.Chain.{style_kind_at};
ghost use Rattle.doc_model.specs.declared.item.Item.{Item};
ghost use Rattle.plain_doc.specs.RightDocument.{HoldsAtItems};
ghost use Rattle.plain_doc.specs.RulesOfTexts.{HasParagraphStyle};
ghost use Rattle.doc_view.specs.Notes.{has_lines, note_text, notes_from};
ghost use Rattle.doc_view.specs.Page.{AreFormats};
ghost use Rattle.page_out.specs.Printed.{Prints};
ghost use Rattle.doc_view.specs.Seen.{Formats};
ghost use Rattle.doc_view.specs.declared.reading.TextKind.TheVariants as text_kind;

use crate::Reference;
use crate::line::{Lead, Title};
use crate::reading::{Manner, TextKind};
use crate::references::References;
use crate::text::Text;
use char_formats::StyleFormats;
use doc_columns::ColumnTexts;
use doc_outer::Sink;
use list_numbers::ParagraphValuesList;
use page_out::Page;
use std::alloc::Global;
use symbol_fonts::SymbolFonts;

/// The notes of a document, the formats of its styles, whether hidden text is shown, and the symbol fonts.
#[derive(Drop)]
pub(crate) struct Notes<'a> {
    pub(crate) alloc: Global,
    pub(crate) texts: &'a ColumnTexts,
    pub(crate) formats: &'a StyleFormats,
    pub(crate) hidden: bool,
    pub(crate) fonts: SymbolFonts,
}

impl Notes<'_> {
    /// Puts each note whose reference is shown behind its label, and an empty line before the first one.
    pub(crate) fn push<K: Sink>(&self, page: &mut Page, out: &mut K, references: &References)
        requires normal { style_kind_at self.now.formats.now 0 ≡ 1 }
        requires styles { (k : ℕ) (note : List Item) → slice_get self.now.texts.now k ≡ Some note
            → HoldsAtItems note (λ i item. HasParagraphStyle self.now.formats.now item) }
        ensures { (formats : Formats) → AreFormats self.now.formats.now formats
            → Prints K.Sink out.old page.old out.new page.new
            (notes_from formats (record { hidden = self.now.hidden; kind = text_kind.Note; fonts = self.now.fonts }) false references.now.list
            self.now.texts.now) }
    {
        let mut begun = false;
        let count = references.len().min(self.texts.len());
        for k in 0..count {
            begun = self.push_note(page, out, k, references.get(k), begun);
        }
    }

    /// Puts the note of a number where its reference is shown, behind others or as the first one, and answers whether some
    /// note was put then.
    fn push_note<K: Sink>(
        &self,
        page: &mut Page,
        out: &mut K,
        k: usize,
        reference: Reference,
        begun: bool,
    ) -> bool
        requires normal { style_kind_at self.now.formats.now 0 ≡ 1 }
        requires styles { (k : ℕ) (note : List Item) → slice_get self.now.texts.now k ≡ Some note
            → HoldsAtItems note (λ i item. HasParagraphStyle self.now.formats.now item) }
        requires there { k < length self.now.texts.now }
        ensures text { (formats : Formats) (note : List Item) → AreFormats self.now.formats.now formats
            → slice_get self.now.texts.now k ≡ Some note → Prints K.Sink out.old page.old out.new page.new
            (if reference.is_shown then note_text formats (record { hidden = self.now.hidden; kind = text_kind.Note; fonts = self.now.fonts }) begun
            reference.number note else []) }
        ensures begun { (formats : Formats) (note : List Item) → AreFormats self.now.formats.now formats
            → slice_get self.now.texts.now k ≡ Some note → result ≡ (begun || has_lines formats
            (record { hidden = self.now.hidden; kind = text_kind.Note; fonts = self.now.fonts }) reference note) }
    {
        if !reference.is_shown {
            return begun;
        }
        let text = Text {
            parts: self.texts.get(k).parts(),
            formats: self.formats,
            manner: Manner {
                hidden: self.hidden,
                kind: TextKind::Note,
                fonts: self.fonts,
            },
        };
        let lead = Lead {
            is_apart: !begun,
            title: Title::of_note(reference.number),
        };
        let values = ParagraphValuesList::new(self.alloc);
        let (_, some) = text.push(page, out, lead, References::none(self.alloc), &values);
        begun || some
    }
}
