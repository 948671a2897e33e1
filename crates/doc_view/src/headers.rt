// The header texts of a page.
ghost use Rattle.std.specs.Prelude.{◌≡◌, ℕ, ◌<◌, length, drop, List, ◌||◌, false, slice_get, Some};
ghost use Rattle.style_sheet.specs.Chain.{style_kind_at};
ghost use Rattle.doc_model.specs.declared.item.Item.{Item};
ghost use Rattle.plain_doc.specs.RightDocument.{HoldsAtItems};
ghost use Rattle.plain_doc.specs.RulesOfTexts.{HasParagraphStyle};
ghost use Rattle.doc_view.specs.Headers.{header_text, headers_from};
ghost use Rattle.doc_view.specs.Layout.{some_here};
ghost use Rattle.doc_view.specs.Page.{AreFormats};
ghost use Rattle.doc_view.specs.Seen.{Formats, paragraphs_of};
ghost use Rattle.page_out.specs.Printed.{Prints};
ghost use Rattle.doc_view.specs.declared.reading.TextKind.TheVariants as text_kind;

use crate::line::{Lead, Title};
use crate::reading::{Manner, TextKind};
use crate::references::References;
use crate::text::Text;
use char_formats::StyleFormats;
use doc_columns::ColumnTexts;
use doc_outer::Sink;
use list_numbers::ParagraphValuesList;
use page_out::Page;
use plain_doc::SEPARATORS;
use std::alloc::Global;
use symbol_fonts::SymbolFonts;

/// The header texts of a document, the formats of its styles, whether hidden text is shown, and the symbol fonts.
#[derive(Drop)]
pub(crate) struct Headers<'a> {
    pub(crate) alloc: Global,
    pub(crate) texts: &'a ColumnTexts,
    pub(crate) formats: &'a StyleFormats,
    pub(crate) hidden: bool,
    pub(crate) fonts: SymbolFonts,
}

impl Headers<'_> {
    /// Puts each header text that has a glyph behind its name, and an empty line before the first one.
    pub(crate) fn push<K: Sink>(&self, page: &mut Page, out: &mut K)
        requires normal { style_kind_at self.now.formats.now 0 ≡ 1 }
        requires styles { (k : ℕ) (text : List Item) → slice_get self.now.texts.now k ≡ Some text
            → HoldsAtItems text (λ i item. HasParagraphStyle self.now.formats.now item) }
        ensures { (formats : Formats) → AreFormats self.now.formats.now formats
            → Prints K.Sink out.old page.old out.new page.new
            (headers_from formats (record { hidden = self.now.hidden; kind = text_kind.Header; fonts = self.now.fonts }) false 6
            (drop 6 self.now.texts.now)) }
    {
        let mut begun = false;
        let mut number = SEPARATORS;
        while number < self.texts.len() {
            begun = self.push_header(page, out, number, begun);
            number += 1;
        }
    }

    /// Puts the header text of a number, behind others or as the first one, and answers whether some header text was put
    /// then.
    fn push_header<K: Sink>(&self, page: &mut Page, out: &mut K, number: usize, begun: bool) -> bool
        requires normal { style_kind_at self.now.formats.now 0 ≡ 1 }
        requires styles { (k : ℕ) (text : List Item) → slice_get self.now.texts.now k ≡ Some text
            → HoldsAtItems text (λ i item. HasParagraphStyle self.now.formats.now item) }
        requires there { number < length self.now.texts.now }
        ensures text { (formats : Formats) (text : List Item) → AreFormats self.now.formats.now formats
            → slice_get self.now.texts.now number ≡ Some text → Prints K.Sink out.old page.old out.new page.new
            (header_text formats (record { hidden = self.now.hidden; kind = text_kind.Header; fonts = self.now.fonts }) begun number text) }
        ensures begun { (formats : Formats) (text : List Item) → AreFormats self.now.formats.now formats
            → slice_get self.now.texts.now number ≡ Some text → result ≡ (begun || some_here
            (paragraphs_of formats (record { hidden = self.now.hidden; kind = text_kind.Header; fonts = self.now.fonts }) text)) }
    {
        let text = Text {
            parts: self.texts.get(number).parts(),
            formats: self.formats,
            manner: Manner {
                hidden: self.hidden,
                kind: TextKind::Header,
                fonts: self.fonts,
            },
        };
        let lead = Lead {
            is_apart: !begun,
            title: Title::Header(number),
        };
        let values = ParagraphValuesList::new(self.alloc);
        let (_, some) = text.push(page, out, lead, References::none(self.alloc), &values);
        begun || some
    }
}
