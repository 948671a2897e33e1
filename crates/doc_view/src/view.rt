// The page of a document.
ghost use Rattle.std.specs.Prelude.{◌≡◌, ℕ, List, length, [], IfOk, OnOk, OnErr, IsErrOf};
ghost use Rattle.doc_outer.specs.Counts.{Rose};
ghost use Rattle.doc_outer.specs.Written.{Appends, AppendsPrefix};
ghost use Rattle.style_sheet.specs.Chain.{HasSoundBases};
ghost use Rattle.plain_doc.specs.Sound.{IsSound};
ghost use Rattle.list_numbers.specs.ParagraphValues.{AreParagraphValuesOf};
ghost use Rattle.doc_view.specs.Page.{AreFormats, IsPage, fonts_of, headers_text, page_text};
ghost use Rattle.page_out.specs.Printed.{Prints};
ghost use Rattle.doc_view.specs.Seen.{Formats};

use crate::headers::Headers;
use crate::line::Lead;
use crate::notes::Notes;
use crate::reading::{Manner, TextKind};
use crate::references::References;
use crate::text::Text;
use char_formats::StyleFormats;
use doc_bits::Memory;
use doc_columns::ColumnDocument;
use doc_outer::{OutBlock, Sink, SinkFailed};
use list_numbers::{ParagraphValuesList, paragraph_values_of_columns};
use page_out::Page;
use std::alloc::Global;
use symbol_fonts::SymbolFonts;
use thiserror::Error;

/// What of a document is shown.
#[derive(Clone, Copy, Debug, PartialEq, Eq)]
pub struct Options {
    /// Hidden text too.
    pub hidden: bool,
    /// The texts of headers and footers too.
    pub headers: bool,
}

/// Why a page is not written.
#[derive(Clone, Copy, Debug, PartialEq, Eq, Error)]
pub enum ViewFault {
    #[error("out of memory")]
    Memory,
    #[error("the sink failed")]
    Sink,
}

/// The symbol fonts of a document. It is linear in its font table.
pub fn fonts_of(document: &ColumnDocument) -> SymbolFonts
    ensures { result ≡ fonts_of document.now }
{
    SymbolFonts::of(document.carried.fonts.as_slice())
}

/// What the making of a page needs: all its memory.
#[derive(Drop)]
struct Needs {
    formats: StyleFormats,
    values: ParagraphValuesList,
    references: References,
    block: OutBlock,
}

/// Writes the page of a document, its main text, its notes and its header texts. All memory is taken before the first byte. It is linear in
/// the units and the runs.
pub fn write_page<K: Sink>(
    alloc: Global,
    document: &ColumnDocument,
    options: Options,
    out: &mut K,
) -> Result<(), ViewFault>
    requires { IsSound document.now }
    ensures ok { OnOk result ((bytes : List ℕ) × (IsPage options document.now bytes
        × Appends (K.written out.old) (K.written out.new) bytes)) }

    // A sink that fails has taken a prefix of the page.
    ensures prefix { IsErrOf result ViewFault.Sink → (bytes : List ℕ) × (IsPage options document.now bytes
        × AppendsPrefix (K.written out.old) (K.written out.new) bytes) }
    ensures failed { IsErrOf result ViewFault.Sink → Rose (K.faults out.old) (K.faults out.new) }

    // Without memory nothing is written.
    ensures memory { IsErrOf result ViewFault.Memory → K.written out.new ≡ K.written out.old }
{
    let Ok(needs) = needs_of(alloc, document) else {
        return Err(ViewFault::Memory);
    };
    match write_with(alloc, document, options, needs, out) {
        Ok(()) => Ok(()),
        Err(_) => Err(ViewFault::Sink),
    }
}

/// Takes all the memory of a page.
fn needs_of(alloc: Global, document: &ColumnDocument) -> Result<Needs, Memory>
    requires sound { IsSound document.now }
    requires bases { HasSoundBases document.now.sheet }
    ensures formats { IfOk result (λ needs. needs.formats ≡ document.now.sheet) }
    ensures values { IfOk result (λ needs. AreParagraphValuesOf document.now needs.values) }
    ensures references { IfOk result (λ needs.
        needs.references ≡ record { list = []; room = length document.now.notes }) }
    ensures block { IfOk result (λ needs. needs.block ≡ []) }
{
    Ok(Needs {
        formats: StyleFormats::of(alloc, &document.sheet)?,
        values: paragraph_values_of_columns(alloc, document)?,
        references: References::new(alloc, document.notes.len())?,
        block: OutBlock::new(alloc)?,
    })
}

/// Writes the page with the memory that it needs. It takes no more.
fn write_with<K: Sink>(
    alloc: Global,
    document: &ColumnDocument,
    options: Options,
    needs: Needs,
    out: &mut K,
) -> Result<(), SinkFailed>
    requires sound { IsSound document.now }
    requires formats { needs.formats ≡ document.now.sheet }
    requires values { AreParagraphValuesOf document.now needs.values }
    requires references { needs.references ≡ record { list = []; room = length document.now.notes } }
    requires block { needs.block ≡ [] }
    ensures ok { OnOk result ((bytes : List ℕ) × (IsPage options document.now bytes
        × Appends (K.written out.old) (K.written out.new) bytes)) }
    ensures prefix { OnErr result ((bytes : List ℕ) × (IsPage options document.now bytes
        × AppendsPrefix (K.written out.old) (K.written out.new) bytes)) }
    ensures failed { OnErr result (Rose (K.faults out.old) (K.faults out.new)) }
{
    let Needs {
        formats,
        values,
        references,
        block,
    } = needs;
    let mut page = Page::new(block);
    let shown = Shown {
        document,
        formats: &formats,
        values: &values,
        options,
    };
    shown.push(alloc, &mut page, out, references);
    page.finish(out)
}

/// A document that is shown, the formats of its styles, the values of its paragraphs, and what of it is shown.
#[derive(Drop)]
struct Shown<'a> {
    document: &'a ColumnDocument,
    formats: &'a StyleFormats,
    values: &'a ParagraphValuesList,
    options: Options,
}

impl Shown<'_> {
    /// Puts the main text, the notes and the header texts.
    fn push<K: Sink>(&self, alloc: Global, page: &mut Page, out: &mut K, references: References)
        requires sound { IsSound self.now.document.now }
        requires formats { self.now.formats.now ≡ self.now.document.now.sheet }
        requires references { references ≡ record { list = []; room = length self.now.document.now.notes } }
        ensures { (formats : Formats) → AreFormats self.now.document.now.sheet formats
            → Prints K.Sink out.old page.old out.new page.new
            (page_text formats self.now.values.now self.now.options self.now.document.now) }
    {
        let document = self.document;
        let fonts = fonts_of(document);
        let main = Text {
            parts: document.main.parts(),
            formats: self.formats,
            manner: Manner {
                hidden: self.options.hidden,
                kind: TextKind::Main,
                fonts,
            },
        };
        let (references, _) = main.push(page, out, Lead::none(), references, self.values);
        let notes = Notes {
            alloc,
            texts: &document.notes,
            formats: self.formats,
            hidden: self.options.hidden,
            fonts,
        };
        notes.push(page, out, &references);
        self.push_headers(alloc, page, out);
    }

    /// Puts the header texts, where the options want them.
    fn push_headers<K: Sink>(&self, alloc: Global, page: &mut Page, out: &mut K)
        requires sound { IsSound self.now.document.now }
        requires formats { self.now.formats.now ≡ self.now.document.now.sheet }
        ensures { (formats : Formats) → AreFormats self.now.document.now.sheet formats
            → Prints K.Sink out.old page.old out.new page.new
            (headers_text formats self.now.options self.now.document.now) }
    {
        if !self.options.headers {
            return;
        }
        let document = self.document;
        let headers = Headers {
            alloc,
            texts: &document.heads,
            formats: self.formats,
            hidden: self.options.hidden,
            fonts: fonts_of(document),
        };
        headers.push(page, out);
    }
}
