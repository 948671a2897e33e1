// The page of a document in a form.
ghost use Rattle.std.specs.Prelude.{◌≡◌, ℕ, List, length, [], false, None, IfOk, OnOk, OnErr, IsErrOf, encode_utf8_all};
ghost use Rattle.doc_outer.specs.Counts.{Rose};
ghost use Rattle.doc_outer.specs.Written.{Appends, AppendsPrefix};
ghost use Rattle.style_sheet.specs.Chain.{HasSoundBases};
ghost use Rattle.plain_doc.specs.Sound.{IsSound};
ghost use Rattle.list_numbers.specs.ParagraphValues.{AreParagraphValuesOf};
ghost use Rattle.page_out.specs.Printed.{Prints};
ghost use Rattle.doc_pictures.specs.Files.{image_files};
ghost use Rattle.html_page.specs.Sources.{PageSource, page_source_of};
ghost use Rattle.form_page.specs.Forms.{IsFresh, PutsPlaces, page_form_of, form_text, page_in};
ghost use Rattle.doc_view.specs.Page.{AreFormats};
ghost use Rattle.doc_view.specs.Seen.{Formats};
ghost use Rattle.doc_places.specs.Places.{table_cells_of, document_places};
ghost use Rattle.doc_html.specs.Page.{IsFormPage, IsHtmlPage, IsSafe};
ghost use Rattle.doc_html.specs.Head.{page_head, document_title};

use crate::cells::cells_of;
use crate::head::language_of;
use crate::notes::Notes;
use crate::reading::{Context, write_text};
use crate::title::title_of;
use crate::writer::Writer;
use char_formats::StyleFormats;
use doc_bits::{Memory, Units};
use doc_columns::ColumnDocument;
use doc_outer::{OutBlock, Sink, SinkFailed};
use doc_places::TableCells;
use doc_view::{Manner, Options, References, Text, TextKind, ViewFault, fonts_of};
use form_page::{FormPage, PageForm};
use html_page::Source;
use list_numbers::{ParagraphValuesList, paragraph_values_of_columns};
use std::alloc::Global;
use view_paths::Path;
use view_places::Element;

/// What the making of a page needs: all its memory.
#[derive(Drop)]
struct Needs {
    formats: StyleFormats,
    values: ParagraphValuesList,
    cells: TableCells,
    title: Units,
    references: References,
    block: OutBlock,
}

/// Writes the page of a document in HTML, its main text and its notes. Its pictures are named by their files. All memory
/// is taken before the first byte. It is linear in the units and the runs, but for finding pictures by their places.
pub fn write_html<K: Sink>(
    alloc: Global,
    source: &Source<'_>,
    options: Options,
    out: &mut K,
) -> Result<(), ViewFault>
    requires { IsSound source.now.document.now }
    ensures ok { OnOk result ((bytes : List ℕ) × (IsHtmlPage options (page_source_of source.now) bytes
        × Appends (K.written out.old) (K.written out.new) bytes)) }

    // No markup of the page comes from the document but links to allowed URLs, and anchors; images are files of its
    // pictures.
    ensures safe { OnOk result ((page : List ℕ) × (IsSafe (image_files source.now.images) page
        × Appends (K.written out.old) (K.written out.new) (encode_utf8_all page))) }

    // A sink that fails has taken a prefix of the page.
    ensures prefix { IsErrOf result ViewFault.Sink → (bytes : List ℕ) × (IsHtmlPage options (page_source_of source.now)
        bytes
        × AppendsPrefix (K.written out.old) (K.written out.new) bytes) }
    ensures failed { IsErrOf result ViewFault.Sink → Rose (K.faults out.old) (K.faults out.new) }

    // Without memory nothing is written.
    ensures memory { IsErrOf result ViewFault.Memory → K.written out.new ≡ K.written out.old }
{
    write_form(alloc, source, PageForm::Html, options, out)
}

/// Writes the page of a document in a form, its main text and its notes. All memory is taken before the first byte. It is
/// linear in the units and the runs.
pub fn write_form<K: Sink>(
    alloc: Global,
    source: &Source<'_>,
    form: PageForm,
    options: Options,
    out: &mut K,
) -> Result<(), ViewFault>
    requires { IsSound source.now.document.now }
    ensures ok { OnOk result ((bytes : List ℕ) × (IsFormPage form options (page_source_of source.now) bytes
        × Appends (K.written out.old) (K.written out.new) bytes)) }

    // A sink that fails has taken a prefix of the page.
    ensures prefix { IsErrOf result ViewFault.Sink → (bytes : List ℕ) × (IsFormPage form options (page_source_of
        source.now) bytes
        × AppendsPrefix (K.written out.old) (K.written out.new) bytes) }
    ensures failed { IsErrOf result ViewFault.Sink → Rose (K.faults out.old) (K.faults out.new) }

    // Without memory nothing is written.
    ensures memory { IsErrOf result ViewFault.Memory → K.written out.new ≡ K.written out.old }
{
    let Ok(needs) = needs_of(alloc, source.document, options) else {
        return Err(ViewFault::Memory);
    };
    match write_with(alloc, source, form, options, needs, out) {
        Ok(()) => Ok(()),
        Err(_) => Err(ViewFault::Sink),
    }
}

/// Takes all the memory of a page.
fn needs_of(alloc: Global, document: &ColumnDocument, options: Options) -> Result<Needs, Memory>
    requires sound { IsSound document.now }
    requires bases { HasSoundBases document.now.sheet }
    ensures formats { IfOk result (λ needs. needs.formats ≡ document.now.sheet) }
    ensures values { IfOk result (λ needs. AreParagraphValuesOf document.now needs.values) }
    ensures cells { IfOk result (λ needs. needs.cells ≡ table_cells_of document.now.bookmarks needs.values
        document.now.main) }
    ensures title { IfOk result (λ needs. (formats : Formats) → AreFormats document.now.sheet formats
        → needs.title ≡ document_title formats options document.now) }
    ensures references { IfOk result (λ needs.
        needs.references ≡ record { list = []; room = length document.now.notes }) }
    ensures block { IfOk result (λ needs. needs.block ≡ []) }
{
    let formats = StyleFormats::of(alloc, &document.sheet)?;
    let values = paragraph_values_of_columns(alloc, document)?;
    let cells = cells_of(alloc, &document.main.parts(), &document.bookmarks, &values)?;
    let references = References::new(alloc, document.notes.len())?;
    let block = OutBlock::new(alloc)?;
    let title = title_of(alloc, document, &formats, options)?;
    Ok(Needs {
        formats,
        values,
        cells,
        title,
        references,
        block,
    })
}

/// Writes the page with the memory that it needs. It takes no more.
fn write_with<K: Sink>(
    alloc: Global,
    source: &Source<'_>,
    form: PageForm,
    options: Options,
    needs: Needs,
    out: &mut K,
) -> Result<(), SinkFailed>
    requires sound { IsSound source.now.document.now }
    requires formats { needs.formats ≡ source.now.document.now.sheet }
    requires values { AreParagraphValuesOf source.now.document.now needs.values }
    requires cells { needs.cells ≡ table_cells_of source.now.document.now.bookmarks needs.values
        source.now.document.now.main }
    requires title { (formats : Formats) → AreFormats source.now.document.now.sheet formats
        → needs.title ≡ document_title formats options source.now.document.now }
    requires references { needs.references ≡ record { list = []; room = length source.now.document.now.notes } }
    requires block { needs.block ≡ [] }
    ensures ok { OnOk result ((bytes : List ℕ) × (IsFormPage form options (page_source_of source.now) bytes
        × Appends (K.written out.old) (K.written out.new) bytes)) }
    ensures prefix { OnErr result ((bytes : List ℕ) × (IsFormPage form options (page_source_of source.now) bytes
        × AppendsPrefix (K.written out.old) (K.written out.new) bytes)) }
    ensures failed { OnErr result (Rose (K.faults out.old) (K.faults out.new)) }
{
    let Needs {
        formats,
        values,
        cells,
        title,
        references,
        block,
    } = needs;
    let page = FormPage::new(form, block, source);
    let shown = Shown {
        source: *source,
        formats: &formats,
        values: &values,
        cells: &cells,
        title: &title,
        options,
    };
    let written = shown.write(alloc, page, out, references);
    written.finish(out)
}

/// A document that is shown, with the files of its pictures, the formats of its styles, the values of its paragraphs, its
/// cells, its title, and what of it is shown.
#[derive(Drop)]
struct Shown<'a> {
    source: Source<'a>,
    formats: &'a StyleFormats,
    values: &'a ParagraphValuesList,
    cells: &'a TableCells,
    title: &'a Units,
    options: Options,
}

impl<'a> Shown<'a> {
    /// Writes the page.
    fn write<K: Sink>(
        &self,
        alloc: Global,
        page: FormPage<'a>,
        out: &mut K,
        references: References,
    ) -> FormPage<'a>
        requires sound { IsSound self.now.source.document.now }
        requires formats { self.now.formats.now ≡ self.now.source.document.now.sheet }
        requires cells { self.now.cells.now
            ≡ table_cells_of self.now.source.document.now.bookmarks self.now.values.now
            self.now.source.document.now.main }
        requires references { references ≡ record { list = []; room = length self.now.source.document.now.notes } }
        requires title { (formats : Formats) → AreFormats self.now.source.document.now.sheet formats
            → self.now.title.now ≡ document_title formats self.now.options self.now.source.document.now }
        requires fresh { IsFresh page [] (page_source_of self.now.source) }
        ensures { (formats : Formats) → AreFormats self.now.source.document.now.sheet formats
            → Prints K.Sink out.old (page_in page.entry) out.new (page_in result)
            (form_text (page_form_of page.entry) (page_source_of self.now.source)
            (page_head formats self.now.options self.now.source.document.now) (document_places formats
            self.now.values.now self.now.options self.now.source.document.now)) }
    {
        let mut writer = Writer {
            page,
            path: Path::new(Element::Notes),
        };
        let document = self.source.document;
        let language = language_of(&document.sheet);
        writer.page.begin(out, language, self.title.as_slice());
        self.write_places(alloc, &mut writer, out, references);
        writer.page.end(out);
        writer.page
    }

    /// Writes the main text and the notes.
    fn write_places<K: Sink>(
        &self,
        alloc: Global,
        writer: &mut Writer<'_>,
        out: &mut K,
        references: References,
    )
        requires sound { IsSound self.now.source.document.now }
        requires formats { self.now.formats.now ≡ self.now.source.document.now.sheet }
        requires cells { self.now.cells.now
            ≡ table_cells_of self.now.source.document.now.bookmarks self.now.values.now
            self.now.source.document.now.main }
        requires references { references ≡ record { list = []; room = length self.now.source.document.now.notes } }
        requires path { writer.old.path ≡ [] }
        ensures { (formats : Formats) → AreFormats self.now.source.document.now.sheet formats
            → PutsPlaces K.Sink out.old writer.old.page out.new writer.new.page
            (document_places formats self.now.values.now self.now.options self.now.source.document.now) }
    {
        let document = self.source.document;
        let fonts = fonts_of(document);
        let main = Text {
            parts: document.main.parts(),
            formats: self.formats,
            manner: Manner {
                hidden: self.options.hidden,
                kind: TextKind::Main,
                fonts,
            },
        };
        let context = Context {
            note: 0,
            bookmarks: &document.bookmarks,
            values: self.values,
            cells: self.cells,
        };
        let references = write_text(writer, out, &main, &context, references);
        let notes = Notes {
            alloc,
            texts: &document.notes,
            formats: self.formats,
            hidden: self.options.hidden,
            fonts,
        };
        notes.write(writer, out, &references);
    }
}
