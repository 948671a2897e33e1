// The document of the parts of a file, by columns. What borrows from its text is read before the units are taken over.
ghost use Rattle.std.specs.Prelude.{◌≡◌, length, IfOk, MatchOption};
ghost use Rattle.doc_bits.specs.Rules.{Hold};
ghost use Rattle.file_rules.specs.FormatRules.{rules_of_formats};
ghost use Rattle.file_rules.specs.PartRules.{HasPartLists, HoldButFormats};
ghost use Rattle.file_rules.specs.FileRules.{doc_source_of};
ghost use Rattle.doc_read.specs.CarriedParts.{AreWithinBounds, LeavesRoom};
ghost use Rattle.doc_columns.specs.Columns.{items_of};
ghost use Rattle.doc_read.specs.ReadParts.{AreDocumentParts, FitUnits, IsReadFromText, story_cuts};
ghost use Rattle.doc_read.specs.ReadTexts.{AreCutsOf, AreCutTexts, IsDocumentOfUnits};

use crate::carried::read_carried;
use crate::columns::{ReadColumns, read_columns};
use crate::sections::read_section_maps;
use crate::texts::{cut_columns, push_ends};
use cfb_streams::Container;
use doc_bits::{Memory, drop_then};
use doc_columns::{ColumnDocument, ColumnTexts, Columns, SharedText};
use doc_parts::{Bookmarks, Cuts};
use fib_form::{Fib, StoryKind};
use file_rules::{DocParts, LoadedText};
use plain_doc::{Carried, HEADERS_PER_SECTION, SEPARATORS};
use std::alloc::Global;
use style_sheet::StyleSheet;

/// Where the notes and the header texts are cut, and how many header texts there are.
#[derive(Drop)]
struct StoryCuts {
    notes: Cuts,
    heads: Cuts,
    head_count: usize,
}

/// What a document is made of, but for the units of its text.
#[derive(Drop)]
pub(crate) struct DocumentParts {
    columns: ReadColumns,
    cuts: StoryCuts,
    sheet: StyleSheet,
    carried: Carried,
    bookmarks: Bookmarks,
}

/// The texts of a document.
#[derive(Drop)]
struct ReadTexts {
    main: Columns,
    notes: ColumnTexts,
    heads: ColumnTexts,
}

/// Reads what the document of a file is made of, whose parts have been read; nothing where a unit has not its right
/// pages.
pub(crate) fn read_document_parts(
    alloc: Global,
    container: &Container,
    text: &LoadedText<'_>,
    parts: DocParts<'_>,
) -> Result<Option<DocumentParts>, Memory>
    requires bounds { AreWithinBounds container.now }
    requires room { LeavesRoom container.now text.now.table }
    requires rules { HoldButFormats (doc_source_of text.now) }
    requires lists { HasPartLists (doc_source_of text.now) parts }
    ensures { IfOk result (λ read. MatchOption read
        (¬ (Hold (rules_of_formats (doc_source_of text.now))))
        (λ read. Hold (rules_of_formats (doc_source_of text.now))
        × AreDocumentParts container.now text.now parts.entry read)) }
{
    let found = match read_from_text(alloc, container, text, &parts) {
        Ok(found) => found,
        Err(fault) => return drop_then(parts, Err(fault)),
    };
    let Some(read) = found else {
        return drop_then(parts, Ok(None));
    };
    Ok(Some(parts_of(parts, read)))
}

/// What is read of a text by its parts: its columns, and what is carried along.
#[derive(Drop)]
struct ReadFromText {
    columns: ReadColumns,
    carried: Carried,
}

/// Reads the columns of a text, and what is carried along; nothing where a unit has not its right pages.
fn read_from_text(
    alloc: Global,
    container: &Container,
    text: &LoadedText<'_>,
    parts: &DocParts<'_>,
) -> Result<Option<ReadFromText>, Memory>
    requires bounds { AreWithinBounds container.now }
    requires room { LeavesRoom container.now text.now.table }
    requires rules { HoldButFormats (doc_source_of text.now) }
    requires lists { HasPartLists (doc_source_of text.now) parts.now }
    ensures { IfOk result (λ read. MatchOption read
        (¬ (Hold (rules_of_formats (doc_source_of text.now))))
        (λ read. Hold (rules_of_formats (doc_source_of text.now))
        × IsReadFromText container.now text.now parts.now read)) }
{
    let sections = read_section_maps(alloc, text, &parts.sections)?;
    let carried = read_carried(alloc, container, text, parts)?;
    let Some(columns) = read_columns(alloc, text, parts, &sections)? else {
        return Ok(None);
    };
    Ok(Some(ReadFromText { columns, carried }))
}

/// What the document is made of: its parts, and what was read by them. It takes no memory.
fn parts_of(parts: DocParts<'_>, read: ReadFromText) -> DocumentParts
    ensures { result ≡ record {
      columns = read.columns;
      cuts = story_cuts parts.entry;
      sheet = parts.entry.sheet;
      carried = read.carried;
      bookmarks = parts.entry.bookmarks;
    } }
{
    let head_count = SEPARATORS + HEADERS_PER_SECTION * parts.sections.len();
    let notes = parts.notes;
    DocumentParts {
        columns: read.columns,
        cuts: StoryCuts {
            notes: notes.cuts,
            heads: parts.heads,
            head_count,
        },
        sheet: parts.sheet,
        carried: read.carried,
        bookmarks: parts.bookmarks,
    }
}

/// The document of its parts and of the units of its text, which it takes over.
pub(crate) fn document_with(
    alloc: Global,
    fib: &Fib,
    units: Vec<u16>,
    parts: DocumentParts,
) -> Result<ColumnDocument, Memory>
    requires units { FitUnits units.items parts.columns }
    requires cuts { AreCutsOf fib.now parts.cuts (length units.items) }
    ensures { IfOk result (IsDocumentOfUnits fib.now units.items parts) }
{
    let DocumentParts {
        columns,
        cuts,
        sheet,
        carried,
        bookmarks,
    } = parts;
    let texts = cut_units(alloc, fib, units, columns, &cuts)?;
    Ok(document_of(texts, sheet, carried, bookmarks))
}

/// Cuts the text of these units and columns into the texts of the document.
fn cut_units(
    alloc: Global,
    fib: &Fib,
    units: Vec<u16>,
    columns: ReadColumns,
    cuts: &StoryCuts,
) -> Result<ReadTexts, Memory>
    requires units { FitUnits units.items columns }
    requires cuts { AreCutsOf fib.now cuts.now (length units.items) }
    ensures { IfOk result (AreCutTexts fib.now cuts.now (items_of units.items columns.chps columns.attachments)) }
{
    let all = Columns::from_parts(units, columns.chps, columns.attachments);
    let ends = text_ends(alloc, fib, cuts)?;
    let mut whole = SharedText::new(alloc, all, &ends)?;
    let texts = read_texts(alloc, fib, &mut whole, cuts);
    drop(whole);
    texts
}

/// The places where the texts of the document begin and end, as far as they are known.
fn text_ends(alloc: Global, fib: &Fib, cuts: &StoryCuts) -> Result<Vec<u32>, Memory> {
    let mut ends = vec![in alloc; fib.story_len(StoryKind::Main)]?;
    push_ends(fib.story_begin(StoryKind::Notes), &cuts.notes, &mut ends)?;
    push_ends(fib.story_begin(StoryKind::Heads), &cuts.heads, &mut ends)?;
    Ok(ends)
}

/// Cuts the text into the texts of the document.
fn read_texts(
    alloc: Global,
    fib: &Fib,
    whole: &mut SharedText,
    cuts: &StoryCuts,
) -> Result<ReadTexts, Memory>
    requires { AreCutsOf fib.now cuts.now (length whole.old) }
    ensures { IfOk result (AreCutTexts fib.now cuts.now whole.old) }
{
    let main = whole.cut(alloc, 0, fib.story_len(StoryKind::Main) as usize)?;
    let notes = cut_columns(
        alloc,
        whole,
        fib.story_begin(StoryKind::Notes),
        &cuts.notes,
        cuts.notes.len().saturating_sub(1),
    )?;
    let heads = cut_columns(
        alloc,
        whole,
        fib.story_begin(StoryKind::Heads),
        &cuts.heads,
        cuts.head_count,
    )?;
    Ok(ReadTexts { main, notes, heads })
}

/// The document of its parts. It takes no memory.
fn document_of(
    texts: ReadTexts,
    sheet: StyleSheet,
    carried: Carried,
    bookmarks: Bookmarks,
) -> ColumnDocument
    ensures { result ≡ record {
      main = texts.main;
      notes = texts.notes;
      heads = texts.heads;
      sheet = sheet;
      carried = carried;
      bookmarks = bookmarks;
    } }
{
    let ReadTexts { main, notes, heads } = texts;
    ColumnDocument {
        main,
        notes,
        heads,
        sheet,
        carried,
        bookmarks,
    }
}
