// How long the two streams of a full save are. No part is made but that of the style sheet, and no page.
ghost use Rattle.std.specs.Prelude.{◌≡◌, ◌+◌, ◌*◌, ◌^◌, ◌<◌, ◌≤◌, ◌==◌, length, sum_by, if◌then◌else◌, IfOk};
ghost use Rattle.fkp_pages.specs.declared.kind.PageKind.{PageKind};
ghost use Rattle.fkp_pages.specs.Runs.{AreRuns};
ghost use Rattle.fkp_pages.specs.Packed.{pages_of};
ghost use Rattle.style_sheet.specs.Written.{IsWritable, written_sheet};
ghost use Rattle.doc_model.specs.Collected.{joined_texts};
ghost use Rattle.doc_model.specs.Formed.{IsFormed};
ghost use Rattle.plain_doc.specs.RightDocument.{IsValidDocument};
ghost use Rattle.full_save.specs.TableText.{FitParts};
ghost use Rattle.full_save.specs.Text.{text_items};
ghost use Rattle.full_save.specs.WordDocument.{table_stream, wd_stream};
ghost use Rattle.full_save.specs.Lengths.{plc_length, main_length, texts_length, bins_length, bookmarks_length};
ghost use Rattle.full_save.specs.Lengths.{bookmark_name_length, pages_counted};

use crate::made_parts::carried_len;
use crate::measures::{Measure, measure_of, measure_of_texts};
use crate::text::{SavedText, TEXT_START};
use crate::word_document::{MIN_LEN, pages_for};
use doc_bits::Memory;
use doc_columns::{ColumnDocument, ColumnTexts, Columns};
use doc_parts::{Bookmark, Bookmarks};
use fkp_pages::{PAGE_LEN, chpx_page_count, papx_page_count};
use std::alloc::Global;
use style_sheet::StyleSheet;

/// The bytes of a CP, and of the entries beside CPs.
const CP_LEN: u64 = 4;

const REF_LEN: u64 = 2;

const FLD_LEN: u64 = 2;

const SED_LEN: u64 = 12;

const START_LEN: u64 = 4;

/// The bytes of a range of a bin table: its fc and its page.
const BIN_LEN: u64 = 8;

/// The bytes before the names of bookmarks.
const NAMES_FRONT_LEN: u64 = 6;

/// The bytes of a Clx of one piece.
const CLX_LEN: u64 = 21;

/// How many pages the runs of a text take.
#[derive(Clone, Copy)]
pub(crate) struct PageCounts {
    pub(crate) characters: u64,
    pub(crate) paragraphs: u64,
}

impl PageCounts {
    /// Those of a text.
    pub(crate) fn of(text: &SavedText) -> PageCounts
        requires characters { AreRuns PageKind.Chpx text.now.characters }
        requires paragraphs { AreRuns PageKind.Papx text.now.paragraphs }
        ensures { result ≡ record {
          characters = length (pages_of PageKind.Chpx text.now.characters).starts;
          paragraphs = length (pages_of PageKind.Papx text.now.paragraphs).starts;
        } }
    {
        PageCounts {
            characters: chpx_page_count(&text.characters) as u64,
            paragraphs: papx_page_count(&text.paragraphs) as u64,
        }
    }
}

/// The number of bytes of the table stream of a document with so many pages.
pub(crate) fn table_len_with(
    alloc: Global,
    document: &ColumnDocument,
    pages: PageCounts,
) -> Result<u64, Memory>
    requires formed { IsFormed document.now }
    requires right { IsValidDocument document.now }
    requires pages { pages ≡ pages_counted document.now }
    ensures { IfOk result (λ len. len ≡ length (table_stream document.now)) }
{
    let sheet = sheet_len(alloc, &document.sheet)?;
    let main = main_len(&document.main);
    let notes = texts_len(&document.notes);
    let heads = texts_len(&document.heads);
    let bookmarks = bookmarks_len(&document.bookmarks);
    let carried = carried_len(&document.carried);
    Ok(sheet + main + notes + heads + bins_len(pages) + bookmarks + CLX_LEN + carried)
}

/// The number of bytes of `WordDocument` of a document whose text has so many units and pages.
pub(crate) fn wd_len(document: &ColumnDocument, units: u32, pages: PageCounts) -> u64
    requires formed { IsFormed document.now }
    requires right { IsValidDocument document.now }
    requires units { units ≡ length (text_items document.now) }
    requires pages { pages ≡ pages_counted document.now }
    ensures { result ≡ length (wd_stream document.now) }
{
    let all = pages_for(2 * units) as u64 + pages.characters + pages.paragraphs;
    let body = PAGE_LEN as u64 * all + measure_of(&document.main, Measure::SepxBytes);
    (TEXT_START as u64 + body).max(MIN_LEN as u64)
}

/// The bytes of a table of CPs with so many entries, which have so many bytes beside their CPs.
fn plc_len(count: u64, entries: u64) -> u64
    requires few { count < 2 ^ 48 }
    requires short { entries < 2 ^ 56 }
    ensures { result ≡ plc_length count entries }
{
    if count == 0 {
        return 0;
    }
    CP_LEN * count + CP_LEN + entries
}

/// PlcffndRef, PlcfSed and PlcfFldMom.
fn main_len(main: &Columns) -> u64
    ensures { result ≡ main_length main.now }
{
    let _len = main.len();
    let notes = measure_of(main, Measure::Notes);
    let sections = measure_of(main, Measure::Sections);
    let fields = measure_of(main, Measure::Fields);
    plc_len(notes, REF_LEN * notes)
        + plc_len(sections, SED_LEN * sections)
        + plc_len(fields, FLD_LEN * fields)
}

/// PlcffndTxt and PlcfFldFtn, or PlcfHdd and PlcfFldHdr.
fn texts_len(texts: &ColumnTexts) -> u64
    requires { length (joined_texts texts.now) < 2 ^ 32 }
    ensures { result ≡ texts_length texts.now }
{
    let measure = measure_of_texts(texts);
    let cuts = if measure.units == 0 {
        0
    } else {
        texts.len() as u64 + 1
    };
    plc_len(cuts, 0) + plc_len(measure.fields, FLD_LEN * measure.fields)
}

/// The two bin tables.
fn bins_len(pages: PageCounts) -> u64
    requires { pages.characters + pages.paragraphs < 2 ^ 48 }
    ensures { result ≡ bins_length pages }
{
    BIN_LEN * pages.characters + CP_LEN + (BIN_LEN * pages.paragraphs + CP_LEN)
}

/// SttbfBkmk, PlcfBkf and PlcfBkl.
fn bookmarks_len(bookmarks: &Bookmarks) -> u64
    requires { FitParts bookmarks.now }
    ensures { result ≡ bookmarks_length bookmarks.now }
{
    let count = bookmarks.len() as u64;
    let names = names_len(bookmarks);
    names + plc_len(count, START_LEN * count) + plc_len(count, 0)
}

/// SttbfBkmk.
fn names_len(bookmarks: &Bookmarks) -> u64
    requires { FitParts bookmarks.now }
    ensures is { result ≡ (if length bookmarks.now == 0 then 0 else 6 + sum_by bookmark_name_length bookmarks.now) }
    ensures bound { result < 2 ^ 32 }
{
    if bookmarks.len() == 0 {
        return 0;
    }
    let mut len = NAMES_FRONT_LEN;
    for i in 0..bookmarks.len() {
        len += name_len(bookmarks.get(i));
    }
    len
}

/// The count and the units of a name.
fn name_len(bookmark: &Bookmark) -> u64
    requires { length bookmark.now.name ≤ 255 }
    ensures { result ≡ bookmark_name_length bookmark.now }
{
    2 + 2 * bookmark.name.as_slice().len() as u64
}

/// The part of the style sheet.
fn sheet_len(alloc: Global, sheet: &StyleSheet) -> Result<u64, Memory>
    requires { IsWritable sheet.now }
    ensures { IfOk result (λ len. len ≡ length (written_sheet sheet.now)) }
{
    let part = sheet.print(alloc)?;
    Ok(part.as_slice().len() as u64)
}
