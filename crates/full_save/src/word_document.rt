// `WordDocument` of a full save.
ghost use Rattle.std.specs.Prelude.{◌≡◌, ◌+◌, ◌-◌, ◌*◌, ◌/◌, ◌^◌, ◌<◌, ◌≤◌, ◌++◌, length, replicate, OnOk, IfOk};
ghost use Rattle.fib_form.specs.FibBytes.{written_fib};
ghost use Rattle.fkp_pages.specs.Bin.{ArePrintableBins, printed_bin};
ghost use Rattle.cfb_layout.specs.Sectors.{units_for, filled, padded_to_unit};
ghost use Rattle.full_save.specs.WordDocument.{units_bytes, items_bytes, text_bytes, one_piece_clx, least_length};
ghost use Rattle.full_save.specs.Text.{mark_if, text_items, text_counts};
ghost use Rattle.doc_model.specs.Collected.{joined_texts};
ghost use Rattle.doc_model.specs.Formed.{IsFormed};
ghost use Rattle.plain_doc.specs.RightDocument.{IsValidDocument};
ghost use Rattle.full_save.specs.Made.{IsBodyOf};
ghost use Rattle.full_save.specs.RunsSoFar.{IsSavedTextOf};

use crate::pages::{append_chpx_pages, append_papx_pages, append_units};
use crate::runs::UNIT_LEN;
use crate::sections::append_sepxes;
use crate::table_text::TableText;
use crate::text::{SavedText, TEXT_START};
use doc_bits::{Bytes, Memory, push_zeros};
use doc_columns::{ColumnDocument, ColumnTexts};
use doc_parts::Seds;
use fib_form::Fib;
use fkp_pages::{Bins, PAGE_LEN, write_bin};
use piece_table::PieceList;
use std::alloc::Global;
use text_codes::PARAGRAPH_MARK;

/// The least length of the stream.
pub(crate) const MIN_LEN: usize = 4096;

/// `WordDocument` from the text on, and what the table stream says of it.
#[derive(Drop)]
pub(crate) struct WordBody {
    pub(crate) bytes: Bytes,
    pub(crate) text: TableText,
}

impl WordBody {
    /// That of a document with this text.
    pub(crate) fn of(
        alloc: Global,
        document: &ColumnDocument,
        text: &SavedText,
    ) -> Result<WordBody, Memory>
        requires formed { IsFormed document.now }
        requires right { IsValidDocument document.now }
        requires text { IsSavedTextOf document.now text.now }
        ensures { IfOk result (IsBodyOf document.now) }
    {
        let end = TEXT_START + UNIT_LEN * text.len;
        let mut bytes = Bytes::new(alloc);
        append_document(&mut bytes, document, text)?;
        let first = pages_for(end);
        let mut characters = Bins::new(alloc);
        let second = append_chpx_pages(
            alloc,
            &mut bytes,
            &mut characters,
            &text.characters,
            first,
        )?;
        let mut paragraphs = Bins::new(alloc);
        append_papx_pages(alloc, &mut bytes, &mut paragraphs, &text.paragraphs, second)?;
        let seds = append_sepxes(alloc, &mut bytes, &document.main, TEXT_START)?;
        let table = table_text(alloc, text, seds, &characters, &paragraphs)?;
        Ok(WordBody { bytes, text: table })
    }

    /// [MS-DOC] cbMac.
    pub(crate) fn cb_mac(&self) -> u32
        requires { length self.now.bytes < 2 ^ 31 }
        ensures { result ≡ TEXT_START + length self.now.bytes }
    {
        TEXT_START + self.bytes.as_slice().len() as u32
    }

    /// The stream with this FIB.
    pub(crate) fn stream(&self, alloc: Global, fib: &Fib) -> Result<Bytes, Memory>
        ensures { IfOk result
            (λ wd. wd ≡ filled least_length 0 (filled TEXT_START 0 (written_fib fib.now) ++ self.now.bytes)) }
    {
        let mut stream = front_of(alloc, fib)?;
        stream.push_all(self.bytes.as_slice())?;
        let len = stream.as_slice().len();
        push_zeros(&mut stream, MIN_LEN.saturating_sub(len))?;
        Ok(stream)
    }
}

/// What the table stream says of a text with these sections and these pages.
fn table_text(
    alloc: Global,
    text: &SavedText,
    seds: Seds,
    characters: &Bins,
    paragraphs: &Bins,
) -> Result<TableText, Memory>
    requires some { 1 ≤ text.now.len }
    requires most { text.now.len ≤ 500001 }
    requires characters { ArePrintableBins characters.now (TEXT_START + 2 * text.now.len) }
    requires paragraphs { ArePrintableBins paragraphs.now (TEXT_START + 2 * text.now.len) }
    ensures { IfOk result (λ table. table ≡ record {
      counts = text.now.counts;
      seds = seds;
      characters = printed_bin characters.now (TEXT_START + 2 * text.now.len);
      paragraphs = printed_bin paragraphs.now (TEXT_START + 2 * text.now.len);
      clx = one_piece_clx text.now.len;
    }) }
{
    let end = TEXT_START + UNIT_LEN * text.len;
    let characters = write_bin(alloc, characters, end)?;
    let paragraphs = write_bin(alloc, paragraphs, end)?;
    let clx = clx_of(alloc, text.len)?;
    Ok(TableText {
        counts: text.counts,
        seds,
        characters,
        paragraphs,
        clx,
    })
}

/// The FIB, and zeros up to the text.
fn front_of(alloc: Global, fib: &Fib) -> Result<Bytes, Memory>
    ensures { IfOk result (λ front. front ≡ filled TEXT_START 0 (written_fib fib.now)) }
{
    let mut front = [0u8; TEXT_START as usize];
    fib.write(&mut front);
    let bytes = Bytes::from_slice(alloc, &front)?;
    Ok(bytes)
}

/// Appends the text, and zeros up to a page.
pub fn append_text(out: &mut Bytes, units: &[u16]) -> Result<(), Memory>
    requires { length units.now < 2 ^ 31 }
    ensures { OnOk result (out.new ≡ out.old ++ padded_to_unit 512 0 (units_bytes units.now)) }
{
    append_units(out, units)?;
    push_fill(out, units.len())?;
    Ok(())
}

/// Appends the text of a document, and zeros up to a page.
fn append_document(
    out: &mut Bytes,
    document: &ColumnDocument,
    text: &SavedText,
) -> Result<(), Memory>
    requires text { IsSavedTextOf document.now text.now }
    requires few { length (text_items document.now) < 2 ^ 30 }
    ensures { OnOk result (out.new ≡ out.old ++ padded_to_unit 512 0 (text_bytes document.now)) }
{
    append_stories(out, document, text.counts)?;
    push_fill(out, text.len as usize)?;
    Ok(())
}

/// Appends the units of the text of a document whose stories have these counts.
fn append_stories(
    out: &mut Bytes,
    document: &ColumnDocument,
    counts: [u32; 3],
) -> Result<(), Memory>
    requires counts { counts ≡ text_counts document.now }
    requires few { length (text_items document.now) < 2 ^ 30 }
    ensures { OnOk result (out.new ≡ out.old ++ text_bytes document.now) }
{
    let [_, notes, heads] = counts;
    append_units(out, document.main.units())?;
    append_story(out, &document.notes, notes > 0)?;
    append_story(out, &document.heads, heads > 0)?;
    append_mark(out, notes + heads > 0)?;
    Ok(())
}

/// Appends the units of texts, and a mark behind them where they are to have one.
fn append_story(out: &mut Bytes, texts: &ColumnTexts, marked: bool) -> Result<(), Memory>
    ensures { OnOk result (out.new ≡ out.old ++ items_bytes (joined_texts texts.now ++ mark_if marked)) }
{
    for k in 0..texts.len() {
        append_units(out, texts.get(k).units())?;
    }
    append_mark(out, marked)?;
    Ok(())
}

/// Appends the unit of a mark, where there is to be one.
fn append_mark(out: &mut Bytes, marked: bool) -> Result<(), Memory>
    ensures { OnOk result (out.new ≡ out.old ++ items_bytes (mark_if marked)) }
{
    if marked {
        append_units(out, &[PARAGRAPH_MARK])?;
        return Ok(());
    }
    Ok(())
}

/// Appends the zeros that fill the last page behind so many units.
fn push_fill(out: &mut Bytes, count: usize) -> Result<(), Memory>
    requires { count < 2 ^ 31 }
    ensures { OnOk result
        (out.new ≡ out.old ++ replicate ((2 * count + 511) / 512 * 512 - 2 * count) 0) }
{
    let len = UNIT_LEN as usize * count;
    push_zeros(out, (len + (PAGE_LEN - 1)) / PAGE_LEN * PAGE_LEN - len)?;
    Ok(())
}

/// How many pages hold so many bytes.
pub fn pages_for(len: u32) -> u32
    requires { len < 2 ^ 31 }
    ensures { result ≡ units_for 512 len }
{
    (len + (PAGE_LEN as u32 - 1)) / PAGE_LEN as u32
}

/// The Clx of a text of so many units.
fn clx_of(alloc: Global, len: u32) -> Result<Bytes, Memory>
    requires some { 1 ≤ len }
    requires most { len ≤ 500001 }
    ensures { IfOk result (λ clx. clx ≡ one_piece_clx len) }
{
    let piece = PieceList::one(alloc, TEXT_START, len)?;
    let clx = piece.print_clx(alloc)?;
    Ok(clx)
}
