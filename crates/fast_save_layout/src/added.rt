// `WordDocument` from the added text on, and what the table stream says of the text.
ghost use Rattle.std.specs.Prelude.{◌≡◌, ◌+◌, ◌*◌, ◌^◌, ◌<◌, ◌≤◌, ◌++◌, length, map, OnOk, IfOk};
ghost use Rattle.fkp_pages.specs.declared.kind.PageKind.{PageKind};
ghost use Rattle.fkp_pages.specs.Bin.{IsBinTable, ArePrintableBins, printed_bin};
ghost use Rattle.fkp_pages.specs.Runs.{AreRuns};
ghost use Rattle.fkp_pages.specs.Packed.{pages_of};
ghost use Rattle.fkp_pages.specs.InARow.{numbered_bins};
ghost use Rattle.cfb_layout.specs.Sectors.{padded_to_unit};
ghost use Rattle.full_save.specs.WordDocument.{units_bytes};
ghost use Rattle.full_save.specs.Runs.{text_runs};
ghost use Rattle.doc_model.specs.Collected.{joined_texts};
ghost use Rattle.doc_model.specs.Formed.{IsFormed};
ghost use Rattle.save_laws.specs.Ends.{ends_of};
ghost use Rattle.save_laws.specs.Slots.{story_counts};
ghost use Rattle.fast_save_layout.specs.Saves.{fast_save_of};
ghost use Rattle.fast_save_layout.specs.KeptBins.{kept_bins};
ghost use Rattle.fast_save_layout.specs.MarkRuns.{mark_runs, mark_runs_end};
ghost use Rattle.fast_save_layout.specs.Kept.{CanBeFastSaved};
ghost use Rattle.fast_save_layout.specs.Bodies.{IsAddedBody};

use crate::kept_bins::{keep_bins, kept_end};
use crate::old_streams::old_part;
use crate::runs::{end_of, paragraph_runs};
use crate::saving::{EditedText, SavedFile};
use crate::sections::{SectionPlaces, append_sections};
use doc_bits::{Bytes, Memory};
use doc_columns::{ColumnDocument, ColumnTexts, Columns};
use fib_form::TablePart;
use fkp_pages::{Bins, write_bin};
use full_save::{
    TableText, UNIT_LEN, append_chpx_pages, append_papx_pages, append_text, character_runs,
    pages_for,
};
use save_laws::Ends;
use std::alloc::Global;

/// The bytes that are added to `WordDocument`, and what the table stream says of the text.
#[derive(Drop)]
pub(crate) struct AddedBody {
    pub(crate) bytes: Bytes,
    pub(crate) text: TableText,
}

impl AddedBody {
    /// Those of a document whose text was edited.
    pub(crate) fn of(
        alloc: Global,
        old: &SavedFile<'_>,
        document: &ColumnDocument,
        text: &EditedText<'_>,
    ) -> Result<AddedBody, Memory>
        requires formed { IsFormed document.now }
        requires kept { CanBeFastSaved (fast_save_of old.now document.now text.now) }
        ensures { IfOk result (IsAddedBody (fast_save_of old.now document.now text.now)) }
    {
        let items = text.added;
        let base = text.base;
        let len = items.len() as u32;
        let mut bytes = Bytes::new(alloc);
        add_text(&mut bytes, items)?;
        let first = pages_for(base + UNIT_LEN * len);
        let table = old_part(old, TablePart::PlcfBteChpx);
        let characters = add_characters(alloc, &mut bytes, table, items, base, first)?;
        let table = old_part(old, TablePart::PlcfBtePapx);
        let paragraphs = add_paragraphs(alloc, &mut bytes, table, items, base, characters.next)?;
        let plan = SectionPlaces {
            places: text.sections,
            base,
        };
        let seds = append_sections(alloc, &mut bytes, &document.main, &plan)?;
        let text = TableText {
            counts: counts_of(document, text.ends),
            seds,
            characters: characters.table,
            paragraphs: paragraphs.table,
            clx: text.pieces.print_clx(alloc)?,
        };
        Ok(AddedBody { bytes, text })
    }
}

/// A bin table, and the number behind that of its last page.
#[derive(Drop)]
struct BinTable {
    table: Bytes,
    next: u32,
}

/// Appends the pages of the runs of characters of items, whose units are from `base` on. Answers the bin table: the
/// ranges of the old one that begin before `base`, and those of the pages, the first of which has this number.
fn add_characters(
    alloc: Global,
    out: &mut Bytes,
    old: &[u8],
    items: &Columns,
    base: u32,
    number: u32,
) -> Result<BinTable, Memory>
    requires old { IsBinTable old.now }
    requires small { base + 2 * length items.now < 2 ^ 32 }
    requires runs { AreRuns PageKind.Chpx (text_runs PageKind.Chpx base items.now) }
    requires room { number + length (text_runs PageKind.Chpx base items.now) ≤ 2 ^ 22 }
    requires printable { ArePrintableBins (kept_bins old.now base
        ++ numbered_bins number (pages_of PageKind.Chpx (text_runs PageKind.Chpx base items.now)).starts)
        (base + 2 * length items.now) }
    ensures bytes { OnOk result
        (out.new ≡ out.old ++ (pages_of PageKind.Chpx (text_runs PageKind.Chpx base items.now)).bytes) }
    ensures table { IfOk result (λ made. made.table ≡ printed_bin (kept_bins old.now base
        ++ numbered_bins number (pages_of PageKind.Chpx (text_runs PageKind.Chpx base items.now)).starts)
        (base + 2 * length items.now)) }
    ensures next { IfOk result (λ made. made.next
        ≡ number + length (pages_of PageKind.Chpx (text_runs PageKind.Chpx base items.now)).starts) }
{
    let runs = character_runs(alloc, items, base)?;
    let mut bins = Bins::new(alloc);
    keep_bins(&mut bins, old, base)?;
    let next = append_chpx_pages(alloc, out, &mut bins, &runs, number)?;
    let table = write_bin(alloc, &bins, base + UNIT_LEN * items.len() as u32)?;
    Ok(BinTable { table, next })
}

/// Appends the pages of the runs of paragraphs, as `add_characters` does. The first one goes on from where the old
/// ranges end; without an item there is no page, and the bin table ends there.
fn add_paragraphs(
    alloc: Global,
    out: &mut Bytes,
    old: &[u8],
    items: &Columns,
    base: u32,
    number: u32,
) -> Result<BinTable, Memory>
    requires old { IsBinTable old.now }
    requires small { base + 2 * length items.now + 2 < 2 ^ 32 }
    requires runs { AreRuns PageKind.Papx (mark_runs old.now base items.now) }
    requires room { number + length (mark_runs old.now base items.now) ≤ 2 ^ 22 }
    requires printable { ArePrintableBins (kept_bins old.now base
        ++ numbered_bins number (pages_of PageKind.Papx (mark_runs old.now base items.now)).starts)
        (mark_runs_end old.now base items.now) }
    ensures bytes { OnOk result
        (out.new ≡ out.old ++ (pages_of PageKind.Papx (mark_runs old.now base items.now)).bytes) }
    ensures table { IfOk result (λ made. made.table ≡ printed_bin (kept_bins old.now base
        ++ numbered_bins number (pages_of PageKind.Papx (mark_runs old.now base items.now)).starts)
        (mark_runs_end old.now base items.now)) }
{
    let start = kept_end(old, base);
    let runs = paragraph_runs(alloc, items, base, start)?;
    let mut bins = Bins::new(alloc);
    keep_bins(&mut bins, old, base)?;
    let next = append_papx_pages(alloc, out, &mut bins, &runs, number)?;
    let table = write_bin(alloc, &bins, end_of(&runs, start))?;
    Ok(BinTable { table, next })
}

/// Appends the units of items, and zeros up to a page.
fn add_text(out: &mut Bytes, items: &Columns) -> Result<(), Memory>
    requires { length items.now < 2 ^ 31 }
    ensures { OnOk result (out.new ≡ out.old ++ padded_to_unit 512 0 (units_bytes (map (λ item. item.unit) items.now))) }
{
    append_text(out, items.units())?;
    Ok(())
}

/// The counts of the main text, the notes and the header texts, with the marks behind stories.
fn counts_of(document: &ColumnDocument, ends: Ends) -> [u32; 3]
    requires main { length document.now.main < 2 ^ 31 }
    requires notes { length (joined_texts document.now.notes) < 2 ^ 31 }
    requires heads { length (joined_texts document.now.heads) < 2 ^ 31 }
    ensures { result ≡ story_counts document.now (ends_of ends) }
{
    [
        document.main.len() as u32,
        items_of(&document.notes) + ends.notes as u32,
        items_of(&document.heads) + ends.heads as u32,
    ]
}

/// The number of items of texts.
fn items_of(texts: &ColumnTexts) -> u32
    requires { length (joined_texts texts.now) < 2 ^ 31 }
    ensures { result ≡ length (joined_texts texts.now) }
{
    let mut count = 0;
    for k in 0..texts.len() {
        count += texts.get(k).len() as u32;
    }
    count
}
