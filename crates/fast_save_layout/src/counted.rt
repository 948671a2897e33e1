// How many pages a text takes, before a save of it is made.
ghost use Rattle.std.specs.Prelude.{◌≡◌, ◌+◌, ◌*◌, ◌^◌, ◌<◌, ◌≤◌, length, IfOk};
ghost use Rattle.fkp_pages.specs.declared.kind.PageKind.{PageKind};
ghost use Rattle.fkp_pages.specs.Bin.{IsBinTable};
ghost use Rattle.fkp_pages.specs.Runs.{AreRuns};
ghost use Rattle.full_save.specs.Runs.{text_runs};
ghost use Rattle.save_laws.specs.SharedPages.{pages_taken};
ghost use Rattle.fast_save_layout.specs.MarkRuns.{mark_runs};
ghost use Rattle.fast_save_layout.specs.AddedPages.{HasParagraphBins, HavePages, paragraph_bins, pages_behind};

use crate::kept_bins::kept_end;
use crate::old_streams::old_part;
use crate::runs::paragraph_runs;
use crate::saving::{EditedText, SavedFile};
use doc_bits::Memory;
use doc_columns::Columns;
use fib_form::TablePart;
use fkp_pages::{write_chpx_pages, write_papx_pages};
use full_save::character_runs;
use std::alloc::Global;

/// How many pages of both kinds a save of the text behind the file writes. They are packed as for the save.
pub fn added_pages(alloc: Global, old: &SavedFile<'_>, text: &EditedText<'_>) -> Result<u64, Memory>
    requires file { HasParagraphBins old.now.fib.now old.now.container.now }
    requires text { HavePages text.now.base text.now.added.now }
    ensures { IfOk result (λ pages. pages ≡ pages_behind (paragraph_bins old.now.fib.now old.now.container.now)
        text.now.base text.now.added.now) }
{
    let items = text.added;
    let _len = items.len();
    let table = old_part(old, TablePart::PlcfBtePapx);
    let characters = character_pages(alloc, items, text.base)?;
    let paragraphs = paragraph_pages(alloc, table, items, text.base)?;
    Ok(characters + paragraphs)
}

/// How many pages the runs of characters of items take, whose units are from `base` on.
fn character_pages(alloc: Global, items: &Columns, base: u32) -> Result<u64, Memory>
    requires small { base + 2 * length items.now < 2 ^ 32 }
    requires runs { AreRuns PageKind.Chpx (text_runs PageKind.Chpx base items.now) }
    ensures count { IfOk result (λ pages. pages ≡ pages_taken PageKind.Chpx (text_runs PageKind.Chpx base items.now)) }
    ensures few { IfOk result (λ pages. pages ≤ length items.now) }
{
    let runs = character_runs(alloc, items, base)?;
    let pages = write_chpx_pages(alloc, &runs)?;
    Ok(pages.starts.len() as u64)
}

/// How many pages the runs of paragraphs of items take, behind the ranges of a bin table.
fn paragraph_pages(alloc: Global, table: &[u8], items: &Columns, base: u32) -> Result<u64, Memory>
    requires table { IsBinTable table.now }
    requires small { base + 2 * length items.now + 2 < 2 ^ 32 }
    requires runs { AreRuns PageKind.Papx (mark_runs table.now base items.now) }
    ensures count { IfOk result (λ pages. pages ≡ pages_taken PageKind.Papx (mark_runs table.now base items.now)) }
    ensures few { IfOk result (λ pages. pages ≤ length items.now) }
{
    let start = kept_end(table, base);
    let runs = paragraph_runs(alloc, items, base, start)?;
    let pages = write_papx_pages(alloc, &runs)?;
    Ok(pages.starts.len() as u64)
}
