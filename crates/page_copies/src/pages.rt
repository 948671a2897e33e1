// The pages that bin tables name, each skipped at its own place.
ghost use Rattle.std.specs.Prelude.{◌≡◌, ◌+◌, ◌*◌, ◌≤◌, Bool, Option, None, Some, length, OnOk};
ghost use Rattle.page_copies.specs.Names.{names_page, named_flag};
ghost use Rattle.page_copies.specs.Pages.{BinTables, IsPageCopy, PutsPage, SkipsPages, kind_alone};

use crate::names::named_pages;
use crate::places::has_lists_apart;
use crate::skips::skip_page;
use doc_bits::Memory;
use fkp_pages::{FIRST_PAGE, PAGE_LEN, PageKind, has_run_count};
use std::alloc::Global;

/// The kind of a page with these marks, which one table alone names.
fn marked_kind(characters: u8, paragraphs: u8) -> Option<PageKind>
    ensures { (c : Bool) → (p : Bool) → characters ≡ named_flag c → paragraphs ≡ named_flag p → result ≡ kind_alone c p }
{
    if characters == paragraphs {
        return None;
    }
    if characters == 1 {
        Some(PageKind::Chpx)
    } else {
        Some(PageKind::Papx)
    }
}

/// Skips the codes of a page, where that can be.
fn skip_apart(kind: PageKind, page: &mut [u8])
    requires { length page.old ≡ 512 }
    ensures { IsPageCopy kind page.old page.new }
{
    if !has_run_count(kind, page) {
        return;
    }
    if !has_lists_apart(kind, page) {
        return;
    }
    skip_page(kind, page);
}

/// Skips the codes of page `number` of a stream, where it has a kind.
fn skip_numbered(wd: &mut [u8], number: usize, kind: Option<PageKind>)
    requires { 512 * number + 512 ≤ length wd.old }
    ensures { PutsPage kind number wd.old wd.new }
{
    if let Some(kind) = kind {
        let at = PAGE_LEN * number;
        skip_apart(kind, &mut wd[at..at + PAGE_LEN]);
    }
}

/// Skips the codes of the pages of a stream that the bin table of the characters, or that of the paragraphs, names
/// alone. No other byte changes.
pub fn skip_pages(
    alloc: Global,
    wd: &mut [u8],
    characters: &[u8],
    paragraphs: &[u8],
) -> Result<(), Memory>
    ensures { OnOk result (SkipsPages
        (record { characters = characters.now; paragraphs = paragraphs.now }) wd.old wd.new) }
{
    let places = wd.len() / PAGE_LEN;
    let chars = named_pages(alloc, characters, places)?;
    let pars = named_pages(alloc, paragraphs, places)?;
    for number in FIRST_PAGE..places {
        let kind = marked_kind(chars[number], pars[number]);
        skip_numbered(wd, number, kind);
    }
    Ok(())
}
