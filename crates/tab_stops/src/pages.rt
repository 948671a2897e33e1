// [MS-DOC] PapxFkp: the changes of tab stops in the pages of paragraphs.
ghost use Rattle.std.specs.Prelude.{◌≡◌, ◌↔◌, ◌+◌, ◌*◌, ◌^◌, ◌<◌, ◌≤◌, Bool, IsTrue, IfOk, OnOk, Some, length};
ghost use Rattle.fkp_pages.specs.declared.kind.PageKind.TheVariants.{Papx};
ghost use Rattle.fkp_pages.specs.Fkp.{HasRunCount, page_run_count};
ghost use Rattle.page_copies.specs.Names.{names_page, named_flag};
ghost use Rattle.page_copies.specs.Pages.{BinTables, IsSkippable, kind_alone};
ghost use Rattle.tab_stops.specs.Lists.{PushesStops};
ghost use Rattle.tab_stops.specs.Pages.{ArePageStops, AreRunStops, AreStopsAt, AreStopsOfPages};

use crate::lists::push_list;
use doc_bits::Memory;
use fkp_pages::{FIRST_PAGE, PAGE_LEN, PageKind, RunAnswer, answer_of, has_run_count};
use page_copies::{has_lists_apart, named_pages};
use std::alloc::Global;

/// Where the codes are in a stream, in the pages that the bin table of the paragraphs names, and that of the characters
/// does not.
pub fn page_stops(
    alloc: Global,
    wd: &[u8],
    characters: &[u8],
    paragraphs: &[u8],
) -> Result<Vec<usize>, Memory>
    ensures { IfOk result (λ places. AreStopsOfPages
        (record { characters = characters.now; paragraphs = paragraphs.now }) wd.now places.items) }
{
    let count = wd.len() / PAGE_LEN;
    let chars = named_pages(alloc, characters, count)?;
    let pars = named_pages(alloc, paragraphs, count)?;
    let mut places = Vec::new(alloc);
    for number in 0..count {
        push_numbered(&mut places, wd, number, chars[number], pars[number])?;
    }
    Ok(places)
}

/// Appends those of page `number`, where these marks say that it is one of paragraphs alone.
fn push_numbered(
    places: &mut Vec<usize>,
    wd: &[u8],
    number: usize,
    characters: u8,
    paragraphs: u8,
) -> Result<(), Memory>
    requires { 512 * number + 512 ≤ length wd.now }
    ensures { (bins : BinTables) → characters ≡ named_flag (names_page bins.characters number)
        → paragraphs ≡ named_flag (names_page bins.paragraphs number)
        → OnOk result (PushesStops (AreStopsAt bins wd.now number) places.old.items places.new.items) }
{
    if number < FIRST_PAGE || !is_of_paragraphs(characters, paragraphs) {
        return Ok(());
    }
    let at = PAGE_LEN * number;
    let page = &wd[at..at + PAGE_LEN];
    if !is_whole(page) {
        return Ok(());
    }
    push_page(places, page, at)
}

/// Whether a page with these marks is named by the table of the paragraphs alone.
fn is_of_paragraphs(characters: u8, paragraphs: u8) -> bool
    ensures { (c : Bool) → (p : Bool) → characters ≡ named_flag c → paragraphs ≡ named_flag p
        → (IsTrue result ↔ kind_alone c p ≡ Some Papx) }
{
    characters == 0 && paragraphs == 1
}

/// Whether a page of paragraphs has runs whose lists are apart.
fn is_whole(page: &[u8]) -> bool
    requires { length page.now ≡ 512 }
    ensures { IsTrue result ↔ IsSkippable Papx page.now }
{
    has_run_count(PageKind::Papx, page) && has_lists_apart(PageKind::Papx, page)
}

/// Appends those of a page that begins at a place.
fn push_page(places: &mut Vec<usize>, page: &[u8], at: usize) -> Result<(), Memory>
    requires page { length page.now ≡ 512 }
    requires counted { HasRunCount Papx page.now }
    requires room { at + 512 < 2 ^ 64 }
    ensures { OnOk result (PushesStops (ArePageStops page.now at) places.old.items places.new.items) }
{
    for run in 0..page[PAGE_LEN - 1] as usize {
        push_run(places, page, at, run)?;
    }
    Ok(())
}

/// Appends those of the list of a run.
fn push_run(places: &mut Vec<usize>, page: &[u8], at: usize, run: usize) -> Result<(), Memory>
    requires page { length page.now ≡ 512 }
    requires counted { HasRunCount Papx page.now }
    requires run { run < page_run_count page.now }
    requires room { at + 512 < 2 ^ 64 }
    ensures { OnOk result (PushesStops (AreRunStops page.now at run) places.old.items places.new.items) }
{
    match answer_of(PageKind::Papx, page, run) {
        RunAnswer::Found { from, to } => {
            let sprms = from + PageKind::Papx.least_list();
            push_list(places, &page[sprms..to], at + sprms)
        }
        _ => Ok(()),
    }
}
