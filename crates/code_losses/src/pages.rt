// The lists of the pages that a bin table names, counted.
ghost use Rattle.std.specs.Prelude.{◌≡◌, ◌<◌, ◌≤◌, ◌+◌, ◌*◌, ◌/◌, ◌^◌, ℕ, List, IfOk, length};
ghost use Rattle.sprm_table.specs.Sprm.{Prl};
ghost use Rattle.fkp_pages.specs.Fkp.{HasRunCount, page_run_count};
ghost use Rattle.code_losses.specs.Counted.{HasAllCodes, AreCodeCounts, CountsPart};
ghost use Rattle.page_copies.specs.Names.{names_page, named_flag};
ghost use Rattle.code_losses.specs.Pages.{AreListsOfPage, AreListsOfPages};
ghost use Rattle.code_losses.specs.Pages.{IsFoundInRun, IsFoundInPage};

use crate::counts::CodeCounts;
use doc_bits::Memory;
use fkp_pages::{PAGE_LEN, PageKind, RunAnswer, answer_of, has_run_count};
use page_copies::named_pages;
use std::alloc::Global;

/// Counts the list of a run, where it has one.
fn count_run(counts: &mut CodeCounts, kind: PageKind, page: &[u8], run: usize)
    requires page { length page.now ≡ 512 }
    requires counted { HasRunCount kind page.now }
    requires run { run < page_run_count page.now }
    requires codes { HasAllCodes counts.old }
    requires few { counts.old.seen < 2 ^ 63 }
    ensures codes { HasAllCodes counts.new }
    ensures seen { counts.new.seen ≤ counts.old.seen + 1 }
    ensures counted { (lists : List (List Prl)) → AreCodeCounts lists counts.old
        → CountsPart (IsFoundInRun kind page.now run) lists counts.new }
{
    if let RunAnswer::Found { from, to } = answer_of(kind, page, run) {
        counts.count(&page[from + kind.least_list()..to]);
    }
}

/// Counts the lists of a page.
fn count_page(counts: &mut CodeCounts, kind: PageKind, page: &[u8])
    requires page { length page.now ≡ 512 }
    requires counted { HasRunCount kind page.now }
    requires codes { HasAllCodes counts.old }
    requires few { counts.old.seen + 128 < 2 ^ 63 }
    ensures codes { HasAllCodes counts.new }
    ensures seen { counts.new.seen ≤ counts.old.seen + 128 }
    ensures counted { (lists : List (List Prl)) → AreCodeCounts lists counts.old
        → CountsPart (AreListsOfPage kind page.now) lists counts.new }
{
    for run in 0..page[PAGE_LEN - 1] as usize {
        count_run(counts, kind, page, run);
    }
}

/// Counts the lists of page `number` of a stream, where the mark says that it is named.
fn count_numbered(counts: &mut CodeCounts, kind: PageKind, wd: &[u8], number: usize, mark: u8)
    requires within { 512 * number + 512 ≤ length wd.now }
    requires codes { HasAllCodes counts.old }
    requires few { counts.old.seen + 128 < 2 ^ 63 }
    ensures codes { HasAllCodes counts.new }
    ensures seen { counts.new.seen ≤ counts.old.seen + 128 }
    ensures counted { (bin : List ℕ) → (lists : List (List Prl)) → mark ≡ named_flag (names_page bin number)
        → AreCodeCounts lists counts.old → CountsPart (IsFoundInPage kind wd.now bin number) lists counts.new }
{
    if number < 2 || mark == 0 {
        return;
    }
    let at = PAGE_LEN * number;
    let page = &wd[at..at + PAGE_LEN];
    if has_run_count(kind, page) {
        count_page(counts, kind, page);
    }
}

/// Counts the lists of the pages that a bin table names, each page once.
pub(crate) fn count_pages(
    alloc: Global,
    kind: PageKind,
    wd: &[u8],
    bin: &[u8],
) -> Result<CodeCounts, Memory>
    ensures { IfOk result (λ counts.
        (lists : List (List Prl)) × (AreListsOfPages kind wd.now bin.now lists × AreCodeCounts lists counts)) }
{
    let places = wd.len() / PAGE_LEN;
    let marks = named_pages(alloc, bin, places)?;
    let mut counts = CodeCounts::new(alloc)?;
    for number in 0..places {
        count_numbered(&mut counts, kind, wd, number, marks[number]);
    }
    Ok(counts)
}
