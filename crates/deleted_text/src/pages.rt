// Pages none of whose lists says that its text was deleted.
ghost use Rattle.std.specs.Prelude.{◌≡◌, ◌+◌, ◌*◌, ◌≤◌, IsTrue, IfOk, ℕ, false, length};
ghost use Rattle.fkp_pages.specs.Bin.{page_at};
ghost use Rattle.deleted_text.specs.Places.{IsDeletedAt, SaysNothing};

use crate::places::answers_deleted;
use doc_bits::Memory;
use fkp_pages::{PAGE_LEN, PageKind, answer_of, has_run_count};
use page_copies::named_pages;
use std::alloc::Global;

/// Whether no list of the pages that a bin table names says that its text was deleted. Each page is gone through once.
pub(crate) fn is_silent(alloc: Global, wd: &[u8], bin: &[u8]) -> Result<bool, Memory>
    ensures { IfOk result (λ silent. IsTrue silent → (fc : ℕ) → ¬ IsDeletedAt wd.now bin.now fc) }
{
    let count = wd.len() / PAGE_LEN;
    let marks = named_pages(alloc, bin, count)?;
    for number in 0..count {
        if says_if_named(wd, marks[number], number) {
            return Ok(false);
        }
    }
    Ok(true)
}

/// Whether a list of a page says so, where the page has the mark of one that is named.
fn says_if_named(wd: &[u8], mark: u8, number: usize) -> bool
    requires { 512 * number + 512 ≤ length wd.now }
    ensures { result ≡ false → mark ≡ 1 → SaysNothing (page_at wd.now number) }
{
    if mark == 0 {
        return false;
    }
    let from = PAGE_LEN * number;
    says(&wd[from..from + PAGE_LEN])
}

/// Whether the list of a run of a page says so.
fn says(page: &[u8]) -> bool
    requires { length page.now ≡ 512 }
    ensures { result ≡ false → SaysNothing page.now }
{
    if !has_run_count(PageKind::Chpx, page) {
        return false;
    }
    for run in 0..page[PAGE_LEN - 1] as usize {
        if answers_deleted(page, answer_of(PageKind::Chpx, page, run)) {
            return true;
        }
    }
    false
}
