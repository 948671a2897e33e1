// [MS-DOC] ChpxFkp, PapxFkp: what a page answers at a byte place, and how far around it.
ghost use Rattle.std.specs.Prelude.{◌≡◌, ◌+◌, ◌*◌, ◌<◌, ◌≤◌, ℕ, List};
ghost use Rattle.std.specs.Prelude.{◌↔◌, length, IsTrue, MatchOption};
ghost use Rattle.fkp_pages.specs.declared.kind.PageKind.TheVariants.{Chpx, Papx};
ghost use Rattle.fkp_pages.specs.Fkp.{page_run_count, run_entry_place, HasRunCount, list_from, list_to};
ghost use Rattle.fkp_pages.specs.Fkp.{IsListWithin, IsAnswerOf, HasRunAnswer};
ghost use Rattle.fkp_pages.specs.Stretch.{HasStretch, IsRunCursor};

use crate::kind::{COUNT_AT, PageKind, RunAnswer};
use crate::runs::{RunCursor, first_run};

/// The byte places from `first` to `last`, and what a page answers at each of them.
#[derive(Clone, Copy)]
pub struct Stretch {
    pub first: u32,
    pub last: u32,
    pub answer: RunAnswer,
}

/// A stretch, and the run that is tried first at a place behind it.
#[derive(Clone, Copy)]
pub struct Met {
    pub stretch: Stretch,
    pub next: RunCursor,
}

/// What a page of character runs answers at a byte place.
pub fn chpx_at(page: &[u8], fc: u32) -> RunAnswer
    requires { length page.now ≡ 512 }
    ensures { HasRunAnswer Chpx page.now fc result }
{
    chpx_stretch(page, fc).answer
}

/// What a page of paragraph runs answers at a byte place.
pub fn papx_at(page: &[u8], fc: u32) -> RunAnswer
    requires { length page.now ≡ 512 }
    ensures { HasRunAnswer Papx page.now fc result }
{
    papx_stretch(page, fc).answer
}

/// What a page of character runs answers at a byte place, and how far around the place.
pub fn chpx_stretch(page: &[u8], fc: u32) -> Stretch
    requires { length page.now ≡ 512 }
    ensures { HasStretch Chpx page.now fc result }
{
    next_stretch(PageKind::Chpx, page, fc, RunCursor::start()).stretch
}

/// What a page of paragraph runs answers at a byte place, and how far around the place.
pub fn papx_stretch(page: &[u8], fc: u32) -> Stretch
    requires { length page.now ≡ 512 }
    ensures { HasStretch Papx page.now fc result }
{
    next_stretch(PageKind::Papx, page, fc, RunCursor::start()).stretch
}

/// What a page of this kind answers at a byte place, from a cursor on where it serves. A reader of a whole text needs
/// one call for each
/// stretch, and where its places ascend each call looks at one run.
#[inline(always)]
pub fn next_stretch(kind: PageKind, page: &[u8], fc: u32, cursor: RunCursor) -> Met
    requires page { length page.now ≡ 512 }
    requires cursor { IsRunCursor page.now cursor }
    ensures stretch { HasStretch kind page.now fc result.stretch }
    ensures next { IsRunCursor page.now result.next }
{
    if !has_run_count(kind, page) {
        return Met {
            stretch: Stretch {
                first: 0,
                last: u32::MAX,
                answer: RunAnswer::BadCount,
            },
            next: RunCursor::start(),
        };
    }
    let found = first_run(page, fc, cursor.at(fc));
    match found.run {
        None => Met {
            stretch: Stretch {
                first: found.first,
                last: found.last,
                answer: RunAnswer::NoRun,
            },
            next: found.next,
        },
        Some(run) => Met {
            stretch: Stretch {
                first: found.first,
                last: found.last,
                answer: answer_of(kind, page, run),
            },
            next: found.next,
        },
    }
}

/// Whether the last byte is a number of runs.
pub fn has_run_count(kind: PageKind, page: &[u8]) -> bool
    requires { length page.now ≡ 512 }
    ensures { IsTrue result ↔ HasRunCount kind page.now }
{
    let count = page[COUNT_AT] as usize;
    1 <= count && count <= kind.most_runs()
}

/// Where the entry of a run is, and behind the last run where the entries end.
pub fn entry_at(kind: PageKind, page: &[u8], run: usize) -> usize
    requires page { length page.now ≡ 512 }
    requires counted { HasRunCount kind page.now }
    requires run { run ≤ page_run_count page.now }
    ensures place { result ≡ run_entry_place kind page.now run }
    ensures within { result ≤ 509 }
{
    let count = page[COUNT_AT] as usize;
    4 * (count + 1) + kind.entry_size() * run
}

/// What a run answers.
pub fn answer_of(kind: PageKind, page: &[u8], run: usize) -> RunAnswer
    requires page { length page.now ≡ 512 }
    requires counted { HasRunCount kind page.now }
    requires run { run < page_run_count page.now }
    ensures { IsAnswerOf kind page.now run result }
{
    let entry = entry_at(kind, page, run);
    let half = page[entry];
    if half == 0 {
        return RunAnswer::Empty;
    }
    match list_range(kind, page, 2 * half as usize) {
        None => RunAnswer::Leaves { entry },
        Some((from, to)) => RunAnswer::Found { from, to },
    }
}

/// The range of the list whose properties are at the place, if it is in the page.
fn list_range(kind: PageKind, page: &[u8], at: usize) -> Option<(usize, usize)>
    requires page { length page.now ≡ 512 }
    requires place { at < 511 }
    ensures { MatchOption result (¬ (IsListWithin kind page.now at))
        (λ range. IsListWithin kind page.now at ×
        ((range.0 ≡ list_from kind page.now at) × (range.1 ≡ list_to kind page.now at))) }
{
    let (from, to) = list_bounds(kind, page, at);
    if from + kind.least_list() <= to && to <= COUNT_AT {
        Some((from, to))
    } else {
        None
    }
}

/// Where the list begins whose properties are at the place, and where it ends.
fn list_bounds(kind: PageKind, page: &[u8], at: usize) -> (usize, usize)
    requires page { length page.now ≡ 512 }
    requires place { at < 511 }
    ensures from { result.0 ≡ list_from kind page.now at }
    ensures to { result.1 ≡ list_to kind page.now at }
    ensures bound { (result.0 < 1024) × (result.1 < 2048) }
{
    let size = page[at] as usize;
    match kind {
        PageKind::Chpx => (at + 1, at + 1 + size),
        // A zero byte is before the size of a list of an even length.
        PageKind::Papx => {
            if size == 0 {
                (at + 2, at + 2 + 2 * page[at + 1] as usize)
            } else {
                (at + 1, at + 2 * size)
            }
        }
    }
}
