// Which places are gaps, by what their page answers.
ghost use Rattle.std.specs.Prelude.{◌≡◌, ◌↔◌, ◌+◌, ◌*◌, ◌<◌, ◌≤◌, ◌^◌, IsTrue, length, slice_index};
ghost use Rattle.fkp_pages.specs.Bin.{IsBinTable, bin_count, page_number};
ghost use Rattle.fkp_gaps.specs.Gaps.{IsEmptyPapx, IsEmptyRun, IsGapAnswer, ArePagesWithin};

use doc_bits::get32;
use fkp_pages::{FIRST_PAGE, PAGE_LEN, PN_BITS, PN_LEN, PageKind, RunAnswer, range_count};

/// Whether what a page answers makes a gap.
pub(crate) fn is_gap_answer(kind: PageKind, page: &[u8], answer: RunAnswer) -> bool
    requires { length page.now ≡ 512 }
    ensures { IsTrue result ↔ IsGapAnswer kind page.now answer }
{
    match answer {
        RunAnswer::NoRun => true,
        RunAnswer::Leaves { entry } => is_empty_run(kind, page, entry),
        RunAnswer::Found { .. } | RunAnswer::Empty | RunAnswer::BadCount => false,
    }
}

/// Whether the run of an entry has a PapxInFkp of no bytes.
fn is_empty_run(kind: PageKind, page: &[u8], entry: usize) -> bool
    requires { length page.now ≡ 512 }
    ensures { IsTrue result ↔ IsEmptyRun kind page.now entry }
{
    match kind {
        PageKind::Chpx => false,
        PageKind::Papx => is_empty_papx(page, entry),
    }
}

/// Whether a PapxInFkp has no bytes.
fn is_empty_papx(page: &[u8], entry: usize) -> bool
    requires { length page.now ≡ 512 }
    ensures { IsTrue result ↔ IsEmptyPapx page.now entry }
{
    let at = 2 * byte_at(page, entry) as usize;
    byte_at(page, at) == 0 && byte_at(page, at + 1) == 0
}

/// The byte at a place, or 0 behind the last one.
fn byte_at(page: &[u8], at: usize) -> u8
    ensures { result ≡ slice_index page.now at }
{
    if page.len() <= at {
        return 0;
    }
    page[at]
}

/// Whether each range of a bin table names a page of the stream that does not lie over the FIB.
pub fn are_pages_within(bin: &[u8], wd: &[u8]) -> bool
    requires { IsBinTable bin.now }
    ensures { IsTrue result ↔ ArePagesWithin bin.now wd.now }
{
    for k in 0..range_count(bin) {
        if !is_page_within(page_of(bin, k), wd.len()) {
            return false;
        }
    }
    true
}

/// Whether a page is in a stream of this length, and does not lie over the FIB.
fn is_page_within(number: usize, wd_len: usize) -> bool
    requires { number < 2 ^ 22 }
    ensures { IsTrue result ↔ (2 ≤ number) × (512 * number + 512 ≤ wd_len) }
{
    FIRST_PAGE <= number && PAGE_LEN * number + PAGE_LEN <= wd_len
}

/// The number of the page of a range.
fn page_of(bin: &[u8], k: usize) -> usize
    requires table { IsBinTable bin.now }
    requires range { k < bin_count bin.now }
    ensures value { result ≡ page_number bin.now k }
    ensures small { result < 2 ^ 22 }
{
    (get32(bin, 4 * (range_count(bin) + 1) + PN_LEN * k) & PN_BITS) as usize
}
