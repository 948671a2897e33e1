// A bin table that names a page at each place: its own, or in a gap that of the run without properties.
ghost use Rattle.std.specs.Prelude.{◌≡◌, ◌<◌, ◌≤◌, ◌^◌, ℕ, IfOk};
ghost use Rattle.fkp_pages.specs.Bin.{IsBinTable, HasNoBin, HasBinRange};
ghost use Rattle.fkp_gaps.specs.Gaps.{ArePagesWithin};
ghost use Rattle.fkp_gaps.specs.Filled.{IsFilledBin, IsPageFor, greatest_fc};
ghost use Rattle.fkp_gaps.specs.Ranges.{IsRangeFor, JoinsRange};

use crate::gaps::is_gap_answer;
use doc_bits::{Bytes, Memory, get32};
use fkp_pages::{
    BinRange, Bins, PAGE_LEN, PageKind, RunCursor, bin_range, next_stretch, write_bin,
};
use std::alloc::Global;

/// The end of the last range, behind each place of a stream.
const LAST_END: u32 = 0xFFFF_FFFF;

/// Places from `from` to before `to` that have one page.
#[derive(Clone, Copy)]
pub(crate) struct PageRange {
    pub(crate) from: u32,
    pub(crate) to: u32,
    pub(crate) page: u32,
}

/// The bin table that names at each place of a gap page `number`, and at each other place the page that a bin table
/// names there.
pub fn filled_bin(
    alloc: Global,
    kind: PageKind,
    wd: &[u8],
    bin: &[u8],
    number: u32,
) -> Result<Bytes, Memory>
    requires table { IsBinTable bin.now }
    requires pages { ArePagesWithin bin.now wd.now }
    requires number { number < 2 ^ 22 }
    ensures { IfOk result (IsFilledBin kind bin.now wd.now number) }
{
    let mut bins = Bins::new(alloc);
    let mut last = range_at(kind, wd, bin, number, 0);
    while last.to < LAST_END {
        let next = range_at(kind, wd, bin, number, last.to);
        last = joined(&mut bins, last, next)?;
    }
    bins.add(last.from, last.page)?;
    let table = write_bin(alloc, &bins, LAST_END)?;
    Ok(table)
}

/// The range that goes on with the next one where that has its page; else the next one, and the other is put behind
/// those that are closed.
fn joined(bins: &mut Bins, last: PageRange, next: PageRange) -> Result<PageRange, Memory>
    ensures { IfOk result (JoinsRange bins.old last next bins.new) }
{
    if next.page == last.page {
        return Ok(PageRange {
            from: last.from,
            to: next.to,
            page: last.page,
        });
    }
    bins.add(last.from, last.page)?;
    Ok(next)
}

/// The range that begins at a place, as far as it is looked at.
fn range_at(kind: PageKind, wd: &[u8], bin: &[u8], number: u32, at: u32) -> PageRange
    requires table { IsBinTable bin.now }
    requires pages { ArePagesWithin bin.now wd.now }
    requires number { number < 2 ^ 22 }
    requires at { at < greatest_fc }
    ensures from { result.from ≡ at }
    ensures range { IsRangeFor (IsPageFor kind bin.now wd.now number) result }
{
    match bin_range(bin, at) {
        Some(range) => range_within(kind, wd, bin, (range, number), at),
        None => PageRange {
            from: at,
            to: end_of_none(bin, at),
            page: number,
        },
    }
}

/// The end of places from this one on that no range of the table holds.
fn end_of_none(bin: &[u8], at: u32) -> u32
    requires table { IsBinTable bin.now }
    requires none { HasNoBin bin.now at }
    requires at { at < greatest_fc }
    ensures up { at < result }
    ensures end { result ≤ greatest_fc }
    ensures none { (fc : ℕ) → at ≤ fc → fc < result → HasNoBin bin.now fc }
{
    let first = get32(bin, 0);
    if at < first { first } else { LAST_END }
}

/// The places of a range of the table from this one on whose page answers the same, and their page.
fn range_within(kind: PageKind, wd: &[u8], bin: &[u8], found: (BinRange, u32), at: u32) -> PageRange
    requires table { IsBinTable bin.now }
    requires pages { ArePagesWithin bin.now wd.now }
    requires number { found.1 < 2 ^ 22 }
    requires there { HasBinRange bin.now at found.0 }
    ensures from { result.from ≡ at }
    ensures range { IsRangeFor (IsPageFor kind bin.now wd.now found.1) result }
{
    let _bin = bin;
    let (range, number) = found;
    let begin = PAGE_LEN * range.page as usize;
    let page = &wd[begin..begin + PAGE_LEN];
    let stretch = next_stretch(kind, page, at, RunCursor::start()).stretch;
    let to = stretch.last.min(range.to - 1) + 1;
    if is_gap_answer(kind, page, stretch.answer) {
        return PageRange {
            from: at,
            to,
            page: number,
        };
    }
    PageRange {
        from: at,
        to,
        page: range.page,
    }
}
