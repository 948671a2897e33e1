// Runs on pages: as many on each as fit.
ghost use Rattle.std.specs.Prelude.{◌≡◌, ◌<◌, ◌≤◌, ◌+◌, ◌^◌};
ghost use Rattle.std.specs.Prelude.{◌++◌, length, take, All, IfOk, OnOk, OnErr};
ghost use Rattle.fkp_pages.specs.Runs.{IsWritableRun};
ghost use Rattle.fkp_pages.specs.PageBytes.{FitsPage};
ghost use Rattle.fkp_pages.specs.Pages.{ArePagesOf};
ghost use Rattle.fkp_pages.specs.InARow.{numbered_bins};

use crate::kind::PageKind;
use crate::lists::{Bins, Run, Starts};
use crate::page_writer::{FIRST_LIMIT, has_room, limit_after_run, push_page};
use doc_bits::{Bytes, Memory};
use std::alloc::Global;

/// Pages one after the other, 512 bytes each, and the first fc of each.
#[derive(Drop)]
pub struct Pages {
    pub bytes: Bytes,
    pub starts: Starts,
}

impl Pages {
    /// Appends the ranges that name the pages to those of a bin table. The pages are one after the
    /// other in `WordDocument`, the first one at 512 times `number`.
    pub fn add_to(&self, bins: &mut Bins, number: u32) -> Result<(), Memory>
        requires { number + length self.now.starts ≤ 2 ^ 22 }
        ensures ok { OnOk result (bins.new ≡ bins.old ++ numbered_bins number self.now.starts) }
        ensures err { OnErr result (bins.new ≡ bins.old) }
    {
        // They are made apart, so that want of memory leaves the table's ranges as they were.
        let ranges = self.ranges(*bins.items.allocator(), number)?;
        bins.items.extend_from_slice(&ranges.items)?;
        Ok(())
    }

    /// The ranges that name the pages, the first one with this number.
    fn ranges(&self, alloc: Global, number: u32) -> Result<Bins, Memory>
        requires { number + length self.now.starts ≤ 2 ^ 22 }
        ensures { IfOk result (λ ranges. ranges ≡ numbered_bins number self.now.starts) }
    {
        let mut ranges = Bins::new(alloc);
        for i in 0..self.starts.len() {
            ranges.add(self.starts.get(i), number + i as u32)?;
        }
        Ok(ranges)
    }
}

/// The pages of runs.
pub(crate) fn write_pages(alloc: Global, runs: &[Run], kind: PageKind) -> Result<Pages, Memory>
    requires { All (IsWritableRun kind) runs.now }
    ensures { IfOk result (λ pages. ArePagesOf kind runs.now pages) }
{
    let mut bytes = Bytes::new(alloc);
    let mut starts = Starts::new(alloc);
    let mut done = 0;
    while done < runs.len() {
        let count = page_len(&runs[done..], kind);
        starts.add(runs[done].from)?;
        push_page(alloc, &mut bytes, &runs[done..done + count], kind)?;
        done += count;
    }
    Ok(Pages { bytes, starts })
}

/// How many runs the next page takes: as many as fit.
pub(crate) fn page_len(runs: &[Run], kind: PageKind) -> usize
    requires some { 0 < length runs.now }
    requires writable { All (IsWritableRun kind) runs.now }
    ensures some { 0 < result }
    ensures within { result ≤ length runs.now }
    ensures fits { FitsPage kind (take result runs.now) }
    ensures full { result < length runs.now → ¬ (FitsPage kind (take (result + 1) runs.now)) }
{
    let mut limit = FIRST_LIMIT;
    for i in 0..runs.len() {
        limit = limit_after_run(limit, &runs[i], kind);
        if !has_room(kind, i + 1, limit) {
            return i;
        }
    }
    runs.len()
}
