// The first run of a page that holds a byte place, and how far around the place it is the same.
ghost use Rattle.std.specs.Prelude.{◌≡◌, ◌≤◌, ◌<◌, ℕ, List, length};
ghost use Rattle.fkp_pages.specs.Fkp.{page_run_count};
ghost use Rattle.fkp_pages.specs.Stretch.{IsFoundRun, IsRunCursor};

use crate::kind::COUNT_AT;
use doc_bits::get32;

/// A run of a page that may be tried first at the places from `least` on: no run before it holds one of them.
#[derive(Clone, Copy)]
pub struct RunCursor {
    pub run: usize,
    pub least: u32,
}

impl RunCursor {
    /// The first run, at all places.
    pub fn start() -> RunCursor
        ensures cursor { (page : List ℕ) → IsRunCursor page result }
        ensures all { result.least ≡ 0 }
    {
        RunCursor { run: 0, least: 0 }
    }

    /// The cursor where it serves for the place, or else the first run.
    pub(crate) fn at(self, fc: u32) -> RunCursor
        ensures serves { result.least ≤ fc }
        ensures cursor { (page : List ℕ) → IsRunCursor page self → IsRunCursor page result }
    {
        if self.least <= fc {
            return self;
        }
        RunCursor::start()
    }
}

/// The first run that holds a place, if one does, the places from `first` to `last` where it is the same, and the run
/// that is tried first behind them.
#[derive(Clone, Copy)]
pub(crate) struct FoundRun {
    pub(crate) run: Option<usize>,
    pub(crate) first: u32,
    pub(crate) last: u32,
    pub(crate) next: RunCursor,
}

/// The places around a place that none of some runs holds, and the least place from which on none of them holds one.
#[derive(Clone, Copy)]
struct Gap {
    first: u32,
    last: u32,
    least: u32,
}

impl Gap {
    /// The gap without the places of a run that does not hold the place.
    fn outside(self, begin: u32, end: u32, fc: u32) -> Gap
        requires around { (self.first ≤ fc) × (fc ≤ self.last) }
        requires outside { begin ≤ fc → end ≤ fc }
        ensures around { (result.first ≤ fc) × (fc ≤ result.last) }
        ensures within { (self.first ≤ result.first) × (result.last ≤ self.last) }
        ensures outside { (other : ℕ) → result.first ≤ other → other ≤ result.last → begin ≤ other → end ≤ other }
        ensures least { (self.least ≤ result.least) × (end ≤ result.least) }
    {
        let least = self.least.max(end);
        if end <= fc {
            return Gap {
                first: self.first.max(end),
                last: self.last,
                least,
            };
        }
        Gap {
            first: self.first,
            last: self.last.min(begin - 1),
            least,
        }
    }
}

/// The first run that holds the place, which is looked for from a cursor on.
#[inline(always)]
pub(crate) fn first_run(page: &[u8], fc: u32, from: RunCursor) -> FoundRun
    requires page { length page.now ≡ 512 }
    requires fcs { page_run_count page.now ≤ 101 }
    requires from { IsRunCursor page.now from }
    requires serves { from.least ≤ fc }
    ensures { IsFoundRun page.now fc result }
{
    let count = page[COUNT_AT] as usize;
    let mut gap = Gap {
        first: from.least,
        last: u32::MAX,
        least: from.least,
    };
    let mut begin = get32(page, 4 * from.run);
    for run in from.run..count {
        let end = get32(page, 4 * (run + 1));
        if begin <= fc && fc < end {
            return FoundRun {
                run: Some(run),
                first: gap.first.max(begin),
                last: gap.last.min(end - 1),
                next: RunCursor {
                    run: run + 1,
                    least: gap.least.max(end),
                },
            };
        }
        gap = gap.outside(begin, end, fc);
        begin = end;
    }
    FoundRun {
        run: None,
        first: gap.first,
        last: gap.last,
        next: RunCursor {
            run: count,
            least: gap.least,
        },
    }
}
