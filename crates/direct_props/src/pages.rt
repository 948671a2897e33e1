// The page of a place, what it answers there, and how far around the place.
ghost use Rattle.std.specs.Prelude.{◌≡◌, ◌<◌, ◌≤◌, ◌+◌, ◌*◌, ◌^◌, ℕ, List, length, MatchOption};
ghost use Rattle.fkp_pages.specs.Bin.{IsBinTable, HasNoBin, HasBinRange};
ghost use Rattle.direct_props.specs.PageRules.{IsValidPlace};
ghost use Rattle.direct_props.specs.Pages.{HasPageAround, IsPageCursor};

use crate::rules::page_of;
use fkp_pages::{BinRange, PageKind, RunAnswer, RunCursor, bin_range, next_stretch};

/// Where a place was found: the range of the bin table, its page, and the run of the page that is tried first.
#[derive(Clone, Copy)]
pub(crate) struct PageCursor {
    pub(crate) range: BinRange,
    pub(crate) runs: RunCursor,
}

/// The places from `first` to `last`, the number of their page, what it answers at each, and where it was found.
#[derive(Clone, Copy)]
pub(crate) struct PageStretch {
    pub(crate) first: u32,
    pub(crate) last: u32,
    pub(crate) number: u32,
    pub(crate) answer: RunAnswer,
    pub(crate) next: PageCursor,
}

impl PageCursor {
    /// The cursor that knows no place.
    pub(crate) fn start() -> PageCursor
        ensures { (wd bin : List ℕ) → IsPageCursor wd bin result }
    {
        PageCursor {
            range: BinRange {
                from: 0,
                to: 0,
                page: 0,
            },
            runs: RunCursor::start(),
        }
    }

    /// The cursor where its range has the place, or else the first run of the page that has it.
    fn at(self, wd: &[u8], bin: &[u8], fc: u32) -> Option<PageCursor>
        requires table { IsBinTable bin.now }
        requires cursor { IsPageCursor wd.now bin.now self }
        ensures { MatchOption result (HasNoBin bin.now fc)
            (λ cursor. HasBinRange bin.now fc cursor.range × IsPageCursor wd.now bin.now cursor) }
    {
        let _wd = wd;
        if self.range.from <= fc && fc < self.range.to {
            return Some(self);
        }
        match bin_range(bin, fc) {
            None => None,
            Some(range) => Some(PageCursor {
                range,
                runs: RunCursor::start(),
            }),
        }
    }
}

/// What the page of a place answers, and how far around the place; nothing where no page of the stream has the place.
#[inline(always)]
pub(crate) fn page_around(
    kind: PageKind,
    wd: &[u8],
    bin: &[u8],
    fc: u32,
    cursor: PageCursor,
) -> Option<PageStretch>
    requires table { IsBinTable bin.now }
    requires cursor { IsPageCursor wd.now bin.now cursor }
    ensures { MatchOption result
        (¬ (IsValidPlace kind wd.now bin.now fc))
        (HasPageAround kind wd.now bin.now fc) }
{
    let Some(found) = cursor.at(wd, bin, fc) else {
        return None;
    };
    let Some(page) = page_of(wd, found.range.page) else {
        return None;
    };
    if found.range.page < 2 {
        return None;
    }
    let met = next_stretch(kind, page, fc, found.runs);
    Some(PageStretch {
        first: found.range.from.max(met.stretch.first),
        last: (found.range.to - 1).min(met.stretch.last),
        number: found.range.page,
        answer: met.stretch.answer,
        next: PageCursor {
            range: found.range,
            runs: met.next,
        },
    })
}
