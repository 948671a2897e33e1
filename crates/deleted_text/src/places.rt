// Byte places whose lists say that their text was deleted.
ghost use Rattle.std.specs.Prelude.{◌≡◌, ◌↔◌, ◌+◌, ◌*◌, ◌<◌, ◌≤◌, IsTrue, IfOk, MatchOption, false};
ghost use Rattle.std.specs.Prelude.{length, replicate};
ghost use Rattle.fkp_pages.specs.Bin.{IsBinTable, page_at};
ghost use Rattle.deleted_text.specs.Places.{AreDeletions, AnswersDeleted, IsAround, IsDeletedAt, IsInPage};

use crate::lists::says_deleted;
use crate::pages::is_silent;
use direct_props::Places;
use doc_bits::{Memory, get32};
use fkp_pages::{PAGE_LEN, RunAnswer, bin_range, chpx_stretch};
use std::alloc::Global;

/// The bytes of an fc and of the number of a page.
const BIN_LEN: usize = 8;

/// The places from `first` to `last`, and whether the text of each of them was deleted.
#[derive(Clone, Copy)]
pub(crate) struct Around {
    pub(crate) first: u32,
    pub(crate) last: u32,
    pub(crate) deleted: bool,
}

/// Of each of these places, whether its text was deleted by a reviser. Where the bin table is none nothing is said.
pub fn deleted_places(
    alloc: Global,
    wd: &[u8],
    bin: &[u8],
    places: &Places<'_>,
) -> Result<Vec<bool>, Memory>
    ensures { IfOk result (λ flags.
        IsBinTable bin.now → AreDeletions wd.now bin.now places.now flags.items) }
{
    if !is_bin_table(bin) {
        return Ok(Vec::new(alloc));
    }
    let silent = is_silent(alloc, wd, bin)?;
    if silent {
        return no_flags(alloc, places.len());
    }
    flags_of(alloc, wd, bin, places)
}

/// So many flags, none of which is set.
fn no_flags(alloc: Global, count: usize) -> Result<Vec<bool>, Memory>
    ensures { IfOk result (λ flags. flags.items ≡ replicate count false) }
{
    let mut flags = Vec::with_capacity(alloc, count)?;
    flags.resize(count, false)?;
    Ok(flags)
}

/// Whether bytes are a bin table: its fcs ascend.
pub fn is_bin_table(bin: &[u8]) -> bool
    ensures { IsTrue result ↔ IsBinTable bin.now }
{
    let len = bin.len();
    if len < 4 || (len - 4) % BIN_LEN != 0 {
        return false;
    }
    for k in 0..(len - 4) / BIN_LEN {
        if get32(bin, 4 * (k + 1)) <= get32(bin, 4 * k) {
            return false;
        }
    }
    true
}

/// Whether each place is deleted, by the pages of a bin table.
fn flags_of(alloc: Global, wd: &[u8], bin: &[u8], places: &Places<'_>) -> Result<Vec<bool>, Memory>
    requires { IsBinTable bin.now }
    ensures { IfOk result (λ flags. AreDeletions wd.now bin.now places.now flags.items) }
{
    let mut flags = Vec::with_capacity(alloc, places.len())?;
    let mut around = Around {
        first: 1,
        last: 0,
        deleted: false,
    };
    let mut left = places.skip(0);
    while left.len() > 0 {
        around = around.at(wd, bin, left.first());
        flags.push(around.deleted)?;
        left = left.skip(1);
    }
    Ok(flags)
}

impl Around {
    /// These places where the place is among them, or else those around it.
    fn at(self, wd: &[u8], bin: &[u8], fc: u32) -> Around
        requires table { IsBinTable bin.now }
        requires around { IsAround wd.now bin.now self }
        ensures around { IsAround wd.now bin.now result }
        ensures at { (result.first ≤ fc) × (fc ≤ result.last) }
    {
        if self.first <= fc && fc <= self.last {
            return self;
        }
        around_place(wd, bin, fc)
    }
}

/// The places around one at which the same is said.
fn around_place(wd: &[u8], bin: &[u8], fc: u32) -> Around
    requires { IsBinTable bin.now }
    ensures around { IsAround wd.now bin.now result }
    ensures at { (result.first ≤ fc) × (fc ≤ result.last) }
{
    let Some(range) = bin_range(bin, fc) else {
        return not_deleted(fc);
    };
    let Some(page) = page_in(wd, range.page) else {
        return not_deleted(fc);
    };
    let stretch = chpx_stretch(page, fc);
    Around {
        first: range.from.max(stretch.first),
        last: (range.to - 1).min(stretch.last),
        deleted: answers_deleted(page, stretch.answer),
    }
}

/// One place, whose text was not deleted.
fn not_deleted(fc: u32) -> Around
    ensures { result ≡ record { first = fc; last = fc; deleted = false } }
{
    Around {
        first: fc,
        last: fc,
        deleted: false,
    }
}

/// A page of the stream, where it is within it.
pub fn page_in(wd: &[u8], number: u32) -> Option<&[u8]>
    ensures { MatchOption result (length wd.now < 512 * number + 512)
        (λ page. (512 * number + 512 ≤ length wd.now) × (page.now ≡ page_at wd.now number)) }
{
    let from = PAGE_LEN * number as usize;
    let to = from + PAGE_LEN;
    if wd.len() < to {
        return None;
    }
    Some(&wd[from..to])
}

/// Whether the list that a page answers says so.
pub(crate) fn answers_deleted(page: &[u8], answer: RunAnswer) -> bool
    requires { IsInPage page.now answer }
    ensures { IsTrue result ↔ AnswersDeleted page.now answer }
{
    match answer {
        RunAnswer::Found { from, to } => says_deleted(&page[from..to]),
        RunAnswer::Empty => false,
        RunAnswer::NoRun => false,
        RunAnswer::BadCount => false,
        RunAnswer::Leaves { .. } => false,
    }
}
