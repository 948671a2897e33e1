// The rules on the pages, each at its least offset in `WordDocument`.
ghost use Rattle.std.specs.Prelude.{◌≡◌, ℕ, List, ◌↔◌, ◌+◌, ◌*◌, ◌<◌};
ghost use Rattle.std.specs.Prelude.{◌≤◌, ◌^◌, length, slice_range, IsTrue, IfOk};
ghost use Rattle.std.specs.Prelude.{IfSome, MatchOption, MatchResult, OnOk, ⊤};
ghost use Rattle.doc_bits.specs.Rules.{From, Hold, IsFirstOffset, LeastOrNone};
ghost use Rattle.sprm_table.specs.Sprm.{HasSprmFaultAt, fault_place};
ghost use Rattle.fkp_pages.specs.declared.kind.PageKind.{PageKind as PageType};
ghost use Rattle.fkp_pages.specs.declared.kind.RunAnswer.TheVariants.{Found, Leaves};
ghost use Rattle.fkp_pages.specs.Fkp.{HasRunAnswer, least_list};
ghost use Rattle.fkp_pages.specs.Bin.{IsBinTable, page_at};
ghost use Rattle.fkp_pages.specs.Runs.{run_groups};
ghost use Rattle.direct_props.specs.PageRules.{AreValidPlaces, BreaksAtPlaces, BreaksPageRule, HasBadPage};
ghost use Rattle.direct_props.specs.PageRules.{HasPageListFault, HasListOutside, HasPageAnswer, HasListRoom, IsInNoRun};
ghost use Rattle.direct_props.specs.PageRules.{IsValidPlace, LooksBad, first_rule as first_number};
ghost use Rattle.direct_props.specs.PageRules.{page_rules};
ghost use Rattle.direct_props.specs.Stretches.{HasValidList};
ghost use Rattle.direct_props.specs.Pages.{IsStreamPage, IsValidStretch};
ghost use Rattle.direct_props.specs.GrpprlCache.{HaveNoFault};

use crate::Places;
use crate::lists::list_in;
use crate::pages::{PageCursor, page_around};
use doc_bits::{Memory, lesser};
use fkp_pages::{
    PAGE_LEN, PageKind, RunAnswer, bin_at, chpx_at, groups_of_runs, papx_at, run_answer_is_one,
};
use grpprl_index::SeenGrpprls;
use sprm_table::{SprmFault, list_fault};
use std::alloc::Global;
use thiserror::Error;

/// The first broken rule on the pages, and its least offset in `WordDocument`.
#[derive(Clone, Copy, Debug, Error)]
#[error("rule {rule} is broken at {offset} in WordDocument")]
pub struct PageFault {
    pub rule: u8,
    pub offset: u32,
}

/// The number of a page, and what it answers at a place.
#[derive(Clone, Copy)]
pub(crate) struct PageAnswer {
    pub(crate) number: u32,
    pub(crate) answer: RunAnswer,
}

/// The rules on the pages, in their order.
#[derive(Clone, Copy)]
pub(crate) enum PageRule {
    /// A range of the bin table holds the place.
    Bin,
    /// The page is one.
    Page,
    /// A run of it holds the place.
    Run,
    /// The run's list is in the page.
    List,
    /// The list has no fault.
    Sprm,
}

/// Checks the pages of these byte places: the first broken rule, if one is broken. A list is checked once.
pub fn check_places(
    alloc: Global,
    kind: PageKind,
    wd: &[u8],
    bin: &[u8],
    places: &[u32],
) -> Result<Option<PageFault>, Memory>
    requires table { IsBinTable bin.now }
    requires small { length wd.now < 2 ^ 32 }
    ensures judged { IfOk result (λ fault. MatchOption fault
        (Hold (page_rules kind wd.now bin.now places.now))
        (λ fault. IsFirstOffset (page_rules kind wd.now bin.now places.now) fault.rule fault.offset)) }

    // The same of each place, as readers of properties ask for it.
    ensures right { IfOk result (λ fault. MatchOption fault (AreValidPlaces kind wd.now bin.now places.now) (λ _. ⊤)) }
{
    // Places of one run are checked at once. Only where one is wrong each place is looked at.
    if are_valid(alloc, kind, wd, bin, places)? {
        return Ok(None);
    }
    match check_each(kind, wd, bin, places) {
        Ok(()) => Ok(None),
        Err(fault) => Ok(Some(fault)),
    }
}

/// Whether no place breaks a rule.
fn are_valid(
    alloc: Global,
    kind: PageKind,
    wd: &[u8],
    bin: &[u8],
    places: &[u32],
) -> Result<bool, Memory>
    requires table { IsBinTable bin.now }
    requires small { length wd.now < 2 ^ 32 }
    ensures { IfOk result (λ right. IsTrue right → AreValidPlaces kind wd.now bin.now places.now) }
{
    let mut known = SeenGrpprls::new(alloc);
    let mut stretch = RightStretch {
        first: 1,
        last: 0,
        next: PageCursor::start(),
    };
    for place in places {
        match valid_run_at(kind, wd, bin, *place, stretch, &mut known)? {
            None => return Ok(false),
            Some(around) => stretch = around,
        }
    }
    Ok(true)
}

/// Checks places as `check_places` does, where they are kept as rows.
pub fn check_rows(
    alloc: Global,
    kind: PageKind,
    wd: &[u8],
    bin: &[u8],
    places: &Places<'_>,
) -> Result<Option<PageFault>, Memory>
    requires table { IsBinTable bin.now }
    requires small { length wd.now < 2 ^ 32 }
    ensures judged { IfOk result (λ fault. MatchOption fault
        (Hold (page_rules kind wd.now bin.now places.now))
        (λ fault. IsFirstOffset (page_rules kind wd.now bin.now places.now) fault.rule fault.offset)) }

    // The same of each place, as readers of properties ask for it.
    ensures right { IfOk result (λ fault. MatchOption fault (AreValidPlaces kind wd.now bin.now places.now) (λ _. ⊤)) }
{
    // Only where a place is wrong the places are listed.
    if are_valid_rows(alloc, kind, wd, bin, places)? {
        return Ok(None);
    }
    let list = places.to_list(alloc)?;
    match check_each(kind, wd, bin, &list) {
        Ok(()) => Ok(None),
        Err(fault) => Ok(Some(fault)),
    }
}

/// Whether no place of rows breaks a rule. Places of a row in one stretch are passed at once.
fn are_valid_rows(
    alloc: Global,
    kind: PageKind,
    wd: &[u8],
    bin: &[u8],
    places: &Places<'_>,
) -> Result<bool, Memory>
    requires table { IsBinTable bin.now }
    requires small { length wd.now < 2 ^ 32 }
    ensures { IfOk result (λ right. IsTrue right → AreValidPlaces kind wd.now bin.now places.now) }
{
    let mut known = SeenGrpprls::new(alloc);
    let mut stretch = RightStretch {
        first: 1,
        last: 0,
        next: PageCursor::start(),
    };
    let mut left = places.skip(0);
    while left.len() > 0 {
        match valid_run_at(kind, wd, bin, left.first(), stretch, &mut known)? {
            None => return Ok(false),
            Some(around) => stretch = around,
        }
        left = left.skip(left.count_up_to(stretch.last));
    }
    Ok(true)
}

/// The places from `first` to `last`, where no rule is broken, and where they were found.
#[derive(Clone, Copy)]
pub(crate) struct RightStretch {
    first: u32,
    last: u32,
    next: PageCursor,
}

/// The stretch where it has the place, or else the one around the place, where that is right.
fn valid_run_at(
    kind: PageKind,
    wd: &[u8],
    bin: &[u8],
    fc: u32,
    stretch: RightStretch,
    known: &mut SeenGrpprls,
) -> Result<Option<RightStretch>, Memory>
    requires table { IsBinTable bin.now }
    requires stretch { IsValidStretch kind wd.now bin.now stretch }
    requires known { HaveNoFault kind wd.now known.old }
    ensures known { OnOk result (HaveNoFault kind wd.now known.new) }
    ensures right { IfOk result (λ around. IfSome around (λ s. IsValidPlace kind wd.now bin.now fc
        × IsValidStretch kind wd.now bin.now s)) }
    ensures around { IfOk result (λ around. IfSome around (λ s. (s.first ≤ fc) × (fc ≤ s.last))) }
{
    if stretch.first <= fc && fc <= stretch.last {
        return Ok(Some(stretch));
    }
    let Some(around) = page_around(kind, wd, bin, fc, stretch.next) else {
        return Ok(None);
    };
    if !is_valid(kind, wd, around.number, around.answer, known)? {
        return Ok(None);
    }
    Ok(Some(RightStretch {
        first: around.first,
        last: around.last,
        next: around.next,
    }))
}

/// Whether the list that a page answers is right. A list that is known to have no fault is not looked at.
fn is_valid(
    kind: PageKind,
    wd: &[u8],
    number: u32,
    answer: RunAnswer,
    known: &mut SeenGrpprls,
) -> Result<bool, Memory>
    requires page { IsStreamPage wd.now number }
    requires known { HaveNoFault kind wd.now known.old }
    ensures known { OnOk result (HaveNoFault kind wd.now known.new) }
    ensures right { IfOk result (λ right. IsTrue right → HasValidList kind (page_at wd.now number) answer) }
{
    match answer {
        RunAnswer::Found { from, to } => is_valid_list(kind, wd, number, (from, to), known),
        RunAnswer::Empty => Ok(true),
        RunAnswer::NoRun => Ok(false),
        RunAnswer::BadCount => Ok(false),
        RunAnswer::Leaves { .. } => Ok(false),
    }
}

/// Whether the list in a range of a page is right.
fn is_valid_list(
    kind: PageKind,
    wd: &[u8],
    number: u32,
    range: (usize, usize),
    known: &mut SeenGrpprls,
) -> Result<bool, Memory>
    requires page { IsStreamPage wd.now number }
    requires known { HaveNoFault kind wd.now known.old }
    ensures known { OnOk result (HaveNoFault kind wd.now known.new) }
    ensures right { IfOk result
        (λ right. IsTrue right → HasValidList kind (page_at wd.now number) (Found range.0 range.1)) }
{
    let begin = PAGE_LEN * number as usize;
    let (from, to) = range;
    if PAGE_LEN <= from || PAGE_LEN <= to || to < from + style_len(kind) {
        return Ok(false);
    }
    if let Some(_met) = known.number_at(wd, begin + from, begin + to) {
        return Ok(true);
    }
    match list_in(kind, &wd[begin..begin + PAGE_LEN], from, to) {
        None => Ok(false),
        Some(_) => {
            known.add(wd, begin + from, begin + to)?;
            Ok(true)
        }
    }
}

/// Checks places as `check_places` does, place by place and without memory: each of the five rules is looked at for all
/// places
/// before the next one is.
pub fn check_each(kind: PageKind, wd: &[u8], bin: &[u8], places: &[u32]) -> Result<(), PageFault>
    requires table { IsBinTable bin.now }
    requires small { length wd.now < 2 ^ 32 }
    ensures { MatchResult result
        (λ _. Hold (page_rules kind wd.now bin.now places.now))
        (λ fault. IsFirstOffset (page_rules kind wd.now bin.now places.now) fault.rule fault.offset) }
{
    let first = first_rule(kind);
    if let Some(offset) = least_of(PageRule::Bin, kind, wd, bin, places) {
        return Err(PageFault {
            rule: first,
            offset,
        });
    }
    if let Some(offset) = least_of(PageRule::Page, kind, wd, bin, places) {
        return Err(PageFault {
            rule: first + 1,
            offset,
        });
    }
    if let Some(offset) = least_of(PageRule::Run, kind, wd, bin, places) {
        return Err(PageFault {
            rule: first + 2,
            offset,
        });
    }
    if let Some(offset) = least_of(PageRule::List, kind, wd, bin, places) {
        return Err(PageFault {
            rule: first + 3,
            offset,
        });
    }
    if let Some(offset) = least_of(PageRule::Sprm, kind, wd, bin, places) {
        return Err(PageFault {
            rule: first + 4,
            offset,
        });
    }
    Ok(())
}

/// The number of the first of the five rules.
fn first_rule(kind: PageKind) -> u8
    ensures value { result ≡ first_number kind }
    ensures bound { result < 64 }
{
    match kind {
        PageKind::Chpx => 39,
        PageKind::Papx => 44,
    }
}

/// The least offset at which the places break a rule: a later place may have the lesser one.
fn least_of(rule: PageRule, kind: PageKind, wd: &[u8], bin: &[u8], places: &[u32]) -> Option<u32>
    requires table { IsBinTable bin.now }
    requires small { length wd.now < 2 ^ 32 }
    ensures { LeastOrNone (BreaksAtPlaces rule kind wd.now bin.now places.now) result }
{
    let mut least = None;
    for place in places {
        least = lesser(least, fault_at(rule, kind, wd, bin, *place));
    }
    least
}

/// The least offset at which a place breaks a rule.
fn fault_at(rule: PageRule, kind: PageKind, wd: &[u8], bin: &[u8], fc: u32) -> Option<u32>
    requires table { IsBinTable bin.now }
    requires small { length wd.now < 2 ^ 32 }
    ensures { LeastOrNone (BreaksPageRule rule kind wd.now bin.now fc) result }
{
    match bin_at(bin, fc) {
        None => match rule {
            PageRule::Bin => Some(fc),
            PageRule::Page => None,
            PageRule::Run => None,
            PageRule::List => None,
            PageRule::Sprm => None,
        },
        Some(number) => {
            let found = PageAnswer {
                number,
                answer: answer_at(kind, wd, number, fc),
            };
            match rule {
                PageRule::Bin => None,
                PageRule::Page => bad_page(wd, found),
                PageRule::Run => no_run(fc, found),
                PageRule::List => list_outside(found),
                PageRule::Sprm => sprm_fault(kind, wd, found),
            }
        }
    }
}

/// What a page answers; one that is not in the stream has no count.
pub(crate) fn answer_at(kind: PageKind, wd: &[u8], number: u32, fc: u32) -> RunAnswer
    requires { number < 2 ^ 22 }
    ensures { HasRunAnswer kind (page_at wd.now number) fc result }
{
    match page_of(wd, number) {
        None => RunAnswer::BadCount,
        Some(page) => match kind {
            PageKind::Chpx => chpx_at(page, fc),
            PageKind::Papx => papx_at(page, fc),
        },
    }
}

/// The bytes of a page, where it is in the stream.
pub(crate) fn page_of(wd: &[u8], number: u32) -> Option<&[u8]>
    requires { number < 2 ^ 22 }
    ensures { MatchOption result
        (length wd.now < 512 * number + 512)
        (λ page. (page.now ≡ page_at wd.now number) × (length page.now ≡ 512)
        × (512 * number + 512 ≤ length wd.now)) }
{
    let from = PAGE_LEN * number as usize;
    if wd.len() < from + PAGE_LEN {
        None
    } else {
        Some(&wd[from..from + PAGE_LEN])
    }
}

/// Where the page of a place is bad.
fn bad_page(wd: &[u8], found: PageAnswer) -> Option<u32>
    requires { found.number < 2 ^ 22 }
    ensures { (kind : PageType) (bin : List ℕ) (fc : ℕ) → IsBinTable bin →
        HasPageAnswer kind wd.now bin fc found.number found.answer
        → LeastOrNone (HasBadPage kind wd.now bin fc) result }
{
    run_answer_is_one();
    if is_bad(wd, found) {
        Some(512 * found.number + 511)
    } else {
        None
    }
}

/// Whether a page lies over the FIB, is not in the stream, or has no count.
pub(crate) fn is_bad(wd: &[u8], found: PageAnswer) -> bool
    requires { found.number < 2 ^ 22 }
    ensures { IsTrue result ↔ LooksBad wd.now found.number found.answer }
{
    found.number < 2
        || wd.len() < PAGE_LEN * found.number as usize + PAGE_LEN
        || found.answer == RunAnswer::BadCount
}

/// Where no run holds a place.
fn no_run(fc: u32, found: PageAnswer) -> Option<u32>
    ensures { (kind : PageType) (wd bin : List ℕ) → IsBinTable bin →
        HasPageAnswer kind wd bin fc found.number found.answer
        → LeastOrNone (IsInNoRun kind wd bin fc) result }
{
    run_answer_is_one();
    match found.answer {
        RunAnswer::NoRun => Some(fc),
        RunAnswer::Found { .. } => None,
        RunAnswer::Empty => None,
        RunAnswer::BadCount => None,
        RunAnswer::Leaves { .. } => None,
    }
}

/// Where the list of a place is not in its page.
fn list_outside(found: PageAnswer) -> Option<u32>
    requires number { found.number < 2 ^ 22 }
    requires entry { (entry : ℕ) → found.answer ≡ Leaves entry → entry < 512 }
    ensures { (kind : PageType) (wd bin : List ℕ) (fc : ℕ) → IsBinTable bin →
        HasPageAnswer kind wd bin fc found.number found.answer
        → LeastOrNone (HasListOutside kind wd bin fc) result }
{
    run_answer_is_one();
    match found.answer {
        RunAnswer::Leaves { entry } => Some(512 * found.number + entry as u32),
        RunAnswer::Found { .. } => None,
        RunAnswer::Empty => None,
        RunAnswer::BadCount => None,
        RunAnswer::NoRun => None,
    }
}

/// Where the sprms of a place have a fault.
fn sprm_fault(kind: PageKind, wd: &[u8], found: PageAnswer) -> Option<u32>
    requires { found.number < 2 ^ 22 }
    ensures { (bin : List ℕ) (fc : ℕ) → IsBinTable bin
        → HasPageAnswer kind wd.now bin fc found.number found.answer
        → LeastOrNone (HasPageListFault kind wd.now bin fc) result }
{
    run_answer_is_one();
    match found.answer {
        RunAnswer::Found { from, to } => fault_in(kind, wd, found.number, from, to),
        RunAnswer::Empty => None,
        RunAnswer::BadCount => None,
        RunAnswer::NoRun => None,
        RunAnswer::Leaves { .. } => None,
    }
}

/// Where the sprms of a list have a fault that a page has. A list that it can't have is not looked at.
fn fault_in(kind: PageKind, wd: &[u8], number: u32, from: usize, to: usize) -> Option<u32>
    requires { number < 2 ^ 22 }
    ensures { HasListRoom kind wd.now number from to → LeastOrNone (From (512 * number + from + least_list kind)
        (HasSprmFaultAt (slice_range (page_at wd.now number) (from + least_list kind) to) (run_groups kind))) result }
{
    let Some(page) = page_of(wd, number) else {
        return None;
    };
    let start = from.min(PAGE_LEN) + style_len(kind);
    if to < start || PAGE_LEN <= to {
        return None;
    }
    match list_fault(&page[start..to], groups_of_runs(kind)) {
        None => None,
        Some(fault) => Some(512 * number + (start + place_of(fault)) as u32),
    }
}

/// Where a fault is in its list.
fn place_of(fault: SprmFault) -> usize
    ensures { result ≡ fault_place fault }
{
    match fault {
        SprmFault::Short { at } => at,
        SprmFault::Refused { at } => at,
    }
}

/// The bytes of the style number before a list of paragraph properties.
pub(crate) fn style_len(kind: PageKind) -> usize
    ensures { result ≡ least_list kind }
{
    match kind {
        PageKind::Chpx => 0,
        PageKind::Papx => 2,
    }
}
