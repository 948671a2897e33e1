// Where the lists of a page are, and whether they are apart.
ghost use Rattle.std.specs.Prelude.{◌≡◌, ◌<◌, ◌↔◌, IsTrue, MatchOption, length};
ghost use Rattle.fkp_pages.specs.Fkp.{HasRunCount, page_run_count};
ghost use Rattle.page_copies.specs.Places.{HasNoList, IsPlaceOf, StandApart, IsApartFrom, StandsClear, IsClearRun};
ghost use Rattle.page_copies.specs.Places.{HasListsApart};

use fkp_pages::{PAGE_LEN, PageKind, RunAnswer, answer_of, entry_at};

/// Where the properties of a run are in its page, and the range of its list.
#[derive(Clone, Copy)]
pub struct ListPlace {
    pub at: usize,
    pub from: usize,
    pub to: usize,
}

/// The number of runs of a page.
pub(crate) fn run_count(page: &[u8]) -> usize
    requires { length page.now ≡ 512 }
    ensures { result ≡ page_run_count page.now }
{
    page[PAGE_LEN - 1] as usize
}

/// Where the list of a run is, where it has one in the page.
pub(crate) fn list_place(kind: PageKind, page: &[u8], run: usize) -> Option<ListPlace>
    requires page { length page.now ≡ 512 }
    requires counted { HasRunCount kind page.now }
    requires run { run < page_run_count page.now }
    ensures { MatchOption result (HasNoList kind page.now run) (IsPlaceOf kind page.now run) }
{
    match answer_of(kind, page, run) {
        RunAnswer::Found { from, to } => Some(ListPlace {
            at: 2 * page[entry_at(kind, page, run)] as usize,
            from,
            to,
        }),
        _ => None,
    }
}

/// Whether two lists of a page are one or apart.
fn stand_apart(one: ListPlace, other: ListPlace) -> bool
    ensures { IsTrue result ↔ StandApart one other }
{
    one.at == other.at || one.to <= other.at || other.to <= one.at
}

/// Whether a list is apart from that of a run.
fn is_apart_from(kind: PageKind, page: &[u8], place: ListPlace, run: usize) -> bool
    requires page { length page.now ≡ 512 }
    requires counted { HasRunCount kind page.now }
    requires run { run < page_run_count page.now }
    ensures { IsTrue result ↔ IsApartFrom kind page.now place run }
{
    match list_place(kind, page, run) {
        Some(other) => stand_apart(place, other),
        None => true,
    }
}

/// Whether a list is behind the entries, and apart from those of all runs.
fn is_clear(kind: PageKind, page: &[u8], place: ListPlace) -> bool
    requires page { length page.now ≡ 512 }
    requires counted { HasRunCount kind page.now }
    ensures { IsTrue result ↔ StandsClear kind page.now place }
{
    let count = run_count(page);
    if place.at < entry_at(kind, page, count) {
        return false;
    }
    for other in 0..count {
        if !is_apart_from(kind, page, place, other) {
            return false;
        }
    }
    true
}

/// Whether a run has no properties, or its list is in the page as it was.
fn is_apart(kind: PageKind, page: &[u8], run: usize) -> bool
    requires page { length page.now ≡ 512 }
    requires counted { HasRunCount kind page.now }
    requires run { run < page_run_count page.now }
    ensures { IsTrue result ↔ IsClearRun kind page.now run }
{
    if page[entry_at(kind, page, run)] == 0 {
        return true;
    }
    match list_place(kind, page, run) {
        Some(place) => is_clear(kind, page, place),
        None => false,
    }
}

/// Whether the lists of all runs are in the page and are behind its entries, and two of them are one or apart.
pub fn has_lists_apart(kind: PageKind, page: &[u8]) -> bool
    requires page { length page.now ≡ 512 }
    requires counted { HasRunCount kind page.now }
    ensures { IsTrue result ↔ HasListsApart kind page.now }
{
    for run in 0..run_count(page) {
        if !is_apart(kind, page, run) {
            return false;
        }
    }
    true
}
