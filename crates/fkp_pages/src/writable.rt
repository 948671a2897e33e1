// Whether pages can be written of runs.
ghost use Rattle.std.specs.Prelude.{◌≡◌, ◌<◌, ◌-◌, ◌↔◌, length, slice_index_or, IsTrue};
ghost use Rattle.fkp_pages.specs.declared.lists.Run.{Run};
ghost use Rattle.fkp_pages.specs.Runs.{run_groups, most_printed, IsWritableRun, AreRuns};

use crate::kind::PageKind;
use crate::lists::{ChpRuns, PapRuns, Run};
use prop_map::{CHARACTER_GROUPS, PARAGRAPH_GROUPS};

/// Whether `write_chpx_pages` takes the runs.
pub fn are_chp_runs(runs: &ChpRuns) -> bool
    ensures { IsTrue result ↔ AreRuns PageKind.Chpx runs.now }
{
    are_runs(&runs.items, PageKind::Chpx)
}

/// Whether `write_papx_pages` takes the runs.
pub fn are_pap_runs(runs: &PapRuns) -> bool
    ensures { IsTrue result ↔ AreRuns PageKind.Papx runs.now }
{
    are_runs(&runs.items, PageKind::Papx)
}

/// Whether the runs touch, and a page can hold each of them.
fn are_runs(runs: &[Run], kind: PageKind) -> bool
    ensures { IsTrue result ↔ AreRuns kind runs.now }
{
    for i in 0..runs.len() {
        if !is_writable(&runs[i], kind) {
            return false;
        }
        if !touches_last(runs, i) {
            return false;
        }
    }
    true
}

/// Whether the run before it, where there is one, ends where it begins.
fn touches_last(runs: &[Run], i: usize) -> bool
    requires { i < length runs.now }
    ensures { IsTrue result ↔
        ((d : Run) → 0 < i → (slice_index_or runs.now (i - 1) d).to ≡ (slice_index_or runs.now i d).from) }
{
    if i == 0 {
        return true;
    }
    runs[i - 1].to == runs[i].from
}

/// Whether a page can hold the run.
fn is_writable(run: &Run, kind: PageKind) -> bool
    ensures { IsTrue result ↔ IsWritableRun kind run.now }
{
    if run.from >= run.to {
        return false;
    }
    if !run.map.is_held(groups_of_runs(kind)) {
        return false;
    }
    run.map.printed_len() <= most_printed(kind)
}

/// The groups of sprms that runs of a kind hold.
pub fn groups_of_runs(kind: PageKind) -> u8
    ensures { result ≡ run_groups kind }
{
    match kind {
        PageKind::Chpx => CHARACTER_GROUPS,
        PageKind::Papx => PARAGRAPH_GROUPS,
    }
}

/// The most bytes of a map's printed list.
fn most_printed(kind: PageKind) -> u64
    ensures { result ≡ most_printed kind }
{
    match kind {
        PageKind::Chpx => 255,
        PageKind::Papx => 480,
    }
}
