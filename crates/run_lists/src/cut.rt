// Places of a list in its runs, and runs cut in two.
ghost use Rattle.std.specs.Prelude.{◌≡◌, ◌+◌, ◌^◌, ◌<◌, ◌≤◌, length, take, IfOk};
ghost use Rattle.run_lists.specs.Spread.{expanded, total_len};
ghost use Rattle.run_lists.specs.Places.{IsFoundSpot, AreCutRuns};

use crate::{Run, Shared};
use doc_bits::Memory;
use std::alloc::Global;

/// Where a place is: in which run, and how many of that run's values are before it.
#[derive(Clone, Copy)]
pub struct Spot {
    pub run: usize,
    pub left: usize,
}

/// The run of a place that is counted from where the run `begin` begins. Behind the last value it is
/// the number of runs.
pub fn find<T>(runs: &[Run<T>], begin: usize, place: usize) -> Spot
    requires begun { begin ≤ length runs.now }
    requires within { total_len (take begin runs.now) + place ≤ total_len runs.now }
    ensures { IsFoundSpot runs.now begin place result }
{
    let mut left = place;
    for run in begin..runs.len() {
        let count = runs[run].count as usize;
        if left < count {
            return Spot { run, left };
        }
        left -= count;
    }
    Spot {
        run: runs.len(),
        left,
    }
}

/// Lets a run begin at a place that is counted from where the run `begin` begins, and says which.
/// The list stays as it is.
pub(crate) fn cut<T: Shared>(
    alloc: Global,
    runs: &mut Vec<Run<T>>,
    begin: usize,
    place: usize,
) -> Result<usize, Memory>
    requires begun { begin ≤ length runs.old.items }
    requires within { total_len (take begin runs.old.items) + place ≤ total_len runs.old.items }
    requires few { length (expanded runs.old.items) < 2 ^ 32 }
    ensures same { expanded runs.new.items ≡ expanded runs.old.items }
    ensures cut { IfOk result (AreCutRuns runs.old.items runs.new.items begin place) }
{
    let spot = find(runs, begin, place);
    if spot.left == 0 {
        return Ok(spot.run);
    }
    let value = runs[spot.run].value.copy(alloc)?;
    let count = runs[spot.run].count - spot.left as u32;
    runs.insert(spot.run + 1, Run { count, value })?;
    let run = &mut runs[spot.run];
    run.count = spot.left as u32;
    Ok(spot.run + 1)
}
