// Parts of columns, copied.
ghost use Rattle.std.specs.Prelude.{◌≡◌, ◌+◌, ◌^◌, ◌<◌, ◌≤◌, ◌++◌, length, replicate, slice_range, IfOk, OnOk};
ghost use Rattle.run_lists.specs.Spread.{expanded};
ghost use Rattle.doc_model.specs.Document.{IsFormedText};
ghost use Rattle.doc_columns.specs.Walks.{items_in, AreFullParts, IsColumnWalk};

use crate::own::OwnColumns;
use crate::{Parts, Walk};
use doc_bits::Memory;
use run_lists::{Run, Runs, Shared, copy_runs};
use std::alloc::Global;

/// The items from `from`, which the walk is not behind, to before `to`. Their maps are shared.
pub(crate) fn copy_part(
    alloc: Global,
    parts: &Parts<'_>,
    walk: Walk,
    from: usize,
    to: usize,
) -> Result<OwnColumns, Memory>
    requires parts { AreFullParts parts.now }
    requires formed { IsFormedText (items_in parts.now) }
    requires walk { IsColumnWalk parts.now walk from }
    requires ordered { from ≤ to }
    requires within { to ≤ length parts.now.units.now }
    ensures { IfOk result (λ copy. copy ≡ slice_range (items_in parts.now) from to) }
{
    let Walk {
        chps: mut at_chps,
        attachments: mut at_attachments,
    } = walk;
    let units = Vec::from_slice(alloc, &parts.units[from..to])?;
    let chps = copy_runs(alloc, parts.chps, &mut at_chps, from, to)?;
    let attachments = copy_runs(alloc, parts.attachments, &mut at_attachments, from, to)?;
    Ok(OwnColumns::from_parts(units, chps, attachments))
}

/// Places where runs are to end. They ascend, and so many are passed.
#[derive(Drop)]
struct Ends<'a> {
    places: &'a [u32],
    passed: usize,
}

impl Ends<'_> {
    /// The first of the places behind a place, or the end where none is before it.
    fn behind(&mut self, place: usize, end: usize) -> usize
        requires { place < end }
        ensures some { place < result }
        ensures within { result ≤ end }
    {
        while self.passed < self.places.len() {
            let next = self.places[self.passed] as usize;
            if place < next {
                return next.min(end);
            }
            self.passed += 1;
        }
        end
    }
}

/// The runs of a list. Each ends where one of the places, which ascend, is inside it; where none is, no run is moved.
pub(crate) fn into_rows<T: Shared>(
    alloc: Global,
    runs: Runs<T>,
    places: &[u32],
) -> Result<Vec<Run<T>>, Memory>
    ensures { IfOk result (λ rows. expanded rows.items ≡ runs) }
{
    if !are_cut(runs.as_runs(), places) {
        return Ok(runs.into_runs());
    }
    let rows = cut_rows(alloc, &runs, places)?;
    Ok(rows)
}

/// Whether one of the places, which ascend, is inside a run.
fn are_cut<T>(runs: &[Run<T>], places: &[u32]) -> bool {
    let mut ends = Ends { places, passed: 0 };
    let mut place: usize = 0;
    for run in runs {
        let end = place.saturating_add(run.count as usize);
        if place < end && ends.behind(place, end) < end {
            return true;
        }
        place = end;
    }
    false
}

/// The runs of a list. Each ends where one of the places, which ascend, is inside it.
fn cut_rows<T: Shared>(alloc: Global, runs: &Runs<T>, places: &[u32]) -> Result<Vec<Run<T>>, Memory>
    ensures { IfOk result (λ rows. expanded rows.items ≡ runs.now) }
{
    let all = runs.as_runs();
    let mut rows = Vec::with_capacity(alloc, all.len())?;
    let mut ends = Ends { places, passed: 0 };
    let mut place = 0;
    for run in all {
        push_rows(alloc, run, place, &mut ends, &mut rows)?;
        place += run.count as usize;
    }
    Ok(rows)
}

/// Puts a run that begins at a place last, as runs that end at the places inside it.
fn push_rows<T: Shared>(
    alloc: Global,
    run: &Run<T>,
    place: usize,
    ends: &mut Ends<'_>,
    rows: &mut Vec<Run<T>>,
) -> Result<(), Memory>
    requires { place + run.now.count < 2 ^ 32 }
    ensures { OnOk result
        (expanded rows.new.items ≡ expanded rows.old.items ++ replicate run.now.count run.now.value) }
{
    let end = place + run.count as usize;
    let mut at = place;
    while at < end {
        let until = ends.behind(at, end);
        let value = run.value.copy(alloc)?;
        rows.push(Run {
            count: (until - at) as u32,
            value,
        })?;
        at = until;
    }
    Ok(())
}
