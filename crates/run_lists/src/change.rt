// Values of a range that become others, and values that are copied.
ghost use Rattle.std.specs.Prelude.{◌≡◌, ◌≤◌, ◌<◌, ◌^◌, length, slice_range, IfOk, OnOk, OnErr};
ghost use Rattle.doc_bits.specs.Together.{AreTogether};
ghost use Rattle.run_lists.specs.Spread.{expanded, total_len};
ghost use Rattle.run_lists.specs.Places.{IsAtRunBegin, IsFoundSpot, IsIn};
ghost use Rattle.run_lists.specs.Changed.{IsChanged};

use crate::cursor::reach;
use crate::{Cursor, Run, Runs, Shared, Spot, find};
use doc_bits::Memory;
use std::alloc::Global;

/// What values become.
pub trait Change<T>: Drop {
    /// A value may become the other one.
    ghost becomes: { Self → T → T → Type 0 };

    /// What the value becomes.
    fn change(&self, alloc: Global, value: &T) -> Result<T, Memory>
        ensures { IfOk result (λ made. becomes self.now value.now made) };
}

/// Values that stay as they are.
#[derive(Drop)]
struct Same;

impl<T: Shared> Change<T> for Same {
    ghost becomes = { λ same before after. after ≡ before };

    fn change(&self, alloc: Global, value: &T) -> Result<T, Memory> {
        let copy = value.copy(alloc)?;
        Ok(copy)
    }
}

impl<T: Shared> Runs<T> {
    /// Changes the values from `from` to before `to`, run by run.
    pub fn change<C: Change<T>>(
        &mut self,
        alloc: Global,
        from: usize,
        to: usize,
        by: &C,
    ) -> Result<(), Memory>
        requires ordered { from ≤ to }
        requires within { to ≤ length self.old }
        ensures ok { OnOk result (IsChanged (C.becomes by.now) from to self.old self.new) }
        ensures err { OnErr result (self.new ≡ self.old) }
    {
        let spot = find(&self.runs, 0, from);
        let fresh = change_range(alloc, &self.runs, spot, from, to, by)?;
        self.splice(alloc, from, to, fresh)?;
        Ok(())
    }

    /// The values from `from` to before `to`.
    pub fn copy(&self, alloc: Global, from: usize, to: usize) -> Result<Runs<T>, Memory>
        requires ordered { from ≤ to }
        requires within { to ≤ length self.now }
        ensures { IfOk result (λ copy. copy ≡ slice_range self.now from to) }
    {
        let spot = find(&self.runs, 0, from);
        let copy = change_range(alloc, &self.runs, spot, from, to, &Same)?;
        Ok(copy)
    }
}

/// The values of runs from `from`, which the cursor is not behind and goes to, to before `to`.
pub fn copy_runs<T: Shared>(
    alloc: Global,
    runs: &[Run<T>],
    cursor: &mut Cursor,
    from: usize,
    to: usize,
) -> Result<Runs<T>, Memory>
    requires at { IsAtRunBegin runs.now cursor.old }
    requires ahead { cursor.old.begin ≤ from }
    requires ordered { from ≤ to }
    requires within { to ≤ total_len runs.now }
    requires few { total_len runs.now < 2 ^ 32 }
    ensures at { IsAtRunBegin runs.now cursor.new }
    ensures ahead { cursor.new.begin ≤ from }
    ensures stops { from < total_len runs.now → IsIn runs.now cursor.new from }
    ensures copy { IfOk result (λ copy. copy ≡ slice_range (expanded runs.now) from to) }
{
    let spot = reach(runs, cursor, from);
    let copy = change_range(alloc, runs, spot, from, to, &Same)?;
    Ok(copy)
}

/// What the values from `from`, whose run and place in it are the spot, to before `to` become.
fn change_range<T: Shared, C: Change<T>>(
    alloc: Global,
    runs: &[Run<T>],
    spot: Spot,
    from: usize,
    to: usize,
    by: &C,
) -> Result<Runs<T>, Memory>
    requires found { IsFoundSpot runs.now 0 from spot }
    requires ordered { from ≤ to }
    requires within { to ≤ total_len runs.now }
    requires few { total_len runs.now < 2 ^ 32 }
    ensures { IfOk result (AreTogether (C.becomes by.now) (slice_range (expanded runs.now) from to)) }
{
    let mut fresh = Runs::with_room(alloc, run_count(runs, spot, from, to))?;
    let mut number = spot.run;
    let mut skipped = spot.left;
    let mut left = to - from;
    while left > 0 {
        let run = &runs[number];
        let count = left.min(run.count as usize - skipped);
        let value = by.change(alloc, &run.value)?;
        fresh.add(count as u32, value)?;
        left -= count;
        skipped = 0;
        number += 1;
    }
    Ok(fresh)
}

/// How many runs the values from `from`, whose run and place in it are the spot, to before `to` are in.
fn run_count<T>(runs: &[Run<T>], spot: Spot, from: usize, to: usize) -> usize
    requires found { IsFoundSpot runs.now 0 from spot }
    requires ordered { from ≤ to }
    requires within { to ≤ total_len runs.now }
    requires few { total_len runs.now < 2 ^ 32 }
    ensures { result ≤ length runs.now }
{
    let end = find(runs, spot.run, spot.left + (to - from));
    if end.left == 0 {
        return end.run - spot.run;
    }
    end.run + 1 - spot.run
}
