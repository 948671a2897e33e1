// A walk over a list of runs.
ghost use Rattle.std.specs.Prelude.{◌≡◌, ◌<◌, ◌≤◌, ◌^◌, ℕ, slice_get, Some};
ghost use Rattle.run_lists.specs.Spread.{expanded, total_len};
ghost use Rattle.run_lists.specs.Places.{IsAtRunBegin, IsFoundSpot, IsIn};

use crate::{Run, Spot, find};

/// Where a walk is: in which run, and at which place of the list that run begins.
#[derive(Clone, Copy)]
pub struct Cursor {
    pub run: usize,
    pub begin: usize,
}

impl Cursor {
    /// At the start.
    pub fn new() -> Cursor
        ensures { result ≡ record { run = 0; begin = 0 } }
    {
        Cursor { run: 0, begin: 0 }
    }
}

/// The value at a place, which the cursor is not behind and goes to.
pub fn seek<'a, T>(runs: &'a [Run<T>], cursor: &mut Cursor, place: usize) -> &'a T
    requires at { IsAtRunBegin runs.now cursor.old }
    requires ahead { cursor.old.begin ≤ place }
    requires within { place < total_len runs.now }
    ensures at { IsAtRunBegin runs.now cursor.new }
    ensures ahead { cursor.new.begin ≤ place }
    ensures stops { IsIn runs.now cursor.new place }
    ensures value { slice_get (expanded runs.now) place ≡ Some result.now }
{
    let spot = reach(runs, cursor, place);
    &runs[spot.run].value
}

/// The value at a place, and where its run ends. The cursor is not behind the place, and goes to it.
pub fn value_until<'a, T>(runs: &'a [Run<T>], cursor: &mut Cursor, place: usize) -> (&'a T, usize)
    requires at { IsAtRunBegin runs.now cursor.old }
    requires ahead { cursor.old.begin ≤ place }
    requires within { place < total_len runs.now }
    requires few { total_len runs.now < 2 ^ 32 }
    ensures at { IsAtRunBegin runs.now cursor.new }
    ensures ahead { cursor.new.begin ≤ place }
    ensures some { place < result.1 }
    ensures within { result.1 ≤ total_len runs.now }
    ensures values { (k : ℕ) → place ≤ k → k < result.1
        → slice_get (expanded runs.now) k ≡ Some result.0.now }
{
    let value = seek(runs, cursor, place);
    (value, cursor.begin + runs[cursor.run].count as usize)
}

/// The run of a place, which the cursor is not behind and goes to.
pub(crate) fn reach<T>(runs: &[Run<T>], cursor: &mut Cursor, place: usize) -> Spot
    requires at { IsAtRunBegin runs.now cursor.old }
    requires ahead { cursor.old.begin ≤ place }
    requires within { place ≤ total_len runs.now }
    ensures at { IsAtRunBegin runs.now cursor.new }
    ensures ahead { cursor.new.begin ≤ place }
    ensures stops { place < total_len runs.now → IsIn runs.now cursor.new place }
    ensures found { IsFoundSpot runs.now 0 place result }
{
    let spot = find(runs, cursor.run, place - cursor.begin);
    *cursor = Cursor {
        run: spot.run,
        begin: place - spot.left,
    };
    spot
}
