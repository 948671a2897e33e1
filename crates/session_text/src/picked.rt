// The text of the pieces that have new places, column by column, out of a whole text.
ghost use Rattle.std.specs.Prelude.{◌≡◌, ◌+◌, ◌-◌, ◌^◌, ◌<◌, ◌≤◌, ◌++◌, length, slice_range, IfOk, OnOk};
ghost use Rattle.run_lists.specs.Spread.{expanded, total_len};
ghost use Rattle.run_lists.specs.Places.{IsAtRunBegin};
ghost use Rattle.piece_table.specs.Piece.{total_length};
ghost use Rattle.session_text.specs.WrittenAgain.{renewed_values, values_for};
ghost use Rattle.session_text.specs.Picked.{whole_items, values_of_both, IsNextStretch, AreReadTo, HasFirstLen};

use crate::gathered::put_runs;
use doc_bits::Memory;
use doc_columns::Columns;
use piece_table::{PieceList, PieceWalk};
use run_lists::{Cursor, Run, Runs, Shared, copy_runs};
use std::alloc::Global;

/// The main text of a document, and the text behind it.
#[derive(Clone, Copy)]
pub(crate) struct WholeText<'a> {
    pub(crate) main: &'a Columns,
    pub(crate) behind: &'a Columns,
}

/// The pieces of a text, and beside each its new place, if it has one.
#[derive(Drop)]
pub(crate) struct NewPlaces<'a> {
    pub(crate) pieces: &'a PieceList,
    pub(crate) places: &'a [Option<u32>],
}

/// The range of CPs of a piece, and whether it has a new place.
#[derive(Clone, Copy)]
struct Stretch {
    from: usize,
    to: usize,
    again: bool,
}

impl WholeText<'_> {
    /// The items of the pieces that have new places.
    pub(crate) fn text_at(&self, alloc: Global, placed: &NewPlaces<'_>) -> Result<Columns, Memory>
        requires places { length placed.now.places.now ≡ length placed.now.pieces.now.pieces }
        requires within { total_length placed.now.pieces.now.pieces ≤ length (whole_items self.now) }
        requires few { length (whole_items self.now) < 2 ^ 32 }
        ensures { IfOk result (λ made.
            made ≡ renewed_values placed.now.places.now placed.now.pieces.now.pieces (whole_items self.now)) }
    {
        let first_len = self.main.len();
        let _behind = self.behind.len();
        let units = picked_units(alloc, self.main.units(), self.behind.units(), placed)?;
        let chps = TwoLists {
            first: self.main.chps(),
            first_len,
            second: self.behind.chps(),
        };
        let attachments = TwoLists {
            first: self.main.attachments(),
            first_len,
            second: self.behind.attachments(),
        };
        let chps = picked_values(alloc, &chps, placed)?;
        let attachments = picked_values(alloc, &attachments, placed)?;
        Ok(Columns::from_parts(units, chps, attachments))
    }
}

impl NewPlaces<'_> {
    /// The piece of a number, which begins at a CP, by a walk over the pieces.
    fn stretch(&self, walk: &mut PieceWalk<'_>, number: usize, from: usize) -> Stretch
        requires walk { walk.old ≡ self.now.pieces.now.pieces }
        requires places { length self.now.places.now ≡ length self.now.pieces.now.pieces }
        requires below { number < length self.now.pieces.now.pieces }
        requires room { from < 2 ^ 32 }
        ensures stretch { IsNextStretch self.now.places.now self.now.pieces.now.pieces number from result }
        ensures walk { walk.new ≡ walk.old }
    {
        Stretch {
            from,
            to: from + walk.piece(number).len as usize,
            again: self.places[number].is_some(),
        }
    }
}

/// The units of the pieces that have new places, out of two lists, one behind the other.
fn picked_units(
    alloc: Global,
    first: &[u16],
    second: &[u16],
    placed: &NewPlaces<'_>,
) -> Result<Vec<u16>, Memory>
    requires places { length placed.now.places.now ≡ length placed.now.pieces.now.pieces }
    requires within { total_length placed.now.pieces.now.pieces ≤ length first.now + length second.now }
    requires few { length first.now + length second.now < 2 ^ 32 }
    ensures { IfOk result (λ units.
        units.items ≡ renewed_values placed.now.places.now placed.now.pieces.now.pieces (first.now ++ second.now)) }
{
    let mut units = Vec::new(alloc);
    let mut walk = placed.pieces.walk();
    let mut cp = 0;
    for number in 0..placed.pieces.len() {
        let stretch = placed.stretch(&mut walk, number, cp);
        put_units(&mut units, first, second, stretch)?;
        cp = stretch.to;
    }
    Ok(units)
}

/// Puts a stretch of two lists, one behind the other, last, where it has a new place.
fn put_units(
    out: &mut Vec<u16>,
    first: &[u16],
    second: &[u16],
    stretch: Stretch,
) -> Result<(), Memory>
    requires order { stretch.from ≤ stretch.to }
    requires within { stretch.to ≤ length first.now + length second.now }
    ensures { OnOk result (out.new.items ≡ out.old.items
        ++ values_for stretch.again (slice_range (first.now ++ second.now) stretch.from stretch.to)) }
{
    if !stretch.again {
        return Ok(());
    }
    let from = stretch.from.min(first.len());
    let to = stretch.to.min(first.len());
    out.extend_from_slice(&first[from..to])?;
    out.extend_from_slice(&second[stretch.from - from..stretch.to - to])?;
    Ok(())
}

/// A list whose first values are those of one list of runs, so many, and the others those of another.
#[derive(Drop)]
struct TwoLists<'a, T> {
    first: &'a [Run<T>],
    first_len: usize,
    second: &'a [Run<T>],
}

/// How far two lists are read.
#[derive(Clone, Copy)]
struct ReadTo {
    first: Cursor,
    second: Cursor,
}

/// The values of the pieces that have new places.
fn picked_values<T: Shared>(
    alloc: Global,
    lists: &TwoLists<'_, T>,
    placed: &NewPlaces<'_>,
) -> Result<Runs<T>, Memory>
    requires lists { HasFirstLen lists.now }
    requires places { length placed.now.places.now ≡ length placed.now.pieces.now.pieces }
    requires within { total_length placed.now.pieces.now.pieces ≤ length (values_of_both lists.now) }
    requires few { length (values_of_both lists.now) < 2 ^ 32 }
    ensures { IfOk result (λ values.
        values ≡ renewed_values placed.now.places.now placed.now.pieces.now.pieces (values_of_both lists.now)) }
{
    let mut values = Runs::new(alloc);
    let mut read = ReadTo {
        first: Cursor::new(),
        second: Cursor::new(),
    };
    let mut walk = placed.pieces.walk();
    let mut cp = 0;
    for number in 0..placed.pieces.len() {
        let stretch = placed.stretch(&mut walk, number, cp);
        lists.put(alloc, &mut values, &mut read, stretch)?;
        cp = stretch.to;
    }
    Ok(values)
}

impl<T: Shared> TwoLists<'_, T> {
    /// Puts the values of a stretch last, where it has a new place. It is not before what was read.
    fn put(
        &self,
        alloc: Global,
        out: &mut Runs<T>,
        read: &mut ReadTo,
        stretch: Stretch,
    ) -> Result<(), Memory>
        requires lists { HasFirstLen self.now }
        requires read { AreReadTo self.now read.old stretch.from }
        requires order { stretch.from ≤ stretch.to }
        requires within { stretch.to ≤ length (values_of_both self.now) }
        requires few { length (values_of_both self.now) < 2 ^ 32 }
        requires room { length out.old + (stretch.to - stretch.from) < 2 ^ 32 }
        ensures read { OnOk result (AreReadTo self.now read.new stretch.to) }
        ensures values { OnOk result (out.new ≡ out.old
            ++ values_for stretch.again (slice_range (values_of_both self.now) stretch.from stretch.to)) }
    {
        if !stretch.again {
            return Ok(());
        }
        let from = stretch.from.min(self.first_len);
        let to = stretch.to.min(self.first_len);
        put_range(alloc, out, self.first, &mut read.first, (from, to))?;
        let rest = (stretch.from - from, stretch.to - to);
        put_range(alloc, out, self.second, &mut read.second, rest)?;
        Ok(())
    }
}

/// Puts the values of a range of runs last, which the cursor is not behind and goes to.
fn put_range<T: Shared>(
    alloc: Global,
    out: &mut Runs<T>,
    runs: &[Run<T>],
    cursor: &mut Cursor,
    range: (usize, usize),
) -> Result<(), Memory>
    requires at { IsAtRunBegin runs.now cursor.old }
    requires ahead { cursor.old.begin ≤ range.0 }
    requires order { range.0 ≤ range.1 }
    requires within { range.1 ≤ total_len runs.now }
    requires few { total_len runs.now < 2 ^ 32 }
    requires room { length out.old + (range.1 - range.0) < 2 ^ 32 }
    ensures at { IsAtRunBegin runs.now cursor.new }
    ensures ahead { cursor.new.begin ≤ range.0 }
    ensures values { OnOk result (out.new ≡ out.old ++ slice_range (expanded runs.now) range.0 range.1) }
{
    let copy = copy_runs(alloc, runs, cursor, range.0, range.1)?;
    put_runs(alloc, out, copy.as_runs())
}
