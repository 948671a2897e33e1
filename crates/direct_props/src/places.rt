// Places of text units, kept as rows.
ghost use Rattle.std.specs.Prelude.{◌≡◌, ◌+◌, ◌*◌, ◌/◌, ◌<◌, ◌≤◌, ◌^◌, ◌++◌, ℕ, length, take, drop};
ghost use Rattle.std.specs.Prelude.{slice_index, slice_range, IfOk};
ghost use Rattle.direct_props.specs.Rows.{AreRows, IsInRow, row_places_of};

use doc_bits::Memory;
use std::alloc::Global;
use std::marker::Model;

/// So many places from `at` on, each `step` bytes after the one before it.
#[derive(Clone, Copy)]
pub struct PlaceRow {
    pub at: u32,
    pub step: u32,
    pub len: u32,
}

/// Places in a row of `WordDocument`, from one of their rows on.
#[derive(Drop)]
pub struct Places<'a> {
    rows: &'a [PlaceRow],
    skipped: usize,
    count: usize,
}

impl<'a> Model for Places<'a> {
    ghost use Rattle.std.specs.Prelude.{ℕ, List, ◌+◌, slice_range};
    ghost use Rattle.direct_props.specs.Rows.{IsCursor, row_places_of};

    ghost Value = { List ℕ };

    ghost view = { λ p. slice_range (row_places_of p.rows.now) p.skipped (p.skipped + p.count) };

    ghost invariant = { λ p. IsCursor p.rows.now p.skipped p.count };
}

impl<'a> Places<'a> {
    /// All places of these rows.
    pub fn of(rows: &'a [PlaceRow]) -> Places<'a>
        requires rows { AreRows rows.now }
        requires few { length (row_places_of rows.now) < 2 ^ 32 }
        ensures { result ≡ row_places_of rows.now }
    {
        let count = count_of(rows);
        from_place(rows, 0, count)
    }

    /// The number of places.
    pub fn len(&self) -> usize
        ensures len { result ≡ length self.now }
        ensures few { result < 2 ^ 32 }
    {
        self.count
    }

    /// The first place.
    #[inline(always)]
    pub fn first(&self) -> u32
        requires { 0 < length self.now }
        ensures { result ≡ slice_index self.now 0 }
    {
        place_in(self.rows[0], self.skipped)
    }

    /// The place of this number. It goes over the rows before it.
    pub fn get(&self, number: usize) -> u32
        requires { number < length self.now }
        ensures { result ≡ slice_index self.now number }
    {
        let spot = find_row(self.rows, self.skipped + number);
        place_in(self.rows[spot.row], spot.left)
    }

    /// The first `count` places.
    pub fn front(&self, count: usize) -> Places<'a>
        requires { count ≤ length self.now }
        ensures { result ≡ take count self.now }
    {
        Places {
            rows: self.rows,
            skipped: self.skipped,
            count,
        }
    }

    /// The places behind the first `count`. It goes over the rows of these.
    #[inline(always)]
    pub fn skip(&self, count: usize) -> Places<'a>
        requires { count ≤ length self.now }
        ensures { result ≡ drop count self.now }
    {
        from_place(self.rows, self.skipped + count, self.count - count)
    }

    /// The places, one by one.
    pub(crate) fn to_list(&self, alloc: Global) -> Result<Vec<u32>, Memory>
        ensures { IfOk result (λ list. list.items ≡ self.now) }
    {
        let mut list = Vec::with_capacity(alloc, self.count)?;
        let mut left = self.skip(0);
        while left.len() > 0 {
            left = left.push_row(&mut list)?;
        }
        Ok(list)
    }

    /// Appends the places of the first row, and answers those behind it.
    fn push_row(&self, list: &mut Vec<u32>) -> Result<Places<'a>, Memory>
        requires { 0 < length self.now }
        ensures fewer { IfOk result (λ rest. length rest < length self.now) }
        ensures joined { IfOk result (λ rest. list.new.items ++ rest ≡ list.old.items ++ self.now) }
    {
        let row = self.rows[0];
        let here = self.count.min(row.len as usize - self.skipped);
        for k in 0..here {
            list.push(place_in(row, self.skipped + k))?;
        }
        Ok(self.skip(here))
    }

    /// How many places of the first row, from its first place on, are not above `last`, as the first is not.
    #[inline(always)]
    pub(crate) fn count_up_to(&self, last: u32) -> usize
        requires there { 0 < length self.now }
        requires first { slice_index self.now 0 ≤ last }
        ensures some { 0 < result }
        ensures inside { result ≤ length self.now }
        ensures above { (k : ℕ) → k < result → slice_index self.now 0 ≤ slice_index self.now k }
        ensures below { (k : ℕ) → k < result → slice_index self.now k ≤ last }
    {
        let row = self.rows[0];
        let here = self.count.min(row.len as usize - self.skipped);
        if row.step == 0 {
            return here;
        }
        let above = last - place_in(row, self.skipped);
        let steps = steps_in(above, row.step);
        here.min(steps as usize + 1)
    }
}

/// How many steps are in so many bytes. Units are one or two bytes long, by which nothing is divided.
#[inline(always)]
fn steps_in(bytes: u32, step: u32) -> u32
    requires { 0 < step }
    ensures { result ≡ bytes / step }
{
    match step {
        1 => bytes,
        2 => bytes / 2,
        _ => bytes / step,
    }
}

/// A row, and how many of its places are before one.
#[derive(Clone, Copy)]
struct RowSpot {
    row: usize,
    left: usize,
}

/// The row of a place.
fn find_row(rows: &[PlaceRow], place: usize) -> RowSpot
    requires { place ≤ length (row_places_of rows.now) }
    ensures { IsInRow rows.now place result.row result.left }
{
    let mut left = place;
    for row in 0..rows.len() {
        let len = rows[row].len as usize;
        if left < len {
            return RowSpot { row, left };
        }
        left -= len;
    }
    RowSpot {
        row: rows.len(),
        left,
    }
}

/// So many places of rows behind the first `skipped`.
fn from_place<'a>(rows: &'a [PlaceRow], skipped: usize, count: usize) -> Places<'a>
    requires rows { AreRows rows.now }
    requires few { length (row_places_of rows.now) < 2 ^ 32 }
    requires within { skipped + count ≤ length (row_places_of rows.now) }
    ensures { result ≡ slice_range (row_places_of rows.now) skipped (skipped + count) }
{
    let spot = find_row(rows, skipped);
    Places {
        rows: &rows[spot.row..],
        skipped: spot.left,
        count,
    }
}

/// The number of places of rows.
fn count_of(rows: &[PlaceRow]) -> usize
    requires { length (row_places_of rows.now) < 2 ^ 32 }
    ensures { result ≡ length (row_places_of rows.now) }
{
    let mut count = 0;
    for row in rows {
        count += row.len as usize;
    }
    count
}

/// The place of a row behind so many others.
fn place_in(row: PlaceRow, left: usize) -> u32
    requires row { row.at + row.len * row.step < 2 ^ 32 }
    requires left { left ≤ row.len }
    ensures { result ≡ row.at + left * row.step }
{
    row.at + left as u32 * row.step
}
