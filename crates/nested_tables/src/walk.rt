// The paragraphs of a text, one behind the other, by the tables of a depth.
ghost use Rattle.std.specs.Prelude.{◌≡◌, ◌+◌, ◌^◌, ◌<◌, ◌≤◌, ◌&&◌, ◌∷◌, [], drop, length, if◌then◌else◌, slice_get};
ghost use Rattle.std.specs.Prelude.{Bool, Some};
ghost use Rattle.std.specs.Prelude.{true};
ghost use Rattle.nested_tables.specs.declared.depths.Depth.{Depth};
ghost use Rattle.nested_tables.specs.Tables.{cell_in, ends_cell, ends_row, is_whole_table, reaches_depth, own_place};
ghost use Rattle.nested_tables.specs.Tables.{place_by};
ghost use Rattle.nested_tables.specs.Tables.{walk_after, whole_in};

use crate::depths::Depth;

/// Where a paragraph is in a table inside of a cell: the numbers of the first paragraphs of the table and of its row,
/// and the number of its cell in the row, from 0. The mark of a row alone is in no cell.
#[derive(Clone, Copy)]
pub struct NestedPlace {
    pub table: usize,
    pub row: usize,
    pub cell: Option<usize>,
}

/// Behind some paragraphs: how many they are, the numbers of the first paragraphs of the table and of the row that go
/// on, and how many cells of the row ended.
#[derive(Clone, Copy)]
pub struct Walk {
    pub number: usize,
    pub table: usize,
    pub row: usize,
    pub cell: usize,
}

impl Walk {
    /// At the start of a text.
    pub(crate) fn new() -> Walk
        ensures { result ≡ record { number = 0; table = 0; row = 0; cell = 0 } }
    {
        Walk {
            number: 0,
            table: 0,
            row: 0,
            cell: 0,
        }
    }

    /// Behind one more paragraph.
    pub(crate) fn behind(self, depth: u32, paragraph: Depth) -> Walk
        requires number { self.number + 1 < 2 ^ 64 }
        requires cell { self.cell + 1 < 2 ^ 64 }
        ensures { result ≡ walk_after depth self paragraph }
    {
        let next = self.number + 1;
        let keeps = paragraph.keeps_row(depth);
        Walk {
            number: next,
            table: if paragraph.is_within(depth) {
                self.table
            } else {
                next
            },
            row: if keeps { self.row } else { next },
            cell: if keeps {
                self.cell + count_ended(paragraph, depth)
            } else {
                0
            },
        }
    }

    /// Where the next paragraph is, where its table is whole or not, or there is none.
    pub(crate) fn place(
        self,
        depth: u32,
        paragraph: Depth,
        whole: Option<bool>,
    ) -> Option<NestedPlace>
        ensures { result ≡ place_by whole (own_place depth self paragraph) }
    {
        match whole {
            None => None,
            Some(whole) => self.place_of(depth, paragraph, whole),
        }
    }

    /// Where it is, where its table is whole.
    fn place_of(self, depth: u32, paragraph: Depth, whole: bool) -> Option<NestedPlace>
        ensures { result ≡ place_by (Some whole) (own_place depth self paragraph) }
    {
        if whole {
            Some(NestedPlace {
                table: self.table,
                row: self.row,
                cell: self.cell_of(depth, paragraph),
            })
        } else {
            None
        }
    }

    /// The number of its cell.
    fn cell_of(self, depth: u32, paragraph: Depth) -> Option<usize>
        ensures { result ≡ cell_in depth self paragraph }
    {
        if paragraph.is_row_end(depth) && paragraph.is_mark {
            None
        } else {
            Some(self.cell)
        }
    }
}

/// How many cells end.
fn count_ended(paragraph: Depth, depth: u32) -> usize
    ensures is { result ≡ (if ends_cell depth paragraph then 1 else 0) }
    ensures few { result ≤ 1 }
{
    if paragraph.is_cell_end(depth) { 1 } else { 0 }
}

/// The paragraph with this number.
pub(crate) fn depth_at(paragraphs: &[Depth], number: usize) -> Depth
    requires { number < length paragraphs.now }
    ensures { slice_get paragraphs.now number ≡ Some result }
{
    paragraphs[number]
}

/// Whether the table of a depth that a paragraph is in is whole; nothing where it is in none. What is known of the
/// paragraph before it need not be read again.
pub(crate) fn whole_at(
    paragraphs: &[Depth],
    depth: u32,
    number: usize,
    one: Depth,
    known: Option<bool>,
) -> Option<bool>
    requires there { number < length paragraphs.now }
    requires known { (whole : Bool) → reaches_depth depth one ≡ true → known ≡ Some whole
        → whole ≡ is_whole_table depth (ends_row depth one) (drop (number + 1) paragraphs.now) }
    ensures { result ≡ whole_in depth one (drop (number + 1) paragraphs.now) }
{
    if one.is_within(depth) {
        Some(whole_behind(paragraphs, depth, number, one, known))
    } else {
        None
    }
}

/// Whether the table of a paragraph that is so deep is whole.
fn whole_behind(
    paragraphs: &[Depth],
    depth: u32,
    number: usize,
    one: Depth,
    known: Option<bool>,
) -> bool
    requires there { number < length paragraphs.now }
    requires known { (whole : Bool) → known ≡ Some whole
        → whole ≡ is_whole_table depth (ends_row depth one) (drop (number + 1) paragraphs.now) }
    ensures { result ≡ is_whole_table depth (ends_row depth one) (drop (number + 1) paragraphs.now) }
{
    match known {
        Some(whole) => whole,
        None => is_whole(paragraphs, depth, number + 1, one.is_row_end(depth)),
    }
}

/// Whether the last one of the paragraphs from one on that are so deep ends a row, behind one that does or does not.
fn is_whole(paragraphs: &[Depth], depth: u32, from: usize, ended: bool) -> bool
    requires { from ≤ length paragraphs.now }
    ensures { result ≡ is_whole_table depth ended (drop from paragraphs.now) }
{
    let mut last = ended;
    for number in from..paragraphs.len() {
        let one = depth_at(paragraphs, number);
        if !one.is_within(depth) {
            return last;
        }
        last = one.is_row_end(depth);
    }
    last
}
