// How far the cells of a table reach.
ghost use Rattle.std.specs.Prelude.{◌≡◌, ◌≤◌, ◌<◌, ◌+◌, ◌++◌, [], ◌∷◌, length, drop, map, IfOk, OnOk};
ghost use Rattle.std.specs.List.{list_any};
ghost use Rattle.cell_spans.specs.Spans.{before_at, cell_span, has_part_in, is_above, is_part_below, is_one, row_count};
ghost use Rattle.cell_spans.specs.Spans.{is_part_of_cell, row_at, rows_below, single, singles, span_at, spans_from};
ghost use Rattle.cell_spans.specs.Spans.{table_spans};

use crate::columns::{Edges, edges_of};
use crate::rows::{RowCell, RowCells};
use doc_bits::Memory;
use std::alloc::Global;
use std::marker::Model;
use view_places::Span;

/// How many rows a cell reaches over at most, as HTML has it.
const MAX_ROWS: usize = 65_534;

/// How far a cell reaches that is one of its row and column.
pub fn single() -> Span
    ensures { result ≡ single }
{
    Span {
        columns: 1,
        rows: 1,
    }
}

/// How far cells reach, by their numbers in a text; nothing where one is a part of another.
#[derive(Drop)]
pub struct Spans {
    items: Vec<Option<Span>>,
}

impl Model for Spans {
    ghost use Rattle.std.specs.Prelude.{List, Option};
    ghost use Rattle.view_places.specs.declared.element.Span.{Span};

    ghost Value = { List (Option Span) };

    ghost view = { λ s. s.items.items };
}

impl Spans {
    /// Of no cell.
    pub fn new(alloc: Global) -> Spans
        ensures { result ≡ [] }
    {
        Spans {
            items: Vec::new(alloc),
        }
    }

    /// How far the cell with this number reaches; one of which nothing is known reaches nowhere.
    pub fn get(&self, number: usize) -> Option<Span>
        ensures { result ≡ span_at self.now number }
    {
        match self.items.get(number) {
            None => Some(single()),
            Some(span) => *span,
        }
    }

    fn push(&mut self, span: Option<Span>) -> Result<(), Memory>
        ensures { OnOk result (self.new ≡ self.old ++ span ∷ []) }
    {
        self.items.push(span)?;
        Ok(())
    }

    /// Adds so many cells of one row and column.
    pub(crate) fn push_singles(&mut self, blanks: &[bool]) -> Result<(), Memory>
        ensures { OnOk result (self.new ≡ self.old ++ singles blanks.now) }
    {
        for blank in blanks {
            let _ = blank;
            self.push(Some(single()))?;
        }
        Ok(())
    }

    /// Adds the cells of the rows of a table.
    pub(crate) fn push_table(&mut self, alloc: Global, rows: &[RowCells]) -> Result<(), Memory>
        ensures { OnOk result (self.new ≡ self.old ++ table_spans rows.now) }
    {
        let edges = edges_of(alloc, rows)?;
        self.push_rows(&edges, rows)
    }

    /// Adds the cells of rows with these edges.
    fn push_rows(&mut self, edges: &Edges, rows: &[RowCells]) -> Result<(), Memory>
        ensures { OnOk result (self.new ≡ self.old ++ spans_from edges.now [] rows.now) }
    {
        for number in 0..rows.len() {
            self.push_row(edges, rows, number)?;
        }
        Ok(())
    }

    /// Adds the cells of a row.
    fn push_row(&mut self, edges: &Edges, rows: &[RowCells], number: usize) -> Result<(), Memory>
        requires { number < length rows.now }
        ensures { OnOk result (self.new ≡ self.old
            ++ map (cell_span edges.now (before_at rows.now number) (drop (number + 1) rows.now)) (row_at rows.now number)) }
    {
        let before = before_at(rows, number);
        let cells = rows[number].as_slice();
        for cell in cells {
            let span = cell_span(edges, before, rows, number + 1, *cell);
            self.push(span)?;
        }
        Ok(())
    }
}

/// The row before the one with this number.
fn before_at<'a>(rows: &'a [RowCells], number: usize) -> &'a [RowCell]
    requires { number ≤ length rows.now }
    ensures { result.now ≡ before_at rows.now number }
{
    if number == 0 {
        &[]
    } else {
        rows[number - 1].as_slice()
    }
}

/// How far a cell reaches that is behind the cells of a row and in front of rows, from one on.
fn cell_span(
    edges: &Edges,
    before: &[RowCell],
    rows: &[RowCells],
    next: usize,
    cell: RowCell,
) -> Option<Span>
    requires { next ≤ length rows.now }
    ensures { result ≡ cell_span edges.now before.now (drop next rows.now) cell }
{
    if cell.is_part || is_below(before, cell) {
        return None;
    }
    Some(Span {
        columns: edges.across(cell),
        rows: row_count(rows, next, cell),
    })
}

/// Whether two cells have the same edges, and are both in the head of their table or not.
fn is_one(above: RowCell, below: RowCell) -> bool
    ensures { result ≡ is_one above below }
{
    above.left == below.left && above.right == below.right && above.in_head == below.in_head
}

/// Whether a cell is a part of one above it.
fn is_below(before: &[RowCell], cell: RowCell) -> bool
    ensures { result ≡ is_part_below before.now cell }
{
    cell.goes_on && some_above(before, cell)
}

/// Whether a cell of a row is one that goes on below.
fn some_above(before: &[RowCell], cell: RowCell) -> bool
    ensures { result ≡ list_any (is_above cell) before.now }
{
    for above in before {
        if is_above(cell, *above) {
            return true;
        }
    }
    false
}

fn is_above(cell: RowCell, above: RowCell) -> bool
    ensures { result ≡ is_above cell above }
{
    above.is_vertical && !above.is_part && is_one(above, cell)
}

/// Over how many rows a cell reaches.
fn row_count(rows: &[RowCells], next: usize, cell: RowCell) -> u16
    requires { next ≤ length rows.now }
    ensures { result ≡ row_count cell (drop next rows.now) }
{
    if !cell.is_vertical {
        return 1;
    }
    (rows_below(rows, next, cell) + 1).min(MAX_ROWS) as u16
}

/// In how many rows, from one on, a cell goes on.
fn rows_below(rows: &[RowCells], next: usize, cell: RowCell) -> usize
    requires { next ≤ length rows.now }
    ensures is { result ≡ rows_below cell (drop next rows.now) }
    ensures few { result ≤ length rows.now }
{
    let len = rows.len();
    for number in next..len {
        if !goes_on_in(rows[number].as_slice(), cell) {
            return number - next;
        }
    }
    len - next
}

/// Whether a cell goes on in a row.
fn goes_on_in(row: &[RowCell], cell: RowCell) -> bool
    ensures { result ≡ has_part_in cell row.now }
{
    for below in row {
        if is_on(cell, *below) {
            return true;
        }
    }
    false
}

fn is_on(cell: RowCell, below: RowCell) -> bool
    ensures { result ≡ is_part_of_cell cell below }
{
    below.goes_on && !below.is_part && is_one(cell, below)
}
