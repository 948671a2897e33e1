// The cells of rows.
ghost use Rattle.std.specs.Prelude.{◌≡◌, ◌≤◌, ◌<◌, ◌+◌, ◌++◌, [], ◌∷◌, ◌&&◌, ◌||◌, not, length, drop, slice_get, Bool};
ghost use Rattle.std.specs.Prelude.{Some, false, IfOk, OnOk};
ghost use Rattle.cell_spans.specs.Rows.{row_cells_from, ends, is_first, is_merged, joins_behind, parts_end, row_cell};

use crate::definition::{edge, flag};
use doc_bits::Memory;
use std::alloc::Global;
use std::marker::Model;

/// [MS-DOC] The bits of a TCGRF: fFirstMerged, fMerged, fVertMerge, fVertRestart.
const FIRST_MERGED: u16 = 1;

const MERGED: u16 = 2;

const VERT_MERGE: u16 = 32;

const VERT_RESTART: u16 = 64;

/// A cell of a row.
#[derive(Clone, Copy)]
pub struct RowCell {
    /// Whether its row is in the head of its table.
    pub in_head: bool,
    /// The edges between which it is; 0 is 32,768 on the left of the zero of the row.
    pub left: u16,
    pub right: u16,
    /// Whether it is a part of the cell on its left.
    pub is_part: bool,
    /// Whether it is one of cells above one another that are one.
    pub is_vertical: bool,
    /// Whether it is a part of the cell above it, where that has the same edges.
    pub goes_on: bool,
}

/// The cells of a row.
#[derive(Drop)]
pub struct RowCells {
    items: Vec<RowCell>,
}

impl Model for RowCells {
    ghost use Rattle.std.specs.Prelude.{List};
    ghost use Rattle.std.specs.Coded.{coded_list};
    ghost use Rattle.cell_spans.specs.declared.rows.RowCell.{RowCell};
    ghost use Rattle.cell_spans.specs.contracts.rows.RowCell as cell;

    ghost Value = { List RowCell };

    ghost coded = { coded_list cell.the_row.coded };

    ghost view = { λ r. r.items.items };
}

impl RowCells {
    /// None.
    fn new(alloc: Global) -> RowCells
        ensures { result ≡ [] }
    {
        RowCells {
            items: Vec::new(alloc),
        }
    }

    fn push(&mut self, cell: RowCell) -> Result<(), Memory>
        ensures { OnOk result (self.new ≡ self.old ++ cell ∷ []) }
    {
        self.items.push(cell)?;
        Ok(())
    }

    pub fn as_slice(&self) -> &[RowCell]
        ensures { result.now ≡ self.now }
    {
        &self.items
    }
}

/// The rows of a table.
#[derive(Drop)]
pub struct Rows {
    items: Vec<RowCells>,
}

impl Model for Rows {
    ghost use Rattle.std.specs.Prelude.{List};
    ghost use Rattle.std.specs.Coded.{coded_list};
    ghost use Rattle.cell_spans.specs.declared.rows.RowCell.{RowCell};
    ghost use Rattle.cell_spans.specs.contracts.rows.RowCell as cell;

    ghost Value = { List (List RowCell) };

    ghost coded = { coded_list (coded_list cell.the_row.coded) };

    ghost view = { λ r. r.items.items };
}

impl Rows {
    /// None.
    pub fn new(alloc: Global) -> Rows
        ensures { result ≡ [] }
    {
        Rows {
            items: Vec::new(alloc),
        }
    }

    pub(crate) fn push(&mut self, row: RowCells) -> Result<(), Memory>
        ensures { OnOk result (self.new ≡ self.old ++ row ∷ []) }
    {
        self.items.push(row)?;
        Ok(())
    }

    /// Lets all go.
    pub(crate) fn clear(&mut self)
        ensures { self.new ≡ [] }
    {
        self.items.clear();
    }

    pub(crate) fn as_slice(&self) -> &[RowCells]
        ensures { result.now ≡ self.now }
    {
        &self.items
    }
}

/// The cells of a row of this definition, in the head of its table or not, each blank or not.
pub(crate) fn cells_of(
    alloc: Global,
    definition: &[u8],
    in_head: bool,
    blanks: &[bool],
) -> Result<RowCells, Memory>
    ensures { IfOk result (λ cells. cells ≡ row_cells_from definition.now in_head 0 false blanks.now) }
{
    let mut cells = RowCells::new(alloc);
    let mut joins = false;
    for number in 0..blanks.len() {
        let cell = row_cell(definition, in_head, number, joins, blanks);
        joins = joins_behind(definition, number, cell);
        cells.push(cell)?;
    }
    Ok(cells)
}

/// Whether a cell with this number could be a part of the one that joins the cells on its left.
fn joins_behind(definition: &[u8], number: usize, cell: RowCell) -> bool
    ensures { result ≡ joins_behind definition.now number cell }
{
    is_first(definition, number) || cell.is_part
}

/// The cell with this number, where the cells before it join others or not.
fn row_cell(
    definition: &[u8],
    in_head: bool,
    number: usize,
    joins: bool,
    blanks: &[bool],
) -> RowCell
    requires { number < length blanks.now }
    ensures { (blank : Bool) → slice_get blanks.now number ≡ Some blank
        → result ≡ row_cell definition.now in_head number joins blank (drop (number + 1) blanks.now) }
{
    let is_blank = blanks[number];
    let is_vertical = flag(definition, number, VERT_MERGE);
    RowCell {
        in_head,
        left: edge(definition, number),
        right: edge(definition, end_of(definition, number, blanks)),
        is_part: joins && is_merged(definition, number, is_blank),
        is_vertical,
        goes_on: is_blank && is_vertical && !flag(definition, number, VERT_RESTART),
    }
}

/// The number of the edge where a cell ends.
fn end_of(definition: &[u8], number: usize, blanks: &[bool]) -> usize
    requires { number < length blanks.now }
    ensures { result ≡ ends definition.now number (drop (number + 1) blanks.now) }
{
    if is_first(definition, number) {
        parts_end(definition, number + 1, blanks)
    } else {
        number + 1
    }
}

/// The number of the first cell from one on that is no part of a cell on its left.
fn parts_end(definition: &[u8], from: usize, blanks: &[bool]) -> usize
    requires { from ≤ length blanks.now }
    ensures { result ≡ parts_end definition.now from (drop from blanks.now) }
{
    let len = blanks.len();
    for number in from..len {
        if !is_merged(definition, number, blanks[number]) {
            return number;
        }
    }
    len
}

/// Whether the cells on the right of one can be parts of it.
fn is_first(definition: &[u8], number: usize) -> bool
    ensures { result ≡ is_first definition.now number }
{
    flag(definition, number, FIRST_MERGED)
}

/// Whether a cell that is blank or not can be a part of one on its left.
fn is_merged(definition: &[u8], number: usize, is_blank: bool) -> bool
    ensures { result ≡ is_merged definition.now number is_blank }
{
    is_blank && flag(definition, number, MERGED) && !is_first(definition, number)
}
