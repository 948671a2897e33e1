// The columns of a table.
ghost use Rattle.std.specs.Prelude.{◌≡◌, ◌≤◌, ◌==◌, ◌++◌, [], ◌∷◌, length, if◌then◌else◌, IfOk, OnOk};
ghost use Rattle.std.specs.List.{count_by, list_any};
ghost use Rattle.cell_spans.specs.Spans.{column_count, edges_with, edges_of, edges_of_rows, is_edge_within};

use crate::rows::{RowCell, RowCells};
use doc_bits::Memory;
use std::alloc::Global;
use std::marker::Model;

/// How many edges of a table are counted.
const MAX_EDGES: usize = 256;

/// How many columns a cell reaches over at most.
const MAX_COLUMNS: usize = 999;

/// The edges of the rows of a table, each once.
#[derive(Drop)]
pub(crate) struct Edges {
    items: Vec<u16>,
}

impl Model for Edges {
    ghost use Rattle.std.specs.Prelude.{List, ℕ};

    ghost Value = { List ℕ };

    ghost view = { λ e. e.items.items };
}

impl Edges {
    /// None.
    fn new(alloc: Global) -> Edges
        ensures { result ≡ [] }
    {
        Edges {
            items: Vec::new(alloc),
        }
    }

    /// Adds one that is not there.
    fn add(&mut self, edge: u16) -> Result<(), Memory>
        ensures { OnOk result (self.new ≡ edges_with self.old edge) }
    {
        if has_edge(&self.items, edge) || self.items.len() >= MAX_EDGES {
            return Ok(());
        }
        self.items.push(edge)?;
        Ok(())
    }

    /// Adds those of the cells of a row.
    fn add_cells(&mut self, cells: &[RowCell]) -> Result<(), Memory>
        ensures { OnOk result (self.new ≡ edges_of self.old cells.now) }
    {
        for cell in cells {
            self.add(cell.left)?;
            self.add(cell.right)?;
        }
        Ok(())
    }

    /// Over how many columns a cell reaches.
    pub(crate) fn across(&self, cell: RowCell) -> u16
        ensures { result ≡ column_count self.now cell }
    {
        count_between(&self.items, cell).max(1).min(MAX_COLUMNS) as u16
    }
}

/// Whether an edge is among some.
fn has_edge(edges: &[u16], edge: u16) -> bool
    ensures { result ≡ list_any (λ e. e == edge) edges.now }
{
    for one in edges {
        if *one == edge {
            return true;
        }
    }
    false
}

/// How many edges are behind the left one of a cell, up to its right one.
fn count_between(edges: &[u16], cell: RowCell) -> usize
    ensures { result ≡ count_by (is_edge_within cell) edges.now }
{
    let mut count = 0;
    for one in edges {
        count += count_one(*one, cell);
    }
    count
}

/// 1 where an edge is between those of a cell.
fn count_one(edge: u16, cell: RowCell) -> usize
    ensures is { result ≡ (if is_edge_within cell edge then 1 else 0) }
    ensures few { result ≤ 1 }
{
    if cell.left < edge && edge <= cell.right {
        1
    } else {
        0
    }
}

/// Those of the rows of a table.
pub(crate) fn edges_of(alloc: Global, rows: &[RowCells]) -> Result<Edges, Memory>
    ensures { IfOk result (λ edges. edges ≡ edges_of_rows [] rows.now) }
{
    let mut edges = Edges::new(alloc);
    for number in 0..rows.len() {
        edges.add_cells(rows[number].as_slice())?;
    }
    Ok(edges)
}
