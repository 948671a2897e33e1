// How deep paragraphs are in tables.
ghost use Rattle.std.specs.Prelude.{◌≡◌, ◌++◌, [], ◌∷◌, OnOk};
ghost use Rattle.nested_tables.specs.Tables.{ends_cell, ends_row, reaches_depth, keeps_row};

use doc_bits::Memory;
use std::alloc::Global;
use std::marker::Model;

/// How deep a paragraph is in tables, and what ends with it of the table of its depth.
#[derive(Clone, Copy)]
pub struct Depth {
    /// [MS-DOC] sprmPItap: 1 in a cell of a table that is in no other one.
    pub depth: u32,
    pub ends_cell: bool,
    pub ends_row: bool,
    /// Whether it has its mark alone.
    pub is_mark: bool,
}

impl Depth {
    /// Whether it is at least so deep.
    pub(crate) fn is_within(self, depth: u32) -> bool
        ensures { result ≡ reaches_depth depth self }
    {
        depth <= self.depth
    }

    /// Whether a cell of the table of a depth ends with it.
    pub(crate) fn is_cell_end(self, depth: u32) -> bool
        ensures { result ≡ ends_cell depth self }
    {
        self.depth == depth && self.ends_cell
    }

    /// Whether a row of the table of a depth ends with it.
    pub(crate) fn is_row_end(self, depth: u32) -> bool
        ensures { result ≡ ends_row depth self }
    {
        self.depth == depth && self.ends_row
    }

    /// Whether a row of the table of a depth goes on behind it.
    pub(crate) fn keeps_row(self, depth: u32) -> bool
        ensures { result ≡ keeps_row depth self }
    {
        self.is_within(depth) && !self.is_row_end(depth)
    }
}

/// Those of the paragraphs of a text.
#[derive(Drop)]
pub struct Depths {
    items: Vec<Depth>,
}

impl Model for Depths {
    ghost use Rattle.std.specs.Prelude.{List};
    ghost use Rattle.std.specs.Coded.{coded_list};
    ghost use Rattle.nested_tables.specs.declared.depths.Depth.{Depth};
    ghost use Rattle.nested_tables.specs.contracts.depths.Depth as depth;

    ghost Value = { List Depth };

    ghost coded = { coded_list depth.the_row.coded };

    ghost view = { λ d. d.items.items };
}

impl Depths {
    /// Of no paragraph.
    pub fn new(alloc: Global) -> Depths
        ensures { result ≡ [] }
    {
        Depths {
            items: Vec::new(alloc),
        }
    }

    pub fn push(&mut self, depth: Depth) -> Result<(), Memory>
        ensures { OnOk result (self.new ≡ self.old ++ depth ∷ []) }
    {
        self.items.push(depth)?;
        Ok(())
    }

    pub(crate) fn as_slice(&self) -> &[Depth]
        ensures { result.now ≡ self.now }
    {
        &self.items
    }
}
