// The tables of a text, paragraph by paragraph.
ghost use Rattle.std.specs.Prelude.{◌≡◌, ◌++◌, [], ◌∷◌, IfOk, OnOk, OnErr, true};
ghost use Rattle.cell_spans.specs.Tables.{behind_cell, behind_inside, behind_outside, behind_row, no_tables};

use crate::definition::right_definition;
use crate::rows::{Rows, cells_of};
use crate::spans::Spans;
use doc_bits::Memory;
use std::alloc::Global;
use std::marker::Model;

/// Which cells of a row are blank.
#[derive(Drop)]
pub struct Blanks {
    items: Vec<bool>,
}

impl Model for Blanks {
    ghost use Rattle.std.specs.Prelude.{List, Bool};

    ghost Value = { List Bool };

    ghost view = { λ b. b.items.items };
}

impl Blanks {
    /// Of no cell.
    fn new(alloc: Global) -> Blanks
        ensures { result ≡ [] }
    {
        Blanks {
            items: Vec::new(alloc),
        }
    }

    fn push(&mut self, is_blank: bool) -> Result<(), Memory>
        ensures { OnOk result (self.new ≡ self.old ++ is_blank ∷ []) }
    {
        self.items.push(is_blank)?;
        Ok(())
    }

    /// Lets all go.
    fn clear(&mut self)
        ensures { self.new ≡ [] }
    {
        self.items.clear();
    }

    fn as_slice(&self) -> &[bool]
        ensures { result.now ≡ self.now }
    {
        &self.items
    }
}

/// What is known of the cells of a text: those of the tables that ended; the rows of the table that is open, and the cells
/// of its last row that ended; whether a cell begins, and whether all rows so far are heads.
#[derive(Drop)]
pub struct Tables {
    pub spans: Spans,
    pub rows: Rows,
    pub blanks: Blanks,
    pub begins: bool,
    pub heads: bool,
}

impl Tables {
    /// At the start of a text.
    pub fn new(alloc: Global) -> Tables
        ensures { result ≡ no_tables }
    {
        Tables {
            spans: Spans::new(alloc),
            rows: Rows::new(alloc),
            blanks: Blanks::new(alloc),
            begins: true,
            heads: true,
        }
    }

    /// Behind a paragraph outside of tables, or at the end of the text: the table that is open ends.
    pub fn leave(&mut self, alloc: Global) -> Result<(), Memory>
        ensures { OnOk result (self.new ≡ behind_outside self.old) }
    {
        self.spans.push_table(alloc, self.rows.as_slice())?;
        self.spans.push_singles(self.blanks.as_slice())?;
        self.rows.clear();
        self.blanks.clear();
        self.begins = true;
        self.heads = true;
        Ok(())
    }

    /// How far the cells of a text reach that ends here.
    pub fn finish(self, alloc: Global) -> Result<Spans, Memory>
        ensures { IfOk result (λ spans. spans ≡ (behind_outside self).spans) }
    {
        let mut tables = self;
        tables.leave(alloc)?;
        Ok(tables.spans)
    }

    /// Behind a paragraph in a cell that goes on.
    pub fn go_on(&mut self)
        ensures { self.new ≡ behind_inside self.old }
    {
        self.begins = false;
    }

    /// Behind a paragraph that ends a cell, and has its mark alone or not.
    pub fn end_cell(&mut self, is_mark: bool) -> Result<(), Memory>
        ensures { OnOk result (self.new ≡ behind_cell self.old is_mark) }
    {
        self.blanks.push(self.begins && is_mark)?;
        self.begins = true;
        Ok(())
    }

    /// Behind the end of a row of this definition, which is a head or not.
    pub fn end_row(&mut self, alloc: Global, is_head: bool, definition: &[u8]) -> Result<(), Memory>
        ensures { OnOk result (self.new ≡ behind_row self.old is_head definition.now) }
    {
        let heads = self.heads && is_head;
        let cells = cells_of(
            alloc,
            right_definition(definition),
            heads,
            self.blanks.as_slice(),
        )?;
        self.rows.push(cells)?;
        self.blanks.clear();
        self.begins = true;
        self.heads = heads;
        Ok(())
    }
}
