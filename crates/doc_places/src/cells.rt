// The cells of a text.
ghost use Rattle.std.specs.Prelude.{◌≡◌};
ghost use Rattle.doc_places.specs.Places.{no_cells};

use cell_spans::Spans;
use nested_tables::NestedTables;
use std::alloc::Global;

/// How far the cells of a text reach, and the tables inside of them.
#[derive(Drop)]
pub struct TableCells {
    pub spans: Spans,
    pub nested: NestedTables,
}

impl TableCells {
    /// Of a text of which nothing is known.
    pub fn new(alloc: Global) -> TableCells
        ensures { result ≡ no_cells }
    {
        TableCells {
            spans: Spans::new(alloc),
            nested: NestedTables::new(alloc),
        }
    }
}
