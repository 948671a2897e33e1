// Where a paragraph is.
ghost use Rattle.std.specs.Prelude.{◌≡◌, ◌+◌, ◌^◌, ◌<◌, ◌≤◌, ◌++◌, ◌&&◌, [], ◌∷◌, length, true, if◌then◌else◌};
ghost use Rattle.doc_places.specs.Grid.{grid_after};
ghost use Rattle.doc_places.specs.Places.{around_of, block_of, cell_at, cell_of, cells_by, is_bare_in_cell, is_row_end};
ghost use Rattle.doc_places.specs.Places.{is_nested_row_end, item_elements, nested_cell, nested_elements, outer_cell};
ghost use Rattle.doc_places.specs.Places.{own_elements};
ghost use Rattle.doc_view.specs.Layout.{closes_cell};
ghost use Rattle.view_places.specs.declared.element.Element.TheVariants.{Table, TableBody, TableHead, Row, Cell};
ghost use Rattle.view_places.specs.declared.element.Element.TheVariants.{HeadCell};
ghost use Rattle.view_places.specs.declared.element.Element.TheVariants.{NestedTable, NestedRow};

use crate::cells::TableCells;
use crate::lists::{ListItem, Lists};
use crate::looks::Look;
use cell_spans::single;
use doc_view::Standing;
use nested_tables::{NestedPlace, NestedPlaces};
use view_paths::{MAX_DEPTH, Path};
use view_places::{Cell as CellForm, Element, Paragraph, Span};

/// The number of a paragraph in its text, the numbers of the first paragraphs of its table and of its row, and how many
/// cells of the row and of the text are before it; and whether each row of the table before its own is a head.
#[derive(Clone, Copy)]
pub struct Grid {
    pub number: usize,
    pub table: usize,
    pub row: usize,
    pub cell: usize,
    pub ended: usize,
    pub heads: bool,
}

/// The cell that a paragraph is in: whether it is in the head of its table, how far it reaches, where it is no part of
/// another cell, and the tables inside of it that the paragraph is in.
#[derive(Clone, Copy)]
pub struct InCell {
    pub in_head: bool,
    pub span: Option<Span>,
    pub nested: NestedPlaces,
}

impl Grid {
    /// At the start of a text.
    pub fn new() -> Grid
        ensures { result ≡ record { number = 0; table = 0; row = 0; cell = 0; ended = 0; heads = true } }
    {
        Grid {
            number: 0,
            table: 0,
            row: 0,
            cell: 0,
            ended: 0,
            heads: true,
        }
    }

    /// Whether a paragraph is in the head of its table, where its row is a head or not.
    pub fn in_head(self, is_head: bool) -> bool
        ensures { result ≡ (self.heads && is_head) }
    {
        self.heads && is_head
    }

    /// Behind one more paragraph.
    pub fn behind(self, standing: Standing) -> Grid
        requires number { self.number + 1 < 2 ^ 64 }
        requires cell { self.cell + 1 < 2 ^ 64 }
        requires ended { self.ended + 1 < 2 ^ 64 }
        ensures { result ≡ grid_after self standing }
    {
        let next = self.number + 1;
        let in_table = standing.is_in_table();
        let keeps = standing.keeps_row();
        let ends_head = standing.ends_head();
        Grid {
            number: next,
            table: if in_table { self.table } else { next },
            row: if keeps { self.row } else { next },
            cell: if keeps {
                self.cell + count_ended(standing)
            } else {
                0
            },
            ended: self.ended + count_ended(standing),
            heads: if in_table {
                (keeps || ends_head) && self.heads
            } else {
                true
            },
        }
    }
}

/// How many cells end.
fn count_ended(standing: Standing) -> usize
    ensures is { result ≡ (if closes_cell standing then 1 else 0) }
    ensures few { result ≤ 1 }
{
    if standing.ends_cell() { 1 } else { 0 }
}

/// The cell of a paragraph that is so, in the head of a table or not, by the cells of the text. A mark of a row is in
/// none of them.
pub fn cell_at(cells: &TableCells, grid: Grid, standing: Standing, in_head: bool) -> Option<InCell>
    ensures { result ≡ cell_at (cells_by cells.now) grid standing in_head }
{
    if !standing.is_in_table() {
        return None;
    }
    let span = if standing.keeps_row() {
        cells.spans.get(grid.ended)
    } else {
        Some(single())
    };
    Some(InCell {
        in_head,
        span,
        nested: cells.nested.get(grid.number),
    })
}

/// Puts the elements that a paragraph is in, in a cell or behind these lists, and the paragraph, inside of a path. In a
/// cell that is a part of another one, and at the mark of a row inside of a cell, there is no paragraph.
pub fn push_block(
    path: &mut Path<Element>,
    grid: Grid,
    cell: Option<InCell>,
    look: &Look,
    lists: &Lists,
)
    requires { length path.old + 13 ≤ MAX_DEPTH }
    ensures { path.new ≡ path.old ++ block_of grid cell look.now lists.now }
{
    push_around(path, grid, cell, look.item, lists);
    push_own(path, is_bare(cell), grid.number, look);
}

/// Puts what is around a paragraph.
fn push_around(
    path: &mut Path<Element>,
    grid: Grid,
    cell: Option<InCell>,
    item: Option<ListItem>,
    lists: &Lists,
)
    requires { length path.old + 12 ≤ MAX_DEPTH }
    ensures is { path.new ≡ path.old ++ around_of grid cell item lists.now }
    ensures few { length path.new ≤ length path.old + 12 }
{
    match cell {
        None => push_item(path, lists, item, grid.number),
        Some(cell) => push_cell(path, grid, cell),
    }
}

/// Whether a paragraph is in a cell that is a part of another one, or is the mark of a row inside of a cell.
fn is_bare(cell: Option<InCell>) -> bool
    ensures { result ≡ is_bare_in_cell cell }
{
    match cell {
        None => false,
        Some(cell) => cell.span.is_none() || is_row_mark(cell.nested),
    }
}

/// Whether a paragraph is the mark of a row of a table inside of a cell.
fn is_row_mark(nested: NestedPlaces) -> bool
    ensures { result ≡ is_nested_row_end nested }
{
    is_row_end(nested.second) || is_row_end(nested.third)
}

/// Whether it is in no cell of a table that it is in.
fn is_row_end(place: Option<NestedPlace>) -> bool
    ensures { result ≡ is_row_end place }
{
    match place {
        None => false,
        Some(place) => place.cell.is_none(),
    }
}

/// Puts a paragraph with this number, where it is seen.
fn push_own(path: &mut Path<Element>, is_bare: bool, number: usize, look: &Look)
    requires { length path.old < MAX_DEPTH }
    ensures { path.new ≡ path.old ++ own_elements is_bare number look.now }
{
    if is_bare {
        return;
    }
    path.push(Element::Paragraph(Paragraph {
        number,
        level: look.level,
        right_to_left: look.right_to_left,
        breaks_page: look.breaks_page,
    }));
}

/// Puts the lists of an item, where there is one.
fn push_item(path: &mut Path<Element>, lists: &Lists, item: Option<ListItem>, number: usize)
    requires { length path.old + 12 ≤ MAX_DEPTH }
    ensures is { path.new ≡ path.old ++ item_elements lists.now item number }
    ensures few { length path.new ≤ length path.old + 12 }
{
    match item {
        None => {}
        Some(item) => lists.with_item(item, number).push(path),
    }
}

/// Puts a table, its head or its body, a row and a cell, and the tables inside of it.
fn push_cell(path: &mut Path<Element>, grid: Grid, cell: InCell)
    requires { length path.old + 10 ≤ MAX_DEPTH }
    ensures is { path.new ≡ path.old ++ cell_of grid cell }
    ensures few { length path.new ≤ length path.old + 10 }
{
    push_outer(path, grid, cell);
    push_nested(path, cell.nested.second);
    push_nested(path, cell.nested.third);
}

/// Puts a table inside of a cell, its row and its cell, where there is one.
fn push_nested(path: &mut Path<Element>, place: Option<NestedPlace>)
    requires { length path.old + 3 ≤ MAX_DEPTH }
    ensures is { path.new ≡ path.old ++ nested_elements place }
    ensures few { length path.new ≤ length path.old + 3 }
{
    match place {
        None => {}
        Some(place) => push_nested_row(path, place),
    }
}

/// Puts a table inside of a cell, its row and its cell.
fn push_nested_row(path: &mut Path<Element>, place: NestedPlace)
    requires { length path.old + 3 ≤ MAX_DEPTH }
    ensures is { path.new
        ≡ path.old ++ NestedTable place.table ∷ NestedRow place.row ∷ nested_cell place.cell }
    ensures few { length path.new ≤ length path.old + 3 }
{
    path.push(Element::NestedTable(place.table));
    path.push(Element::NestedRow(place.row));
    push_nested_cell(path, place.cell);
}

/// Puts a cell of such a row, where there is one.
fn push_nested_cell(path: &mut Path<Element>, cell: Option<usize>)
    requires { length path.old < MAX_DEPTH }
    ensures is { path.new ≡ path.old ++ nested_cell cell }
    ensures few { length path.new ≤ length path.old + 1 }
{
    match cell {
        None => {}
        Some(number) => path.push(Element::NestedCell(number)),
    }
}

/// Puts a table, its head or its body, a row and a cell.
fn push_outer(path: &mut Path<Element>, grid: Grid, cell: InCell)
    requires { length path.old + 4 ≤ MAX_DEPTH }
    ensures is { path.new ≡ path.old ++ outer_cell grid cell }
    ensures few { length path.new ≤ length path.old + 4 }
{
    let form = CellForm {
        number: grid.cell,
        span: cell.span,
    };
    if cell.in_head {
        push_head_cell(path, grid, form);
    } else {
        push_body_cell(path, grid, form);
    }
}

/// Puts a table, its head, a row and a cell.
fn push_head_cell(path: &mut Path<Element>, grid: Grid, form: CellForm)
    requires { length path.old + 4 ≤ MAX_DEPTH }
    ensures { path.new ≡ path.old ++ Table grid.table ∷ TableHead ∷ Row grid.row ∷ HeadCell form ∷ [] }
{
    path.push(Element::Table(grid.table));
    path.push(Element::TableHead);
    path.push(Element::Row(grid.row));
    path.push(Element::HeadCell(form));
}

/// Puts a table, its body, a row and a cell.
fn push_body_cell(path: &mut Path<Element>, grid: Grid, form: CellForm)
    requires { length path.old + 4 ≤ MAX_DEPTH }
    ensures { path.new ≡ path.old ++ Table grid.table ∷ TableBody ∷ Row grid.row ∷ Cell form ∷ [] }
{
    path.push(Element::Table(grid.table));
    path.push(Element::TableBody);
    path.push(Element::Row(grid.row));
    path.push(Element::Cell(form));
}
