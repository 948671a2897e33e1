// The rows of tables that break rule 63.
ghost use Rattle.std.specs.Prelude.{◌≡◌, ◌+◌, ◌^◌, ◌<◌, ◌≤◌, [], ◌∷◌, ◌++◌, if◌then◌else◌, length};
ghost use Rattle.std.specs.Prelude.{Some, None, IfOk, OnOk};
ghost use Rattle.std.specs.List.{filter_map};
ghost use Rattle.plain_doc.specs.Rows.{is_row_mark, is_cell_mark, is_mark_outside, is_byte_one, mark_value_in};
ghost use Rattle.doc_mends.specs.BrokenRows.{marked_item, parts_rows, fits_row, names_cells, broken_row as row_broken};
ghost use Rattle.doc_mends.specs.BrokenRows.{text_broken_rows, texts_broken_rows, broken_rows};
ghost use Rattle.doc_mends.specs.OpenRows.{IsOpenBefore, FindsBefore};

use crate::mends::BrokenRow;
use crate::sides::side_name;
use doc_bits::{Memory, Story};
use doc_columns::{Attached, ColumnDocument, ColumnTexts, Columns};
use plain_doc::{Mark, Side, value_at};
use run_lists::{Cursor, seek};
use sprm_table::{Code, SPRM_P_F_IN_TABLE, SPRM_P_F_TTP, SPRM_T_DEF_TABLE};
use std::alloc::Global;
use text_codes::CELL_MARK;

/// The row that is open: how many items it has so far, and how many of them end cells.
#[derive(Clone, Copy)]
pub(crate) struct OpenRow {
    pub(crate) len: usize,
    pub(crate) cells: usize,
}

/// The rows of a document that break the rule.
pub(crate) fn found_rows(alloc: Global, document: &ColumnDocument) -> Result<Vec<BrokenRow>, Memory>
    ensures { IfOk result (λ list. list.items ≡ broken_rows document.now) }
{
    let mut list = Vec::new(alloc);
    add_text(Story::Main, &document.main, &mut list)?;
    add_texts(Side::Notes, &document.notes, &mut list)?;
    add_texts(Side::Heads, &document.heads, &mut list)?;
    Ok(list)
}

/// Appends those of several texts.
fn add_texts(side: Side, texts: &ColumnTexts, list: &mut Vec<BrokenRow>) -> Result<(), Memory>
    ensures { OnOk result (list.new.items ≡ list.old.items ++ texts_broken_rows side texts.now) }
{
    for number in 0..texts.len() {
        add_text(side_name(side, number), texts.get(number), list)?;
    }
    Ok(())
}

/// Appends those of a text.
pub(crate) fn add_text(
    story: Story,
    text: &Columns,
    list: &mut Vec<BrokenRow>,
) -> Result<(), Memory>
    ensures { OnOk result (list.new.items ≡ list.old.items ++ text_broken_rows story text.now) }
{
    let left = add_rows(story, text, list)?;
    add_found(broken_at_end(story, text.len(), left), list)?;
    Ok(())
}

/// Appends those that an item breaks, and says which row is open at the end.
fn add_rows(story: Story, text: &Columns, list: &mut Vec<BrokenRow>) -> Result<OpenRow, Memory>
    ensures rows { IfOk result (λ left. FindsBefore story text.now list.old.items list.new.items) }
    ensures left { IfOk result (IsOpenBefore text.now (length text.now)) }
{
    let _len = text.len();
    let units = text.units();
    let attachments = text.attachments();
    let mut cursor = Cursor::new();
    let mut row = OpenRow { len: 0, cells: 0 };
    for at in 0..units.len() {
        let attached = seek(attachments, &mut cursor, at);
        add_found(broken_at(story, at, row, units[at], attached), list)?;
        row = row.after(units[at], attached);
    }
    Ok(row)
}

/// Appends a row, where there is one.
fn add_found(found: Option<BrokenRow>, list: &mut Vec<BrokenRow>) -> Result<(), Memory>
    ensures { OnOk result (list.new.items ≡ list.old.items ++ filter_map (λ row. row) (found ∷ [])) }
{
    if let Some(row) = found {
        list.push(row)?;
    }
    Ok(())
}

/// The open row, where an item that is behind it breaks the rule.
fn broken_at(
    story: Story,
    at: usize,
    row: OpenRow,
    unit: u16,
    attached: &Attached,
) -> Option<BrokenRow>
    requires within { row.len ≤ at }
    requires few { at < 2 ^ 32 }
    ensures { result ≡ row_broken story at row.len row.cells (Some (marked_item unit attached.now.mark)) }
{
    if fits(row.cells, unit, &attached.mark) {
        return None;
    }
    Some(BrokenRow {
        story,
        from: at - row.len,
        len: row.len + own_mark(unit, &attached.mark),
        cells: row.cells,
    })
}

/// The row that is open at the end of a text, where it has cells.
fn broken_at_end(story: Story, at: usize, row: OpenRow) -> Option<BrokenRow>
    requires { row.len ≤ at }
    ensures { result ≡ row_broken story at row.len row.cells None }
{
    if row.cells == 0 {
        return None;
    }
    Some(BrokenRow {
        story,
        from: at - row.len,
        len: row.len,
        cells: row.cells,
    })
}

/// One for the mark of a row, which is an item of it.
fn own_mark(unit: u16, mark: &Option<Mark>) -> usize
    ensures is { result ≡ (if is_row_mark (marked_item unit mark.now) then 1 else 0) }
    ensures few { result ≤ 1 }
{
    if ends_row(unit, mark) { 1 } else { 0 }
}

/// Whether an item may be behind so many cells.
fn fits(cells: usize, unit: u16, mark: &Option<Mark>) -> bool
    ensures { result ≡ fits_row cells (marked_item unit mark.now) }
{
    if ends_row(unit, mark) {
        return has_cells(cells, mark);
    }
    cells == 0 || !is_outside(unit, mark)
}

impl OpenRow {
    /// The row that is open behind one item more.
    fn after(self, unit: u16, attached: &Attached) -> OpenRow
        requires len { self.len < 2 ^ 32 }
        requires cells { self.cells < 2 ^ 32 }
        ensures len { result.len ≡ (if parts_rows (marked_item unit attached.now.mark) then 0 else self.len + 1) }
        ensures cells { result.cells ≡ (if parts_rows (marked_item unit attached.now.mark) then 0
            else if is_cell_mark (marked_item unit attached.now.mark) then self.cells + 1 else self.cells) }
    {
        if parts(unit, &attached.mark) {
            return OpenRow { len: 0, cells: 0 };
        }
        OpenRow {
            len: self.len + 1,
            cells: cells_behind(self.cells, unit, &attached.mark),
        }
    }
}

/// Whether what is behind an item is in no row with it.
fn parts(unit: u16, mark: &Option<Mark>) -> bool
    ensures { result ≡ parts_rows (marked_item unit mark.now) }
{
    ends_row(unit, mark) || is_outside(unit, mark)
}

/// The cells behind an item that ends no row.
fn cells_behind(cells: usize, unit: u16, mark: &Option<Mark>) -> usize
    requires { cells < 2 ^ 32 }
    ensures { result ≡ (if is_cell_mark (marked_item unit mark.now) then cells + 1 else cells) }
{
    if ends_cell(unit, mark) {
        cells + 1
    } else {
        cells
    }
}

/// Whether an item ends a row.
fn ends_row(unit: u16, mark: &Option<Mark>) -> bool
    ensures { result ≡ is_row_mark (marked_item unit mark.now) }
{
    unit == CELL_MARK && is_set(mark, SPRM_P_F_TTP)
}

/// Whether an item ends a cell.
fn ends_cell(unit: u16, mark: &Option<Mark>) -> bool
    ensures { result ≡ is_cell_mark (marked_item unit mark.now) }
{
    unit == CELL_MARK && !is_set(mark, SPRM_P_F_TTP)
}

/// Whether an item ends a paragraph that is in no table.
fn is_outside(unit: u16, mark: &Option<Mark>) -> bool
    ensures { result ≡ is_mark_outside (marked_item unit mark.now) }
{
    mark.is_some() && unit != CELL_MARK && !is_set(mark, SPRM_P_F_IN_TABLE)
}

/// Whether the mark has a row of this many cells.
fn has_cells(cells: usize, mark: &Option<Mark>) -> bool
    ensures { result ≡ names_cells cells (mark_value_in mark.now 0xD608) }
{
    match value_at(mark, SPRM_T_DEF_TABLE) {
        None => false,
        Some(value) => is_first(cells, value),
    }
}

/// Whether the first byte of a value is this number.
fn is_first(cells: usize, value: &[u8]) -> bool
    ensures { result ≡ names_cells cells (Some value.now) }
{
    match value.first() {
        None => false,
        Some(count) => *count as usize == cells,
    }
}

/// Whether the mark has the value 01 at the code.
fn is_set(mark: &Option<Mark>, code: Code) -> bool
    ensures { result ≡ is_byte_one (mark_value_in mark.now code.0) }
{
    match value_at(mark, code) {
        None => false,
        Some(value) => value.len() == 1 && value[0] == 1,
    }
}
