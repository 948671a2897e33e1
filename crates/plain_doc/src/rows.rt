// The rows of tables.
ghost use Rattle.std.specs.Prelude.{◌≡◌, ◌+◌, ◌^◌, ◌<◌, ◌≤◌, option_map, Some, None};
ghost use Rattle.std.specs.Prelude.{◌↔◌, length, IsTrue, option_map};
ghost use Rattle.doc_bits.specs.Rules.{LeastOrNone};
ghost use Rattle.plain_doc.specs.Rows.{paragraph_value, is_byte_one, is_row_mark, is_mark_outside, HasCells, FitsRow};
ghost use Rattle.plain_doc.specs.Rows.{BreaksRows, cells_after, mark_value_in};

use crate::{Item, Mark};
use sprm_table::{Code, SPRM_P_F_IN_TABLE, SPRM_P_F_TTP, SPRM_T_DEF_TABLE};
use text_codes::CELL_MARK;

/// The first item that breaks a row, or the length of a text that ends in one.
pub(crate) fn wrong_row(text: &[Item]) -> Option<u32>
    requires { length text.now < 2 ^ 32 }
    ensures { LeastOrNone (BreaksRows text.now) result }
{
    let mut cells = 0;
    for (i, item) in text.iter().enumerate() {
        if !fits_row(cells, item) {
            return Some(i as u32);
        }
        cells = next_cells(cells, item);
    }
    if cells == 0 {
        None
    } else {
        Some(text.len() as u32)
    }
}

/// Whether an item may be where the open row has so many cells.
pub(crate) fn fits_row(cells: usize, item: &Item) -> bool
    ensures { IsTrue result ↔ FitsRow cells item.now }
{
    if is_row_end(item) {
        return has_cells(item, cells);
    }
    cells == 0 || !ends_outside(item)
}

/// The cells of the open row after an item.
pub(crate) fn next_cells(cells: usize, item: &Item) -> usize
    requires { cells < 2 ^ 32 }
    ensures after { result ≡ cells_after cells item.now }
    ensures few { result ≤ cells + 1 }
{
    if item.unit != CELL_MARK {
        cells
    } else if is_set(item, SPRM_P_F_TTP) {
        0
    } else {
        cells + 1
    }
}

/// Whether the item's mark has a row of this many cells.
fn has_cells(item: &Item, cells: usize) -> bool
    ensures { IsTrue result ↔ HasCells (paragraph_value item.now 0xD608) cells }
{
    match paragraph_property(item, SPRM_T_DEF_TABLE) {
        None => false,
        Some(value) => !value.is_empty() && value[0] as usize == cells,
    }
}

/// Whether the item ends a row.
fn is_row_end(item: &Item) -> bool
    ensures { result ≡ is_row_mark item.now }
{
    item.unit == CELL_MARK && is_set(item, SPRM_P_F_TTP)
}

/// Whether the item ends a paragraph that is in no table.
fn ends_outside(item: &Item) -> bool
    ensures { result ≡ is_mark_outside item.now }
{
    item.mark.is_some() && item.unit != CELL_MARK && !is_set(item, SPRM_P_F_IN_TABLE)
}

/// Whether the item's mark has the value 01 at the code.
fn is_set(item: &Item, code: Code) -> bool
    ensures { result ≡ is_byte_one (paragraph_value item.now code.0) }
{
    match paragraph_property(item, code) {
        None => false,
        Some(value) => value.len() == 1 && value[0] == 1,
    }
}

/// The value that the item's mark, where there is one, has at the code.
fn paragraph_property(item: &Item, code: Code) -> Option<&[u8]>
    ensures { option_map (λ v. v.now) result ≡ paragraph_value item.now code.0 }
{
    match &item.mark {
        None => None,
        Some(mark) => mark.pap.get(code),
    }
}

/// The value that the mark, where there is one, has at the code.
pub fn value_at(mark: &Option<Mark>, code: Code) -> Option<&[u8]>
    ensures { option_map (λ v. v.now) result ≡ mark_value_in mark.now code.0 }
{
    match mark {
        None => None,
        Some(mark) => mark.pap.get(code),
    }
}
