// Rows of tables.
ghost use Rattle.std.specs.Prelude.{◌≡◌, ◌+◌, ◌*◌, ◌^◌, ◌<◌, ◌≤◌, [], ◌∷◌, ◌++◌, length, replicate, IfOk, OnOk};
ghost use Rattle.std.specs.List.{flat_map, sum_by};
ghost use Rattle.std.specs.FinMap.{empty, insert};
ghost use Rattle.prop_map.specs.Formed.{IsPropertyMap, paragraph_groups};
ghost use Rattle.doc_model.specs.Document.{HasPropertyMaps};
ghost use Rattle.edit_ops.specs.Codes.{IsPutRow, most_units};
ghost use Rattle.edit_ops.specs.Fresh.{cell_properties as settings_of_cells, row_properties as settings_of_row};
ghost use Rattle.edit_ops.specs.Fresh.{row_definition as definition_of, row_items as items_of, cell_items as items_in};
ghost use Rattle.edit_ops.specs.Fresh.{mark_item as marked_item, mark_with};

use crate::Cells;
use crate::fresh::mark_item;
use doc_bits::{Bytes, Memory};
use doc_columns::Columns;
use plain_doc::{Item, Mark};
use prop_map::PropMap;
use sprm_table::{SPRM_P_F_IN_TABLE, SPRM_P_F_TTP, SPRM_T_DEF_TABLE};
use std::alloc::Global;
use text_codes::CELL_MARK;

/// [MS-DOC] TC80: what the definition of a row says of a cell.
const TC_LEN: usize = 20;

/// The most of them that a row has.
const MAX_TC_BYTES: usize = 1260;

/// The properties of a paragraph in a table.
fn cell_properties(alloc: Global) -> Result<PropMap, Memory>
    ensures map { IfOk result (λ made. made ≡ settings_of_cells) }
    ensures formed { IfOk result (IsPropertyMap paragraph_groups) }
{
    let mut made = PropMap::new(alloc);
    made.set(SPRM_P_F_IN_TABLE, &[1])?;
    Ok(made)
}

/// The definition of a row of so many cells of this width, in twips.
fn row_definition(alloc: Global, cells: u8, width: u16) -> Result<Bytes, Memory>
    requires cells { cells ≤ 63 }
    requires within { cells * width ≤ 32767 }
    ensures { IfOk result (λ made. made ≡ definition_of cells width) }
{
    let mut bytes = Bytes::from_slice(alloc, &[cells])?;
    for edge in 0..cells as u16 + 1 {
        bytes.push16(edge * width)?;
    }
    push_zeros(&mut bytes, TC_LEN * cells as usize)?;
    Ok(bytes)
}

/// Appends zeros, as many as the cells of a row have at most.
fn push_zeros(bytes: &mut Bytes, count: usize) -> Result<(), Memory>
    requires { count ≤ 1260 }
    ensures { OnOk result (bytes.new ≡ bytes.old ++ replicate count 0) }
{
    let zeros = [0u8; MAX_TC_BYTES];
    bytes.push_all(&zeros[..count])?;
    Ok(())
}

/// The properties of the mark of a row.
fn row_properties(alloc: Global, cells: u8, width: u16) -> Result<PropMap, Memory>
    requires cells { cells ≤ 63 }
    requires within { cells * width ≤ 32767 }
    ensures map { IfOk result (λ made. made ≡ settings_of_row cells width) }
    ensures formed { IfOk result (IsPropertyMap paragraph_groups) }
{
    let definition = row_definition(alloc, cells, width)?;
    let made = mark_properties(alloc, definition.as_slice());
    drop(definition);
    made
}

/// The properties of the mark of a row with this definition.
fn mark_properties(alloc: Global, definition: &[u8]) -> Result<PropMap, Memory>
    ensures { IfOk result
        (λ made. made ≡ insert (insert settings_of_cells 0x2417 (1 ∷ [])) 0xD608 definition.now) }
{
    let mut made = cell_properties(alloc)?;
    made.set(SPRM_P_F_TTP, &[1])?;
    made.set(SPRM_T_DEF_TABLE, definition)?;
    Ok(made)
}

/// The mark that ends a cell or a row, with these properties.
fn table_mark(alloc: Global, pap: PropMap) -> Result<Item, Memory>
    requires { IsPropertyMap paragraph_groups pap }
    ensures item { IfOk result (λ made. made ≡ marked_item empty 0x07 (mark_with pap)) }
    ensures maps { IfOk result HasPropertyMaps }
{
    let none = PropMap::new(alloc);
    let item = mark_item(alloc, &none, CELL_MARK, Mark { istd: 0, pap })?;
    Ok(item)
}

/// A text with the items of a cell more: its units, and its mark, which has these properties.
fn add_cell(
    alloc: Global,
    items: Columns,
    units: &[u16],
    properties: &PropMap,
) -> Result<Columns, Memory>
    requires few { length items + length units.now + 1 < 2 ^ 32 }
    requires properties { properties.now ≡ settings_of_cells }
    requires formed { IsPropertyMap paragraph_groups properties.now }
    ensures { IfOk result (λ made. made ≡ items ++ items_in units.now) }
{
    let none = PropMap::new(alloc);
    let shown = items.add_units(units, none)?;
    with_cell_mark(alloc, shown, properties)
}

/// A text with the mark of a cell more, which has a copy of these properties.
fn with_cell_mark(alloc: Global, text: Columns, properties: &PropMap) -> Result<Columns, Memory>
    requires few { length text + 1 < 2 ^ 32 }
    requires formed { IsPropertyMap paragraph_groups properties.now }
    ensures { IfOk result (λ made. made ≡ text ++ marked_item empty 0x07 (mark_with properties.now) ∷ []) }
{
    let mark = mark_of_cell(alloc, properties)?;
    let made = text.add(mark)?;
    Ok(made)
}

/// The mark that ends a cell, with a copy of these properties.
fn mark_of_cell(alloc: Global, properties: &PropMap) -> Result<Item, Memory>
    requires { IsPropertyMap paragraph_groups properties.now }
    ensures item { IfOk result (λ made. made ≡ marked_item empty 0x07 (mark_with properties.now)) }
    ensures maps { IfOk result HasPropertyMaps }
{
    let pap = properties.copy(alloc)?;
    let mark = table_mark(alloc, pap)?;
    Ok(mark)
}

/// The mark that ends a row of so many cells of this width.
fn mark_of_row(alloc: Global, cells: u8, width: u16) -> Result<Item, Memory>
    requires cells { cells ≤ 63 }
    requires within { cells * width ≤ 32767 }
    ensures item { IfOk result (λ made. made ≡ marked_item empty 0x07 (mark_with (settings_of_row cells width))) }
    ensures maps { IfOk result HasPropertyMaps }
{
    let properties = row_properties(alloc, cells, width)?;
    let mark = table_mark(alloc, properties)?;
    Ok(mark)
}

/// A row of cells with these texts.
pub(crate) fn row_items(alloc: Global, width: u16, cells: &Cells) -> Result<Columns, Memory>
    requires { IsPutRow width cells.now }
    ensures { IfOk result (λ made. made ≡ items_of width cells.now) }
{
    let items = all_cells(alloc, cells)?;
    let mark = mark_of_row(alloc, cells.len() as u8, width)?;
    let made = items.add(mark)?;
    Ok(made)
}

/// The cells of a row.
fn all_cells(alloc: Global, cells: &Cells) -> Result<Columns, Memory>
    requires few { length cells.now ≤ 63 }
    requires units { sum_by length cells.now ≤ most_units }
    ensures items { IfOk result (λ made. made ≡ flat_map items_in cells.now) }
    ensures room { IfOk result (λ made. length made + 1 < 2 ^ 32) }
{
    let properties = cell_properties(alloc)?;
    let items = cells_with(alloc, cells, &properties);
    drop(properties);
    items
}

/// The cells of a row, where the properties of their marks are there.
fn cells_with(alloc: Global, cells: &Cells, properties: &PropMap) -> Result<Columns, Memory>
    requires few { length cells.now ≤ 63 }
    requires units { sum_by length cells.now ≤ most_units }
    requires properties { properties.now ≡ settings_of_cells }
    requires formed { IsPropertyMap paragraph_groups properties.now }
    ensures items { IfOk result (λ made. made ≡ flat_map items_in cells.now) }
    ensures room { IfOk result (λ made. length made + 1 < 2 ^ 32) }
{
    let mut items = Columns::new(alloc);
    for i in 0..cells.len() {
        items = add_cell(alloc, items, cells.get(i).as_slice(), properties)?;
    }
    Ok(items)
}
