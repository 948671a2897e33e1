// Definitions of tables in the stream Data.
ghost use Rattle.std.specs.Prelude.{◌≡◌, ◌↔◌, ◌∷◌, [], ℕ, IsTrue, IfOk, MatchOption, Some};
ghost use Rattle.huge_papx.specs.declared.lists.Sought.TheVariants as sought;
ghost use Rattle.huge_papx.specs.Lists.{HasLastValue};
ghost use Rattle.huge_papx.specs.Definitions.{HasCellPlaces, cells_kept as cells_left, IsRowDefinition, IsNoDefinition};
ghost use Rattle.huge_papx.specs.Definitions.{AreDefinitions, IsDefinitionOf};

use crate::data::prc_list;
use crate::lists::{Sought, last_value};
use doc_bits::{Bytes, Memory};
use std::alloc::Global;

/// A longer definition is cut to the places of its cells.
const MAX_WHOLE: usize = 460;

/// What a list in Data says of a row: its cells, as sprmTDefTable has them, and whether its mark ends it.
#[derive(Drop)]
pub struct RowDefinition {
    pub cells: Bytes,
    pub ends_row: bool,
}

/// The definitions of tables at these places of Data, where they have one.
pub(crate) fn definitions_at(
    alloc: Global,
    stream: &[u8],
    offsets: &[Option<u32>],
) -> Result<Vec<Option<RowDefinition>>, Memory>
    ensures { IfOk result (λ found. AreDefinitions stream.now offsets.now found.items) }
{
    let mut found = Vec::with_capacity(alloc, offsets.len())?;
    for k in 0..offsets.len() {
        let definition = definition_of(alloc, stream, offsets[k])?;
        found.push(definition)?;
    }
    Ok(found)
}

/// The definition of a table at a place, where one is named.
fn definition_of(
    alloc: Global,
    stream: &[u8],
    offset: Option<u32>,
) -> Result<Option<RowDefinition>, Memory>
    ensures { IfOk result (IsDefinitionOf stream.now offset) }
{
    match offset {
        None => Ok(None),
        Some(at) => definition_at(alloc, stream, at as usize),
    }
}

/// The definition of a table that the list at a place has.
fn definition_at(alloc: Global, stream: &[u8], at: usize) -> Result<Option<RowDefinition>, Memory>
    ensures { IfOk result (λ found. MatchOption found
        (IsNoDefinition stream.now at) (IsRowDefinition stream.now at)) }
{
    let Some(list) = prc_list(stream, at) else {
        return Ok(None);
    };
    let Some(value) = last_value(list, Sought::Definition) else {
        return Ok(None);
    };
    if !has_cell_places(value) {
        return Ok(None);
    }
    let cells = Bytes::from_slice(alloc, cells_kept(value))?;
    let ends_row = ends_row(list);
    Ok(Some(RowDefinition { cells, ends_row }))
}

/// Whether a list says of a mark that it ends a row.
fn ends_row(list: &[u8]) -> bool
    ensures { IsTrue result ↔ HasLastValue sought.RowEnd list.now (1 ∷ []) }
{
    match last_value(list, Sought::RowEnd) {
        None => false,
        Some(value) => is_one(value),
    }
}

/// Whether a value is the byte 01.
fn is_one(value: &[u8]) -> bool
    ensures { IsTrue result ↔ value.now ≡ 1 ∷ [] }
{
    let one: &[u8] = &[1];
    value == one
}

/// Whether a value has the places of as many cells as it counts.
fn has_cell_places(value: &[u8]) -> bool
    ensures { IsTrue result ↔ HasCellPlaces value.now }
{
    0 < value.len() && 2 * value[0] as usize + 3 <= value.len()
}

/// The value, or the places of its cells alone.
fn cells_kept(value: &[u8]) -> &[u8]
    requires { HasCellPlaces value.now }
    ensures { result.now ≡ cells_left value.now }
{
    if value.len() <= MAX_WHOLE {
        return value;
    }
    &value[..2 * value[0] as usize + 3]
}
