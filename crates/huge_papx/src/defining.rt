// Rows of a document get the cells that Data has for them.
ghost use Rattle.std.specs.Prelude.{◌≡◌, ℕ, false, None, slice_index_or, map, take, All, IfOk};
ghost use Rattle.doc_bits.specs.Number.{AreBytes};
ghost use Rattle.huge_papx.specs.Defined.{definition_change, definition_mend, AreRowsOf, IsDefined, IsStruckThenDefined};

use crate::data::data_of;
use crate::definitions::definitions_at;
use crate::rows::{DefinedRow, defining, document_rows};
use deleted_text::{StoryBegins, strike_text};
use doc_bits::Memory;
use doc_columns::ColumnDocument;
use doc_mends::{Mend, RowMark};
use doc_patch::{Change, Changes, make_all};
use std::alloc::Global;

/// How many rows get their cells at most.
pub const MAX_DEFINED: usize = 2048;

/// Strikes through what a reviser deleted of a document, by flags of its CPs, and then gives its rows the cells that its
/// stream Data has for them, by the places of Data that its CPs name. Where memory runs out the document may be any.
pub fn strike_and_define(
    alloc: Global,
    document: &mut ColumnDocument,
    begins: StoryBegins,
    flags: &[bool],
    offsets: &[Option<u32>],
) -> Result<Vec<Mend>, Memory>
    ensures { IfOk result (λ mends.
        IsStruckThenDefined begins (flags.now, offsets.now) document.old document.new mends.items) }
{
    let mut mends = strike_text(alloc, document, begins, flags)?;
    let definitions = define_rows(alloc, document, begins, offsets)?;
    mends.extend_from_slice(&definitions)?;
    Ok(mends)
}

/// Gives the rows of a document the cells that its stream Data has for them.
fn define_rows(
    alloc: Global,
    document: &mut ColumnDocument,
    begins: StoryBegins,
    offsets: &[Option<u32>],
) -> Result<Vec<Mend>, Memory>
    ensures { IfOk result (λ mends. IsDefined begins offsets.now document.old document.new mends.items) }
{
    let rows = rows_in(alloc, document, begins, offsets)?;
    if rows.len() == 0 {
        return Ok(Vec::new(alloc));
    }
    let first = first_rows(&rows, MAX_DEFINED);
    let changes = row_changes(alloc, first)?;
    let mends = row_mends(alloc, first)?;
    let copy = document.copy(alloc)?;
    let made = make_all(alloc, copy, &changes)?;
    *document = made;
    Ok(mends)
}

/// The rows of a document that get their cells.
fn rows_in(
    alloc: Global,
    document: &ColumnDocument,
    begins: StoryBegins,
    offsets: &[Option<u32>],
) -> Result<Vec<DefinedRow>, Memory>
    ensures { IfOk result (λ rows. AreRowsOf begins offsets.now document.now rows.items) }
{
    if !names_some(offsets) {
        return Ok(Vec::new(alloc));
    }
    let stream = data_of(&document.carried.streams);
    let definitions = definitions_at(alloc, stream, offsets)?;
    let rows = document_rows(alloc, document, begins, &definitions)?;
    Ok(rows)
}

/// Whether one of the places is named.
fn names_some(offsets: &[Option<u32>]) -> bool
    ensures { result ≡ false → (k : ℕ) → slice_index_or offsets.now k None ≡ None }
{
    for k in 0..offsets.len() {
        if is_named(offsets[k]) {
            return true;
        }
    }
    false
}

/// Whether a place is named.
fn is_named(offset: Option<u32>) -> bool
    ensures { result ≡ false → offset ≡ None }
{
    match offset {
        None => false,
        Some(_) => true,
    }
}

/// The first so many rows.
fn first_rows(rows: &[DefinedRow], count: usize) -> &[DefinedRow]
    ensures { result.now ≡ take count rows.now }
{
    &rows[..count.min(rows.len())]
}

/// What is changed of a document whose rows get their cells.
fn row_changes(alloc: Global, rows: &[DefinedRow]) -> Result<Changes, Memory>
    ensures is { IfOk result (λ changes. changes ≡ map definition_change rows.now) }
    ensures bytes { IfOk result (λ changes. All (λ row. AreBytes row.cells) rows.now) }
{
    let mut changes = Changes::new(alloc);
    for k in 0..rows.len() {
        let change = row_change(alloc, &rows[k])?;
        changes.add(change)?;
    }
    Ok(changes)
}

/// What is changed where a row gets its cells.
fn row_change(alloc: Global, row: &DefinedRow) -> Result<Change, Memory>
    ensures is { IfOk result (λ change. change ≡ definition_change row.now) }
    ensures bytes { IfOk result (λ change. AreBytes row.now.cells) }
{
    let cells = row.cells.as_slice();
    let modifier = defining(alloc, cells)?;
    are_bytes(cells);
    let at = row.at as usize;
    Ok(Change::ModifyItems(row.story, at, at + 1, modifier))
}

/// Bytes are below 256.
fn are_bytes(bytes: &[u8])
    ensures { AreBytes bytes.now }
{}

/// The mends of these rows.
fn row_mends(alloc: Global, rows: &[DefinedRow]) -> Result<Vec<Mend>, Memory>
    ensures { IfOk result (λ mends. mends.items ≡ map definition_mend rows.now) }
{
    let mut mends = Vec::with_capacity(alloc, rows.len())?;
    for k in 0..rows.len() {
        mends.push(row_mend(&rows[k]))?;
    }
    Ok(mends)
}

/// The mend of a row.
fn row_mend(row: &DefinedRow) -> Mend
    ensures { result ≡ definition_mend row.now }
{
    Mend::DefineRow(RowMark {
        story: row.story,
        at: row.at as usize,
    })
}
