// Rows of tables that break rule 63 and become paragraphs.
ghost use Rattle.std.specs.Prelude.{◌≡◌, ◌+◌, ◌<◌, ◌≤◌, [], length, map, All, Some, slice_get};
ghost use Rattle.std.specs.Prelude.{IfOk, OnOk, OnErr};
ghost use Rattle.doc_patch.specs.Changes.{changed_at};
ghost use Rattle.doc_mends.specs.declared.mends.Mend.TheVariants.{PlainRow};
ghost use Rattle.doc_bits.specs.declared.places.Story.TheVariants.{Main};
ghost use Rattle.doc_mends.specs.BrokenRows.{text_broken_rows, broken_rows};
ghost use Rattle.doc_mends.specs.PlainRows.{row_plain, rows_plain, plain_text as text_left, with_plain_rows};
ghost use Rattle.doc_mends.specs.Kept.{KeepsAllButTexts};

use crate::mends::{BrokenRow, Mend};
use crate::plain_items::{PlainMaps, item_in};
use crate::rows::{add_text, found_rows};
use doc_bits::{Memory, Story};
use doc_columns::{ColumnDocument, ColumnTexts, Columns};
use plain_doc::Items;
use std::alloc::Global;
use std::mem;

/// Makes paragraphs of the rows that break rule 63: their cells and their own marks end paragraphs, and no mark in them
/// has properties of tables.
pub fn plain_rows(alloc: Global, document: &mut ColumnDocument) -> Result<Vec<Mend>, Memory>
    ensures document { OnOk result (document.new ≡ with_plain_rows document.old) }
    ensures mends { IfOk result (λ mends. mends.items ≡ map PlainRow (broken_rows document.old)) }
    ensures err { OnErr result (KeepsAllButTexts document.old document.new) }
{
    let found = found_rows(alloc, document)?;
    make_where_found(alloc, document, &found)?;
    let mends = row_mends(alloc, &found)?;
    Ok(mends)
}

/// Makes paragraphs of these, where there are some.
fn make_where_found(
    alloc: Global,
    document: &mut ColumnDocument,
    found: &[BrokenRow],
) -> Result<(), Memory>
    requires { found.now ≡ broken_rows document.old }
    ensures ok { OnOk result (document.new ≡ with_plain_rows document.old) }
    ensures err { OnErr result (KeepsAllButTexts document.old document.new) }
{
    if found.is_empty() {
        return Ok(());
    }
    make_plain(alloc, document)
}

/// The mends of these rows.
fn row_mends(alloc: Global, found: &[BrokenRow]) -> Result<Vec<Mend>, Memory>
    ensures { IfOk result (λ mends. mends.items ≡ map PlainRow found.now) }
{
    let mut mends = Vec::with_capacity(alloc, found.len())?;
    for k in 0..found.len() {
        mends.push(Mend::PlainRow(found[k]))?;
    }
    Ok(mends)
}

/// Makes paragraphs of all of them.
fn make_plain(alloc: Global, document: &mut ColumnDocument) -> Result<(), Memory>
    ensures ok { OnOk result (document.new ≡ with_plain_rows document.old) }
    ensures err { OnErr result (KeepsAllButTexts document.old document.new) }
{
    let main = mem::replace(&mut document.main, Columns::new(alloc));
    document.main = plain_text(alloc, main)?;
    plain_texts(alloc, &mut document.notes)?;
    plain_texts(alloc, &mut document.heads)?;
    Ok(())
}

/// Makes paragraphs of those of several texts.
fn plain_texts(alloc: Global, texts: &mut ColumnTexts) -> Result<(), Memory>
    ensures { OnOk result (texts.new ≡ map text_left texts.old) }
{
    for k in 0..texts.len() {
        plain_at(alloc, texts, k)?;
    }
    Ok(())
}

/// Makes paragraphs of those of one of several texts.
fn plain_at(alloc: Global, texts: &mut ColumnTexts, k: usize) -> Result<(), Memory>
    requires { k < length texts.old }
    ensures { OnOk result (texts.new ≡ changed_at texts.old k text_left) }
{
    let text = texts.replace(k, Columns::new(alloc));
    let made = plain_text(alloc, text)?;
    texts.replace(k, made);
    Ok(())
}

/// A text whose rows that break the rule became paragraphs.
fn plain_text(alloc: Global, text: Columns) -> Result<Columns, Memory>
    ensures { IfOk result (λ made. made ≡ text_left text) }
{
    let mut rows = Vec::new(alloc);
    add_text(Story::Main, &text, &mut rows)?;
    let made = with_rows(alloc, text, &rows)?;
    Ok(made)
}

/// A text whose rows, which are these, became paragraphs.
fn with_rows(alloc: Global, text: Columns, rows: &[BrokenRow]) -> Result<Columns, Memory>
    requires { rows.now ≡ text_broken_rows Main text }
    ensures { IfOk result (λ made. made ≡ text_left text) }
{
    if rows.is_empty() {
        return Ok(text);
    }
    let mut items = text.expand(alloc)?;
    make_rows(alloc, &mut items, rows)?;
    let made = Columns::from_items(alloc, items.as_slice())?;
    Ok(made)
}

/// Makes paragraphs of these rows of a text.
fn make_rows(alloc: Global, items: &mut Items, rows: &[BrokenRow]) -> Result<(), Memory>
    requires { All (λ row. row.from + row.len ≤ length items.old) rows.now }
    ensures { OnOk result (items.new ≡ rows_plain rows.now items.old) }
{
    let mut maps = PlainMaps::new();
    for k in 0..rows.len() {
        let row = row_at(rows, k);
        make_row(alloc, items, row, &mut maps)?;
    }
    Ok(())
}

/// The row of that number.
fn row_at(rows: &[BrokenRow], k: usize) -> BrokenRow
    requires { k < length rows.now }
    ensures { slice_get rows.now k ≡ Some result }
{
    rows[k]
}

/// Makes paragraphs of a row.
fn make_row(
    alloc: Global,
    items: &mut Items,
    row: BrokenRow,
    maps: &mut PlainMaps,
) -> Result<(), Memory>
    requires { row.from + row.len ≤ length items.old }
    ensures { OnOk result (items.new ≡ row_plain items.old row) }
{
    let _len = items.len();
    for at in row.from..row.from + row.len {
        let made = item_in(alloc, items, at, maps)?;
        items.replace(at, made);
    }
    Ok(())
}
