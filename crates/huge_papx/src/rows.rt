// The marks of rows that get the cells that Data has for them.
ghost use Rattle.std.specs.Prelude.{◌≡◌, ◌≤◌, ◌<◌, ◌^◌, ◌++◌, ◌∷◌, [], None, drop, length, slice_index_or, option_map, is_some, nat_le};
ghost use Rattle.std.specs.Prelude.{IfOk, OnOk};
ghost use Rattle.std.specs.Option.{option_and_then};
ghost use Rattle.std.specs.List.{filter_map};
ghost use Rattle.prop_map.specs.Formed.{IsPropertyMap, paragraph_groups};
ghost use Rattle.prop_map.specs.Modifiers.{IsFormedModifier};
ghost use Rattle.plain_doc.specs.Rows.{mark_value_in, is_byte_one};
ghost use Rattle.huge_papx.specs.Rows.{row_set as set_of_row, defining as modifier_of_row, HasParagraphMap};
ghost use Rattle.huge_papx.specs.Rows.{lacks_cells, is_short_pap, is_short_mark, takes_cells, row_with};
ghost use Rattle.huge_papx.specs.Rows.{text_rows, texts_rows, document_rows as rows_of_document};

use crate::definitions::RowDefinition;
use deleted_text::StoryBegins;
use doc_bits::{Bytes, Memory, Story};
use doc_columns::{ColumnDocument, ColumnTexts, Columns};
use doc_mends::side_name;
use doc_patch::property_paragraphs;
use piece_table::MAX_PAP;
use plain_doc::{Mark, Side, value_at};
use prop_map::{Modifier, PropMap};
use run_lists::{Cursor, seek};
use sprm_table::{SPRM_P_F_IN_TABLE, SPRM_P_F_TTP, SPRM_T_DEF_TABLE};
use std::alloc::Global;

/// The mark of a row by the number of its item, and the cells that it gets.
#[derive(Drop)]
pub(crate) struct DefinedRow {
    pub(crate) story: Story,
    pub(crate) at: u32,
    pub(crate) cells: Bytes,
}

/// The rows of a document that get their cells, by what Data has for its CPs.
pub(crate) fn document_rows(
    alloc: Global,
    document: &ColumnDocument,
    begins: StoryBegins,
    definitions: &[Option<RowDefinition>],
) -> Result<Vec<DefinedRow>, Memory>
    ensures { IfOk result (λ rows. rows.items ≡ rows_of_document begins definitions.now document.now) }
{
    let mut rows = Vec::new(alloc);
    add_text(alloc, &mut rows, Story::Main, &document.main, definitions)?;
    let notes = behind(definitions, begins.notes);
    add_texts(alloc, &mut rows, Side::Notes, &document.notes, notes)?;
    let heads = behind(definitions, begins.heads);
    add_texts(alloc, &mut rows, Side::Heads, &document.heads, heads)?;
    Ok(rows)
}

/// What is behind so many CPs.
fn behind(definitions: &[Option<RowDefinition>], count: usize) -> &[Option<RowDefinition>]
    ensures { result.now ≡ drop count definitions.now }
{
    &definitions[count.min(definitions.len())..]
}

/// Appends the rows of several texts, whose CPs are one behind the other.
fn add_texts(
    alloc: Global,
    rows: &mut Vec<DefinedRow>,
    side: Side,
    texts: &ColumnTexts,
    definitions: &[Option<RowDefinition>],
) -> Result<(), Memory>
    ensures { OnOk result (rows.new.items ≡ rows.old.items ++ texts_rows side definitions.now texts.now) }
{
    let mut left = definitions;
    for number in 0..texts.len() {
        let text = texts.get(number);
        let len = text.len();
        add_text(alloc, rows, side_name(side, number), text, left)?;
        left = behind(left, len);
    }
    Ok(())
}

/// Appends the rows of a text.
fn add_text(
    alloc: Global,
    rows: &mut Vec<DefinedRow>,
    story: Story,
    text: &Columns,
    definitions: &[Option<RowDefinition>],
) -> Result<(), Memory>
    ensures { OnOk result (rows.new.items ≡ rows.old.items ++ text_rows story definitions.now text.now) }
{
    let len = text.len();
    let attachments = text.attachments();
    let mut cursor = Cursor::new();
    for at in 0..len {
        let attached = seek(attachments, &mut cursor, at);
        let definition = definition_at(definitions, at);
        let row = row_of_mark(alloc, story, at as u32, &attached.mark, definition)?;
        add_found(row, rows)?;
    }
    Ok(())
}

/// What Data has for a CP, where there is something.
fn definition_at(definitions: &[Option<RowDefinition>], at: usize) -> Option<&RowDefinition>
    ensures { option_map (λ definition. definition.now) result ≡ slice_index_or definitions.now at None }
{
    if at < definitions.len() {
        definitions[at].as_ref()
    } else {
        None
    }
}

/// Appends a row, where there is one.
fn add_found(found: Option<DefinedRow>, rows: &mut Vec<DefinedRow>) -> Result<(), Memory>
    ensures { OnOk result (rows.new.items ≡ rows.old.items ++ filter_map (λ row. row) (found ∷ [])) }
{
    if let Some(row) = found {
        rows.push(row)?;
    }
    Ok(())
}

/// The row of a mark, where it gets the cells that Data has for it.
fn row_of_mark(
    alloc: Global,
    story: Story,
    at: u32,
    mark: &Option<Mark>,
    definition: Option<&RowDefinition>,
) -> Result<Option<DefinedRow>, Memory>
    requires { HasParagraphMap mark.now }
    ensures { IfOk result (λ row.
        row ≡ option_and_then (row_with story at mark.now) (option_map (λ definition. definition.now) definition.entry)) }
{
    match definition {
        None => Ok(None),
        Some(definition) => Ok(row_by(alloc, story, at, mark, definition)?),
    }
}

/// The row of a mark with the cells of a definition, where it gets them.
fn row_by(
    alloc: Global,
    story: Story,
    at: u32,
    mark: &Option<Mark>,
    definition: &RowDefinition,
) -> Result<Option<DefinedRow>, Memory>
    requires { HasParagraphMap mark.now }
    ensures { IfOk result (λ row. row ≡ row_with story at mark.now definition.now) }
{
    if !takes(alloc, mark, definition)? {
        return Ok(None);
    }
    let cells = Bytes::from_slice(alloc, definition.cells.as_slice())?;
    Ok(Some(DefinedRow { story, at, cells }))
}

/// Whether a mark gets the cells of a definition: it ends a row, has no cells of its own, and has room for them.
fn takes(alloc: Global, mark: &Option<Mark>, definition: &RowDefinition) -> Result<bool, Memory>
    requires { HasParagraphMap mark.now }
    ensures { IfOk result (λ takes. takes ≡ takes_cells mark.now definition.now) }
{
    if !needs_cells(mark, definition) {
        return Ok(false);
    }
    let short = stays_short(alloc, mark, definition.cells.as_slice())?;
    Ok(short)
}

/// Whether a mark ends a row and has no cells of its own.
fn needs_cells(mark: &Option<Mark>, definition: &RowDefinition) -> bool
    ensures { result ≡ lacks_cells mark.now definition.now }
{
    (definition.ends_row || ends_row(mark)) && !has_cells(mark)
}

/// Whether a mark has cells of its own.
fn has_cells(mark: &Option<Mark>) -> bool
    ensures { result ≡ is_some (mark_value_in mark.now 0xD608) }
{
    match value_at(mark, SPRM_T_DEF_TABLE) {
        None => false,
        Some(_) => true,
    }
}

/// Whether a mark has the value 01 at sprmPFTtp.
fn ends_row(mark: &Option<Mark>) -> bool
    ensures { result ≡ is_byte_one (mark_value_in mark.now 0x2417) }
{
    match value_at(mark, SPRM_P_F_TTP) {
        None => false,
        Some(value) => value.len() == 1 && value[0] == 1,
    }
}

/// Whether the properties of a mark fit a page with these cells.
fn stays_short(alloc: Global, mark: &Option<Mark>, cells: &[u8]) -> Result<bool, Memory>
    requires { HasParagraphMap mark.now }
    ensures { IfOk result (λ short. short ≡ is_short_mark mark.now cells.now) }
{
    match mark {
        None => Ok(false),
        Some(mark) => Ok(is_short(alloc, &mark.pap, cells)?),
    }
}

/// Whether these properties of a mark fit a page with these cells.
fn is_short(alloc: Global, pap: &PropMap, cells: &[u8]) -> Result<bool, Memory>
    requires { IsPropertyMap paragraph_groups pap.now }
    ensures { IfOk result (λ short. short ≡ is_short_pap pap.now cells.now) }
{
    if !are_few(cells) {
        return Ok(false);
    }
    let modifier = defining(alloc, cells)?;
    let after = modifier.on_mark(alloc, 0, pap)?;
    Ok(after.map.printed_len() <= MAX_PAP)
}

/// Whether cells have no more bytes than all properties may have.
fn are_few(cells: &[u8]) -> bool
    ensures { result ≡ nat_le (length cells.now) 480 }
{
    cells.len() as u64 <= MAX_PAP
}

/// The properties of a row's mark with these cells.
fn row_set(alloc: Global, cells: &[u8]) -> Result<PropMap, Memory>
    ensures { IfOk result (λ set. set ≡ set_of_row cells.now) }
{
    let mut set = PropMap::new(alloc);
    set.set(SPRM_P_F_IN_TABLE, &[1])?;
    set.set(SPRM_P_F_TTP, &[1])?;
    set.set(SPRM_T_DEF_TABLE, cells)?;
    Ok(set)
}

/// The modifier that gives a mark these cells.
pub(crate) fn defining(alloc: Global, cells: &[u8]) -> Result<Modifier, Memory>
    ensures is { IfOk result (λ modifier. modifier ≡ modifier_of_row cells.now) }
    ensures formed { IfOk result (λ modifier. length cells.now ≤ 480 → IsFormedModifier modifier) }
{
    let set = row_set(alloc, cells)?;
    let modifier = property_paragraphs(alloc, &set)?;
    Ok(modifier)
}
