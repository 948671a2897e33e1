// Documents put by columns, and back.
use crate::lent::is_made;
use crate::scripted::{EACH, is_edited, is_same};
use doc_bits::Memory;
use doc_columns::{ColumnDocument, is_sound};
use doc_show::{accepted_line_of_columns, main_text_of_columns};
use plain_doc::Document;
use std::alloc::Global;
use std::test::Fail;

/// Whether the main text and the line of counts of both are the same.
fn are_shown_alike(
    alloc: Global,
    plain: &Document,
    columns: &ColumnDocument,
) -> Result<bool, Memory> {
    let text = main_text_of_columns(alloc, columns)?;
    let line = accepted_line_of_columns(alloc, columns)?;
    let same_text = text.as_str() == doc_show::main_text(alloc, plain)?.as_str();
    let same_line = line.as_str() == doc_show::accepted_line(alloc, plain)?.as_str();
    Ok(same_text && same_line)
}

/// Whether a document by columns is known to be sound, and its copy and what is shown of it are those of a plain one.
fn is_as(alloc: Global, plain: &Document, columns: &ColumnDocument) -> Result<bool, Memory> {
    let sound = is_sound(alloc, columns)?;
    let same = is_made(
        columns.copy(alloc),
        |copy: &ColumnDocument| -> Result<bool, Memory> { is_same(alloc, copy, plain) },
    )?;
    let alike = are_shown_alike(alloc, plain, columns)?;
    Ok(sound && same && alike)
}

/// Whether a document is so put by columns.
fn goes_by_columns(alloc: Global, plain: &Document) -> Result<bool, Memory> {
    is_made(
        ColumnDocument::from_document(alloc, plain),
        |columns: &ColumnDocument| -> Result<bool, Memory> { is_as(alloc, plain, columns) },
    )
}

#[test]
fn a_document_of_all_kinds_of_edits_goes_by_columns(rt: HostRuntime) -> Result<(), Fail> {
    let alloc = rt.alloc();
    let goes = is_edited(alloc, EACH, |plain: &Document| -> Result<bool, Memory> {
        goes_by_columns(alloc, plain)
    });
    assert!(rt; goes?);
    Ok(())
}
