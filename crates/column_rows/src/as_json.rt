// Documents by columns as JSON.
use crate::lent::is_made;
use crate::scripted::{EACH, is_edited, is_same};
use doc_bits::{Memory, Text};
use doc_columns::ColumnDocument;
use json_doc::{from_json_of_columns, json_out_of_columns, to_json};
use plain_doc::Document;
use std::alloc::Global;
use std::test::Fail;

/// The JSON of a document by columns, where it has at most so many bytes.
fn text_of(alloc: Global, columns: &ColumnDocument, most: u64) -> Result<Text, Memory> {
    let out = json_out_of_columns(alloc, columns, most)?;
    Ok(out.into_text())
}

/// Whether a document has one text by columns and item by item, and is read from it as it was.
fn goes_as_json(alloc: Global, plain: &Document) -> Result<bool, Memory> {
    is_made(
        ColumnDocument::from_document(alloc, plain),
        |columns: &ColumnDocument| -> Result<bool, Memory> { has_one_text(alloc, columns, plain) },
    )
}

/// Whether a document by columns has the text of the plain one, and is read from it as it was.
fn has_one_text(alloc: Global, columns: &ColumnDocument, plain: &Document) -> Result<bool, Memory> {
    let text = text_of(alloc, columns, u64::MAX)?;
    let same = text.as_str() == to_json(alloc, plain)?.as_str();
    let back = comes_back(alloc, text.as_str(), plain)?;
    Ok(same && back)
}

/// Whether a document is read from its JSON.
fn comes_back(alloc: Global, text: &str, plain: &Document) -> Result<bool, Memory> {
    is_made(
        from_json_of_columns(alloc, text.as_bytes()),
        |columns: &ColumnDocument| -> Result<bool, Memory> { is_same(alloc, columns, plain) },
    )
}

#[test]
fn documents_go_as_json_by_columns(rt: HostRuntime) -> Result<(), Fail> {
    let alloc = rt.alloc();
    let each = is_edited(alloc, EACH, |plain: &Document| -> Result<bool, Memory> {
        goes_as_json(alloc, plain)
    });
    assert!(rt; each?);
    Ok(())
}
