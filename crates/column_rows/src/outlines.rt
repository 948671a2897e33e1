// Numbers of paragraphs and outlines of documents by columns beside plain ones.
ghost use Rattle.plain_doc.specs.Sound.{IsSound};

use crate::lent::is_made;
use crate::scripted::{EACH, breaks_none, is_edited};
use doc_bits::Memory;
use doc_columns::{ColumnDocument, is_sound};
use list_numbers::{Numbers, numbers, numbers_of_columns, outline_lines, outline_lines_of_columns};
use plain_doc::Document;
use std::alloc::Global;
use std::test::Fail;

/// A heading, a paragraph of a list that is not there, and others.
const LISTED: &str = r#"[{"do":"insert","story":"main","at":0,"text":"ab"},
{"do":"split","story":"main","at":1},{"do":"style","story":"main","at":0,"istd":1},
{"do":"para","story":"main","at":2,"set":{"460b":"0100"}}]"#;

/// Whether both have the same number at each paragraph, or none.
fn are_same(some: &Numbers, others: &Numbers) -> bool {
    if some.len() != others.len() {
        return false;
    }
    for i in 0..some.len() {
        if !is_same(some, others, i) {
            return false;
        }
    }
    true
}

/// Whether both have the same number at a paragraph, or none.
fn is_same(some: &Numbers, others: &Numbers, i: usize) -> bool {
    if i >= some.len() || i >= others.len() {
        return false;
    }
    match (some.get(i), others.get(i)) {
        (None, None) => true,
        (Some(one), Some(other)) => one.as_slice() == other.as_slice(),
        _ => false,
    }
}

/// Whether a document has the same numbers and lines by columns and item by item.
fn is_numbered_alike(alloc: Global, plain: &Document) -> Result<bool, Memory> {
    is_made(
        ColumnDocument::from_document(alloc, plain),
        |columns: &ColumnDocument| -> Result<bool, Memory> { are_alike(alloc, columns, plain) },
    )
}

/// Whether both are known to be sound, and have the same numbers and lines.
fn are_alike(alloc: Global, columns: &ColumnDocument, plain: &Document) -> Result<bool, Memory> {
    if is_sound(alloc, columns)? && breaks_none(plain) {
        are_numbered_alike(alloc, columns, plain)
    } else {
        Ok(false)
    }
}

/// Whether documents that are sound have the same numbers and lines.
fn are_numbered_alike(
    alloc: Global,
    columns: &ColumnDocument,
    plain: &Document,
) -> Result<bool, Memory>
    requires columns { IsSound columns.now }
    requires plain { IsSound plain.now }
{
    let lines = outline_lines_of_columns(alloc, columns)?;
    let same_lines = lines.as_str() == outline_lines(alloc, plain)?.as_str();
    let found = numbers_of_columns(alloc, columns)?;
    let same = are_same(&found, &numbers(alloc, plain)?);
    Ok(same_lines && same)
}

#[test]
fn paragraphs_are_numbered_by_columns(rt: HostRuntime) -> Result<(), Fail> {
    let alloc = rt.alloc();
    let each = is_edited(alloc, EACH, |plain: &Document| -> Result<bool, Memory> {
        is_numbered_alike(alloc, plain)
    });
    let listed = is_edited(alloc, LISTED, |plain: &Document| -> Result<bool, Memory> {
        is_numbered_alike(alloc, plain)
    });
    assert!(rt; each?);
    assert!(rt; listed?);
    Ok(())
}
