// Documents joined by columns beside plain ones.
use crate::lent::is_made;
use crate::scripted::{EACH, breaks_none, is_edited, is_same};
use doc_bits::Memory;
use doc_columns::{ColumnDocument, is_sound};
use doc_join::{JoinFault, join, join_of_columns};
use plain_doc::{Document, blank};
use std::alloc::Global;
use std::test::Fail;

/// What a join comes to where both documents are put by columns.
fn joined_by_columns(
    alloc: Global,
    first: &Document,
    second: &Document,
) -> Result<ColumnDocument, JoinFault> {
    let one = ColumnDocument::from_document(alloc, first)?;
    let made = joined_behind(alloc, &one, second);
    drop(one);
    made
}

/// The first document, which is there by columns, and then the second.
fn joined_behind(
    alloc: Global,
    one: &ColumnDocument,
    second: &Document,
) -> Result<ColumnDocument, JoinFault> {
    let other = ColumnDocument::from_document(alloc, second)?;
    let made = joined_columns(alloc, one, &other);
    drop(other);
    made
}

/// What a join by columns comes to, where both documents are known to be sound.
fn joined_columns(
    alloc: Global,
    one: &ColumnDocument,
    other: &ColumnDocument,
) -> Result<ColumnDocument, JoinFault> {
    if is_sound(alloc, one)? && is_sound(alloc, other)? {
        join_of_columns(alloc, one, other)
    } else {
        Err(JoinFault::Memory)
    }
}

/// What a join comes to, where both documents are known to be sound.
fn joined(alloc: Global, first: &Document, second: &Document) -> Result<Document, JoinFault> {
    if breaks_none(first) && breaks_none(second) {
        join(alloc, first, second)
    } else {
        Err(JoinFault::Memory)
    }
}

/// Whether a document by columns is the join of two documents item by item.
fn is_join(
    alloc: Global,
    columns: &ColumnDocument,
    first: &Document,
    second: &Document,
) -> Result<bool, Memory> {
    is_made(
        joined(alloc, first, second),
        |plain: &Document| -> Result<bool, Memory> { is_same(alloc, columns, plain) },
    )
}

/// Whether two documents are joined by columns as item by item.
fn are_joined_alike(alloc: Global, first: &Document, second: &Document) -> Result<bool, Memory> {
    is_made(
        joined_by_columns(alloc, first, second),
        |columns: &ColumnDocument| -> Result<bool, Memory> {
            is_join(alloc, columns, first, second)
        },
    )
}

/// Whether a document is joined alike with itself, with the blank one, and behind that.
fn is_joined_both_ways(alloc: Global, each: &Document, blank: &Document) -> Result<bool, Memory> {
    Ok(
        are_joined_alike(alloc, each, each)?
            && are_joined_alike(alloc, blank, each)?
            && are_joined_alike(alloc, each, blank)?,
    )
}

/// Whether a document is joined so with itself and with the blank one.
fn is_joined_with_blank(alloc: Global, each: &Document) -> Result<bool, Memory> {
    is_made(blank(alloc), |blank: &Document| -> Result<bool, Memory> {
        is_joined_both_ways(alloc, each, blank)
    })
}

#[test]
fn documents_are_joined_by_columns(rt: HostRuntime) -> Result<(), Fail> {
    let alloc = rt.alloc();
    let joined = is_edited(alloc, EACH, |each: &Document| -> Result<bool, Memory> {
        is_joined_with_blank(alloc, each)
    });
    assert!(rt; joined?);
    Ok(())
}
