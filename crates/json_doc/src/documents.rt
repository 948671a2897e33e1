// A document as one text of JSON, written piece by piece: no tree of values is made.
ghost use Rattle.std.specs.Prelude.{◌≡◌, IfOk, OnOk};
ghost use Rattle.serde_json.specs.Written.{compact_text};
ghost use Rattle.json_values.specs.Out.{Adds};
ghost use Rattle.json_doc.specs.Documents.{bookmark_json, bookmarks_json, json_value, json_text};
ghost use Rattle.json_doc.specs.Reading.{IsOutput};

use crate::carried_parts::write_carried;
use crate::leaves::{write_place, write_short};
use crate::pieces::{write_text, write_texts};
use crate::styles::write_sheet;
use doc_bits::{Memory, Text};
use doc_columns::ColumnDocument;
use doc_parts::{Bookmark, Bookmarks};
use json_values::{JsonOut, push_comma, write_units};
use plain_doc::Document;
use std::alloc::Global;

/// The text of a document, which is put by columns first.
pub fn to_json(alloc: Global, document: &Document) -> Result<Text, Memory>
    ensures { IfOk result (λ text. text ≡ json_text document.now) }
{
    let out = json_out(alloc, document, u64::MAX)?;
    Ok(out.into_text())
}

/// The text of a document: all of it is counted, and it is kept while it has at most `most` bytes. The document is put
/// by columns first.
pub fn json_out(alloc: Global, document: &Document, most: u64) -> Result<JsonOut, Memory>
    ensures { IfOk result (IsOutput most (json_text document.now)) }
{
    let columns = ColumnDocument::from_document(alloc, document)?;
    let out = json_out_of_columns(alloc, &columns, most);
    drop(columns);
    Ok(out?)
}

/// The text of a document by columns: all of it is counted, and it is kept while it is not too long.
pub fn json_out_of_columns(
    alloc: Global,
    document: &ColumnDocument,
    most: u64,
) -> Result<JsonOut, Memory>
    ensures { IfOk result (IsOutput most (json_text document.now)) }
{
    let mut out = JsonOut::new(alloc, most);
    write_document(alloc, &mut out, document)?;
    Ok(out)
}

/// Writes a document as an object of six keys.
fn write_document(alloc: Global, out: &mut JsonOut, document: &ColumnDocument) -> Result<(), Memory>
    ensures { OnOk result (Adds out.old out.new (compact_text (json_value document.now))) }
{
    out.push("{\"bookmarks\":")?;
    write_bookmarks(alloc, out, &document.bookmarks)?;
    out.push(",\"carried\":")?;
    write_carried(alloc, out, &document.carried)?;
    out.push(",\"heads\":")?;
    write_texts(alloc, out, &document.heads)?;
    out.push(",\"main\":")?;
    write_text(alloc, out, &document.main)?;
    out.push(",\"notes\":")?;
    write_texts(alloc, out, &document.notes)?;
    out.push(",\"sheet\":")?;
    write_sheet(alloc, out, &document.sheet)?;
    out.push("}")
}

/// Writes bookmarks as an array.
fn write_bookmarks(alloc: Global, out: &mut JsonOut, bookmarks: &Bookmarks) -> Result<(), Memory>
    ensures { OnOk result (Adds out.old out.new (compact_text (bookmarks_json bookmarks.now))) }
{
    out.push("[")?;
    for i in 0..bookmarks.len() {
        push_comma(out, i > 0)?;
        write_bookmark(alloc, out, bookmarks.get(i))?;
    }
    out.push("]")
}

/// Writes a bookmark as an array of four.
fn write_bookmark(alloc: Global, out: &mut JsonOut, bookmark: &Bookmark) -> Result<(), Memory>
    ensures { OnOk result (Adds out.old out.new (compact_text (bookmark_json bookmark.now))) }
{
    out.push("[")?;
    write_units(out, bookmark.name.as_slice())?;
    out.push(",")?;
    write_place(alloc, out, bookmark.from)?;
    out.push(",")?;
    write_place(alloc, out, bookmark.to)?;
    out.push(",")?;
    write_short(alloc, out, bookmark.flags)?;
    out.push("]")
}
