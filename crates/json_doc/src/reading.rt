// Bytes read as a document.
ghost use Rattle.std.specs.Prelude.{◌≡◌, ◌≢◌, ◌⊎◌, MatchResult, Err, Some, None};
ghost use Rattle.serde_json.specs.Data.{item, no_items};
ghost use Rattle.serde_json.specs.View.{view, items_view};
ghost use Rattle.serde_json.specs.Errors.{IsMemory};
ghost use Rattle.edit_script.specs.Json.{IsJson, GivesReading, each_of};
ghost use Rattle.doc_model.specs.declared.document.Document.{Document};
ghost use Rattle.doc_model.specs.Marks.{HasFormedBookmarks};
ghost use Rattle.plain_doc.specs.Sound.{IsSound};
ghost use Rattle.json_values.specs.Plain.{HasKeysInOrder};
ghost use Rattle.json_doc.specs.Documents.{bookmarks_json, json_value};
ghost use Rattle.json_doc.specs.DocumentReading.{bookmark_of, bookmark_of_items, AreMarks, document_values};
ghost use Rattle.json_doc.specs.DocumentTexts.{AreTextsOfValues, HasNoTexts};
ghost use Rattle.json_doc.specs.ReadValues.{ReadsValue};
ghost use Rattle.json_doc.specs.Reading.{IsWholeDocument, IsSoundJson, IsJsonFault, IsFirstFault};
ghost use Rattle.json_doc.specs.StyleReading.{list_as};

use crate::JsonFault;
use crate::carried_reading::carried_in;
use crate::piece_reading::{text_in, texts_in};
use crate::style_reading::sheet_in;
use doc_bits::keep_if_ok;
use doc_columns::{CheckFault, ColumnDocument, ColumnTexts, Columns, check, columns_are_formed};
use doc_parts::{Bookmark, Bookmarks, Name};
use edit_script::{ShapeError, position_in, short_in};
use json_values::{Row, hex_units_in};
use plain_doc::{DocFault, Document};
use serde_json::{Error, Value};
use std::alloc::Global;

/// Reads a document: the JSON that its text is, in any order of keys and with any spaces. `Json` comes where the bytes
/// are no JSON, else `Shape` where no well-formed document has their value, else `Unsound` where that document is not
/// sound. It is read by columns, and put item by item.
pub fn from_json(alloc: Global, bytes: &[u8]) -> Result<Document, JsonFault>
    ensures { MatchResult result (IsSoundJson bytes.now) (IsJsonFault bytes.now) }
{
    let columns = from_json_of_columns(alloc, bytes)?;
    let document = columns.expand(alloc);
    drop(columns);
    Ok(document?)
}

/// Reads a document by columns from JSON.
pub fn from_json_of_columns(alloc: Global, bytes: &[u8]) -> Result<ColumnDocument, JsonFault>
    ensures { MatchResult result (IsSoundJson bytes.now) (IsJsonFault bytes.now) }
{
    let value = json_of(alloc, bytes)?;
    let read = document_in(alloc, &value);
    // The tree of values takes many times the bytes.
    drop(value);
    match read {
        Ok(document) => {
            columns_are_formed(&document);
            check_read(alloc, document)
        }
        Err(ShapeError::Shape) => Err(JsonFault::Shape),
        Err(ShapeError::Memory) => Err(JsonFault::Memory),
    }
}

/// The value that the bytes spell.
fn json_of(alloc: Global, bytes: &[u8]) -> Result<Value, JsonFault>
    ensures { MatchResult result (λ value. IsJson bytes.now (view value)) (IsJsonFault bytes.now) }
{
    match Value::from_slice(alloc, bytes) {
        Ok(value) => Ok(value),
        Err(error) => Err(fault_of(&error)),
    }
}

/// Why the bytes are not read as JSON.
fn fault_of(error: &Error) -> JsonFault
    ensures json { result ≡ JsonFault.Json → ¬ (IsMemory error.now) }
    ensures either { (result ≡ JsonFault.Json) ⊎ (result ≡ JsonFault.Memory) }
{
    if error.is_memory() {
        JsonFault::Memory
    } else {
        JsonFault::Json
    }
}

/// A document that is checked.
fn check_read(alloc: Global, document: ColumnDocument) -> Result<ColumnDocument, JsonFault>
    requires { HasFormedBookmarks document }
    ensures { MatchResult result (λ sound. (sound ≡ document) × IsSound document) (IsFirstFault document) }
{
    let verdict = verdict_on(alloc, &document);
    keep_if_ok(document, verdict)
}

/// Whether a document is sound.
fn verdict_on(alloc: Global, document: &ColumnDocument) -> Result<(), JsonFault>
    requires { HasFormedBookmarks document.now }
    ensures { MatchResult result (λ _. IsSound document.now) (IsFirstFault document.now) }
{
    match check(alloc, document) {
        Ok(()) => Ok(()),
        Err(CheckFault::Rule(DocFault { rule, place, at })) => {
            Err(JsonFault::Unsound { rule, place, at })
        }
        Err(CheckFault::Memory) => Err(JsonFault::Memory),
    }
}

/// The values at the six keys of a document.
#[derive(Drop)]
struct Parts<'a> {
    bookmarks: &'a Value,
    carried: &'a Value,
    heads: &'a Value,
    main: &'a Value,
    notes: &'a Value,
    sheet: &'a Value,
}

/// The values at the six keys.
fn parts_in(value: &Value) -> Result<Parts<'_>, ShapeError>
    ensures { MatchResult result
        (λ parts. document_values (view value.now) ≡ Some (record {
          bookmarks = view parts.bookmarks.now;
          carried = view parts.carried.now;
          heads = view parts.heads.now;
          main = view parts.main.now;
          notes = view parts.notes.now;
          sheet = view parts.sheet.now;
        }))
        (λ fault. fault ≡ ShapeError.Shape → document_values (view value.now) ≡ None) }
{
    let mut row = Row::of(value)?;
    let bookmarks = row.need("bookmarks")?;
    let carried = row.need("carried")?;
    let heads = row.need("heads")?;
    let main = row.need("main")?;
    let notes = row.need("notes")?;
    let sheet = row.need("sheet")?;
    row.end()?;
    Ok(Parts {
        bookmarks,
        carried,
        heads,
        main,
        notes,
        sheet,
    })
}

/// A bookmark: its name, where it begins and ends, and its flags.
fn bookmark_in(alloc: Global, value: &Value) -> Result<Bookmark, ShapeError>
    ensures { GivesReading result (bookmark_of (view value.now)) }
{
    match value.as_array() {
        None => Err(ShapeError::Shape),
        Some(values) => bookmark_from(alloc, values.as_slice()),
    }
}

/// The bookmark of four values.
fn bookmark_from(alloc: Global, values: &[Value]) -> Result<Bookmark, ShapeError>
    ensures { GivesReading result (bookmark_of_items (items_view values.now)) }
{
    match values {
        [name, from, to, flags] => bookmark_of_four(alloc, name, from, to, flags),
        [] | [_] | [_, _] | [_, _, _] => Err(ShapeError::Shape),
        [_, _, _, _, _, ..] => Err(ShapeError::Shape),
    }
}

/// The bookmark of its name, its two places and its flags.
fn bookmark_of_four(
    alloc: Global,
    name: &Value,
    from: &Value,
    to: &Value,
    flags: &Value,
) -> Result<Bookmark, ShapeError>
    ensures { GivesReading result (bookmark_of_items
        (item (view name.now) (item (view from.now) (item (view to.now) (item (view flags.now) no_items))))) }
{
    let units = hex_units_in(alloc, name)?;
    let begin = position_in(from)?;
    let end = position_in(to)?;
    let bits = short_in(flags)?;
    Ok(Bookmark {
        name: Name::from_slice(alloc, units.as_slice())?,
        from: begin,
        to: end,
        flags: bits,
    })
}

/// The bookmarks of an array. Where there are 2^32 or more memory is refused.
fn bookmarks_in(alloc: Global, value: &Value) -> Result<Bookmarks, ShapeError>
    ensures { GivesReading result (list_as bookmark_of (view value.now)) }
{
    match value.as_array() {
        None => Err(ShapeError::Shape),
        Some(values) => bookmarks_from(alloc, values.as_slice()),
    }
}

/// The bookmarks of the values of an array.
fn bookmarks_from(alloc: Global, values: &[Value]) -> Result<Bookmarks, ShapeError>
    ensures { GivesReading result (each_of bookmark_of (items_view values.now)) }
{
    if values.len() >= 1 << 32 {
        return Err(ShapeError::Memory);
    }
    let mut bookmarks = Bookmarks::new(alloc);
    // A list that does not know its names takes each bookmark in one step.
    bookmarks.splice(0, 0, Bookmarks::new(alloc))?;
    for value in values {
        bookmarks.add(bookmark_in(alloc, value)?)?;
    }
    Ok(bookmarks)
}

/// Bookmarks of a main text of `len` units.
fn marks_in(alloc: Global, value: &Value, len: usize) -> Result<Bookmarks, ShapeError>
    ensures { ReadsValue bookmarks_json (AreMarks len) (view value.now) result }
{
    let mut bookmarks = bookmarks_in(alloc, value)?;
    let _ = bookmarks.len();
    if !bookmarks.are_formed(len) {
        return Err(ShapeError::Shape);
    }
    // They are in order already: whether their names differ is found out.
    bookmarks.arrange();
    Ok(bookmarks)
}

/// The texts of a document, and its bookmarks.
#[derive(Drop)]
pub struct ReadTexts {
    pub main: Columns,
    pub bookmarks: Bookmarks,
    pub notes: ColumnTexts,
    pub heads: ColumnTexts,
}

/// The texts and the bookmarks that the values represent.
fn texts_of(alloc: Global, parts: &Parts<'_>) -> Result<ReadTexts, ShapeError>
    ensures { MatchResult result
        (AreTextsOfValues (record {
          bookmarks = view parts.now.bookmarks.now;
          carried = view parts.now.carried.now;
          heads = view parts.now.heads.now;
          main = view parts.now.main.now;
          notes = view parts.now.notes.now;
          sheet = view parts.now.sheet.now;
        }))
        (λ fault. fault ≡ ShapeError.Shape → HasNoTexts (record {
          bookmarks = view parts.now.bookmarks.now;
          carried = view parts.now.carried.now;
          heads = view parts.now.heads.now;
          main = view parts.now.main.now;
          notes = view parts.now.notes.now;
          sheet = view parts.now.sheet.now;
        })) }
{
    let main = text_in(alloc, parts.main)?;
    let bookmarks = marks_in(alloc, parts.bookmarks, main.len())?;
    let notes = texts_in(alloc, parts.notes)?;
    let heads = texts_in(alloc, parts.heads)?;
    Ok(ReadTexts {
        main,
        bookmarks,
        notes,
        heads,
    })
}

/// The document that a value represents.
fn document_in(alloc: Global, value: &Value) -> Result<ColumnDocument, ShapeError>
    ensures { MatchResult result
        (λ document. HasFormedBookmarks document
        × (HasKeysInOrder (view value.now) → view value.now ≡ json_value document))
        (λ fault. fault ≡ ShapeError.Shape
        → (document : Document) → IsWholeDocument document → view value.now ≢ json_value document) }
{
    let parts = parts_in(value)?;
    let texts = texts_of(alloc, &parts)?;
    let sheet = sheet_in(alloc, parts.sheet)?;
    let carried = carried_in(alloc, parts.carried)?;
    Ok(ColumnDocument {
        main: texts.main,
        notes: texts.notes,
        heads: texts.heads,
        sheet,
        carried,
        bookmarks: texts.bookmarks,
    })
}
