// Why JSON is no document: the first value that none has, by its path.
use crate::forms::{BYTE, Form, SHORT, misfit};
use crate::objects::{Key, value_of, wrong_keys};
use doc_bits::{Memory, Text};
use serde_json::Value;
use std::alloc::Global;

const DOCUMENT: &[Key] = &[
    Key::Needed("bookmarks"),
    Key::Needed("carried"),
    Key::Needed("heads"),
    Key::Needed("main"),
    Key::Needed("notes"),
    Key::Needed("sheet"),
];

const PIECE: &[Key] = &[
    Key::Needed("c"),
    Key::Allowed("f"),
    Key::Allowed("m"),
    Key::Allowed("n"),
    Key::Needed("t"),
    Key::Allowed("x"),
];

const MARK: &[Key] = &[Key::Needed("p"), Key::Needed("s")];

const SHEET: &[Key] = &[Key::Needed("head"), Key::Needed("styles")];

const STYLE: &[Key] = &[
    Key::Needed("base"),
    Key::Allowed("char"),
    Key::Needed("flags"),
    Key::Needed("grfstd"),
    Key::Needed("name"),
    Key::Needed("next"),
    Key::Allowed("par"),
    Key::Needed("sti"),
    Key::Allowed("stk"),
    Key::Allowed("upxes"),
];

const CARRIED: &[Key] = &[
    Key::Needed("assoc"),
    Key::Needed("clsid"),
    Key::Needed("dop"),
    Key::Needed("flags"),
    Key::Needed("fonts"),
    Key::Needed("levels"),
    Key::Needed("lfo"),
    Key::Needed("lid"),
    Key::Needed("lidfe"),
    Key::Needed("lst"),
    Key::Needed("streams"),
];

/// Why bytes are no document, where that is seen: the path of the first value that is wrong by itself, and what is
/// wanted there. Where memory is refused, nothing is said.
pub fn why_no_document(alloc: Global, bytes: &[u8]) -> Option<Text> {
    match wrong_document(alloc, bytes) {
        Ok(Some(why)) => Some(Text::from_string(why)),
        _ => None,
    }
}

/// What is wrong with bytes that are to be a document.
fn wrong_document(alloc: Global, bytes: &[u8]) -> Result<Option<String>, Memory> {
    match value_of(alloc, bytes)? {
        Err(why) => Ok(Some(why)),
        Ok(value) => {
            let found = wrong_value(alloc, &value)?;
            behind(alloc, "the document", found)
        }
    }
}

/// What is wrong with the value of a document.
fn wrong_value(alloc: Global, value: &Value) -> Result<Option<String>, Memory> {
    if let Some(why) = wrong_keys(alloc, value, "a document", DOCUMENT)? {
        return Ok(Some(why));
    }
    for key in ["main", "notes", "heads", "bookmarks", "carried", "sheet"] {
        if let Some(member) = value.get(key) {
            let found = wrong_member(alloc, key, member)?;
            if found.is_some() {
                return under(alloc, key, found);
            }
        }
    }
    Ok(None)
}

/// What is wrong with a member of a document.
fn wrong_member(alloc: Global, key: &str, value: &Value) -> Result<Option<String>, Memory> {
    match key {
        "main" => wrong_text(alloc, value),
        "notes" | "heads" => wrong_texts(alloc, value),
        "bookmarks" => wrong_rows(alloc, value, &[Form::Units, POSITION, POSITION, SHORT]),
        "carried" => wrong_carried(alloc, value),
        _ => wrong_sheet(alloc, value),
    }
}

const POSITION: Form = crate::forms::POSITION;

/// What is wrong with an array of texts.
fn wrong_texts(alloc: Global, value: &Value) -> Result<Option<String>, Memory> {
    let Some(texts) = value.as_array() else {
        return no_array(alloc);
    };
    for (index, text) in texts.iter().enumerate() {
        let found = wrong_text(alloc, text)?;
        if found.is_some() {
            return at(alloc, index, found);
        }
    }
    Ok(None)
}

/// What is wrong with a text.
fn wrong_text(alloc: Global, value: &Value) -> Result<Option<String>, Memory> {
    let Some(pieces) = value.as_array() else {
        return no_array(alloc);
    };
    for (index, piece) in pieces.iter().enumerate() {
        let found = wrong_piece(alloc, piece)?;
        if found.is_some() {
            return at(alloc, index, found);
        }
    }
    Ok(None)
}

/// What is wrong with a piece.
fn wrong_piece(alloc: Global, value: &Value) -> Result<Option<String>, Memory> {
    if let Some(why) = wrong_keys(alloc, value, "a piece", PIECE)? {
        return Ok(Some(why));
    }
    let forms = [
        ("c", Form::Properties),
        ("f", BYTE),
        ("n", Form::Numbering),
        ("t", Form::Units),
        ("x", Form::Properties),
    ];
    let found = wrong_values(alloc, value, &forms)?;
    if found.is_some() {
        return Ok(found);
    }
    match value.get("m") {
        None => Ok(None),
        Some(mark) => {
            let found = wrong_mark(alloc, mark)?;
            under(alloc, "m", found)
        }
    }
}

/// What is wrong with the mark of a paragraph.
fn wrong_mark(alloc: Global, value: &Value) -> Result<Option<String>, Memory> {
    if let Some(why) = wrong_keys(alloc, value, "a mark", MARK)? {
        return Ok(Some(why));
    }
    wrong_values(alloc, value, &[("p", Form::Properties), ("s", SHORT)])
}

/// What is wrong with the sheet of styles.
fn wrong_sheet(alloc: Global, value: &Value) -> Result<Option<String>, Memory> {
    if let Some(why) = wrong_keys(alloc, value, "a sheet", SHEET)? {
        return Ok(Some(why));
    }
    let Some(styles) = value.get("styles").and_then(Value::as_array) else {
        let found = no_array(alloc)?;
        return under(alloc, "styles", found);
    };
    for (index, style) in styles.iter().enumerate() {
        let found = wrong_style(alloc, style)?;
        if found.is_some() {
            let found = at(alloc, index, found)?;
            return under(alloc, "styles", found);
        }
    }
    Ok(None)
}

/// What is wrong with a slot of the sheet.
fn wrong_style(alloc: Global, value: &Value) -> Result<Option<String>, Memory> {
    if value.is_null() {
        return Ok(None);
    }
    if let Some(why) = wrong_keys(alloc, value, "a style", STYLE)? {
        return Ok(Some(why));
    }
    let forms = [
        ("char", Form::Properties),
        ("flags", Form::Below(16)),
        ("grfstd", SHORT),
        ("name", Form::Units),
        ("next", Form::Below(4_096)),
        ("par", Form::Properties),
        ("sti", Form::Below(4_096)),
    ];
    wrong_values(alloc, value, &forms)
}

/// What is wrong with what is carried.
fn wrong_carried(alloc: Global, value: &Value) -> Result<Option<String>, Memory> {
    if let Some(why) = wrong_keys(alloc, value, "what is carried", CARRIED)? {
        return Ok(Some(why));
    }
    let forms = [
        ("assoc", Form::Bytes),
        ("clsid", Form::Bytes),
        ("dop", Form::Bytes),
        ("flags", SHORT),
        ("fonts", Form::Bytes),
        ("levels", Form::Bytes),
        ("lfo", Form::Bytes),
        ("lid", SHORT),
        ("lidfe", SHORT),
        ("lst", Form::Bytes),
    ];
    let found = wrong_values(alloc, value, &forms)?;
    if found.is_some() {
        return Ok(found);
    }
    match value.get("streams") {
        None => Ok(None),
        Some(streams) => {
            let found = wrong_rows(alloc, streams, &[Form::Units, Form::Bytes])?;
            under(alloc, "streams", found)
        }
    }
}

/// What is wrong with the values of some keys of an object, in this order.
fn wrong_values(
    alloc: Global,
    value: &Value,
    forms: &[(&'static str, Form)],
) -> Result<Option<String>, Memory> {
    for each in forms {
        let (key, form) = *each;
        if let Some(member) = value.get(key) {
            let found = misfit(alloc, form, member)?;
            if found.is_some() {
                return under(alloc, key, found);
            }
        }
    }
    Ok(None)
}

/// What is wrong with an array of arrays of these forms.
fn wrong_rows(alloc: Global, value: &Value, forms: &[Form]) -> Result<Option<String>, Memory> {
    let Some(rows) = value.as_array() else {
        return no_array(alloc);
    };
    for (index, row) in rows.iter().enumerate() {
        let found = wrong_row(alloc, row, forms)?;
        if found.is_some() {
            return at(alloc, index, found);
        }
    }
    Ok(None)
}

/// What is wrong with an array of values of these forms.
fn wrong_row(alloc: Global, value: &Value, forms: &[Form]) -> Result<Option<String>, Memory> {
    let Some(values) = value.as_array() else {
        return no_array(alloc);
    };
    let len = forms.len();
    if values.len() != len {
        let why = format!(in alloc; ": an array of {len} values is wanted")?;
        return Ok(Some(why));
    }
    for (index, (value, form)) in values.iter().zip(forms.iter()).enumerate() {
        let found = misfit(alloc, *form, value)?;
        if found.is_some() {
            return at(alloc, index, found);
        }
    }
    Ok(None)
}

/// That a value is no array.
fn no_array(alloc: Global) -> Result<Option<String>, Memory> {
    let why = String::from_str(alloc, ": an array is wanted")?;
    Ok(Some(why))
}

/// What is wrong in the value of a key.
fn under(alloc: Global, key: &str, found: Option<String>) -> Result<Option<String>, Memory> {
    match found {
        None => Ok(None),
        Some(why) => {
            let why = why.as_str();
            let line = format!(in alloc; ".{key}{why}")?;
            Ok(Some(line))
        }
    }
}

/// What is wrong in a member of an array.
fn at(alloc: Global, index: usize, found: Option<String>) -> Result<Option<String>, Memory> {
    match found {
        None => Ok(None),
        Some(why) => {
            let why = why.as_str();
            let line = format!(in alloc; "[{index}]{why}")?;
            Ok(Some(line))
        }
    }
}

/// What is wrong in what has a name.
fn behind(alloc: Global, name: &str, found: Option<String>) -> Result<Option<String>, Memory> {
    match found {
        None => Ok(None),
        Some(why) => {
            let why = why.as_str();
            let line = format!(in alloc; "{name}{why}")?;
            Ok(Some(line))
        }
    }
}
