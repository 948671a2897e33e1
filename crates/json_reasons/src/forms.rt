// What a value must be, and whether it is.
use doc_bits::Memory;
use edit_script::{ShapeError, properties_in, story_in};
use serde_json::Value;
use std::alloc::Global;

/// What a value must be.
#[derive(Clone, Copy)]
pub(crate) enum Form {
    /// A text of the document, by its name.
    Story,
    /// A whole number below this one.
    Below(u64),
    /// True or false.
    Flag,
    /// A string.
    Text,
    /// An array of strings.
    Texts,
    /// Codes with the bytes of their operands.
    Properties,
    /// How a save is made.
    Mode,
    /// How a note is numbered.
    Numbering,
    /// Two digits a byte.
    Bytes,
    /// Four digits a unit.
    Units,
}

/// A number of 32 bits, of 16 bits, of 8 bits.
pub(crate) const POSITION: Form = Form::Below(1 << 32);

pub(crate) const SHORT: Form = Form::Below(1 << 16);

pub(crate) const BYTE: Form = Form::Below(1 << 8);

/// What is wanted where a value has not the form.
pub(crate) fn misfit(alloc: Global, form: Form, value: &Value) -> Result<Option<String>, Memory> {
    if fits(alloc, form, value)? {
        return Ok(None);
    }
    let why = match form {
        Form::Below(limit) => format!(in alloc; ": a whole number below {limit} is wanted")?,
        _ => {
            let wanted = form_words(form);
            format!(in alloc; ": {wanted}")?
        }
    };
    Ok(Some(why))
}

/// The words for a form that is no number.
fn form_words(form: Form) -> &'static str {
    match form {
        Form::Story => "\"main\", \"note:0\", \"head:6\" and so on name a text",
        Form::Below(_) => "a whole number is wanted",
        Form::Flag => "true or false is wanted",
        Form::Text => "a string is wanted",
        Form::Texts => "an array of strings is wanted",
        Form::Properties => {
            "settings are an object: four digits of a code, and two digits for each byte, all lower-case hexadecimal"
        }
        Form::Mode => "\"full\" or \"fast\" is wanted",
        Form::Numbering => "\"auto\" or \"custom\" is wanted",
        Form::Bytes => "a string of lower-case hexadecimal digits is wanted, two for each byte",
        Form::Units => "a string of lower-case hexadecimal digits is wanted, four for each unit",
    }
}

/// Whether a value has a form.
fn fits(alloc: Global, form: Form, value: &Value) -> Result<bool, Memory> {
    match form {
        Form::Story => Ok(story_in(value).is_ok()),
        Form::Below(limit) => Ok(is_below(value, limit)),
        Form::Flag => Ok(value.as_bool().is_some()),
        Form::Text => Ok(value.as_str().is_some()),
        Form::Texts => Ok(are_strings(value)),
        Form::Properties => are_properties(alloc, value),
        Form::Mode => Ok(is_word(value, "full", "fast")),
        Form::Numbering => Ok(is_word(value, "auto", "custom")),
        Form::Bytes => Ok(are_digits(value, 2)),
        Form::Units => Ok(are_digits(value, 4)),
    }
}

/// Whether a value is a whole number below a limit.
fn is_below(value: &Value, limit: u64) -> bool {
    match value.as_u64() {
        Some(number) => number < limit,
        None => false,
    }
}

/// Whether a value is one of two words.
fn is_word(value: &Value, one: &str, other: &str) -> bool {
    match value.as_str() {
        Some(word) => word == one || word == other,
        None => false,
    }
}

/// Whether a value is an array of strings.
fn are_strings(value: &Value) -> bool {
    let Some(items) = value.as_array() else {
        return false;
    };
    for item in items {
        if item.as_str().is_none() {
            return false;
        }
    }
    true
}

/// Whether a value is an object of properties.
fn are_properties(alloc: Global, value: &Value) -> Result<bool, Memory> {
    match properties_in(alloc, value) {
        Ok(_) => Ok(true),
        Err(ShapeError::Shape) => Ok(false),
        Err(ShapeError::Memory) => Err(Memory),
    }
}

/// Whether a value is a string of lower-case hexadecimal digits, so many for each thing.
fn are_digits(value: &Value, width: usize) -> bool {
    let Some(text) = value.as_str() else {
        return false;
    };
    let digits = text.as_bytes();
    let whole = if width == 2 {
        digits.len() % 2
    } else {
        digits.len() % 4
    };
    if whole != 0 {
        return false;
    }
    for digit in digits {
        if !matches!(*digit, b'0'..=b'9' | b'a'..=b'f') {
            return false;
        }
    }
    true
}
