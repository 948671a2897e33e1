// The value that bytes spell, and the keys of its objects.
use doc_bits::Memory;
use serde_json::Value;
use std::alloc::Global;

/// How many bytes are read a second time, to say why they are refused.
const MAX_BYTES: usize = 1 << 20;

/// How long a name is that is shown as it is.
const MAX_SHOWN: usize = 40;

/// A key of an object, and whether each object has it.
#[derive(Clone, Copy)]
pub(crate) enum Key {
    Needed(&'static str),
    Allowed(&'static str),
}

impl Key {
    fn name(self) -> &'static str {
        match self {
            Key::Needed(name) => name,
            Key::Allowed(name) => name,
        }
    }
}

/// The value that bytes spell, or at which line and column they are no JSON. Long ones are not read.
pub(crate) fn value_of(alloc: Global, bytes: &[u8]) -> Result<Result<Value, String>, Memory> {
    if bytes.len() > MAX_BYTES {
        return Err(Memory);
    }
    match Value::from_slice(alloc, bytes) {
        Ok(value) => Ok(Ok(value)),
        Err(error) if error.is_memory() => Err(Memory),
        Err(error) => {
            let (line, column) = (error.line(), error.column());
            let why = format!(in alloc; "not JSON at line {line}, column {column}")?;
            Ok(Err(why))
        }
    }
}

/// Why a value is no object of these keys, where it is none.
pub(crate) fn wrong_keys(
    alloc: Global,
    value: &Value,
    what: &str,
    keys: &[Key],
) -> Result<Option<String>, Memory> {
    let Some(members) = value.as_object() else {
        let why = format!(in alloc; ": {what} is an object")?;
        return Ok(Some(why));
    };
    for (name, _) in members.iter() {
        if !has_key(keys, name.as_str()) {
            return another_key(alloc, value, what, keys, name.as_str());
        }
    }
    missing_key(alloc, value, what, keys)
}

/// Whether a name is among the keys.
fn has_key(keys: &[Key], name: &str) -> bool {
    for key in keys {
        if key.name() == name {
            return true;
        }
    }
    false
}

/// Why a name is no key, with the key that may be meant: the first that is missing.
fn another_key(
    alloc: Global,
    value: &Value,
    what: &str,
    keys: &[Key],
    name: &str,
) -> Result<Option<String>, Memory> {
    let name = show_name(name);
    let why = match first_missing(value, keys) {
        Some(key) => {
            format!(in alloc; ": `{name}` is no key of {what}, and `{key}` is missing")?
        }
        None => format!(in alloc; ": `{name}` is no key of {what}")?,
    };
    Ok(Some(why))
}

/// That a key is missing, where one is.
fn missing_key(
    alloc: Global,
    value: &Value,
    what: &str,
    keys: &[Key],
) -> Result<Option<String>, Memory> {
    match first_missing(value, keys) {
        None => Ok(None),
        Some(key) => {
            let why = format!(in alloc; ": `{key}` of {what} is missing")?;
            Ok(Some(why))
        }
    }
}

/// The first key that an object has to have and has not.
fn first_missing(value: &Value, keys: &[Key]) -> Option<&'static str> {
    for key in keys {
        if let Key::Needed(name) = *key {
            if value.get(name).is_none() {
                return Some(name);
            }
        }
    }
    None
}

/// A name of a file as it is shown: nothing that a terminal would follow, and no long one.
pub(crate) fn show_name(name: &str) -> &str {
    if name.len() > MAX_SHOWN {
        return "..";
    }
    for byte in name.as_bytes() {
        if !(0x20..0x7F).contains(byte) {
            return "..";
        }
    }
    name
}
