// Why a script is none.
use crate::forms::{BYTE, Form, POSITION, SHORT, misfit};
use crate::objects::{Key, show_name, value_of, wrong_keys};
use doc_bits::{Memory, Text};
use serde_json::Value;
use std::alloc::Global;

/// A key of a command, and what its value must be.
type Part = (&'static str, Form);

const STORY: Part = ("story", Form::Story);

const AT: Part = ("at", POSITION);

const FROM: Part = ("from", POSITION);

const TO: Part = ("to", POSITION);

const SET: Part = ("set", Form::Properties);

const STYLE: Part = ("istd", SHORT);

const NAME: Part = ("name", Form::Text);

const TEXT: Part = ("text", Form::Text);

/// Why bytes are no script, where that is seen: the first command that is none, and what of it is wrong. Where memory is
/// refused, nothing is said.
pub fn why_no_script(alloc: Global, script: &[u8]) -> Option<Text> {
    match wrong_script(alloc, script) {
        Ok(Some(why)) => Some(Text::from_string(why)),
        _ => None,
    }
}

/// What is wrong with a script.
fn wrong_script(alloc: Global, script: &[u8]) -> Result<Option<String>, Memory> {
    match value_of(alloc, script)? {
        Ok(value) => wrong_value(alloc, &value),
        Err(why) => {
            let why = why.as_str();
            let line = format!(in alloc; "the script is {why}")?;
            Ok(Some(line))
        }
    }
}

/// What is wrong with the value of a script.
fn wrong_value(alloc: Global, value: &Value) -> Result<Option<String>, Memory> {
    let Some(members) = value.as_array() else {
        let why = String::from_str(alloc, "a script is an array of commands: [{..}, {..}]")?;
        return Ok(Some(why));
    };
    for (index, member) in members.iter().enumerate() {
        if let Some(why) = wrong_command(alloc, member)? {
            let why = why.as_str();
            let line = format!(in alloc; "command {index}{why}")?;
            return Ok(Some(line));
        }
    }
    if ends_with_save(members.as_slice()) {
        return Ok(None);
    }
    let why = String::from_str(alloc, "the last command of a script is a save")?;
    Ok(Some(why))
}

/// Whether the last of some commands is a save.
fn ends_with_save(members: &[Value]) -> bool {
    match members.last() {
        Some(last) => match last.get("do").and_then(Value::as_str) {
            Some(name) => name == "save",
            None => false,
        },
        None => false,
    }
}

/// What is wrong with a command.
fn wrong_command(alloc: Global, value: &Value) -> Result<Option<String>, Memory> {
    if value.as_object().is_none() {
        let why = String::from_str(alloc, ": a command is an object")?;
        return Ok(Some(why));
    }
    let Some(name) = value.get("do").and_then(Value::as_str) else {
        let why = String::from_str(
            alloc,
            ": `do` names the command, and is missing or no string",
        )?;
        return Ok(Some(why));
    };
    match parts_of(name) {
        Some(parts) => wrong_parts(alloc, value, name, parts),
        None => {
            let name = show_name(name);
            let why = format!(in alloc; ": no command is called `{name}`")?;
            Ok(Some(why))
        }
    }
}

/// The keys of a command besides `do`, and what their values must be.
fn parts_of(name: &str) -> Option<&'static [Part]> {
    match name {
        "insert" => Some(&[STORY, AT, TEXT]),
        "erase" | "plain" => Some(&[STORY, FROM, TO]),
        "char" => Some(&[STORY, FROM, TO, SET]),
        "para" => Some(&[STORY, AT, SET]),
        "style" => Some(&[STORY, AT, STYLE]),
        "field" => Some(&[
            STORY,
            AT,
            ("type", BYTE),
            ("code", Form::Text),
            ("result", Form::Text),
        ]),
        "note" => Some(&[AT, TEXT]),
        "split" | "merge" => Some(&[STORY, AT]),
        "sect" => Some(&[AT, ("new", Form::Flag), SET]),
        "row" => Some(&[STORY, AT, ("width", SHORT), ("cells", Form::Texts)]),
        "stylechar" | "stylepara" => Some(&[STYLE, SET]),
        "bookmark" => Some(&[NAME, FROM, TO]),
        "unmark" => Some(&[NAME]),
        "save" => Some(&[("mode", Form::Mode)]),
        _ => None,
    }
}

/// What is wrong with the keys and values of a command.
fn wrong_parts(
    alloc: Global,
    value: &Value,
    name: &str,
    parts: &[Part],
) -> Result<Option<String>, Memory> {
    let mut keys = Vec::new(alloc);
    keys.push(Key::Needed("do"))?;
    for part in parts {
        keys.push(Key::Needed(part.0))?;
    }
    if let Some(why) = wrong_keys(alloc, value, name, keys.as_slice())? {
        return Ok(Some(why));
    }
    for part in parts {
        if let Some(why) = wrong_part(alloc, value, part)? {
            return Ok(Some(why));
        }
    }
    Ok(None)
}

/// What is wrong with the value of a key.
fn wrong_part(alloc: Global, value: &Value, part: &Part) -> Result<Option<String>, Memory> {
    let (key, form) = *part;
    let Some(value) = value.get(key) else {
        return Ok(None);
    };
    let Some(why) = misfit(alloc, form, value)? else {
        return Ok(None);
    };
    let why = why.as_str();
    let line = format!(in alloc; ": `{key}`{why}")?;
    Ok(Some(line))
}
