// The seventeen shapes, key by key. Each reader has its definition beside it in specs/Shapes.
ghost use Rattle.serde_json.specs.View.{view};
ghost use Rattle.edit_script.specs.Json.{GivesReading};
ghost use Rattle.edit_script.specs.Shapes.{command_of, command_with_name, insert_of, erase_of, char_of};
ghost use Rattle.edit_script.specs.Shapes.{plain_of, para_of, style_command_of, field_of, note_of, split_of, merge_of};
ghost use Rattle.edit_script.specs.Shapes.{sect_of, row_of, style_char_of, style_para_of, save_of};
ghost use Rattle.edit_script.specs.Shapes.{bookmark_of, unmark_of};

use crate::keys::{key_count, member};
use crate::settings::properties_in;
use crate::texts::cells_in;
use crate::values::{bool_in, byte_in, mode_in, position_in, short_in, story_in, units_in};
use crate::{Command, ShapeError};
use serde_json::Value;
use std::alloc::Global;

/// The command that a value spells.
pub(crate) fn command_in(alloc: Global, value: &Value) -> Result<Command, ShapeError>
    ensures { GivesReading result (command_of (view value.now)) }
{
    match value.get("do").and_then(Value::as_str) {
        None => Err(ShapeError::Shape),
        Some(name) => command_named(alloc, name, value),
    }
}

/// The command of this name.
fn command_named(alloc: Global, name: &str, value: &Value) -> Result<Command, ShapeError>
    ensures { GivesReading result (command_with_name name.now (view value.now)) }
{
    if name == "insert" && key_count(value) == 4 {
        insert_in(alloc, value)
    } else if name == "erase" && key_count(value) == 4 {
        erase_in(value)
    } else if name == "char" && key_count(value) == 5 {
        char_in(alloc, value)
    } else if name == "plain" && key_count(value) == 4 {
        plain_in(value)
    } else if name == "para" && key_count(value) == 4 {
        para_in(alloc, value)
    } else if name == "style" && key_count(value) == 4 {
        style_in(value)
    } else if name == "field" && key_count(value) == 6 {
        field_in(alloc, value)
    } else if name == "note" && key_count(value) == 3 {
        note_in(alloc, value)
    } else if name == "split" && key_count(value) == 3 {
        split_in(value)
    } else if name == "merge" && key_count(value) == 3 {
        merge_in(value)
    } else if name == "sect" && key_count(value) == 4 {
        sect_in(alloc, value)
    } else if name == "row" && key_count(value) == 5 {
        row_in(alloc, value)
    } else if name == "stylechar" && key_count(value) == 3 {
        style_char_in(alloc, value)
    } else if name == "stylepara" && key_count(value) == 3 {
        style_para_in(alloc, value)
    } else if name == "bookmark" && key_count(value) == 4 {
        bookmark_in(alloc, value)
    } else if name == "unmark" && key_count(value) == 2 {
        unmark_in(alloc, value)
    } else if name == "save" && key_count(value) == 2 {
        save_in(value)
    } else {
        Err(ShapeError::Shape)
    }
}

/// `insert` puts the units of a text before an item.
fn insert_in(alloc: Global, value: &Value) -> Result<Command, ShapeError>
    ensures { GivesReading result (insert_of (view value.now)) }
{
    let story = story_in(member(value, "story")?)?;
    let at = position_in(member(value, "at")?)?;
    let text = units_in(alloc, member(value, "text")?)?;
    Ok(Command::Insert(story, at, text))
}

/// `erase` takes the items of a range away.
fn erase_in(value: &Value) -> Result<Command, ShapeError>
    ensures { GivesReading result (erase_of (view value.now)) }
{
    let story = story_in(member(value, "story")?)?;
    let from = position_in(member(value, "from")?)?;
    let to = position_in(member(value, "to")?)?;
    Ok(Command::Erase(story, from, to))
}

/// `char` puts character properties over those of a range.
fn char_in(alloc: Global, value: &Value) -> Result<Command, ShapeError>
    ensures { GivesReading result (char_of (view value.now)) }
{
    let story = story_in(member(value, "story")?)?;
    let from = position_in(member(value, "from")?)?;
    let to = position_in(member(value, "to")?)?;
    let set = properties_in(alloc, member(value, "set")?)?;
    Ok(Command::Char(story, from, to, set))
}

/// `plain` clears the character properties of a range.
fn plain_in(value: &Value) -> Result<Command, ShapeError>
    ensures { GivesReading result (plain_of (view value.now)) }
{
    let story = story_in(member(value, "story")?)?;
    let from = position_in(member(value, "from")?)?;
    let to = position_in(member(value, "to")?)?;
    Ok(Command::Plain(story, from, to))
}

/// `para` puts paragraph properties over those of a mark.
fn para_in(alloc: Global, value: &Value) -> Result<Command, ShapeError>
    ensures { GivesReading result (para_of (view value.now)) }
{
    let story = story_in(member(value, "story")?)?;
    let at = position_in(member(value, "at")?)?;
    let set = properties_in(alloc, member(value, "set")?)?;
    Ok(Command::Para(story, at, set))
}

/// `style` gives a mark a style.
fn style_in(value: &Value) -> Result<Command, ShapeError>
    ensures { GivesReading result (style_command_of (view value.now)) }
{
    let story = story_in(member(value, "story")?)?;
    let at = position_in(member(value, "at")?)?;
    let istd = short_in(member(value, "istd")?)?;
    Ok(Command::Style(story, at, istd))
}

/// `field` puts a field before an item.
fn field_in(alloc: Global, value: &Value) -> Result<Command, ShapeError>
    ensures { GivesReading result (field_of (view value.now)) }
{
    let story = story_in(member(value, "story")?)?;
    let at = position_in(member(value, "at")?)?;
    let kind = byte_in(member(value, "type")?)?;
    let code = units_in(alloc, member(value, "code")?)?;
    let result = units_in(alloc, member(value, "result")?)?;
    Ok(Command::Field(story, at, kind, code, result))
}

/// `note` puts a note, and a reference to it before an item of the main text.
fn note_in(alloc: Global, value: &Value) -> Result<Command, ShapeError>
    ensures { GivesReading result (note_of (view value.now)) }
{
    let at = position_in(member(value, "at")?)?;
    let text = units_in(alloc, member(value, "text")?)?;
    Ok(Command::Note(at, text))
}

/// `split` puts a paragraph mark before an item.
fn split_in(value: &Value) -> Result<Command, ShapeError>
    ensures { GivesReading result (split_of (view value.now)) }
{
    let story = story_in(member(value, "story")?)?;
    let at = position_in(member(value, "at")?)?;
    Ok(Command::Split(story, at))
}

/// `merge` takes a paragraph mark away.
fn merge_in(value: &Value) -> Result<Command, ShapeError>
    ensures { GivesReading result (merge_of (view value.now)) }
{
    let story = story_in(member(value, "story")?)?;
    let at = position_in(member(value, "at")?)?;
    Ok(Command::Merge(story, at))
}

/// `sect` puts a section mark before an item, or properties over those of a section.
fn sect_in(alloc: Global, value: &Value) -> Result<Command, ShapeError>
    ensures { GivesReading result (sect_of (view value.now)) }
{
    let at = position_in(member(value, "at")?)?;
    let new = bool_in(member(value, "new")?)?;
    let set = properties_in(alloc, member(value, "set")?)?;
    Ok(Command::Sect(at, new, set))
}

/// `row` puts a row of a table before an item.
fn row_in(alloc: Global, value: &Value) -> Result<Command, ShapeError>
    ensures { GivesReading result (row_of (view value.now)) }
{
    let story = story_in(member(value, "story")?)?;
    let at = position_in(member(value, "at")?)?;
    let width = short_in(member(value, "width")?)?;
    let cells = cells_in(alloc, member(value, "cells")?)?;
    Ok(Command::Row(story, at, width, cells))
}

/// `stylechar` puts character properties over those of a style.
fn style_char_in(alloc: Global, value: &Value) -> Result<Command, ShapeError>
    ensures { GivesReading result (style_char_of (view value.now)) }
{
    let istd = short_in(member(value, "istd")?)?;
    let set = properties_in(alloc, member(value, "set")?)?;
    Ok(Command::StyleChar(istd, set))
}

/// `stylepara` puts paragraph properties over those of a style.
fn style_para_in(alloc: Global, value: &Value) -> Result<Command, ShapeError>
    ensures { GivesReading result (style_para_of (view value.now)) }
{
    let istd = short_in(member(value, "istd")?)?;
    let set = properties_in(alloc, member(value, "set")?)?;
    Ok(Command::StylePara(istd, set))
}

/// `bookmark` puts a bookmark over a range of the main text.
fn bookmark_in(alloc: Global, value: &Value) -> Result<Command, ShapeError>
    ensures { GivesReading result (bookmark_of (view value.now)) }
{
    let name = units_in(alloc, member(value, "name")?)?;
    let from = position_in(member(value, "from")?)?;
    let to = position_in(member(value, "to")?)?;
    Ok(Command::Bookmark(name, from, to))
}

/// `unmark` takes a bookmark away.
fn unmark_in(alloc: Global, value: &Value) -> Result<Command, ShapeError>
    ensures { GivesReading result (unmark_of (view value.now)) }
{
    let name = units_in(alloc, member(value, "name")?)?;
    Ok(Command::Unmark(name))
}

/// `save` saves the document.
fn save_in(value: &Value) -> Result<Command, ShapeError>
    ensures { GivesReading result (save_of (view value.now)) }
{
    let mode = mode_in(member(value, "mode")?)?;
    Ok(Command::Save(mode))
}
