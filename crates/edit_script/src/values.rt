// What single values are read as.
ghost use Rattle.std.specs.Prelude.{◌≡◌, ◌<◌, IfOk, IfSome, OnOk, IsErrOf, ◌++◌};
ghost use Rattle.std.specs.Char.Escape.{encode_utf16};
ghost use Rattle.serde_json.specs.Find.{as_bool};
ghost use Rattle.serde_json.specs.View.{view};
ghost use Rattle.edit_script.specs.Json.{GivesReading};
ghost use Rattle.edit_script.specs.Values.{whole_number, position, short_number, byte_number, story_of};
ghost use Rattle.edit_script.specs.Values.{string_units, utf16, bytes_of, mode_with_name, mode_of};

use crate::ShapeError;
use crate::hex::bytes_from_digits;
use crate::stories::story_named;
use doc_bits::{Bytes, Memory, Story, Units};
use serde_json::Value;
use std::alloc::Global;

/// A whole number below the limit.
fn number_below(limit: u64, value: &Value) -> Option<u64>
    ensures number { result ≡ whole_number limit (view value.now) }
    ensures small { IfSome result (λ number. number < limit) }
{
    let number = value.as_u64()?;
    if number < limit { Some(number) } else { None }
}

/// A place in a text.
pub fn position_in(value: &Value) -> Result<u32, ShapeError>
    ensures read { GivesReading result (position (view value.now)) }
    ensures no_memory { ¬ (IsErrOf result ShapeError.Memory) }
{
    match number_below(1 << 32, value) {
        None => Err(ShapeError::Shape),
        Some(number) => Ok(number as u32),
    }
}

/// A number of 16 bits.
pub fn short_in(value: &Value) -> Result<u16, ShapeError>
    ensures read { GivesReading result (short_number (view value.now)) }
    ensures no_memory { ¬ (IsErrOf result ShapeError.Memory) }
{
    match number_below(1 << 16, value) {
        None => Err(ShapeError::Shape),
        Some(number) => Ok(number as u16),
    }
}

/// A number of 8 bits.
pub fn byte_in(value: &Value) -> Result<u8, ShapeError>
    ensures read { GivesReading result (byte_number (view value.now)) }
    ensures no_memory { ¬ (IsErrOf result ShapeError.Memory) }
{
    match number_below(1 << 8, value) {
        None => Err(ShapeError::Shape),
        Some(number) => Ok(number as u8),
    }
}

/// True or false.
pub fn bool_in(value: &Value) -> Result<bool, ShapeError>
    ensures read { GivesReading result (as_bool (view value.now)) }
    ensures no_memory { ¬ (IsErrOf result ShapeError.Memory) }
{
    match value.as_bool() {
        None => Err(ShapeError::Shape),
        Some(answer) => Ok(answer),
    }
}

/// A text of a document, by its name.
pub fn story_in(value: &Value) -> Result<Story, ShapeError>
    ensures read { GivesReading result (story_of (view value.now)) }
    ensures no_memory { ¬ (IsErrOf result ShapeError.Memory) }
{
    match value.as_str().and_then(story_named) {
        None => Err(ShapeError::Shape),
        Some(story) => Ok(story),
    }
}

/// The units of a text.
pub fn units_in(alloc: Global, value: &Value) -> Result<Units, ShapeError>
    ensures { GivesReading result (string_units (view value.now)) }
{
    match value.as_str() {
        None => Err(ShapeError::Shape),
        Some(text) => Ok(units_of_text(alloc, text)?),
    }
}

/// The units of a text.
fn units_of_text(alloc: Global, text: &str) -> Result<Units, Memory>
    ensures { IfOk result (λ units. units ≡ utf16 text.now) }
{
    let mut units = Units::new(alloc);
    for character in text.chars() {
        push_character(&mut units, character)?;
    }
    Ok(units)
}

/// Puts the units of a character last.
fn push_character(units: &mut Units, character: char) -> Result<(), Memory>
    ensures { OnOk result (units.new ≡ units.old ++ encode_utf16 character) }
{
    let mut two = [0u16; 2];
    units.push_all(character.encode_utf16(&mut two))
}

/// The bytes of a text of digits.
pub fn bytes_in(alloc: Global, value: &Value) -> Result<Bytes, ShapeError>
    ensures { GivesReading result (bytes_of (view value.now)) }
{
    match value.as_str() {
        None => Err(ShapeError::Shape),
        Some(digits) => bytes_from_digits(alloc, digits.as_bytes()),
    }
}

/// Whether a save is a full one.
pub(crate) fn mode_in(value: &Value) -> Result<bool, ShapeError>
    ensures { GivesReading result (mode_of (view value.now)) }
{
    match value.as_str().and_then(mode_named) {
        None => Err(ShapeError::Shape),
        Some(full) => Ok(full),
    }
}

/// True for `full`, false for `fast`.
fn mode_named(word: &str) -> Option<bool>
    ensures { result ≡ mode_with_name word.now }
{
    match word {
        "full" => Some(true),
        "fast" => Some(false),
        _ => None,
    }
}
