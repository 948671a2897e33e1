// Bytes and units as digits, both ways.
ghost use Rattle.std.specs.Prelude.{◌≡◌, ◌<◌, ◌+◌, ◌*◌, ◌++◌, ◌∷◌, [], OnOk};
ghost use Rattle.json.specs.Print.{escape, escape_byte};
ghost use Rattle.text_codes.specs.Shown.{hex_digit};
ghost use Rattle.serde_json.specs.Written.{compact_text};
ghost use Rattle.serde_json.specs.View.{view};
ghost use Rattle.edit_script.specs.Json.{GivesReading};
ghost use Rattle.text_codes.specs.Digits.{byte_text, word_text};
ghost use Rattle.json_values.specs.Digits.{bytes_json, units_json, units_of_bytes, hex_units_of};
ghost use Rattle.json_values.specs.Out.{Adds};

use crate::JsonOut;
use doc_bits::{Memory, Units};
use edit_script::{ShapeError, bytes_in};
use serde_json::Value;
use std::alloc::Global;
use std::str;
use text_codes::hex_digit;

/// The units that a text of digits represents, four digits each.
pub fn hex_units_in(alloc: Global, value: &Value) -> Result<Units, ShapeError>
    ensures { GivesReading result (hex_units_of (view value.now)) }
{
    let bytes = bytes_in(alloc, value)?;
    units_from_bytes(alloc, bytes.as_slice())
}

/// The units of bytes, the higher byte of each first.
fn units_from_bytes(alloc: Global, bytes: &[u8]) -> Result<Units, ShapeError>
    ensures { GivesReading result (units_of_bytes bytes.now) }
{
    let mut units = Units::new(alloc);
    let mut at = 0;
    while bytes.len() - at > 1 {
        add(&mut units, bytes[at], bytes[at + 1])?;
        at += 2;
    }
    if at < bytes.len() {
        return Err(ShapeError::Shape);
    }
    Ok(units)
}

/// Puts a unit last.
fn add(units: &mut Units, high: u8, low: u8) -> Result<(), Memory>
    ensures { OnOk result (units.new ≡ units.old ++ (256 * high + low) ∷ []) }
{
    units.push_all(&[256 * high as u16 + low as u16])
}

/// Writes the value that represents bytes.
pub fn write_bytes(out: &mut JsonOut, bytes: &[u8]) -> Result<(), Memory>
    ensures { OnOk result (Adds out.old out.new (compact_text (bytes_json bytes.now))) }
{
    out.push("\"")?;
    for byte in bytes {
        push_byte(out, *byte)?;
    }
    out.push("\"")
}

/// Writes the value that represents units.
pub fn write_units(out: &mut JsonOut, units: &[u16]) -> Result<(), Memory>
    ensures { OnOk result (Adds out.old out.new (compact_text (units_json units.now))) }
{
    out.push("\"")?;
    for unit in units {
        push_word(out, *unit)?;
    }
    out.push("\"")
}

/// Writes the four digits of a unit or a code.
pub fn push_word(out: &mut JsonOut, word: u16) -> Result<(), Memory>
    ensures { OnOk result (Adds out.old out.new (escape (word_text word))) }
{
    let high = (word / 256) as u8;
    let low = (word % 256) as u8;
    let digits = [
        digit(high / 16),
        digit(high % 16),
        digit(low / 16),
        digit(low % 16),
    ];
    out.push(str::from_utf8(&digits).unwrap())
}

/// Writes the two digits of a byte.
fn push_byte(out: &mut JsonOut, byte: u8) -> Result<(), Memory>
    ensures { OnOk result (Adds out.old out.new (escape (byte_text byte))) }
{
    let digits = [digit(byte / 16), digit(byte % 16)];
    out.push(str::from_utf8(&digits).unwrap())
}

/// The lower-case hexadecimal digit of a number below 16, which represents itself in a text of JSON.
fn digit(number: u8) -> u8
    requires { number < 16 }
    ensures value { result ≡ hex_digit number }
    ensures plain { escape_byte result ≡ result ∷ [] }
    ensures ascii { result < 128 }
{
    hex_digit(number)
}
