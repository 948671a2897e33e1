// Texts in a code page.
ghost use Rattle.std.specs.Prelude.{◌≤◌, length, IfSome};

use crate::page::PropertyPage;
use crate::tables::{
    WINDOWS_1250, WINDOWS_1251, WINDOWS_1252, WINDOWS_1253, WINDOWS_1254, WINDOWS_1255,
    WINDOWS_1256, WINDOWS_1257, WINDOWS_1258,
};
use doc_bits::{Memory, get16};
use std::str;

/// [MS-OLEPS] CP_WINUNICODE, and the code page of UTF-8.
pub(crate) const UTF_16: u16 = 1200;

const UTF_8: u16 = 65001;

/// The first byte of the upper half of a code page.
const UPPER: u8 = 0x80;

/// Adds a text up to its first zero, by its code page.
pub(crate) fn push_coded(
    page: &mut PropertyPage,
    bytes: &[u8],
    code_page: u16,
) -> Result<(), Memory> {
    if code_page == UTF_16 {
        return push_units(page, bytes);
    }
    let text = before_zero(bytes);
    if code_page == UTF_8 {
        return push_utf8(page, text);
    }
    push_by(page, text, upper_half(code_page))
}

/// The bytes before the first zero.
fn before_zero(bytes: &[u8]) -> &[u8] {
    for i in 0..bytes.len() {
        if bytes[i] == 0 {
            return &bytes[..i];
        }
    }
    bytes
}

/// The characters of the upper half of a code page, where they are known here.
fn upper_half(code_page: u16) -> Option<&'static [u16]> {
    match code_page {
        1250 => Some(&WINDOWS_1250),
        1251 => Some(&WINDOWS_1251),
        1252 => Some(&WINDOWS_1252),
        1253 => Some(&WINDOWS_1253),
        1254 => Some(&WINDOWS_1254),
        1255 => Some(&WINDOWS_1255),
        1256 => Some(&WINDOWS_1256),
        1257 => Some(&WINDOWS_1257),
        1258 => Some(&WINDOWS_1258),
        _ => None,
    }
}

/// Adds bytes by the characters of an upper half; ASCII is itself, and what has no character is its number.
fn push_by(page: &mut PropertyPage, text: &[u8], upper: Option<&[u16]>) -> Result<(), Memory> {
    for byte in text {
        match character(*byte, upper) {
            Some(character) => page.push_char(character)?,
            None => page.push_byte(*byte)?,
        }
    }
    Ok(())
}

/// The character of a byte.
fn character(byte: u8, upper: Option<&[u16]>) -> Option<char> {
    if byte < UPPER {
        return char::from_u32(byte as u32);
    }
    let unit = *upper?.get((byte - UPPER) as usize)?;
    if unit == 0 {
        return None;
    }
    char::from_u32(unit as u32)
}

/// Adds a text in UTF-8; where it is none, its bytes.
fn push_utf8(page: &mut PropertyPage, text: &[u8]) -> Result<(), Memory> {
    let Ok(text) = str::from_utf8(text) else {
        return push_by(page, text, None);
    };
    for character in text.chars() {
        page.push_char(character)?;
    }
    Ok(())
}

/// Adds units of two bytes up to the first zero. Half of a pair is its number.
pub(crate) fn push_units(page: &mut PropertyPage, bytes: &[u8]) -> Result<(), Memory> {
    let mut at = 0;
    while bytes.len() - at >= 2 {
        let unit = get16(bytes, at);
        if unit == 0 {
            return Ok(());
        }
        at += 2;
        match pair(unit, &bytes[at..]) {
            Some(character) => {
                page.push_char(character)?;
                at += 2;
            }
            None => push_alone(page, unit)?,
        }
    }
    Ok(())
}

/// Adds a unit that is in no pair.
fn push_alone(page: &mut PropertyPage, unit: u16) -> Result<(), Memory> {
    match char::from_u32(unit as u32) {
        Some(character) => page.push_char(character),
        None => page.push_unit(unit),
    }
}

/// The character of a unit and the next one, where they are a surrogate pair.
fn pair(first: u16, rest: &[u8]) -> Option<char>
    ensures { IfSome result (λ _. 2 ≤ length rest.now) }
{
    if rest.len() < 2 || first < 0xD800 || first >= 0xDC00 {
        return None;
    }
    let second = get16(rest, 0);
    if second < 0xDC00 || second >= 0xE000 {
        return None;
    }
    let high = (first - 0xD800) as u32;
    let low = (second - 0xDC00) as u32;
    char::from_u32(0x10000 + high * 0x400 + low)
}
