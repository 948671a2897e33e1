use crate::lent::{added, given};
use crate::names::Names;
use crate::row_fault::RowFault;
use std::alloc::Global;

/// A line, and what of it is not read yet. A word ends at a space; one that begins with a quotation mark ends at the
/// next one.
#[derive(Drop)]
pub(crate) struct Words<'a, 'n> {
    /// The whole line.
    pub(crate) line: &'a str,
    rest: &'a str,
    names: &'n Names,
}

impl<'a, 'n> Words<'a, 'n> {
    /// The words of a line.
    pub(crate) fn new(line: &'a str, names: &'n Names) -> Words<'a, 'n> {
        Words {
            line,
            rest: line,
            names,
        }
    }

    /// The next word, if there is one.
    pub(crate) fn next(&mut self) -> Option<&'a str> {
        let text = self.rest.trim_start();
        if text.is_empty() {
            self.rest = text;
            return None;
        }
        let (word, rest) = match text.strip_prefix('"') {
            Some(quoted) => parts(quoted, '"'),
            None => parts(text, ' '),
        };
        self.rest = rest;
        Some(word)
    }

    /// The next word. A line that has none is refused.
    pub(crate) fn word(&mut self) -> Result<&'a str, RowFault> {
        match self.next() {
            Some(word) => Ok(word),
            None => Err(RowFault::WordMissing),
        }
    }

    /// The number that the next word says.
    pub(crate) fn number(&mut self) -> Result<u64, RowFault> {
        let word = self.word()?;
        self.names.number(word)
    }

    /// The numbers that the next words say.
    pub(crate) fn numbers<const N: usize>(&mut self) -> Result<[u64; N], RowFault> {
        let mut numbers = [0; N];
        for place in &mut numbers {
            *place = self.number()?;
        }
        Ok(numbers)
    }

    /// The number of 32 bits that the next word says.
    pub(crate) fn small(&mut self) -> Result<u32, RowFault> {
        match u32::try_from(self.number()?) {
            Ok(number) => Ok(number),
            Err(_) => Err(RowFault::NoNumber),
        }
    }

    /// What is left behind the space after the last word.
    pub(crate) fn rest(&mut self) -> &'a str {
        let rest = self.rest;
        self.rest = "";
        rest
    }

    /// What is left, with what its names represent.
    pub(crate) fn spelled(&mut self) -> Result<String, RowFault> {
        let rest = self.rest();
        self.names.spelled(rest)
    }

    /// The words that are left, with what their names and escapes represent.
    pub(crate) fn all(&mut self, alloc: Global) -> Result<Vec<String>, RowFault> {
        let mut all = Vec::new(alloc);
        let pushed = self.push_all(alloc, &mut all);
        given(all, pushed)
    }

    /// Puts the words that are left behind others.
    fn push_all(&mut self, alloc: Global, all: &mut Vec<String>) -> Result<(), RowFault> {
        for _ in 0..self.rest.len() {
            let Some(word) = self.next() else {
                break;
            };
            let text = self.escaped(alloc, word)?;
            added(all.push(text))?;
        }
        Ok(())
    }

    /// A word with what its names and escapes represent.
    fn escaped(&self, alloc: Global, word: &str) -> Result<String, RowFault> {
        let text = self.names.spelled(word)?;
        let units = units_of(alloc, text.as_str());
        drop(text);
        text_of(alloc, units?)
    }

    /// Whether a word is left.
    pub(crate) fn has_more(&self) -> bool {
        !self.rest.trim_start().is_empty()
    }
}

/// What is before a sign, and what behind it.
fn parts(text: &str, sign: char) -> (&str, &str) {
    match text.split_once(sign) {
        Some(parts) => parts,
        None => (text, ""),
    }
}

/// The text of units.
fn text_of(alloc: Global, units: Vec<u16>) -> Result<String, RowFault> {
    let text = String::from_utf16_lossy(alloc, &units);
    drop(units);
    match text {
        Ok(text) => Ok(text),
        Err(_) => Err(RowFault::Memory),
    }
}

/// The units of a text. In it `\uXXXX` is the unit of these hexadecimal digits.
pub(crate) fn units_of(alloc: Global, text: &str) -> Result<Vec<u16>, RowFault> {
    let mut units = Vec::new(alloc);
    let pushed = push_text(&mut units, text);
    given(units, pushed)
}

/// Puts the units of a text with escapes behind others.
fn push_text(units: &mut Vec<u16>, text: &str) -> Result<(), RowFault> {
    let mut parts = text.split("\\u");
    push_units(units, parts.next().unwrap_or(""))?;
    for part in parts {
        push_part(units, part)?;
    }
    Ok(())
}

/// Puts the unit of an escape, and those of what is behind it.
fn push_part(units: &mut Vec<u16>, part: &str) -> Result<(), RowFault> {
    let Some((digits, rest)) = part.split_at_checked(4) else {
        return Err(RowFault::NoNumber);
    };
    let unit = unit_of(digits)?;
    units.push(unit)?;
    push_units(units, rest)
}

/// The unit of hexadecimal digits.
fn unit_of(digits: &str) -> Result<u16, RowFault> {
    match u16::from_str_radix(digits, 16) {
        Ok(unit) => Ok(unit),
        Err(_) => Err(RowFault::NoNumber),
    }
}

/// Puts the units of a text behind others.
fn push_units(units: &mut Vec<u16>, text: &str) -> Result<(), RowFault> {
    for character in text.chars() {
        let mut two = [0u16; 2];
        units.extend_from_slice(character.encode_utf16(&mut two))?;
    }
    Ok(())
}
