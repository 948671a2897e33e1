// A page of properties: a line for each, or one object of JSON.
ghost use Rattle.std.specs.Prelude.{IfOk};
ghost use Rattle.property_text.specs.Printable.{HasNoControls};

use crate::dates::Date;
use crate::printable::Printable;
use doc_bits::{Memory, Text};
use std::alloc::Global;

/// How properties are shown.
#[derive(Clone, Copy, PartialEq, Eq)]
pub enum PropertyForm {
    /// A line for each: its name, a colon and a space, its value.
    Lines,
    /// An object of JSON, on a line.
    Json,
}

/// A page that is not finished.
#[derive(Drop)]
pub(crate) struct PropertyPage {
    alloc: Global,
    json: bool,
    empty: bool,
    text: Printable,
}

impl PropertyPage {
    /// A page of no properties.
    pub(crate) fn new(alloc: Global, form: PropertyForm) -> PropertyPage {
        PropertyPage {
            alloc,
            json: form == PropertyForm::Json,
            empty: true,
            text: Printable::new(alloc),
        }
    }

    pub(crate) fn alloc(&self) -> Global {
        self.alloc
    }

    /// Begins the name of a property.
    pub(crate) fn begin_key(&mut self) -> Result<(), Memory> {
        if self.json {
            let before = if self.empty { "{\"" } else { ", \"" };
            self.text.push_str(before)?;
        }
        self.empty = false;
        Ok(())
    }

    /// Ends the name, and begins the value.
    pub(crate) fn end_key(&mut self) -> Result<(), Memory> {
        let after = if self.json { "\": " } else { ": " };
        self.text.push_str(after)
    }

    /// Ends the value.
    pub(crate) fn end_value(&mut self) -> Result<(), Memory> {
        if self.json {
            return Ok(());
        }
        self.text.end_line()
    }

    /// Begins or ends a text that is a value.
    pub(crate) fn quote(&mut self) -> Result<(), Memory> {
        if self.json {
            return self.text.push_str("\"");
        }
        Ok(())
    }

    /// Adds characters that need no escape: of names, numbers and dates.
    pub(crate) fn push_str(&mut self, text: &str) -> Result<(), Memory> {
        self.text.push_str(text)
    }

    /// Adds a character of a text of the file.
    pub(crate) fn push_char(&mut self, character: char) -> Result<(), Memory> {
        if character == '\\' || (self.json && character == '"') {
            self.text.push('\\')?;
        }
        self.text.push(character)
    }

    /// Adds a unit that is no character, as its number.
    pub(crate) fn push_unit(&mut self, unit: u16) -> Result<(), Memory> {
        self.text.push_number(unit as u32)
    }

    /// Adds a byte that is no character, as its number.
    pub(crate) fn push_byte(&mut self, byte: u8) -> Result<(), Memory> {
        let before = if self.json { "\\\\x" } else { "\\x" };
        self.text.push_str(before)?;
        self.text.push_digit(byte as u32 / 16)?;
        self.text.push_digit(byte as u32)
    }

    /// Adds a number in decimal digits.
    pub(crate) fn push_decimal(&mut self, number: u64) -> Result<(), Memory> {
        let digits = format!(in self.alloc; "{number}")?;
        self.text.push_str(digits.as_str())
    }

    /// Adds the number of a type or of a property in hexadecimal digits, as many as it needs.
    pub(crate) fn push_hexadecimal(&mut self, number: u32) -> Result<(), Memory> {
        let digits = format!(in self.alloc; "0x{number:04x}")?;
        self.text.push_str(digits.as_str())
    }

    /// Adds a date as ISO 8601 has it.
    pub(crate) fn push_date(&mut self, date: Date) -> Result<(), Memory> {
        let Date {
            year,
            month,
            day,
            second,
        } = date;
        if year > 9999 {
            self.text.push_str("+")?;
        }
        let days = format!(in self.alloc; "{year:04}-{month:02}-{day:02}T")?;
        self.text.push_str(days.as_str())?;
        let (hour, minute, rest) = (second / 3600, second / 60 % 60, second % 60);
        let time = format!(in self.alloc; "{hour:02}:{minute:02}:{rest:02}Z")?;
        self.text.push_str(time.as_str())
    }

    /// Says why a value is not shown: in JSON it is null.
    pub(crate) fn push_unread(&mut self, kind: Option<u16>) -> Result<(), Memory> {
        if self.json {
            return self.text.push_str("null");
        }
        let Some(kind) = kind else {
            return self.text.push_str("\\damaged");
        };
        self.text.push_str("\\type ")?;
        self.push_hexadecimal(kind as u32)
    }

    /// The page.
    pub(crate) fn finish(self) -> Result<Text, Memory>
        ensures { IfOk result HasNoControls }
    {
        let PropertyPage {
            json,
            empty,
            mut text,
            ..
        } = self;
        if json {
            text.push_str(if empty { "{}" } else { "}" })?;
            text.end_line()?;
        }
        Ok(text.finish())
    }
}
