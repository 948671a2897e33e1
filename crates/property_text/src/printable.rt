// A text in which a control is its number.
ghost use Rattle.std.specs.Prelude.{◌≡◌, false, IfOk};
ghost use Rattle.std.specs.String.{string_bytes};
ghost use Rattle.property_text.specs.Printable.{is_control_in_lines, HasNoControls};

use doc_bits::{Memory, Text};
use std::alloc::Global;
use std::marker::Model;

/// A text without controls but line feeds.
#[derive(Drop)]
pub(crate) struct Printable {
    text: String,
}

impl Model for Printable {
    ghost use Rattle.std.specs.Prelude.{List, ℕ};
    ghost use Rattle.std.specs.String.{string_bytes};
    ghost use Rattle.property_text.specs.Printable.{HasNoControls};

    ghost Value = { List ℕ };

    ghost view = { λ p. string_bytes p.text };

    ghost invariant = { λ p. HasNoControls (string_bytes p.text) };
}

impl Printable {
    /// No text.
    pub(crate) fn new(alloc: Global) -> Printable {
        Printable {
            text: String::new(alloc),
        }
    }

    /// Adds a character; a control, or a line feed, as its number.
    pub(crate) fn push(&mut self, character: char) -> Result<(), Memory> {
        if is_control(character) || character == '\n' {
            return self.push_number(character as u32);
        }
        push_visible(&mut self.text, character)
    }

    /// Adds a line feed.
    pub(crate) fn end_line(&mut self) -> Result<(), Memory> {
        push_visible(&mut self.text, '\n')
    }

    /// Adds a reverse solidus, the letter u and the four digits of a unit.
    pub(crate) fn push_number(&mut self, unit: u32) -> Result<(), Memory> {
        push_visible(&mut self.text, '\\')?;
        push_visible(&mut self.text, 'u')?;
        self.push_digit(unit / 0x1000)?;
        self.push_digit(unit / 0x100)?;
        self.push_digit(unit / 0x10)?;
        self.push_digit(unit)
    }

    /// Adds the lower-case hexadecimal digit of the lowest four bits of a number.
    pub(crate) fn push_digit(&mut self, number: u32) -> Result<(), Memory> {
        push_visible(&mut self.text, digit(number % 16))
    }

    /// Adds the characters of a text.
    pub(crate) fn push_str(&mut self, text: &str) -> Result<(), Memory> {
        for character in text.chars() {
            self.push(character)?;
        }
        Ok(())
    }

    /// The text.
    pub(crate) fn finish(self) -> Text
        ensures { HasNoControls result }
    {
        Text::from_string(self.text)
    }
}

/// Whether a character is a control, but a line feed.
fn is_control(character: char) -> bool
    ensures { result ≡ is_control_in_lines character }
{
    let code = character as u32;
    (code < 0x20 && code != 10) || (code >= 0x7F && code <= 0x9F)
}

/// The lower-case hexadecimal digit of a number below 16.
fn digit(number: u32) -> char
    ensures { is_control_in_lines result ≡ false }
{
    match number {
        0 => '0',
        1 => '1',
        2 => '2',
        3 => '3',
        4 => '4',
        5 => '5',
        6 => '6',
        7 => '7',
        8 => '8',
        9 => '9',
        10 => 'a',
        11 => 'b',
        12 => 'c',
        13 => 'd',
        14 => 'e',
        _ => 'f',
    }
}

/// Adds a character that is no control.
fn push_visible(text: &mut String, character: char) -> Result<(), Memory>
    requires visible { is_control_in_lines character ≡ false }
    requires before { HasNoControls (string_bytes text.old) }
    ensures { HasNoControls (string_bytes text.new) }
{
    text.push(character)?;
    Ok(())
}
