// The text that is shown for units. A surrogate pair is one character, so a high surrogate waits for the next unit.
ghost use Rattle.std.specs.Prelude.{◌≡◌, ◌<◌, ◌≤◌, ◌++◌, ◌⊎◌, ◌↔◌, ◌&&◌};
ghost use Rattle.std.specs.Prelude.{nat_le, nat_lt, List, ℕ, [], ◌∷◌, length, take, Bool};
ghost use Rattle.std.specs.Prelude.{true, false, IfOk, OnOk, OnErr, IfSome, MatchOption, IsTrue, encode_utf8};
ghost use Rattle.std.specs.String.{string_bytes};
ghost use Rattle.text_codes.specs.Shown.{Showing, shown_text, shown_alone, completed, escape, is_pair};
ghost use Rattle.text_codes.specs.Shown.{pair_code, is_escaped};

use crate::digits::hex_digit;
use crate::gathering::{BLOCK_LEN, gather};
use doc_bits::{Memory, Text};
use std::alloc::Global;
use std::marker::Model;
use std::str;

const LINE_FEED: char = '\n';

/// A shown text that is not finished: more units may follow.
#[derive(Drop)]
pub struct ShownText {
    lines: bool,
    text: String,
    waiting: Option<u16>,
}

impl Model for ShownText {
    ghost use Rattle.std.specs.Prelude.{option_to_list};
    ghost use Rattle.std.specs.String.{string_bytes};
    ghost use Rattle.text_codes.specs.Shown.{Showing};

    ghost Value = { Showing };

    ghost view = { λ s. record { lines = s.lines; text = string_bytes s.text; waiting = option_to_list s.waiting } };
}

impl ShownText {
    /// A text of no units. With `lines` a paragraph mark is shown as a line feed.
    pub fn new(alloc: Global, lines: bool) -> ShownText
        ensures { (units : List ℕ) → completed result units ≡ shown_text lines units }
    {
        ShownText {
            lines,
            text: String::new(alloc),
            waiting: None,
        }
    }

    /// Adds a unit: what is completed by the units after it was completed by it and them.
    pub fn push(&mut self, unit: u16) -> Result<(), Memory>
        ensures ok { OnOk result
            ((units : List ℕ) → completed self.new units ≡ completed self.old (unit ∷ units)) }
        ensures err { OnErr result (self.new ≡ self.old) }
    {
        let Some(first) = self.waiting else {
            return self.push_first(unit);
        };
        if let Some(character) = pair(first, unit) {
            self.text.push(character)?;
            self.waiting = None;
            return Ok(());
        }
        push_alone(&mut self.text, self.lines, first)?;
        self.waiting = Some(unit);
        Ok(())
    }

    /// Adds a unit where none waits.
    #[inline(always)]
    fn push_first(&mut self, unit: u16) -> Result<(), Memory>
        requires { self.old.waiting ≡ [] }
        ensures ok { OnOk result
            ((units : List ℕ) → completed self.new units ≡ completed self.old (unit ∷ units)) }
        ensures err { OnErr result (self.new ≡ self.old) }
    {
        if is_high(unit) {
            self.waiting = Some(unit);
            return Ok(());
        }
        push_alone(&mut self.text, self.lines, unit)?;
        Ok(())
    }

    /// Adds a list of units, as if they were added one by one.
    pub fn push_all(&mut self, units: &[u16]) -> Result<(), Memory>
        ensures { OnOk result
            ((after : List ℕ) → completed self.new after ≡ completed self.old (units.now ++ after)) }
    {
        self.text.reserve(units.len())?;
        let mut done = 0;
        while done < units.len() {
            done += self.push_front(&units[done..])?;
        }
        Ok(())
    }

    /// Adds one or more units of the front of a list, and counts them.
    fn push_front(&mut self, units: &[u16]) -> Result<usize, Memory>
        requires { 0 < length units.now }
        ensures some { IfOk result (λ count. 0 < count) }
        ensures inside { IfOk result (λ count. count ≤ length units.now) }
        ensures text { IfOk result (λ count. (after : List ℕ)
            → completed self.new after ≡ completed self.old (take count units.now ++ after)) }
    {
        if self.waiting.is_none() {
            let mut block = [0u8; BLOCK_LEN];
            let (count, len) = gather(units, self.lines, &mut block);
            if count > 0 {
                self.text.push_str(str::from_utf8(&block[..len]).unwrap())?;
                return Ok(count);
            }
        }
        self.push(units[0])?;
        Ok(1)
    }

    /// The whole text, when no unit follows.
    pub fn finish(self) -> Result<Text, Memory>
        ensures { IfOk result (λ text. text ≡ completed self []) }
    {
        let ShownText {
            lines,
            mut text,
            waiting,
        } = self;
        let Some(last) = waiting else {
            return Ok(Text::from_string(text));
        };
        push_alone(&mut text, lines, last)?;
        Ok(Text::from_string(text))
    }
}

/// The shown text of units.
pub fn show_units(alloc: Global, units: &[u16]) -> Result<Text, Memory>
    ensures { IfOk result (λ text. text ≡ shown_text false units.now) }
{
    let mut text = ShownText::new(alloc, false);
    text.push_all(units)?;
    text.finish()
}

/// Whether a unit is the first one of surrogate pairs.
#[inline(always)]
fn is_high(unit: u16) -> bool
    ensures { result ≡ (nat_le 0xD800 unit && nat_lt unit 0xDC00) }
{
    unit >= 0xD800 && unit < 0xDC00
}

/// The character of a surrogate pair, where the two units are one.
fn pair(first: u16, second: u16) -> Option<char>
    ensures { MatchOption result
        (is_pair first second ≡ false)
        (λ character. (is_pair first second ≡ true) × (character ≡ pair_code first second)) }
{
    if first >= 0xD800 && first < 0xDC00 && second >= 0xDC00 && second < 0xE000 {
        let high = (first - 0xD800) as u32;
        let low = (second - 0xDC00) as u32;
        Some(char::from_u32(0x10000 + high * 0x400 + low).unwrap())
    } else {
        None
    }
}

/// Appends a unit that is in no pair.
#[inline(always)]
fn push_alone(text: &mut String, lines: bool, unit: u16) -> Result<(), Memory>
    ensures ok { OnOk result (string_bytes text.new ≡ string_bytes text.old ++ shown_alone lines unit) }
    ensures err { OnErr result (string_bytes text.new ≡ string_bytes text.old) }
{
    if escapes(unit) {
        if lines && unit == 0x0D {
            text.push(LINE_FEED)?;
        } else {
            push_escape(text, unit)?;
        }
    } else {
        text.push(char::from_u32(unit as u32).unwrap())?;
    }
    Ok(())
}

/// Whether a unit alone is shown by its number.
#[inline(always)]
pub(crate) fn escapes(unit: u16) -> bool
    ensures { result ≡ is_escaped unit }
{
    unit < 0x20 || unit == 0x5C || (unit >= 0xD800 && unit < 0xE000)
}

/// Appends a reverse solidus, the letter u and the four digits of a unit.
#[inline(never)]
fn push_escape(text: &mut String, unit: u16) -> Result<(), Memory>
    ensures ok { OnOk result (string_bytes text.new ≡ string_bytes text.old ++ escape unit) }
    ensures err { OnErr result (string_bytes text.new ≡ string_bytes text.old) }
{
    let digits = [
        b'\\',
        b'u',
        hex_digit((unit / 0x1000) as u8),
        hex_digit((unit / 0x100 % 16) as u8),
        hex_digit((unit / 0x10 % 16) as u8),
        hex_digit((unit % 16) as u8),
    ];
    text.push_str(str::from_utf8(&digits).unwrap())?;
    Ok(())
}
