// Numbers and texts that have names in all rows from here on.
use crate::lent::{added, given};
use crate::row_fault::RowFault;
use std::alloc::Global;

/// A number that has a name.
#[derive(Drop)]
struct Place {
    name: String,
    at: u64,
}

/// A text that has a name.
#[derive(Drop)]
struct Repeat {
    name: String,
    text: String,
}

/// The numbers and the texts that have names.
#[derive(Drop)]
pub(crate) struct Names {
    alloc: Global,
    places: Vec<Place>,
    repeats: Vec<Repeat>,
}

impl Names {
    /// Nothing has a name.
    pub(crate) fn new(alloc: Global) -> Names {
        Names {
            alloc,
            places: Vec::new(alloc),
            repeats: Vec::new(alloc),
        }
    }

    /// Gives a number a name that no number has yet.
    pub(crate) fn add_number(&mut self, name: &str, at: u64) -> Result<(), RowFault> {
        if self.at(name).is_some() {
            return Err(RowFault::NameTwice);
        }
        match String::from_str(self.alloc, name) {
            Ok(name) => added(self.places.push(Place { name, at })),
            Err(_) => Err(RowFault::Memory),
        }
    }

    /// Lets a name that no text has yet represent a text, so many times.
    pub(crate) fn add_text(&mut self, name: &str, count: u64, text: &str) -> Result<(), RowFault> {
        if self.text(name).is_some() {
            return Err(RowFault::NameTwice);
        }
        let text = repeated(self.alloc, count, text)?;
        self.add_repeat(name, text)
    }

    /// Lets a name represent a text.
    fn add_repeat(&mut self, name: &str, text: String) -> Result<(), RowFault> {
        match String::from_str(self.alloc, name) {
            Ok(name) => added(self.repeats.push(Repeat { name, text })),
            Err(_) => Err(RowFault::Memory),
        }
    }

    /// The number that a word says: a sum of numbers and of names, as `wd+0x10+2`.
    pub(crate) fn number(&self, word: &str) -> Result<u64, RowFault> {
        let mut sum = 0u64;
        for part in word.split('+') {
            let Some(more) = sum.checked_add(self.term(part)?) else {
                return Err(RowFault::NoNumber);
            };
            sum = more;
        }
        Ok(sum)
    }

    /// The text with what its names represent. In it a name is between `$` and `;`.
    pub(crate) fn spelled(&self, text: &str) -> Result<String, RowFault> {
        let mut spelled = String::new(self.alloc);
        let pushed = self.push_spelled(&mut spelled, text);
        given(spelled, pushed)
    }

    /// Puts a text, with what its names represent, behind another.
    fn push_spelled(&self, spelled: &mut String, text: &str) -> Result<(), RowFault> {
        let mut parts = text.split('$');
        spelled.push_str(parts.next().unwrap_or(""))?;
        for part in parts {
            self.push_part(spelled, part)?;
        }
        Ok(())
    }

    /// Puts what a name represents, and what is behind it.
    fn push_part(&self, spelled: &mut String, part: &str) -> Result<(), RowFault> {
        let Some((name, rest)) = part.split_once(';') else {
            return Err(RowFault::NoName);
        };
        let Some(text) = self.text(name) else {
            return Err(RowFault::NoName);
        };
        spelled.push_str(text)?;
        spelled.push_str(rest)?;
        Ok(())
    }

    /// A number in decimal digits, one in hexadecimal digits after `0x`, or the number of a name.
    fn term(&self, part: &str) -> Result<u64, RowFault> {
        if let Some(at) = self.at(part) {
            return Ok(at);
        }
        let read = match part.strip_prefix("0x") {
            Some(digits) => u64::from_str_radix(digits, 16),
            None => part.parse::<u64>(),
        };
        match read {
            Ok(number) => Ok(number),
            Err(_) => Err(RowFault::NoNumber),
        }
    }

    /// The number of a name, if it has one.
    fn at(&self, name: &str) -> Option<u64> {
        for place in &self.places {
            if place.name.as_str() == name {
                return Some(place.at);
            }
        }
        None
    }

    /// The text of a name, if it has one.
    fn text(&self, name: &str) -> Option<&str> {
        for repeat in &self.repeats {
            if repeat.name.as_str() == name {
                return Some(repeat.text.as_str());
            }
        }
        None
    }
}

/// A text, so many times.
fn repeated(alloc: Global, count: u64, text: &str) -> Result<String, RowFault> {
    let mut repeated = String::new(alloc);
    let pushed = push_times(&mut repeated, count, text);
    given(repeated, pushed)
}

/// Puts a text behind another, so many times.
fn push_times(repeated: &mut String, count: u64, text: &str) -> Result<(), RowFault> {
    for _ in 0..count {
        repeated.push_str(text)?;
    }
    Ok(())
}
