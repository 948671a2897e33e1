// The open fields, kept while a text is gone through. They take no memory.
ghost use Rattle.std.specs.Prelude.{◌≡◌, ◌+◌, ◌^◌, ◌<◌, []};
ghost use Rattle.field_links.specs.OpenFields.{after_unit, is_in_results, is_link, hyperlink_in};
ghost use Rattle.field_links.specs.OpenFields.{field_begun, result_begun, inner_ended, has_begun};

use plain_doc::MAX_OPEN;
use std::marker::Model;
use text_codes::{FIELD_BEGIN, FIELD_END, FIELD_SEPARATOR};

/// [MS-DOC] flt: the type of HYPERLINK.
const HYPERLINK: u8 = 0x58;

/// A field that is open.
#[derive(Clone, Copy)]
pub struct OpenField {
    /// The byte of its first character: its type.
    pub kind: u8,
    /// The place of its first character.
    pub began: u32,
    /// The place behind its separator, where that was met.
    pub result: Option<u32>,
}

/// The fields that are open behind the front of a text, the outermost first; at most 128.
#[derive(Drop)]
pub struct OpenFieldPlaces {
    fields: [OpenField; MAX_OPEN],
    len: usize,
}

impl Model for OpenFieldPlaces {
    ghost use Rattle.std.specs.Prelude.{List, ◌≡◌, ◌≤◌, length, take};
    ghost use Rattle.field_links.specs.declared.places.OpenField.{OpenField};

    ghost Value = { List OpenField };

    ghost view = { λ f. take f.len f.fields };

    ghost invariant = { λ f. (length f.fields ≡ 128) × (f.len ≤ 128) };
}

impl OpenFieldPlaces {
    /// No open field.
    pub fn new() -> OpenFieldPlaces
        ensures { result ≡ [] }
    {
        let none = OpenField {
            kind: 0,
            began: 0,
            result: None,
        };
        OpenFieldPlaces {
            fields: [none; MAX_OPEN],
            len: 0,
        }
    }

    /// Goes past the unit at a place, which is a field character where it has a byte.
    pub fn pass(&mut self, place: u32, unit: u16, fld: Option<u8>)
        requires { place + 1 < 2 ^ 32 }
        ensures { self.new ≡ after_unit place unit fld self.old }
    {
        let Some(byte) = fld else {
            return;
        };
        match unit {
            FIELD_BEGIN => self.begin(place, byte),
            FIELD_SEPARATOR => self.separate(place),
            FIELD_END => self.end(),
            _ => {}
        }
    }

    /// Whether no field is open whose result has not begun.
    pub fn is_in_results(&self) -> bool
        ensures { result ≡ is_in_results self.now }
    {
        all_in_results(&self.fields[..self.len])
    }

    /// The outermost of the open hyperlinks whose result began at the place or behind it.
    pub fn hyperlink(&self, begin: u32) -> Option<OpenField>
        ensures { result ≡ hyperlink_in begin self.now }
    {
        first_link(&self.fields[..self.len], begin)
    }

    /// A field begins.
    fn begin(&mut self, place: u32, byte: u8)
        ensures { self.new ≡ field_begun place byte self.old }
    {
        if self.len < MAX_OPEN {
            self.fields[self.len] = OpenField {
                kind: byte,
                began: place,
                result: None,
            };
            self.len += 1;
        }
    }

    /// The result of the innermost one begins.
    fn separate(&mut self, place: u32)
        requires { place + 1 < 2 ^ 32 }
        ensures { self.new ≡ result_begun place self.old }
    {
        if self.len > 0 {
            let innermost = self.fields[self.len - 1];
            self.fields[self.len - 1] = OpenField {
                kind: innermost.kind,
                began: innermost.began,
                result: Some(place + 1),
            };
        }
    }

    /// The innermost one ends.
    fn end(&mut self)
        ensures { self.new ≡ inner_ended self.old }
    {
        if self.len > 0 {
            self.len -= 1;
        }
    }
}

/// Whether the result of each has begun.
fn all_in_results(fields: &[OpenField]) -> bool
    ensures { result ≡ is_in_results fields.now }
{
    for field in fields {
        if field.result.is_none() {
            return false;
        }
    }
    true
}

/// The first hyperlink whose result began at the place or behind it.
fn first_link(fields: &[OpenField], begin: u32) -> Option<OpenField>
    ensures { result ≡ hyperlink_in begin fields.now }
{
    for field in fields {
        if is_link(field, begin) {
            return Some(*field);
        }
    }
    None
}

/// Whether the field is a hyperlink whose result began at the place or behind it.
fn is_link(field: &OpenField, begin: u32) -> bool
    ensures { result ≡ is_link begin field.now }
{
    if field.kind != HYPERLINK {
        return false;
    }
    match field.result {
        Some(result) => begin <= result,
        None => false,
    }
}
