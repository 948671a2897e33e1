// The nesting of fields.
ghost use Rattle.std.specs.Prelude.{◌≡◌, ◌^◌, ◌<◌, ◌↔◌, []};
ghost use Rattle.std.specs.Prelude.{length, IsTrue, MatchBool, Some, None};
ghost use Rattle.doc_bits.specs.Rules.{LeastOrNone};
ghost use Rattle.plain_doc.specs.Nesting.{BreaksNesting, most_open};
ghost use Rattle.plain_doc.specs.OpenFields.{begun, separated, field_ended, after_field_character, after_item};

use crate::Item;
use std::marker::Model;
use text_codes::{FIELD_BEGIN, FIELD_END, FIELD_SEPARATOR};

/// The most fields that may be open at once.
pub const MAX_OPEN: usize = 128;

/// The fields that are open: for each, the outermost first, whether its separator has been met.
#[derive(Drop)]
pub(crate) struct OpenFields {
    separated: [bool; MAX_OPEN],
    depth: usize,
}

impl Model for OpenFields {
    ghost use Rattle.std.specs.Prelude.{◌≤◌, List, Bool, take, reverse};

    ghost Value = { List Bool };

    ghost view = { λ o. reverse (take o.depth o.separated) };

    ghost invariant = { λ o. o.depth ≤ 128 };
}

impl OpenFields {
    /// No field is open.
    pub(crate) fn new() -> OpenFields
        ensures { result ≡ [] }
    {
        OpenFields {
            separated: [false; MAX_OPEN],
            depth: 0,
        }
    }

    /// Whether no field is open.
    pub(crate) fn is_empty(&self) -> bool
        ensures { IsTrue result ↔ self.now ≡ [] }
    {
        self.depth == 0
    }

    /// Opens one more field, where that many may be open.
    fn begin(&mut self) -> bool
        ensures { MatchBool result (begun most_open self.old ≡ Some self.new) (begun most_open self.old ≡ None) }
    {
        if self.depth == MAX_OPEN {
            return false;
        }
        self.separated[self.depth] = false;
        self.depth += 1;
        true
    }

    /// Notes the separator of the innermost field, where it has none yet.
    fn separate(&mut self) -> bool
        ensures { MatchBool result (separated self.old ≡ Some self.new) (separated self.old ≡ None) }
    {
        if self.depth == 0 || self.separated[self.depth - 1] {
            return false;
        }
        self.separated[self.depth - 1] = true;
        true
    }

    /// Closes the innermost field, where there is one.
    fn end(&mut self) -> bool
        ensures { MatchBool result (field_ended self.old ≡ Some self.new) (field_ended self.old ≡ None) }
    {
        if self.depth == 0 {
            return false;
        }
        self.depth -= 1;
        true
    }

    /// Goes past an item, where it is not a wrong field character.
    pub(crate) fn pass_item(&mut self, item: &Item) -> bool
        ensures { MatchBool result
            (after_item most_open item.now self.old ≡ Some self.new)
            (after_item most_open item.now self.old ≡ None) }
    {
        if item.fld.is_none() {
            return true;
        }
        self.pass(item.unit)
    }

    /// Goes past a field character, where it is not a wrong one.
    fn pass(&mut self, unit: u16) -> bool
        ensures { MatchBool result
            (after_field_character most_open unit self.old ≡ Some self.new)
            (after_field_character most_open unit self.old ≡ None) }
    {
        if unit == FIELD_BEGIN {
            return self.begin();
        }
        if unit == FIELD_SEPARATOR {
            return self.separate();
        }
        if unit == FIELD_END {
            return self.end();
        }
        false
    }
}

/// The first item that breaks the nesting of fields, or the length of a text that leaves one open.
pub(crate) fn wrong_field(text: &[Item]) -> Option<u32>
    requires { length text.now < 2 ^ 32 }
    ensures { LeastOrNone (BreaksNesting text.now) result }
{
    let mut open = OpenFields::new();
    for (i, item) in text.iter().enumerate() {
        if item.fld.is_some() {
            if !open.pass(item.unit) {
                return Some(i as u32);
            }
        }
    }
    if open.is_empty() {
        None
    } else {
        Some(text.len() as u32)
    }
}
