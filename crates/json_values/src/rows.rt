// The members of an object, read as a row in the order of the keys.
ghost use Rattle.std.specs.Prelude.{◌≡◌, Some, None, MatchResult, option_map};
ghost use Rattle.serde_json.specs.Find.{as_object};
ghost use Rattle.serde_json.specs.View.{view, members_view};
ghost use Rattle.edit_script.specs.Json.{GivesReading};
ghost use Rattle.edit_script.specs.Values.{bytes_of, byte_number, short_number, properties_of};
ghost use Rattle.json_values.specs.Digits.{hex_units_of};
ghost use Rattle.json_values.specs.Rows.{taken, taken_if, need, may, no_member_left, Steps};

use crate::hex_units_in;
use doc_bits::{Bytes, Units};
use edit_script::{ShapeError, byte_in, bytes_in, properties_in, short_in};
use prop_map::PropMap;
use serde_json::Value;
use std::alloc::Global;
use std::collections::btree_map::Iter;

/// The members of an object that are left, in the order of their keys.
#[derive(Drop)]
pub struct Row<'a> {
    pub left: Iter<'a, String, Value>,
}

impl<'a> Row<'a> {
    /// The members of an object. Another value is a wrong shape.
    pub fn of(value: &'a Value) -> Result<Row<'a>, ShapeError>
        ensures { MatchResult result
            (λ row. as_object (view value.now) ≡ Some (members_view row.left))
            (λ fault. (fault ≡ ShapeError.Shape) × (as_object (view value.now) ≡ None)) }
    {
        match value.as_object() {
            None => Err(ShapeError::Shape),
            Some(members) => Ok(Row {
                left: members.iter(),
            }),
        }
    }

    /// The value at a key that comes first.
    pub fn need(&mut self, key: &str) -> Result<&'a Value, ShapeError>
        ensures { MatchResult result
            (λ found. taken key.now (members_view self.old.left) ≡ Some (view found.now, members_view self.new.left))
            (λ fault. (fault ≡ ShapeError.Shape) × (taken key.now (members_view self.old.left) ≡ None)) }
    {
        match self.left.next() {
            None => Err(ShapeError::Shape),
            Some((name, value)) => {
                if name.as_str() == key {
                    Ok(value)
                } else {
                    Err(ShapeError::Shape)
                }
            }
        }
    }

    /// The value at a key, where it comes first.
    pub fn may(&mut self, key: &str) -> Option<&'a Value>
        ensures { taken_if key.now (members_view self.old.left)
            ≡ (option_map (λ v. view v.now) result, members_view self.new.left) }
    {
        let mut ahead = self.left.clone().unwrap();
        let (name, value) = ahead.next()?;
        if name.as_str() == key {
            self.left = ahead;
            Some(value)
        } else {
            None
        }
    }

    /// No member is left, or the object has a wrong shape.
    pub fn end(&mut self) -> Result<(), ShapeError>
        ensures { GivesReading result (no_member_left (members_view self.old.left)) }
    {
        match self.left.next() {
            None => Ok(()),
            Some(_) => Err(ShapeError::Shape),
        }
    }

    /// The bytes at a key.
    pub fn bytes(&mut self, alloc: Global, key: &str) -> Result<Bytes, ShapeError>
        ensures { Steps (need key.now bytes_of) (members_view self.old.left) result (members_view self.new.left) }
    {
        bytes_in(alloc, self.need(key)?)
    }

    /// The units at a key.
    pub fn units(&mut self, alloc: Global, key: &str) -> Result<Units, ShapeError>
        ensures { Steps (need key.now hex_units_of) (members_view self.old.left) result (members_view self.new.left) }
    {
        hex_units_in(alloc, self.need(key)?)
    }

    /// The number of 16 bits at a key.
    pub fn short(&mut self, key: &str) -> Result<u16, ShapeError>
        ensures { Steps (need key.now short_number) (members_view self.old.left) result (members_view self.new.left) }
    {
        short_in(self.need(key)?)
    }

    /// The number of 8 bits at a key.
    pub fn byte(&mut self, key: &str) -> Result<u8, ShapeError>
        ensures { Steps (need key.now byte_number) (members_view self.old.left) result (members_view self.new.left) }
    {
        byte_in(self.need(key)?)
    }

    /// The number of 8 bits at a key, where it comes first.
    pub fn byte_if(&mut self, key: &str) -> Result<Option<u8>, ShapeError>
        ensures { Steps (may key.now byte_number) (members_view self.old.left) result (members_view self.new.left) }
    {
        match self.may(key) {
            None => Ok(None),
            Some(value) => Ok(Some(byte_in(value)?)),
        }
    }

    /// The properties at a key.
    pub fn properties(&mut self, alloc: Global, key: &str) -> Result<PropMap, ShapeError>
        ensures { Steps (need key.now properties_of) (members_view self.old.left) result (members_view self.new.left) }
    {
        properties_in(alloc, self.need(key)?)
    }

    /// The properties at a key, where it comes first.
    pub fn properties_if(&mut self, alloc: Global, key: &str) -> Result<Option<PropMap>, ShapeError>
        ensures { Steps (may key.now properties_of) (members_view self.old.left) result (members_view self.new.left) }
    {
        match self.may(key) {
            None => Ok(None),
            Some(value) => Ok(Some(properties_in(alloc, value)?)),
        }
    }
}
