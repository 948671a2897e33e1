// The properties of a set.
ghost use Rattle.std.specs.Prelude.{◌≡◌, ◌≤◌, ◌++◌, [], ◌∷◌, IfOk, OnOk, Some};
ghost use Rattle.property_sets.specs.Sets.{IsSet};
ghost use Rattle.property_sets.specs.Values.{value_at};
ghost use Rattle.property_sets.specs.Properties.{limited, properties_of_set, value_len, typed_value_of};

use crate::set::{PropertyPair, pair_at, pair_count};
use crate::values::{TypedData, value_at};
use doc_bits::{Bytes, Memory};
use std::alloc::Global;

/// [MS-OLEPS] TypedPropertyValue: the type, and the bytes of the data; of a type with a count those behind it. Of a
/// type that is not read there are none.
#[derive(Drop)]
pub struct TypedValue {
    pub kind: u16,
    pub bytes: Bytes,
}

/// A property: its id, and its value where the set has all of it. A dictionary has none.
#[derive(Drop)]
pub struct Property {
    pub id: u32,
    pub value: Option<TypedValue>,
}

/// The properties of a set, in the order of its pairs. Their values have no more bytes in all than the set.
pub fn properties(alloc: Global, set: &[u8]) -> Result<Vec<Property>, Memory>
    requires { IsSet set.now }
    ensures { IfOk result (λ found. found.items ≡ properties_of_set set.now) }
{
    let mut found = Vec::new(alloc);
    let mut room = set.len();
    for i in 0..pair_count(set) {
        let pair = pair_at(set, i);
        let value = value_of(alloc, set, room, pair)?;
        room -= value_len(&value);
        keep(&mut found, Property { id: pair.id, value })?;
    }
    Ok(found)
}

fn keep(found: &mut Vec<Property>, property: Property) -> Result<(), Memory>
    ensures { OnOk result (found.new.items ≡ found.old.items ++ property ∷ []) }
{
    found.push(property)?;
    Ok(())
}

/// The value that a pair names, where it is not longer than the room.
fn value_of(
    alloc: Global,
    set: &[u8],
    room: usize,
    pair: PropertyPair,
) -> Result<Option<TypedValue>, Memory>
    ensures is { IfOk result (λ value. value ≡ typed_value_of set.now room pair) }
    ensures short { IfOk result (λ value. value_len value ≤ room) }
{
    if pair.id == 0 {
        return Ok(None);
    }
    match value_at(set, pair.offset) {
        Some(found) => limit_to(alloc, room, found),
        None => Ok(None),
    }
}

/// A value, where it is not longer than the room.
fn limit_to(alloc: Global, room: usize, found: TypedData<'_>) -> Result<Option<TypedValue>, Memory>
    ensures is { IfOk result (λ value.
        value ≡ limited room (Some (record { kind = found.entry.kind; bytes = found.entry.bytes.now }))) }
    ensures short { IfOk result (λ value. value_len value ≤ room) }
{
    if found.bytes.len() > room {
        return Ok(None);
    }
    let bytes = Bytes::from_slice(alloc, found.bytes)?;
    Ok(Some(TypedValue {
        kind: found.kind,
        bytes,
    }))
}

/// How many bytes the data of a value has.
fn value_len(value: &Option<TypedValue>) -> usize
    ensures { result ≡ value_len value.now }
{
    match value {
        Some(value) => value.bytes.as_slice().len(),
        None => 0,
    }
}
