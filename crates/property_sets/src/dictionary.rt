// [MS-OLEPS] Dictionary: names of properties.
ghost use Rattle.std.specs.Prelude.{◌≡◌, ◌≤◌, ◌<◌, ◌+◌, ◌==◌, ◌++◌, [], ◌∷◌, length, find, IfOk, OnOk, true};
ghost use Rattle.property_sets.specs.Sets.{IsSet, pairs_of};
ghost use Rattle.property_sets.specs.Names.{dictionary_names, has_entry, property_name_at, entry_name_len, name_pad};
ghost use Rattle.property_sets.specs.Names.{names_at};
ghost use Rattle.property_sets.specs.Names.{names_of_set, next_entry};

use crate::set::{PropertyPair, pair_at, pair_count};
use doc_bits::{Bytes, Memory, get32};
use std::alloc::Global;

/// [MS-OLEPS] The id of a dictionary.
pub const DICTIONARY: u32 = 0;

/// [MS-OLEPS] DictionaryEntry: where Length and Name are.
const LENGTH: usize = 4;

const NAME: usize = 8;

/// The id of a property, and its name in the code page of the set.
#[derive(Drop)]
pub struct PropertyName {
    pub id: u32,
    pub bytes: Bytes,
}

/// The names that the dictionary of a set has. With `wide` a character has two bytes: in a set of the code page 1200.
pub fn property_names(alloc: Global, set: &[u8], wide: bool) -> Result<Vec<PropertyName>, Memory>
    requires { IsSet set.now }
    ensures { IfOk result (λ found. found.items ≡ names_of_set set.now wide) }
{
    match dictionary_pair(set) {
        Some(pair) => dictionary_names(alloc, set, wide, pair.offset),
        None => Ok(Vec::new(alloc)),
    }
}

/// The first pair that names a dictionary.
fn dictionary_pair(set: &[u8]) -> Option<PropertyPair>
    requires { IsSet set.now }
    ensures { result ≡ find (λ pair. pair.id == 0) (pairs_of set.now) }
{
    for i in 0..pair_count(set) {
        let pair = pair_at(set, i);
        if pair.id == DICTIONARY {
            return Some(pair);
        }
    }
    None
}

/// The entries of the dictionary at an offset.
fn dictionary_names(
    alloc: Global,
    set: &[u8],
    wide: bool,
    offset: u32,
) -> Result<Vec<PropertyName>, Memory>
    ensures { IfOk result (λ found. found.items ≡ dictionary_names set.now wide offset) }
{
    let at = offset as usize;
    if at + 4 > set.len() {
        return Ok(Vec::new(alloc));
    }
    entries(alloc, set, wide, get32(set, at), at + 4)
}

/// So many entries from a place on, up to one that leaves the set.
fn entries(
    alloc: Global,
    set: &[u8],
    wide: bool,
    count: u32,
    from: usize,
) -> Result<Vec<PropertyName>, Memory>
    requires { from ≤ length set.now }
    ensures { IfOk result (λ found. found.items ≡ names_at set.now wide count from) }
{
    let mut found = Vec::new(alloc);
    let mut at = from;
    let mut left = count;
    while left > 0 && has_entry(set, wide, at) {
        let name = name_at(alloc, set, wide, at)?;
        keep(&mut found, name)?;
        at = next_entry(set, wide, at);
        left -= 1;
    }
    Ok(found)
}

fn keep(found: &mut Vec<PropertyName>, name: PropertyName) -> Result<(), Memory>
    ensures { OnOk result (found.new.items ≡ found.old.items ++ name ∷ []) }
{
    found.push(name)?;
    Ok(())
}

/// Whether the set has an entry at a place.
fn has_entry(set: &[u8], wide: bool, at: usize) -> bool
    ensures { result ≡ has_entry set.now wide at }
{
    if at > set.len() || NAME > set.len() - at {
        return false;
    }
    name_len(set, wide, at) <= set.len() - at - NAME
}

/// How many bytes the name of an entry has.
fn name_len(set: &[u8], wide: bool, at: usize) -> usize
    requires { at + 8 ≤ length set.now }
    ensures { result ≡ entry_name_len set.now wide at }
{
    let width = if wide { 2 } else { 1 };
    width * get32(set, at + LENGTH) as usize
}

/// The entry at a place.
fn name_at(alloc: Global, set: &[u8], wide: bool, at: usize) -> Result<PropertyName, Memory>
    requires { has_entry set.now wide at ≡ true }
    ensures { IfOk result (λ name. name ≡ property_name_at set.now wide at) }
{
    let from = at + NAME;
    let bytes = Bytes::from_slice(alloc, &set[from..from + name_len(set, wide, at)])?;
    Ok(PropertyName {
        id: get32(set, at),
        bytes,
    })
}

/// Where the entry behind one begins.
fn next_entry(set: &[u8], wide: bool, at: usize) -> usize
    requires { has_entry set.now wide at ≡ true }
    ensures { result ≡ next_entry set.now wide at }
{
    let len = name_len(set, wide, at);
    at + NAME + len + name_pad(wide, len)
}

/// The zeros behind a name.
fn name_pad(wide: bool, len: usize) -> usize
    ensures is { result ≡ name_pad wide len }
    ensures few { result < 4 }
{
    if wide { (4 - len % 4) % 4 } else { 0 }
}
