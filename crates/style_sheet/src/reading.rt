// [MS-DOC] STSH: the rules on it, and the sheet that it holds.
ghost use Rattle.std.specs.Prelude.{◌≡◌, ◌↔◌, ◌+◌, ◌<◌, ◌≤◌};
ghost use Rattle.std.specs.Prelude.{◌^◌, length, IsTrue, IfOk, None, MatchResult};
ghost use Rattle.doc_bits.specs.Rules.{Hold, LeastOrNone, Among};
ghost use Rattle.style_sheet.specs.Formed.{IsFormedSlot};
ghost use Rattle.style_sheet.specs.StyleDefinition.{HasAcceptedLists};
ghost use Rattle.style_sheet.specs.Counted.{counted_bytes};
ghost use Rattle.style_sheet.specs.Stsh.{cstd, stshi_words, slot_place, table_offset, HasStshif, IsSlotAt, AreSlots};
ghost use Rattle.style_sheet.specs.Stsh.{IsWrongSlot, HasSlotFault, HasStyleFault, HasSoundLists, SpellsSlotAt};
ghost use Rattle.style_sheet.specs.Stsh.{HasStyleSheet, stsh_rules, IsStyleFault};

use crate::counted::{counted_bytes, counted_end, even_up, next_place};
use crate::decoding::read_style;
use crate::definition::{is_std, std_fault};
use crate::{Style, StyleFault, StyleSheet};
use doc_bits::{Memory, get16, lesser};
use std::alloc::Global;

const RULE_STSHIF: u8 = 49;

pub const RULE_STYLES: u8 = 50;

pub const RULE_STYLE_LISTS: u8 = 51;

impl StyleSheet {
    /// The sheet that an STSH holds. `at` is its offset in the table stream.
    pub fn read(alloc: Global, stsh: &[u8], at: u32) -> Result<StyleSheet, StyleFault>
        requires { at + length stsh.now < 2 ^ 32 }
        ensures { MatchResult result
            (λ sheet. Hold (stsh_rules stsh.now at) × HasStyleSheet stsh.now sheet)
            (IsStyleFault (stsh_rules stsh.now at)) }
    {
        if !has_stshif(stsh) {
            return Err(StyleFault::Rule {
                rule: RULE_STSHIF,
                offset: at,
            });
        }
        if let Some(offset) = wrong_slot(stsh, at) {
            return Err(StyleFault::Rule {
                rule: RULE_STYLES,
                offset,
            });
        }
        if let Some(offset) = wrong_list(stsh, at) {
            return Err(StyleFault::Rule {
                rule: RULE_STYLE_LISTS,
                offset,
            });
        }
        let sheet = read_slots(alloc, stsh)?;
        Ok(sheet)
    }
}

/// Whether the Stshif is there, with a number of slots and a base that are read.
pub fn has_stshif(part: &[u8]) -> bool
    ensures { IsTrue result ↔ HasStshif part.now }
{
    part.len() >= 20
        && get16(part, 0) >= 18
        && get16(part, 2) >= 1
        && get16(part, 2) <= 4094
        && (get16(part, 4) == 10 || get16(part, 4) == 18)
}

/// Where the first slot is.
pub fn first_slot(part: &[u8]) -> usize
    requires { HasStshif part.now }
    ensures place { result ≡ slot_place part.now 0 }
    ensures bound { result < 2 ^ 17 }
{
    even_up(2 + get16(part, 0) as usize)
}

/// The first slot that leaves the part, or holds what is no STD.
pub fn wrong_slot(part: &[u8], at: u32) -> Option<u32>
    requires stshif { HasStshif part.now }
    requires room { at + length part.now < 2 ^ 32 }
    ensures first { LeastOrNone (Among (cstd part.now) (IsWrongSlot part.now at)) result }
    ensures slots { result ≡ None → AreSlots part.now }
{
    let base = get16(part, 4) as usize;
    let mut place = first_slot(part);
    for _slot in 0..get16(part, 2) {
        if !is_slot(part, place, base) {
            return Some(table_offset(at, place));
        }
        place = next_place(part, place);
    }
    None
}

/// An offset of the part as one of the table stream.
fn table_offset(at: u32, place: usize) -> u32
    requires { place < 2 ^ 40 }
    ensures { result ≡ table_offset at place }
{
    (at as usize + place).min(u32::MAX as usize) as u32
}

/// Whether a slot is within the part, and is empty or holds an STD.
fn is_slot(part: &[u8], place: usize, base: usize) -> bool
    requires { (8 < base) × (base < 20) }
    ensures { IsTrue result ↔ IsSlotAt part.now base place }
{
    match counted_end(part, place) {
        None => false,
        Some(end) => end == place + 2 || is_std(&part[place + 2..end], base),
    }
}

/// The first fault in a list of properties.
fn wrong_list(part: &[u8], at: u32) -> Option<u32>
    requires stshif { HasStshif part.now }
    requires slots { AreSlots part.now }
    requires room { at + length part.now < 2 ^ 32 }
    ensures first { LeastOrNone (Among (cstd part.now) (HasStyleFault part.now at)) result }
    ensures accepted { result ≡ None → HasSoundLists part.now }
{
    let base = get16(part, 4) as usize;
    let mut place = first_slot(part);
    let mut least = None;
    for _slot in 0..get16(part, 2) {
        least = lesser(least, slot_fault(part, place, base, at));
        place = next_place(part, place);
    }
    least
}

/// The first fault in the lists of the style in a slot.
fn slot_fault(part: &[u8], place: usize, base: usize, at: u32) -> Option<u32>
    requires slot { IsSlotAt part.now base place }
    requires base { (8 < base) × (base < 20) }
    requires room { at + length part.now < 2 ^ 32 }
    ensures first { LeastOrNone (HasSlotFault part.now base place at) result }
    ensures accepted { result ≡ None → HasAcceptedLists (counted_bytes part.now place) base }
{
    let std = counted_bytes(part, place);
    if std.is_empty() {
        return None;
    }
    match std_fault(std, base) {
        None => None,
        Some(offset) => Some(at + (place as u32 + 2) + offset),
    }
}

/// The sheet of a part that breaks no rule.
fn read_slots(alloc: Global, part: &[u8]) -> Result<StyleSheet, Memory>
    requires stshif { HasStshif part.now }
    requires slots { AreSlots part.now }
    requires accepted { HasSoundLists part.now }
    ensures { IfOk result (HasStyleSheet part.now) }
{
    let base = get16(part, 4) as usize;
    let mut place = first_slot(part);
    let mut sheet = StyleSheet::new(alloc, read_head(part), read_slot(alloc, part, place, base)?)?;
    for _slot in 1..get16(part, 2) {
        place = next_place(part, place);
        sheet.add(read_slot(alloc, part, place, base)?)?;
    }
    Ok(sheet)
}

/// The seven numbers after cbSTDBaseInFile.
fn read_head(part: &[u8]) -> [u16; 7]
    requires { 20 ≤ length part.now }
    ensures { result ≡ stshi_words part.now }
{
    [
        get16(part, 6),
        get16(part, 8),
        get16(part, 10),
        get16(part, 12),
        get16(part, 14),
        get16(part, 16),
        get16(part, 18),
    ]
}

/// The style in a slot, where it is not empty.
fn read_slot(alloc: Global, part: &[u8], place: usize, base: usize) -> Result<Option<Style>, Memory>
    requires slot { IsSlotAt part.now base place }
    requires base { (8 < base) × (base < 20) }
    requires accepted { HasAcceptedLists (counted_bytes part.now place) base }
    ensures spelt { IfOk result (SpellsSlotAt part.now base place) }
    ensures formed { IfOk result IsFormedSlot }
{
    let std = counted_bytes(part, place);
    if std.is_empty() {
        return Ok(None);
    }
    let style = read_style(alloc, std, base)?;
    Ok(Some(style))
}
