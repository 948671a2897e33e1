// The number of a level, by how far it and those below it have counted.
ghost use Rattle.std.specs.Prelude.{◌≡◌, ◌++◌, ◌∷◌, [], ◌<◌, ◌≤◌, ℕ, List, length, take, slice_index, OnOk, IfOk};
ghost use Rattle.std.specs.List.{flat_map};
ghost use Rattle.list_numbers.specs.NumberText.{numeral_in};
ghost use Rattle.list_numbers.specs.Counts.{list_value};
ghost use Rattle.list_numbers.specs.Numbers.{text_within, placed_unit, number_units};
ghost use Rattle.doc_parts.specs.Tabulated.{tabulate};

use crate::level::Level;
use crate::levels::Levels;
use crate::number_kind::NumberKind;
use crate::numeral::push_number;
use doc_bits::{Memory, Units};
use std::alloc::Global;

/// Units from here on represent themselves.
const PLACEHOLDERS: u16 = 9;

/// In a text of more units the number of each level is made once.
const FEW_UNITS: usize = 64;

/// The units of a number at a level of a list.
pub(crate) fn number_units(
    alloc: Global,
    levels: &Levels,
    own: usize,
    counts: &[u32],
) -> Result<Units, Memory>
    ensures { IfOk result (λ units. units ≡ number_units levels.now own (λ level. slice_index counts.now level)) }
{
    let mut units = Units::new(alloc);
    if own < levels.len() {
        push_level(alloc, &mut units, levels, own, counts)?;
    }
    Ok(units)
}

/// Appends the number of a level that is there.
fn push_level(
    alloc: Global,
    units: &mut Units,
    levels: &Levels,
    own: usize,
    counts: &[u32],
) -> Result<(), Memory>
    requires { own < length levels.now }
    ensures { OnOk result
        (units.new ≡ units.old ++ number_units levels.now own (λ level. slice_index counts.now level)) }
{
    let level = levels.get(own);
    let text = level.text.as_slice();
    match level.kind {
        NumberKind::Bullet => units.push_all(text),
        NumberKind::Nothing => Ok(()),
        NumberKind::Decimal => push_text(alloc, units, levels, own, counts, text),
        NumberKind::Roman(_) => push_text(alloc, units, levels, own, counts, text),
        NumberKind::Letters(_) => push_text(alloc, units, levels, own, counts, text),
    }
}

/// Appends a text of a level, each unit below 9 replaced.
fn push_text(
    alloc: Global,
    units: &mut Units,
    levels: &Levels,
    own: usize,
    counts: &[u32],
    text: &[u16],
) -> Result<(), Memory>
    ensures { OnOk result (units.new ≡ units.old
        ++ flat_map (placed_unit levels.now own (λ level. slice_index counts.now level)) text.now) }
{
    if text.len() > FEW_UNITS {
        let numbers = numbers_within(alloc, levels, own, counts)?;
        push_long(units, &numbers, text)?;
        return Ok(());
    }
    for unit in text {
        push_placed(alloc, units, levels, own, counts, *unit)?;
    }
    Ok(())
}

/// What each unit below 9 represents.
#[tactic(auto, using(crate::proofs::TabulatedLemmas::tabulate_steps))]
fn numbers_within(
    alloc: Global,
    levels: &Levels,
    own: usize,
    counts: &[u32],
) -> Result<Vec<Units>, Memory>
    ensures { IfOk result (λ numbers. numbers.items
        ≡ tabulate (placed_unit levels.now own (λ level. slice_index counts.now level)) 9) }
{
    let mut numbers = Vec::new(alloc);
    for unit in 0..PLACEHOLDERS {
        let mut number = Units::new(alloc);
        push_placed(alloc, &mut number, levels, own, counts, unit)?;
        numbers.push(number)?;
    }
    Ok(numbers)
}

/// Appends a text, each unit below 9 replaced by its number of these.
fn push_long(units: &mut Units, numbers: &[Units], text: &[u16]) -> Result<(), Memory>
    requires { length numbers.now ≡ 9 }
    ensures { OnOk result ((represented : ℕ → List ℕ) → numbers.now ≡ tabulate represented 9
        → ((unit : ℕ) → 9 ≤ unit → represented unit ≡ unit ∷ [])
        → units.new ≡ units.old ++ flat_map represented text.now) }
{
    let mut done = 0;
    while done < text.len() {
        done += push_front(units, numbers, &text[done..])?;
    }
    Ok(())
}

/// Appends what one or more units of the front of a text represent, and counts them. Those that represent themselves
/// are appended at once.
fn push_front(units: &mut Units, numbers: &[Units], text: &[u16]) -> Result<usize, Memory>
    requires some { 0 < length text.now }
    requires numbers { length numbers.now ≡ 9 }
    ensures some { IfOk result (λ count. 0 < count) }
    ensures within { IfOk result (λ count. count ≤ length text.now) }
    ensures units { IfOk result (λ count. (represented : ℕ → List ℕ) → numbers.now ≡ tabulate represented 9
        → ((unit : ℕ) → 9 ≤ unit → represented unit ≡ unit ∷ [])
        → units.new ≡ units.old ++ flat_map represented (take count text.now)) }
{
    let first = text[0];
    if first < PLACEHOLDERS {
        units.push_all(numbers[first as usize].as_slice())?;
        return Ok(1);
    }
    let count = plain_len(text);
    units.push_all(&text[..count])?;
    Ok(count)
}

/// How many units at the front of a text represent themselves, where the first one does.
fn plain_len(text: &[u16]) -> usize
    requires some { 0 < length text.now }
    requires first { 9 ≤ slice_index text.now 0 }
    ensures some { 0 < result }
    ensures within { result ≤ length text.now }
    ensures plain { (k : ℕ) → k < result → 9 ≤ slice_index text.now k }
{
    let mut count = 1;
    while count < text.len() && text[count] >= PLACEHOLDERS {
        count += 1;
    }
    count
}

/// Appends what a unit of a text represents.
pub(crate) fn push_placed(
    alloc: Global,
    units: &mut Units,
    levels: &Levels,
    own: usize,
    counts: &[u32],
    unit: u16,
) -> Result<(), Memory>
    ensures { OnOk result (units.new ≡ units.old
        ++ placed_unit levels.now own (λ level. slice_index counts.now level) unit) }
{
    if unit >= PLACEHOLDERS {
        return units.push_all(&[unit]);
    }
    let named = unit as usize;
    if named <= own && named < levels.len() {
        return push_within(alloc, units, levels.get(named), count_in(counts, named));
    }
    Ok(())
}

/// How far a level has counted.
fn count_in(counts: &[u32], level: usize) -> u32
    ensures { result ≡ slice_index counts.now level }
{
    if level < counts.len() {
        counts[level]
    } else {
        0
    }
}

/// Appends the number of a level as it is within another.
fn push_within(alloc: Global, units: &mut Units, level: &Level, count: u32) -> Result<(), Memory>
    ensures { OnOk result (units.new ≡ units.old ++ text_within level.now.kind level.now count) }
{
    match level.kind {
        NumberKind::Bullet => Ok(()),
        NumberKind::Nothing => Ok(()),
        NumberKind::Decimal => push_value(alloc, units, level.kind, list_value(level, count)),
        NumberKind::Roman(_) => push_value(alloc, units, level.kind, list_value(level, count)),
        NumberKind::Letters(_) => push_value(alloc, units, level.kind, list_value(level, count)),
    }
}

/// Appends the text of a value.
fn push_value(alloc: Global, units: &mut Units, kind: NumberKind, value: i64) -> Result<(), Memory>
    ensures { OnOk result (units.new ≡ units.old ++ numeral_in kind value) }
{
    let mut text = String::new(alloc);
    push_number(alloc, &mut text, kind, value)?;
    push_bytes(units, text.as_bytes())
}

/// Appends bytes, each as a unit.
fn push_bytes(units: &mut Units, bytes: &[u8]) -> Result<(), Memory>
    ensures { OnOk result (units.new ≡ units.old ++ bytes.now) }
{
    for byte in bytes {
        units.push_all(&[*byte as u16])?;
    }
    Ok(())
}

/// The value of a level that has counted so far. One that was not met has its start value.
fn list_value(level: &Level, count: u32) -> i64
    ensures { result ≡ list_value level.now count }
{
    let past = if count > 1 { count - 1 } else { 0 };
    level.start as i64 + past as i64
}
