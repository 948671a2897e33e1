// Modifiers of entries: composed with another, and copied where an entry names them.
ghost use Rattle.std.specs.Prelude.{◌≡◌, ◌≢◌, ℕ, ◌<◌, ◌≤◌, length, map, All, IfOk};
ghost use Rattle.std.specs.Prelude.{OnOk, slice_index, slice_get, slice_range, Some, vec_len, vec_capacity};
ghost use Rattle.std.specs.List.{splice};
ghost use Rattle.prop_map.specs.Modifiers.{no_modifier};
ghost use Rattle.piece_table.specs.Numbering.{Extends};
ghost use Rattle.piece_table.specs.Cuts.{renumbered_entry};
ghost use Rattle.piece_table.specs.Renumbering.{HaveComposed, HaveCopied};

use crate::pieces::Entry;
use chunked_list::Mapping;
use doc_bits::Memory;
use prop_map::Modifier;
use std::alloc::Global;

/// Numbers that are kept beside those of entries. An entry with a number beyond them gets number 0.
#[derive(Drop)]
pub(crate) struct Renumbering {
    pub(crate) numbers: Vec<usize>,
}

impl Mapping<Entry> for Renumbering {
    ghost image = { λ numbers entry. renumbered_entry numbers.numbers.items entry };

    fn apply(&self, entry: Entry) -> Entry {
        let modifier = match self.numbers.get(entry.modifier) {
            None => 0,
            Some(number) => *number,
        };
        Entry {
            piece: entry.piece,
            modifier,
        }
    }
}

/// Gives each entry of a range the number that is kept beside its own.
pub(crate) fn renumber(entries: &mut Vec<Entry>, first: usize, last: usize, numbers: &[usize])
    requires order { first ≤ last }
    requires within { last ≤ vec_len entries.old }
    requires named { All (λ entry. entry.modifier < length numbers.now) entries.old.items }
    ensures items { entries.new.items ≡ splice entries.old.items first last
        (map (renumbered_entry numbers.now) (slice_range entries.old.items first last)) }
    ensures count { vec_len entries.new ≡ vec_len entries.old }
    ensures room { vec_capacity entries.new ≡ vec_capacity entries.old }
{
    for k in first..last {
        let entry = entries[k];
        entries[k] = Entry {
            piece: entry.piece,
            modifier: numbers[entry.modifier],
        };
    }
}

/// Composes each modifier that an entry names with another, each once. They are appended; the answer has the number of
/// the composed one beside each, and 0 beside those that no entry names.
pub(crate) fn compose_all(
    alloc: Global,
    entries: &[Entry],
    modifiers: &mut Vec<Modifier>,
    by: &Modifier,
) -> Result<Vec<usize>, Memory>
    requires some { 0 < length modifiers.old.items }
    requires named { All (λ entry. entry.modifier < length modifiers.old.items) entries.now }
    ensures extends { Extends modifiers.old.items modifiers.new.items }
    ensures len { IfOk result (λ numbers. length numbers.items ≡ length modifiers.old.items) }
    ensures composed { IfOk result (λ numbers. HaveComposed by.now modifiers.new.items numbers.items) }
    ensures all { IfOk result (λ numbers. All (λ entry. slice_index numbers.items entry.modifier ≢ 0) entries.now) }
{
    let mut numbers = zeros(alloc, modifiers.len())?;
    for k in 0..entries.len() {
        compose_one(alloc, modifiers, &mut numbers, entries[k].modifier, by)?;
    }
    Ok(numbers)
}

/// So many zeros.
fn zeros(alloc: Global, len: usize) -> Result<Vec<usize>, Memory>
    ensures len { IfOk result (λ made. length made.items ≡ len) }
    ensures zeros { IfOk result (λ made. (i : ℕ) → slice_index made.items i ≡ 0) }
{
    let made = vec![in alloc; 0usize; len]?;
    Ok(made)
}

/// Composes a modifier with another, where that was not done before.
fn compose_one(
    alloc: Global,
    modifiers: &mut Vec<Modifier>,
    numbers: &mut Vec<usize>,
    number: usize,
    by: &Modifier,
) -> Result<(), Memory>
    requires some { 0 < length modifiers.old.items }
    requires within { number < length numbers.old.items }
    requires composed { HaveComposed by.now modifiers.old.items numbers.old.items }
    ensures extends { Extends modifiers.old.items modifiers.new.items }
    ensures len { length numbers.new.items ≡ length numbers.old.items }
    ensures composed { OnOk result (HaveComposed by.now modifiers.new.items numbers.new.items) }
    ensures here { OnOk result (slice_index numbers.new.items number ≢ 0) }
    ensures others { OnOk result ((other : ℕ)
        → slice_index numbers.old.items other ≢ 0 → slice_index numbers.new.items other ≢ 0) }
{
    if numbers[number] != 0 {
        return Ok(());
    }
    let composed = Modifier::compose(alloc, &modifiers[number], by)?;
    let place = modifiers.len();
    modifiers.push(composed)?;
    numbers[number] = place;
    Ok(())
}

/// The modifiers that entries name, copied in the order in which they are first named, behind the one that does
/// nothing.
#[derive(Drop)]
pub(crate) struct Copies {
    pub(crate) modifiers: Vec<Modifier>,
    /// The number of the copy beside each modifier, and 0 beside those that no entry names.
    pub(crate) numbers: Vec<usize>,
}

/// Copies the modifiers that entries name.
pub(crate) fn copy_all(
    alloc: Global,
    entries: &[Entry],
    modifiers: &[Modifier],
) -> Result<Copies, Memory>
    requires first { slice_get modifiers.now 0 ≡ Some no_modifier }
    requires named { All (λ entry. entry.modifier < length modifiers.now) entries.now }
    ensures len { IfOk result (λ copies. length copies.numbers.items ≡ length modifiers.now) }
    ensures copied { IfOk result (λ copies. HaveCopied modifiers.now copies.modifiers.items copies.numbers.items) }
    ensures all { IfOk result (λ copies.
        All (λ entry. entry.modifier ≢ 0 → slice_index copies.numbers.items entry.modifier ≢ 0) entries.now) }
{
    let mut copies = Copies {
        modifiers: Vec::new(alloc),
        numbers: zeros(alloc, modifiers.len())?,
    };
    copies.modifiers.push(Modifier::none(alloc))?;
    for k in 0..entries.len() {
        copies.add(alloc, modifiers, entries[k].modifier)?;
    }
    Ok(copies)
}

impl Copies {
    /// Copies a modifier, where that was not done before.
    fn add(&mut self, alloc: Global, modifiers: &[Modifier], number: usize) -> Result<(), Memory>
        requires within { number < length self.old.numbers.items }
        requires len { length self.old.numbers.items ≡ length modifiers.now }
        requires copied { HaveCopied modifiers.now self.old.modifiers.items self.old.numbers.items }
        ensures len { OnOk result (length self.new.numbers.items ≡ length self.old.numbers.items) }
        ensures copied { OnOk result (HaveCopied modifiers.now self.new.modifiers.items self.new.numbers.items) }
        ensures here { OnOk result (number ≢ 0 → slice_index self.new.numbers.items number ≢ 0) }
        ensures others { OnOk result ((other : ℕ)
            → slice_index self.old.numbers.items other ≢ 0 → slice_index self.new.numbers.items other ≢ 0) }
    {
        if number == 0 || self.numbers[number] != 0 {
            return Ok(());
        }
        let copy = modifiers[number].copy(alloc)?;
        let place = self.modifiers.len();
        self.modifiers.push(copy)?;
        self.numbers[number] = place;
        Ok(())
    }
}
