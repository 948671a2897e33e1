// What styles make of a format. Each style of a chain is asked once.
ghost use Rattle.std.specs.Prelude.{◌≡◌, ◌-◌, ◌<◌, OnOk, IfOk, length, slice_index, None, Some, option_map};
ghost use Rattle.std.specs.Prelude.{replicate};
ghost use Rattle.style_sheet.specs.Chain.{style_kind_at, HasSoundBases, IsBaseChain};
ghost use Rattle.effective_props.specs.Layers.{character_properties};
ghost use Rattle.char_formats.specs.Changes.{Act, with_layer, IsChangeOf};
ghost use Rattle.char_formats.specs.Styles.{IsStyleChange, IsSlotChange, IsBelowStyle};
ghost use Rattle.char_formats.specs.Styles.{AreKnownChanges, AreStyleChanges};

use crate::change::Change;
use doc_bits::Memory;
use std::alloc::Global;
use style_sheet::{Chain, Kind, Style, StyleSheet};

/// The change of each style of paragraphs or of characters, by the slots.
pub(crate) fn style_changes(
    alloc: Global,
    sheet: &StyleSheet,
) -> Result<Vec<Option<Change>>, Memory>
    requires { HasSoundBases sheet.now }
    ensures { IfOk result (λ changes. AreStyleChanges sheet.now changes.items) }
{
    let slots = sheet.slots();
    let mut known = no_changes(alloc, slots)?;
    let mut changes = Vec::new(alloc);
    for slot in 0..slots {
        let change = change_of_slot(alloc, sheet, &mut known, slot as u16)?;
        changes.push(change)?;
    }
    Ok(changes)
}

/// As many slots, of which no change is known.
fn no_changes(alloc: Global, count: usize) -> Result<Vec<Option<Change>>, Memory>
    ensures { IfOk result (λ known. known.items ≡ replicate count None) }
{
    let mut known = Vec::new(alloc);
    for _slot in 0..count {
        known.push(None)?;
    }
    Ok(known)
}

/// The change of the style of a slot, where that has properties.
fn change_of_slot(
    alloc: Global,
    sheet: &StyleSheet,
    known: &mut Vec<Option<Change>>,
    istd: u16,
) -> Result<Option<Change>, Memory>
    requires bases { HasSoundBases sheet.now }
    requires known { AreKnownChanges sheet.now known.old.items }
    ensures change { IfOk result (λ change. IsSlotChange sheet.now istd change) }
    ensures known { OnOk result (AreKnownChanges sheet.now known.new.items) }
{
    if !sheet.has_properties(istd) {
        return Ok(None);
    }
    let change = change_of_style(alloc, sheet, known, istd)?;
    Ok(Some(change))
}

/// The change of a style, looked up where it was met before.
fn change_of_style(
    alloc: Global,
    sheet: &StyleSheet,
    known: &mut Vec<Option<Change>>,
    istd: u16,
) -> Result<Change, Memory>
    requires bases { HasSoundBases sheet.now }
    requires style { 0 < style_kind_at sheet.now istd }
    requires known { AreKnownChanges sheet.now known.old.items }
    ensures change { IfOk result (IsStyleChange sheet.now istd) }
    ensures known { OnOk result (AreKnownChanges sheet.now known.new.items) }
{
    let at = istd as usize;
    if at < known.len() {
        if let Some(change) = known[at] {
            return Ok(change);
        }
    }
    let chain = sheet.chain(alloc, istd)?;
    let change = change_of_chain(sheet, known, &chain);
    Ok(change)
}

/// The change of the last style of a chain. The styles are gone through once, from the root, and each is known then.
fn change_of_chain(sheet: &StyleSheet, known: &mut Vec<Option<Change>>, chain: &Chain) -> Change
    requires chain { IsBaseChain sheet.now (slice_index chain.now (length chain.now - 1)) chain.now }
    requires known { AreKnownChanges sheet.now known.old.items }
    ensures change { IsStyleChange sheet.now (slice_index chain.now (length chain.now - 1)) result }
    ensures known { AreKnownChanges sheet.now known.new.items }
{
    let mut change = Change::none();
    for i in 0..chain.len() {
        change = change_over(sheet, known, chain.get(i), change);
    }
    change
}

/// The change of a style: what is known, or what it says by itself after that of its base.
fn change_over(
    sheet: &StyleSheet,
    known: &mut Vec<Option<Change>>,
    istd: u16,
    below: Change,
) -> Change
    requires known { AreKnownChanges sheet.now known.old.items }
    requires below { IsBelowStyle sheet.now istd below }
    ensures change { IsStyleChange sheet.now istd result }
    ensures known { AreKnownChanges sheet.now known.new.items }
{
    let at = istd as usize;
    if at < known.len() {
        if let Some(change) = known[at] {
            return change;
        }
    }
    let change = with_slot(below, sheet.get(istd));
    if at < known.len() {
        known[at] = Some(change);
    }
    change
}

/// A change, and what a style says by itself after it, where it is there.
fn with_slot(below: Change, style: Option<&Style>) -> Change
    ensures { (act : Act) → IsChangeOf act below →
        IsChangeOf (with_layer (character_properties (option_map (λ s. s.now) style.entry)) act) result }
{
    let mut change = below;
    let Some(style) = style else {
        return change;
    };
    match &style.kind {
        Kind::Para { chp, .. } => change.lay_all(chp),
        Kind::Char { chp } => change.lay_all(chp),
        Kind::Other { .. } => {}
    }
    change
}
