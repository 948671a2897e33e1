// The values of styles, each reckoned when it is first met.
ghost use Rattle.std.specs.Prelude.{◌≡◌, ◌<◌, ◌-◌, OnOk, IfOk, length, slice_index};
ghost use Rattle.style_sheet.specs.Chain.{style_kind_at, HasSoundBases, IsBaseChain};
ghost use Rattle.style_sheet.specs.Sheet.{style_at};
ghost use Rattle.effective_props.specs.Layers.{paragraph_properties, properties_of_styles};
ghost use Rattle.list_numbers.specs.MarkValues.{AreStyleValues, AreMarkValues, AreKnownValues};
ghost use Rattle.list_numbers.specs.MarkValues.{own_values, over, mark_values_in};

use crate::mark_values::{MarkValues, values_of_slot};
use doc_bits::Memory;
use plain_doc::Mark;
use std::alloc::Global;
use style_sheet::{Chain, StyleSheet};

/// The values in effect of a mark.
pub(crate) fn values_of_mark(
    alloc: Global,
    sheet: &StyleSheet,
    known: &mut Vec<Option<MarkValues>>,
    mark: &Mark,
) -> Result<MarkValues, Memory>
    requires bases { HasSoundBases sheet.now }
    requires style { style_kind_at sheet.now mark.now.istd ≡ 1 }
    requires known { AreKnownValues sheet.now known.old.items }
    ensures values { IfOk result (AreMarkValues sheet.now mark.now) }
    ensures known { OnOk result (AreKnownValues sheet.now known.new.items) }
{
    let below = values_of_style(alloc, sheet, known, mark.istd)?;
    let own = MarkValues::own(&mark.pap);
    Ok(own.over(below))
}

/// The values of a style, looked up where it was met before.
fn values_of_style(
    alloc: Global,
    sheet: &StyleSheet,
    known: &mut Vec<Option<MarkValues>>,
    istd: u16,
) -> Result<MarkValues, Memory>
    requires bases { HasSoundBases sheet.now }
    requires style { 0 < style_kind_at sheet.now istd }
    requires known { AreKnownValues sheet.now known.old.items }
    ensures values { IfOk result (AreStyleValues sheet.now istd) }
    ensures known { OnOk result (AreKnownValues sheet.now known.new.items) }
{
    let at = istd as usize;
    if at < known.len() {
        if let Some(values) = known[at] {
            return Ok(values);
        }
    }
    let chain = sheet.chain(alloc, istd)?;
    let values = values_of_chain(sheet, known, &chain);
    Ok(values)
}

/// The values of the last style of a chain. The styles are gone through once, from the root, and each is known then, so
/// that of many chains over one another each style is asked once.
fn values_of_chain(
    sheet: &StyleSheet,
    known: &mut Vec<Option<MarkValues>>,
    chain: &Chain,
) -> MarkValues
    requires chain { IsBaseChain sheet.now (slice_index chain.now (length chain.now - 1)) chain.now }
    requires known { AreKnownValues sheet.now known.old.items }
    ensures values { result ≡ mark_values_in (properties_of_styles paragraph_properties sheet.now chain.now) }
    ensures known { AreKnownValues sheet.now known.new.items }
{
    let mut values = MarkValues::none();
    for i in 0..chain.len() {
        values = values_over(sheet, known, chain.get(i), values);
    }
    values
}

/// The values of a style: those that are known, or what it says by itself over those of its base.
fn values_over(
    sheet: &StyleSheet,
    known: &mut Vec<Option<MarkValues>>,
    istd: u16,
    below: MarkValues,
) -> MarkValues
    requires known { AreKnownValues sheet.now known.old.items }
    requires below { AreStyleValues sheet.now istd
        (over (own_values (paragraph_properties (style_at sheet.now istd))) below) }
    ensures values { AreStyleValues sheet.now istd result }
    ensures known { AreKnownValues sheet.now known.new.items }
{
    let at = istd as usize;
    if at < known.len() {
        if let Some(values) = known[at] {
            return values;
        }
    }
    let own = values_of_slot(sheet.get(istd));
    let values = own.over(below);
    if at < known.len() {
        known[at] = Some(values);
    }
    values
}
