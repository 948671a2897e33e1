// Effective properties.
ghost use Rattle.std.specs.Prelude.{◌≡◌, IfOk};
ghost use Rattle.prop_map.specs.Formed.{IsPropertyMap, character_groups, paragraph_groups};
ghost use Rattle.style_sheet.specs.Chain.{style_kind_at, HasSoundBases};
ghost use Rattle.effective_props.specs.Effective.{IsEffectiveCharacter, IsEffectiveParagraph};

use crate::Tabs;
use crate::layers::{character_layers, paragraph_layers};
use crate::stops::stops_of;
use crate::values::values_of;
use doc_bits::Memory;
use prop_map::PropMap;
use std::alloc::Global;
use style_sheet::StyleSheet;

/// The effective properties of a paragraph mark.
#[derive(Drop)]
pub struct ParaEffect {
    /// The properties. Changes of tab stops are not among them.
    pub map: PropMap,
    /// The tab stops, ascending by position, each position once.
    pub tabs: Tabs,
}

/// The effective properties of a character in a paragraph of the style `istd`.
pub fn effective_char(
    alloc: Global,
    sheet: &StyleSheet,
    istd: u16,
    direct: &PropMap,
) -> Result<PropMap, Memory>
    requires bases { HasSoundBases sheet.now }
    requires style { style_kind_at sheet.now istd ≡ 1 }
    requires direct { IsPropertyMap character_groups direct.now }
    ensures effective { IfOk result (λ map. IsEffectiveCharacter sheet.now istd direct.now map) }
    ensures formed { IfOk result (λ map. IsPropertyMap character_groups map) }
{
    // What the styles of a sheet hold is well formed.
    let _slots = sheet.slots();
    let layers = character_layers(alloc, sheet, istd, direct)?;
    let map = values_of(alloc, &layers)?;
    Ok(map)
}

/// The effective properties of a paragraph mark of the style `istd`.
pub fn effective_para(
    alloc: Global,
    sheet: &StyleSheet,
    istd: u16,
    direct: &PropMap,
) -> Result<ParaEffect, Memory>
    requires bases { HasSoundBases sheet.now }
    requires style { style_kind_at sheet.now istd ≡ 1 }
    requires direct { IsPropertyMap paragraph_groups direct.now }
    ensures effective { IfOk result (λ effect. IsEffectiveParagraph sheet.now istd direct.now effect) }
    ensures formed { IfOk result (λ effect. IsPropertyMap paragraph_groups effect.map) }
{
    // What the styles of a sheet hold is well formed.
    let _slots = sheet.slots();
    let layers = paragraph_layers(alloc, sheet, istd, direct)?;
    let map = values_of(alloc, &layers)?;
    let tabs = stops_of(alloc, &layers)?;
    Ok(ParaEffect { map, tabs })
}
