// The layers of properties, the root of the paragraph's style at the bottom.
ghost use Rattle.std.specs.Prelude.{◌≡◌, ◌↔◌, ◌<◌, [], ◌∷◌, ◌++◌, IsTrue, IfOk, OnOk};
ghost use Rattle.std.specs.Option.{option_map};
ghost use Rattle.prop_map.specs.Formed.{IsPropertyMap, character_groups};
ghost use Rattle.style_sheet.specs.Chain.{style_kind_at, HasSoundBases};
ghost use Rattle.effective_props.specs.Layers.{named_style, properties_of_styles, AreCharacterLayers};
ghost use Rattle.effective_props.specs.Layers.{AreParagraphLayers};
ghost use Rattle.effective_props.specs.LayerParts.{properties_in, AddsChain, AddsNamed};

use doc_bits::{Memory, get16};
use prop_map::PropMap;
use sprm_table::SPRM_C_ISTD;
use std::alloc::Global;
use style_sheet::{Chain, Kind, Style, StyleSheet};

/// Which properties of a style.
#[derive(Clone, Copy)]
enum Part {
    Paragraph,
    Character,
}

/// The layers of a character.
pub(crate) fn character_layers(
    alloc: Global,
    sheet: &StyleSheet,
    istd: u16,
    direct: &PropMap,
) -> Result<Vec<PropMap>, Memory>
    requires bases { HasSoundBases sheet.now }
    requires style { style_kind_at sheet.now istd ≡ 1 }
    requires direct { IsPropertyMap character_groups direct.now }
    ensures { IfOk result (λ layers. AreCharacterLayers sheet.now istd direct.now layers.items) }
{
    let mut layers = Vec::new(alloc);
    add_chain(alloc, sheet, istd, Part::Character, &mut layers)?;
    add_named(alloc, sheet, direct, &mut layers)?;
    add_direct(alloc, direct, &mut layers)?;
    Ok(layers)
}

/// The layers of a paragraph mark.
pub(crate) fn paragraph_layers(
    alloc: Global,
    sheet: &StyleSheet,
    istd: u16,
    direct: &PropMap,
) -> Result<Vec<PropMap>, Memory>
    requires bases { HasSoundBases sheet.now }
    requires style { style_kind_at sheet.now istd ≡ 1 }
    ensures { IfOk result (λ layers. AreParagraphLayers sheet.now istd direct.now layers.items) }
{
    let mut layers = Vec::new(alloc);
    add_chain(alloc, sheet, istd, Part::Paragraph, &mut layers)?;
    add_direct(alloc, direct, &mut layers)?;
    Ok(layers)
}

/// Adds the direct properties as the last layer.
fn add_direct(alloc: Global, direct: &PropMap, layers: &mut Vec<PropMap>) -> Result<(), Memory>
    ensures { OnOk result (layers.new.items ≡ layers.old.items ++ direct.now ∷ []) }
{
    layers.push(direct.copy(alloc)?)?;
    Ok(())
}

/// Adds the layers of the character style that the direct properties name, where there is one.
fn add_named(
    alloc: Global,
    sheet: &StyleSheet,
    direct: &PropMap,
    layers: &mut Vec<PropMap>,
) -> Result<(), Memory>
    requires bases { HasSoundBases sheet.now }
    requires direct { IsPropertyMap character_groups direct.now }
    ensures { OnOk result (AddsNamed sheet.now (named_style direct.now) layers.old.items layers.new.items) }
{
    let Some(value) = direct.get(SPRM_C_ISTD) else {
        return Ok(());
    };
    let named = get16(value, 0);
    if is_character_style(sheet, named) {
        add_chain(alloc, sheet, named, Part::Character, layers)?;
    }
    Ok(())
}

/// Whether the slot has a style of characters.
fn is_character_style(sheet: &StyleSheet, istd: u16) -> bool
    ensures { IsTrue result ↔ style_kind_at sheet.now istd ≡ 2 }
{
    match sheet.get(istd) {
        None => false,
        Some(style) => match &style.kind {
            Kind::Para { .. } => false,
            Kind::Char { .. } => true,
            Kind::Other { .. } => false,
        },
    }
}

/// Adds the properties of each style of a chain, from its root.
fn add_chain(
    alloc: Global,
    sheet: &StyleSheet,
    istd: u16,
    part: Part,
    layers: &mut Vec<PropMap>,
) -> Result<(), Memory>
    requires bases { HasSoundBases sheet.now }
    requires style { 0 < style_kind_at sheet.now istd }
    ensures { OnOk result (AddsChain part sheet.now istd layers.old.items layers.new.items) }
{
    let chain = sheet.chain(alloc, istd)?;
    add_styles(alloc, sheet, &chain, part, layers)?;
    Ok(())
}

/// Adds the properties of each of these styles. A copy of a map shares its entries.
fn add_styles(
    alloc: Global,
    sheet: &StyleSheet,
    chain: &Chain,
    part: Part,
    layers: &mut Vec<PropMap>,
) -> Result<(), Memory>
    ensures { OnOk result
        (layers.new.items ≡ layers.old.items ++ properties_of_styles (properties_in part) sheet.now chain.now) }
{
    for i in 0..chain.len() {
        layers.push(properties_of(alloc, sheet.get(chain.get(i)), part)?)?;
    }
    Ok(())
}

/// The properties of a style, where it is there and has some.
fn properties_of(alloc: Global, style: Option<&Style>, part: Part) -> Result<PropMap, Memory>
    ensures { IfOk result (λ map. map ≡ properties_in part (option_map (λ s. s.now) style.entry)) }
{
    let Some(style) = style else {
        return Ok(PropMap::new(alloc));
    };
    match (&style.kind, part) {
        (Kind::Para { pap, .. }, Part::Paragraph) => pap.copy(alloc),
        (Kind::Para { chp, .. }, Part::Character) => chp.copy(alloc),
        (Kind::Char { chp }, Part::Character) => chp.copy(alloc),
        (Kind::Char { .. }, Part::Paragraph) => Ok(PropMap::new(alloc)),
        (Kind::Other { .. }, _) => Ok(PropMap::new(alloc)),
    }
}
