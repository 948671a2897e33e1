// The labels of paragraphs, by their places.
ghost use Rattle.std.specs.Prelude.{◌≡◌, ◌+◌, ◌*◌, ◌^◌, ◌<◌, ◌≤◌, ◌++◌, ◌∷◌, [], ℕ, List, Option, Some, take};
ghost use Rattle.std.specs.Prelude.{length, map, slice_get, slice_index, IfOk};
ghost use Rattle.std.specs.Option.{ForSome};
ghost use Rattle.list_numbers.specs.declared.list_place.ListPlace.{ListPlace};
ghost use Rattle.list_numbers.specs.Counters.{counter, HaveCounted};
ghost use Rattle.list_numbers.specs.Numbers.{AreFit};
ghost use Rattle.list_numbers.specs.ParagraphValues.{all_values, is_bullet_level, label_at_place, label_in};
ghost use Rattle.list_numbers.specs.ParagraphValues.{font_of_level, label_with};
ghost use Rattle.symbol_fonts.specs.Characters.{shown_unit};

use crate::counters::{count_place, new_counters};
use crate::label_text::label_units;
use crate::levels::Levels;
use crate::list_formats::ListFormats;
use crate::list_place::ListPlace;
use crate::mark_values::MarkValues;
use crate::number_kind::NumberKind;
use crate::paragraph_values::{ListLabel, ParagraphValues, ParagraphValuesList};
use doc_bits::{Memory, Units};
use std::alloc::Global;
use symbol_fonts::{SymbolFont, SymbolFonts, shown_unit};

/// The counters of a list.
const LEVELS: usize = 9;

/// The values of paragraphs at these places, whose marks have these values.
pub(crate) fn values_at(
    alloc: Global,
    fonts: SymbolFonts,
    lists: &ListFormats,
    places: &[Option<ListPlace>],
    values: &[MarkValues],
) -> Result<ParagraphValuesList, Memory>
    requires few { length places.now + 1 < 2 ^ 32 }
    requires lists { length lists.now < 2 ^ 16 }
    requires fit { AreFit lists.now places.now }
    requires values { length values.now ≡ length places.now }
    ensures { IfOk result (λ made. made ≡ all_values fonts lists.now places.now values.now) }
{
    let mut counts = new_counters(alloc, lists.len())?;
    let mut made = ParagraphValuesList::new(alloc);
    for i in 0..places.len() {
        let label = next_label(alloc, fonts, lists, &mut counts, places[i])?;
        made.add(ParagraphValues::new(values[i], label))?;
    }
    Ok(made)
}

/// Counts a paragraph, and gives its label, where it has a place.
fn next_label(
    alloc: Global,
    fonts: SymbolFonts,
    lists: &ListFormats,
    counts: &mut [u32],
    place: Option<ListPlace>,
) -> Result<Option<ListLabel>, Memory>
    requires place { ForSome place (λ at. (at.list < length lists.now) × (at.level < 9)) }
    requires size { length counts.old ≡ 9 * length lists.now }
    requires few { (i : ℕ) → slice_index counts.old i + 1 < 2 ^ 32 }
    ensures counted { (places : List (Option ListPlace)) → HaveCounted places (length lists.now) counts.old
        → HaveCounted (places ++ place ∷ []) (length lists.now) counts.new }
    ensures label { IfOk result (λ label. (places : List (Option ListPlace))
        → HaveCounted places (length lists.now) counts.old
        → label ≡ label_at_place fonts lists.now (places ++ place ∷ []) place) }
{
    let Some(place) = place else {
        return Ok(None);
    };
    count_place(counts, place);
    let label = label_here(alloc, fonts, lists, counts, place)?;
    Ok(label)
}

/// The label of a paragraph that was counted.
fn label_here(
    alloc: Global,
    fonts: SymbolFonts,
    lists: &ListFormats,
    counts: &[u32],
    place: ListPlace,
) -> Result<Option<ListLabel>, Memory>
    requires list { place.list < length lists.now }
    requires level { place.level < 9 }
    requires counts { 9 * place.list + 9 ≤ length counts.now }
    ensures { IfOk result (λ label. label
        ≡ label_in fonts (slice_get lists.now place.list) place.level (counter counts.now place.list)) }
{
    let list = lists.get(place.list);
    let first = LEVELS * place.list;
    let units = label_units(
        alloc,
        &list.levels,
        place.level,
        &counts[first..first + LEVELS],
    )?;
    let font = fonts.font(font_of_level(&list.levels, place.level));
    let shown = shown_units(alloc, font, units)?;
    let bullet = is_bullet_level(&list.levels, place.level);
    Ok(label_with(place.level as u8, bullet, shown))
}

/// The font of a level of a list.
fn font_of_level(levels: &Levels, level: usize) -> Option<u16>
    ensures { result ≡ font_of_level (slice_get levels.now level) }
{
    if level >= levels.len() {
        return None;
    }
    levels.get(level).font
}

/// Units as a font shows them.
fn shown_units(alloc: Global, font: Option<SymbolFont>, units: Units) -> Result<Units, Memory>
    ensures { IfOk result (λ shown. shown ≡ map (shown_unit font) units) }
{
    let Some(font) = font else {
        return Ok(units);
    };
    let shown = in_font(alloc, font, units.as_slice())?;
    Ok(shown)
}

/// Units as a symbol font shows them, one by one.
fn in_font(alloc: Global, font: SymbolFont, units: &[u16]) -> Result<Units, Memory>
    ensures { IfOk result (λ shown. shown ≡ map (shown_unit (Some font)) units.now) }
{
    let mut shown = Units::new(alloc);
    for unit in units {
        shown.push_all(&[shown_unit(Some(font), *unit)])?;
    }
    Ok(shown)
}

/// The label of these units, where there are some.
fn label_with(level: u8, is_bullet: bool, units: Units) -> Option<ListLabel>
    ensures { result ≡ label_with level is_bullet units }
{
    if units.as_slice().is_empty() {
        return None;
    }
    Some(ListLabel {
        level,
        is_bullet,
        units,
    })
}

/// Whether a level of a list is a bullet.
fn is_bullet_level(levels: &Levels, level: usize) -> bool
    ensures { result ≡ is_bullet_level (slice_get levels.now level) }
{
    if level >= levels.len() {
        return false;
    }
    match levels.get(level).kind {
        NumberKind::Bullet => true,
        NumberKind::Decimal | NumberKind::Nothing => false,
        NumberKind::Roman(_) | NumberKind::Letters(_) => false,
    }
}
