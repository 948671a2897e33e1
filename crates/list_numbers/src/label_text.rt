// The first units of the number of a level. A text is gone through as far as a label reaches.
ghost use Rattle.std.specs.Prelude.{◌≡◌, ◌<◌, [], length, slice_index, take, IfOk, OnOk};
ghost use Rattle.std.specs.List.{flat_map};
ghost use Rattle.list_numbers.specs.Fronts.{BeginsLong};
ghost use Rattle.list_numbers.specs.Numbers.{number_units, placed_unit};

use crate::level_text::push_placed;
use crate::levels::Levels;
use crate::number_kind::NumberKind;
use doc_bits::{Memory, Units};
use std::alloc::Global;

/// How many units of a number a label has at most.
const MAX_UNITS: usize = 64;

/// The first units of a number at a level of a list.
pub(crate) fn label_units(
    alloc: Global,
    levels: &Levels,
    own: usize,
    counts: &[u32],
) -> Result<Units, Memory>
    ensures { IfOk result
        (λ units. units ≡ take 64 (number_units levels.now own (λ level. slice_index counts.now level))) }
{
    let units = front_units(alloc, levels, own, counts)?;
    let units = units.as_slice();
    Units::from_slice(alloc, &units[..units.len().min(MAX_UNITS)])
}

/// The units of a number, or its front that is long enough.
fn front_units(alloc: Global, levels: &Levels, own: usize, counts: &[u32]) -> Result<Units, Memory>
    ensures { IfOk result (BeginsLong (number_units levels.now own (λ level. slice_index counts.now level))) }
{
    if own < levels.len() {
        return front_of_level(alloc, levels, own, counts);
    }
    Ok(Units::new(alloc))
}

/// The units of the number of a level that is there, or its front that is long enough.
fn front_of_level(
    alloc: Global,
    levels: &Levels,
    own: usize,
    counts: &[u32],
) -> Result<Units, Memory>
    requires { own < length levels.now }
    ensures { IfOk result (BeginsLong (number_units levels.now own (λ level. slice_index counts.now level))) }
{
    let level = levels.get(own);
    let text = level.text.as_slice();
    match level.kind {
        NumberKind::Bullet => front_of_units(alloc, text),
        NumberKind::Nothing => Ok(Units::new(alloc)),
        NumberKind::Decimal => front_of_text(alloc, levels, own, counts, text),
        NumberKind::Roman(_) => front_of_text(alloc, levels, own, counts, text),
        NumberKind::Letters(_) => front_of_text(alloc, levels, own, counts, text),
    }
}

/// The first units of a text.
fn front_of_units(alloc: Global, text: &[u16]) -> Result<Units, Memory>
    ensures { IfOk result (BeginsLong text.now) }
{
    let units = Units::from_slice(alloc, &text[..text.len().min(MAX_UNITS)])?;
    Ok(units)
}

/// The text of a level, each unit below 9 replaced, as far as a label reaches.
fn front_of_text(
    alloc: Global,
    levels: &Levels,
    own: usize,
    counts: &[u32],
    text: &[u16],
) -> Result<Units, Memory>
    ensures { IfOk result (BeginsLong
        (flat_map (placed_unit levels.now own (λ level. slice_index counts.now level)) text.now)) }
{
    let mut units = Units::new(alloc);
    let mut i = 0;
    while i < text.len() && units.as_slice().len() < MAX_UNITS {
        push_placed(alloc, &mut units, levels, own, counts, text[i])?;
        i += 1;
    }
    Ok(units)
}
