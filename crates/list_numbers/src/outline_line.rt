// A line of an outline.
ghost use Rattle.std.specs.Prelude.{◌≡◌, ◌++◌, ◌||◌, false, is_some, codes, OnOk};
ghost use Rattle.std.specs.Fmt.{decimal};
ghost use Rattle.text_codes.specs.Shown.{shown_text};
ghost use Rattle.list_numbers.specs.Outline.{outline_level, units_line, level_word, number_word};

use doc_bits::{Memory, Text, Units};
use std::alloc::Global;
use text_codes::show_units;

/// The highest level of an outline.
const LAST_LEVEL: u8 = 8;

/// Appends the line of a paragraph of these units, where it has a number or a level. After want of memory a part of it
/// may be there.
pub(crate) fn push_line(
    alloc: Global,
    text: &mut Text,
    index: usize,
    outline: Option<u8>,
    number: &Option<Units>,
    units: &[u16],
) -> Result<(), Memory>
    ensures { OnOk result
        (text.new ≡ text.old ++ units_line index (outline_level outline) number.now units.now) }
{
    let level = outline_level(outline);
    if !is_listed(level, number) {
        return Ok(());
    }
    push_places(alloc, text, index, level, number)?;
    text.push_all(" | ")?;
    push_units(alloc, text, units)?;
    text.push_all("\n")
}

/// Appends the index of a paragraph, its level and its number.
fn push_places(
    alloc: Global,
    text: &mut Text,
    index: usize,
    level: Option<u8>,
    number: &Option<Units>,
) -> Result<(), Memory>
    ensures { OnOk result (text.new ≡ text.old
        ++ (decimal index ++ (codes " " ++ (level_word level ++ (codes " " ++ number_word number.now))))) }
{
    let start = format!(in alloc; "{index} ")?;
    text.push_all(start.as_str())?;
    push_level(alloc, text, level)?;
    text.push_all(" ")?;
    push_number(alloc, text, number)
}

/// Whether a paragraph has a line.
fn is_listed(level: Option<u8>, number: &Option<Units>) -> bool
    ensures { result ≡ (is_some level || is_some number.now) }
{
    level.is_some() || number.is_some()
}

/// The level in the outline, where the value names one.
pub(crate) fn outline_level(outline: Option<u8>) -> Option<u8>
    ensures { result ≡ outline_level outline }
{
    let level = outline?;
    if level <= LAST_LEVEL {
        Some(level)
    } else {
        None
    }
}

/// Appends a level in the outline.
fn push_level(alloc: Global, text: &mut Text, level: Option<u8>) -> Result<(), Memory>
    ensures { OnOk result (text.new ≡ text.old ++ level_word level) }
{
    let Some(level) = level else {
        return text.push_all("-");
    };
    let word = format!(in alloc; "{level}")?;
    text.push_all(word.as_str())
}

/// Appends a number as it is shown.
fn push_number(alloc: Global, text: &mut Text, number: &Option<Units>) -> Result<(), Memory>
    ensures { OnOk result (text.new ≡ text.old ++ number_word number.now) }
{
    let Some(units) = number else {
        return text.push_all("-");
    };
    let word = show_units(alloc, units.as_slice())?;
    text.push_all(word.as_str())
}

/// Appends units as they are shown.
fn push_units(alloc: Global, text: &mut Text, units: &[u16]) -> Result<(), Memory>
    ensures { OnOk result (text.new ≡ text.old ++ shown_text false units.now) }
{
    let word = show_units(alloc, units)?;
    text.push_all(word.as_str())
}
