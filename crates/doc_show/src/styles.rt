// The lines that show the styles of a document.
ghost use Rattle.std.specs.Prelude.{◌≡◌, ◌++◌, IfOk, OnOk};
ghost use Rattle.std.specs.Fmt.{decimal};
ghost use Rattle.std.specs.String.{string_bytes};
ghost use Rattle.style_sheet.specs.Sheet.{style_at};
ghost use Rattle.doc_show.specs.Settings.{properties_text};
ghost use Rattle.text_codes.specs.Shown.{line};
ghost use Rattle.doc_show.specs.Listing.{base_word as word_of_base, kind_lines, kind_word as word_of_kind, sheet_lines};
ghost use Rattle.doc_show.specs.Listing.{slot_lines, style_lines};

use crate::settings::push_properties;
use doc_bits::{Memory, Text};
use prop_map::PropMap;
use std::alloc::Global;
use style_sheet::{Kind, Style, StyleSheet};
use text_codes::show_units;

/// Appends the lines of each style, by its number. After want of memory a part of them may be there, as with each call
/// here.
pub(crate) fn push_sheet(alloc: Global, text: &mut Text, sheet: &StyleSheet) -> Result<(), Memory>
    ensures { OnOk result (text.new ≡ text.old ++ sheet_lines sheet.now) }
{
    for istd in 0..sheet.slots() {
        push_slot(alloc, text, sheet, istd as u16)?;
    }
    Ok(())
}

/// Appends the lines of a slot.
fn push_slot(alloc: Global, text: &mut Text, sheet: &StyleSheet, istd: u16) -> Result<(), Memory>
    ensures { OnOk result (text.new ≡ text.old ++ slot_lines (istd, style_at sheet.now istd)) }
{
    match sheet.get(istd) {
        Some(style) => push_style(alloc, text, istd, style),
        None => Ok(()),
    }
}

/// Appends the lines of a style.
fn push_style(alloc: Global, text: &mut Text, istd: u16, style: &Style) -> Result<(), Memory>
    ensures { OnOk result (text.new ≡ text.old ++ style_lines istd style.now) }
{
    let next = style.next;
    let kind = kind_word(&style.kind);
    let base = base_word(alloc, style.base)?;
    let base = base.as_str();
    let name = show_units(alloc, style.name.as_slice())?;
    let name = name.as_str();
    let line = format!(in alloc; "style {istd}{kind}{base} {next} {name}\n")?;
    text.push_all(line.as_str())?;
    push_kind(text, &style.kind)
}

/// The word for a kind.
fn kind_word(kind: &Kind) -> &'static str
    ensures { result.now ≡ word_of_kind kind.now }
{
    match kind {
        Kind::Para { .. } => " para ",
        Kind::Char { .. } => " char ",
        Kind::Other { .. } => " other ",
    }
}

/// The number of the base, or the word for none.
fn base_word(alloc: Global, base: Option<u16>) -> Result<String, Memory>
    ensures { IfOk result (λ word. string_bytes word ≡ word_of_base base) }
{
    let word = match base {
        Some(base) => format!(in alloc; "{base}")?,
        None => String::from_str(alloc, "none")?,
    };
    Ok(word)
}

/// Appends the properties that a kind has.
fn push_kind(text: &mut Text, kind: &Kind) -> Result<(), Memory>
    ensures { OnOk result (text.new ≡ text.old ++ kind_lines kind.now) }
{
    match kind {
        Kind::Para { pap, chp } => {
            push_map(text, "par", pap)?;
            push_map(text, "char", chp)
        }
        Kind::Char { chp } => push_map(text, "char", chp),
        Kind::Other { .. } => Ok(()),
    }
}

/// Appends a word and properties as a line.
pub(crate) fn push_map(text: &mut Text, word: &str, map: &PropMap) -> Result<(), Memory>
    ensures { OnOk result (text.new ≡ text.old ++ line (word.now ++ properties_text map.now)) }
{
    text.push_all(word)?;
    push_properties(text, map)?;
    text.push_all("\n")
}
