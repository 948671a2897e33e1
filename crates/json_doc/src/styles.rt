// The sheet of styles, and how it is written.
ghost use Rattle.std.specs.Prelude.{◌++◌, codes, OnOk, option_map};
ghost use Rattle.serde_json.specs.Written.{compact_text};
ghost use Rattle.style_sheet.specs.Sheet.{style_at};
ghost use Rattle.json_values.specs.Out.{Adds};
ghost use Rattle.json_values.specs.Rows.{number_json};
ghost use Rattle.json_values.specs.Settings.{properties_json};
ghost use Rattle.json_doc.specs.Frames.{later_text};
ghost use Rattle.json_doc.specs.Styles.{base_json, chp_of_kind, pap_of_kind, stk_of_kind, upxes_of_kind, lists_json};
ghost use Rattle.json_doc.specs.Styles.{style_json, slot_json, slots_json, numbers_json, sheet_json};

use crate::leaves::{write_byte, write_name, write_part, write_short};
use doc_bits::Memory;
use json_values::{JsonOut, push_comma, write_null, write_properties};
use std::alloc::Global;
use style_sheet::{Kind, Style, StyleSheet, UpxList};

/// Writes a sheet of styles.
#[tactic(auto, unfolding(json::specs::Print::escape_byte))]
pub(crate) fn write_sheet(
    alloc: Global,
    out: &mut JsonOut,
    sheet: &StyleSheet,
) -> Result<(), Memory>
    ensures { OnOk result (Adds out.old out.new (compact_text (sheet_json sheet.now))) }
{
    out.push("{\"head\":")?;
    write_head(alloc, out, sheet)?;
    out.push(",\"styles\":")?;
    write_slots(alloc, out, sheet)?;
    out.push("}")
}

/// Writes the header of a sheet.
fn write_head(alloc: Global, out: &mut JsonOut, sheet: &StyleSheet) -> Result<(), Memory>
    ensures { OnOk result (Adds out.old out.new (compact_text (numbers_json sheet.now.head))) }
{
    let head = sheet.head();
    write_numbers(alloc, out, &head)
}

/// Writes numbers as an array.
fn write_numbers(alloc: Global, out: &mut JsonOut, numbers: &[u16]) -> Result<(), Memory>
    ensures { OnOk result (Adds out.old out.new (compact_text (numbers_json numbers.now))) }
{
    out.push("[")?;
    for i in 0..numbers.len() {
        push_comma(out, i > 0)?;
        write_short(alloc, out, numbers[i])?;
    }
    out.push("]")
}

/// Writes the slots of a sheet.
fn write_slots(alloc: Global, out: &mut JsonOut, sheet: &StyleSheet) -> Result<(), Memory>
    ensures { OnOk result (Adds out.old out.new (compact_text (slots_json sheet.now.styles))) }
{
    out.push("[")?;
    for i in 0..sheet.slots() {
        push_comma(out, i > 0)?;
        write_slot(alloc, out, sheet, i as u16)?;
    }
    out.push("]")
}

/// Writes a slot: null, or the style in it.
fn write_slot(alloc: Global, out: &mut JsonOut, sheet: &StyleSheet, istd: u16) -> Result<(), Memory>
    ensures { OnOk result (Adds out.old out.new (compact_text (slot_json (style_at sheet.now istd)))) }
{
    match sheet.get(istd) {
        None => write_null(out),
        Some(style) => write_style(alloc, out, style),
    }
}

/// Writes a style.
fn write_style(alloc: Global, out: &mut JsonOut, style: &Style) -> Result<(), Memory>
    ensures { OnOk result (Adds out.old out.new (compact_text (style_json style.now))) }
{
    out.push("{\"base\":")?;
    write_base(alloc, out, &style.base)?;
    write_char(out, &style.kind)?;
    out.push(",\"flags\":")?;
    write_byte(alloc, out, style.flags)?;
    out.push(",\"grfstd\":")?;
    write_short(alloc, out, style.grfstd)?;
    out.push(",\"name\":")?;
    write_name(out, &style.name)?;
    out.push(",\"next\":")?;
    write_short(alloc, out, style.next)?;
    write_par(out, &style.kind)?;
    out.push(",\"sti\":")?;
    write_short(alloc, out, style.sti)?;
    write_lists(alloc, out, &style.kind)?;
    out.push("}")
}

/// Writes the style that another one is based on, or null.
fn write_base(alloc: Global, out: &mut JsonOut, base: &Option<u16>) -> Result<(), Memory>
    ensures { OnOk result (Adds out.old out.new (compact_text (base_json base.now))) }
{
    match base {
        None => write_null(out),
        Some(number) => write_short(alloc, out, *number),
    }
}

/// Writes the properties of characters, where the kind has some.
#[tactic(auto, unfolding(json::specs::Print::escape_byte))]
fn write_char(out: &mut JsonOut, kind: &Kind) -> Result<(), Memory>
    ensures { OnOk result (Adds out.old out.new
        (later_text (codes "char") (option_map properties_json (chp_of_kind kind.now)))) }
{
    match kind {
        Kind::Para { chp, .. } | Kind::Char { chp } => {
            out.push(",\"char\":")?;
            write_properties(out, chp)
        }
        Kind::Other { .. } => Ok(()),
    }
}

/// Writes the properties of paragraphs, where the kind has some.
#[tactic(auto, unfolding(json::specs::Print::escape_byte))]
fn write_par(out: &mut JsonOut, kind: &Kind) -> Result<(), Memory>
    ensures { OnOk result (Adds out.old out.new
        (later_text (codes "par") (option_map properties_json (pap_of_kind kind.now)))) }
{
    if let Kind::Para { pap, .. } = kind {
        out.push(",\"par\":")?;
        write_properties(out, pap)?;
    }
    Ok(())
}

/// Writes the number of the kind and its property lists, where they are kept as they are.
#[tactic(auto, unfolding(json::specs::Print::escape_byte))]
fn write_lists(alloc: Global, out: &mut JsonOut, kind: &Kind) -> Result<(), Memory>
    ensures { OnOk result (Adds out.old out.new
        (later_text (codes "stk") (option_map number_json (stk_of_kind kind.now))
        ++ later_text (codes "upxes") (option_map lists_json (upxes_of_kind kind.now)))) }
{
    if let Kind::Other { stk, upxes } = kind {
        out.push(",\"stk\":")?;
        write_byte(alloc, out, *stk)?;
        out.push(",\"upxes\":")?;
        write_upxes(out, upxes)?;
    }
    Ok(())
}

/// Writes property lists as an array.
fn write_upxes(out: &mut JsonOut, upxes: &UpxList) -> Result<(), Memory>
    ensures { OnOk result (Adds out.old out.new (compact_text (lists_json upxes.now))) }
{
    out.push("[")?;
    for i in 0..upxes.len() {
        push_comma(out, i > 0)?;
        write_part(out, upxes.get(i))?;
    }
    out.push("]")
}
