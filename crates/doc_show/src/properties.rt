// The lines on an item of the main text: its properties and those of its paragraph, as they are there and as they are
// in effect.
ghost use Rattle.std.specs.Prelude.{◌≡◌, ◌<◌, ◌++◌, length, IfOk, OnOk, MatchOption};
ghost use Rattle.std.specs.List.{flat_map};
ghost use Rattle.doc_model.specs.Paragraphs.{HasNoParagraphEnd};
ghost use Rattle.plain_doc.specs.Sound.{IsSound};
ghost use Rattle.doc_show.specs.Properties.{ArePropertyLines, IsMarkFrom, item_lines, mark_lines, tab_text, tabs_line};
ghost use Rattle.doc_show.specs.Properties.{unit_line, style_line};

use crate::styles::push_map;
use doc_bits::{Memory, Text};
use doc_columns::{ColumnDocument, Columns, paragraph_end};
use effective_props::{ParaEffect, Tab, Tabs, effective_char, effective_para};
use plain_doc::{Document, Item, Mark};
use prop_map::PropMap;
use run_lists::{Cursor, seek};
use std::alloc::Global;
use text_codes::{push_byte, push_word};

/// The seven lines on an item of the main text. The document is put by columns first.
pub fn props_lines(alloc: Global, document: &Document, pos: usize) -> Result<Text, Memory>
    requires sound { IsSound document.now }
    requires within { pos < length document.now.main }
    ensures { IfOk result (ArePropertyLines document.now pos) }
{
    let columns = ColumnDocument::from_document(alloc, document)?;
    let made = props_lines_of_columns(alloc, &columns, pos);
    drop(columns);
    made
}

/// The seven lines on an item of the main text, by columns. It is linear in the runs before the end of the paragraph,
/// and in the bases of its
/// style.
pub fn props_lines_of_columns(
    alloc: Global,
    document: &ColumnDocument,
    pos: usize,
) -> Result<Text, Memory>
    requires sound { IsSound document.now }
    requires within { pos < length document.now.main }
    ensures { IfOk result (ArePropertyLines document.now pos) }
{
    let sheet = &document.sheet;
    let _len = document.main.len();
    let item = document.main.item(alloc, pos)?;
    let mark = mark_from(&document.main, pos).unwrap();
    let chp = effective_char(alloc, sheet, mark.istd, &item.chp)?;
    let effect = effective_para(alloc, sheet, mark.istd, &mark.pap)?;
    let mut text = Text::new(alloc);
    push_item(alloc, &mut text, &item, mark.istd, &chp)?;
    push_mark(alloc, &mut text, mark, &effect)?;
    Ok(text)
}

/// The first mark from an item on, which is that of the item's paragraph.
fn mark_from(columns: &Columns, pos: usize) -> Option<&Mark>
    requires { pos < length columns.now }
    ensures { MatchOption result (HasNoParagraphEnd columns.now pos) (λ mark. IsMarkFrom columns.now pos mark.now) }
{
    let len = columns.len();
    let attachments = columns.attachments();
    let mut marks = Cursor::new();
    let end = paragraph_end(attachments, &mut marks, pos, len);
    let last = seek(attachments, &mut marks, end - 1);
    last.mark.as_ref()
}

/// Appends the lines on an item in a paragraph of a style, with the properties that are in effect.
fn push_item(
    alloc: Global,
    text: &mut Text,
    item: &Item,
    istd: u16,
    chp: &PropMap,
) -> Result<(), Memory>
    ensures { OnOk result (text.new ≡ text.old ++ item_lines item.now istd chp.now) }
{
    push_unit(text, item.unit)?;
    push_style_number(alloc, text, istd)?;
    push_map(text, "char", &item.chp)?;
    push_map(text, "char effective", chp)
}

/// Appends the line on a unit.
fn push_unit(text: &mut Text, unit: u16) -> Result<(), Memory>
    ensures { OnOk result (text.new ≡ text.old ++ unit_line unit) }
{
    text.push_all("unit ")?;
    push_word(text, unit)?;
    text.push_all("\n")
}

/// Appends the line on the style of a paragraph.
fn push_style_number(alloc: Global, text: &mut Text, istd: u16) -> Result<(), Memory>
    ensures { OnOk result (text.new ≡ text.old ++ style_line istd) }
{
    let line = format!(in alloc; "style {istd}\n")?;
    text.push_all(line.as_str())
}

/// Appends the lines on the mark of a paragraph, with the properties and stops that are in effect.
fn push_mark(alloc: Global, text: &mut Text, mark: &Mark, effect: &ParaEffect) -> Result<(), Memory>
    ensures { OnOk result (text.new ≡ text.old ++ mark_lines mark.now effect.now) }
{
    push_map(text, "par", &mark.pap)?;
    push_map(text, "par effective", &effect.map)?;
    push_tabs(alloc, text, &effect.tabs)
}

/// Appends the line on tab stops.
fn push_tabs(alloc: Global, text: &mut Text, tabs: &Tabs) -> Result<(), Memory>
    ensures { OnOk result (text.new ≡ text.old ++ tabs_line tabs.now) }
{
    text.push_all("tabs")?;
    push_stops(alloc, text, tabs)?;
    text.push_all("\n")
}

/// Appends the text of each tab stop.
fn push_stops(alloc: Global, text: &mut Text, tabs: &Tabs) -> Result<(), Memory>
    ensures { OnOk result (text.new ≡ text.old ++ flat_map tab_text tabs.now) }
{
    for k in 0..tabs.len() {
        push_stop(alloc, text, tabs.get(k))?;
    }
    Ok(())
}

/// Appends the text of a tab stop.
fn push_stop(alloc: Global, text: &mut Text, tab: &Tab) -> Result<(), Memory>
    ensures { OnOk result (text.new ≡ text.old ++ tab_text tab.now) }
{
    let position = tab.at;
    let position = format!(in alloc; " {position}:")?;
    text.push_all(position.as_str())?;
    push_byte(text, tab.kind)
}
