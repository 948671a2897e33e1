// How a paragraph looks apart from its text.
ghost use Rattle.std.specs.Prelude.{◌≡◌, ◌&&◌, [], Some, option_map, if◌then◌else◌};
ghost use Rattle.doc_places.specs.Looks.{heading_level, item_of_label, label_units, labelled_item, level_of_outline};
ghost use Rattle.doc_places.specs.Looks.{look_of};
ghost use Rattle.doc_places.specs.Looks.{shown_label_units};

use crate::lists::ListItem;
use list_numbers::{ListLabel, ParagraphValues};

/// The last level of lists that a page has.
const LAST_LEVEL: u8 = 5;

/// The level of a heading, from 1 to 9, or 0; whether the paragraph runs from right to left and begins on a page of its
/// own; and the item of a list that it is.
#[derive(Clone, Copy)]
pub struct Look {
    pub level: u8,
    pub right_to_left: bool,
    pub breaks_page: bool,
    pub item: Option<ListItem>,
}

impl Look {
    /// That of a paragraph with these values, in a table or not, and with more than its mark or not.
    pub fn of(values: Option<&ParagraphValues>, in_table: bool, is_text: bool) -> Look
        ensures { result ≡ look_of (option_map (λ v. v.now) values.entry) in_table is_text }
    {
        match values {
            None => Look {
                level: 0,
                right_to_left: false,
                breaks_page: false,
                item: None,
            },
            Some(values) => look_by(values, in_table, is_text),
        }
    }
}

/// That of a paragraph with values.
fn look_by(values: &ParagraphValues, in_table: bool, is_text: bool) -> Look
    ensures { result ≡ look_of (Some values.now) in_table is_text }
{
    let level = heading_level(values.outline, in_table, is_text);
    Look {
        level,
        right_to_left: values.right_to_left,
        breaks_page: values.breaks_page && !in_table,
        item: item_of_label(&values.label, in_table, level),
    }
}

/// The level of a heading: outside of tables, and of more than a mark.
fn heading_level(outline: Option<u8>, in_table: bool, is_text: bool) -> u8
    ensures { result ≡ heading_level outline in_table is_text }
{
    if is_text && !in_table {
        level_of(outline)
    } else {
        0
    }
}

/// The level of a heading at a level of the outline.
fn level_of(outline: Option<u8>) -> u8
    ensures { result ≡ level_of_outline outline }
{
    match outline {
        None => 0,
        Some(outline) => { if outline < 9 { outline + 1 } else { 0 } }
    }
}

/// The item that a paragraph with this label is: outside of tables, and no heading.
fn item_of_label(label: &Option<ListLabel>, in_table: bool, level: u8) -> Option<ListItem>
    ensures { result ≡ item_of_label label.now in_table level }
{
    if in_table || level != 0 {
        None
    } else {
        labelled_item(label)
    }
}

/// The item of a label.
fn labelled_item(label: &Option<ListLabel>) -> Option<ListItem>
    ensures { result ≡ labelled_item label.now }
{
    match label {
        None => None,
        Some(label) => Some(ListItem {
            level: label.level.min(LAST_LEVEL),
            is_ordered: !label.is_bullet,
        }),
    }
}

/// The units of a label that are shown of a paragraph that is this item, or none.
pub fn label_units<'a>(item: Option<ListItem>, values: Option<&'a ParagraphValues>) -> &'a [u16]
    ensures { result.now ≡ label_units item (option_map (λ v. v.now) values.entry) }
{
    match values {
        None => &[],
        Some(values) => shown_units(item, &values.label),
    }
}

/// Those of a label: a bullet is shown where the paragraph is no item.
fn shown_units(item: Option<ListItem>, label: &Option<ListLabel>) -> &[u16]
    ensures { result.now ≡ shown_label_units item label.now }
{
    match label {
        None => &[],
        Some(label) => units_of(item.is_some(), label),
    }
}

/// The units of a label of an item or of no item.
fn units_of(is_item: bool, label: &ListLabel) -> &[u16]
    ensures { result.now ≡ (if is_item && label.now.is_bullet then [] else label.now.units) }
{
    if is_item && label.is_bullet {
        &[]
    } else {
        label.units.as_slice()
    }
}
