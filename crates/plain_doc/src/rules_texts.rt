// The rules on texts, checked text by text in the order of their places.
ghost use Rattle.std.specs.Prelude.{◌≡◌, ◌^◌, ◌<◌, ◌↔◌, length, IsTrue};
ghost use Rattle.doc_bits.specs.Rules.{LeastOrNone};
ghost use Rattle.doc_bits.specs.Places.{LeastPlaceOrNone};
ghost use Rattle.doc_model.specs.Document.{IsFormedText, HasPropertyMaps};
ghost use Rattle.plain_doc.specs.RulesOfItems.{IsWrongItem};
ghost use Rattle.plain_doc.specs.RulesOfTexts.{InTexts, HasWrongEnd, EndsRight, IsHead, HasParagraphStyle};
ghost use Rattle.plain_doc.specs.TextRules.{IsValidItem, BreaksText, InList, side_text_place};
ghost use Rattle.style_sheet.specs.Chain.{style_kind_at};

use crate::fields::wrong_field;
use crate::rows::wrong_row;
use crate::rules_items::{has_short_properties, is_placed_right};
use crate::{Document, Item, Texts};
use doc_bits::Where;
use style_sheet::{Kind, StyleSheet};
use text_codes::PARAGRAPH_MARK;

/// A rule on each item of a text.
#[derive(Clone, Copy)]
pub enum ItemRule {
    /// What the item has is where it may.
    Placing,
    /// The style of a mark is one of paragraphs.
    Styles,
    /// The properties are short enough for a file.
    Properties,
}

/// A rule on each text.
#[derive(Clone, Copy)]
pub enum TextRule {
    /// The text ends with the end of a paragraph.
    End,
    /// Fields nest.
    Fields,
    /// Rows are whole.
    Rows,
    Each(ItemRule),
}

/// The texts beside the main text.
#[derive(Clone, Copy)]
pub enum Side {
    Notes,
    Heads,
}

impl Side {
    /// The place of the text of this number.
    pub fn part(self, number: u32) -> Where
        ensures { result ≡ side_text_place self number }
    {
        match self {
            Side::Notes => Where::Note(number),
            Side::Heads => Where::Head(number),
        }
    }
}

/// The first place where a text breaks the rule.
pub(crate) fn first_in_texts(rule: TextRule, document: &Document) -> Option<(Where, u32)>
    ensures { LeastPlaceOrNone (InTexts document.now (BreaksText rule document.now.sheet)) result }
{
    if let Some(at) = first_in_text(rule, &document.sheet, Where::Main, document.main.as_slice()) {
        return Some((Where::Main, at));
    }
    if let Some(place) = first_in_list(rule, &document.sheet, Side::Notes, &document.notes) {
        return Some(place);
    }
    first_in_list(rule, &document.sheet, Side::Heads, &document.heads)
}

/// The first place where a note or a header text breaks the rule.
fn first_in_list(
    rule: TextRule,
    sheet: &StyleSheet,
    side: Side,
    texts: &Texts,
) -> Option<(Where, u32)>
    ensures { LeastPlaceOrNone (InList side texts.now (BreaksText rule sheet.now)) result }
{
    for k in 0..texts.len() {
        let part = side.part(k as u32);
        if let Some(at) = first_in_text(rule, sheet, part, texts.get(k).as_slice()) {
            return Some((part, at));
        }
    }
    None
}

/// The first place where this text breaks the rule.
fn first_in_text(rule: TextRule, sheet: &StyleSheet, part: Where, text: &[Item]) -> Option<u32>
    requires { IsFormedText text.now }
    ensures { LeastOrNone (BreaksText rule sheet.now part text.now) result }
{
    match rule {
        TextRule::End => wrong_end(part, text),
        TextRule::Fields => wrong_field(text),
        TextRule::Rows => wrong_row(text),
        TextRule::Each(rule) => wrong_item(rule, sheet, part, text),
    }
}

/// The last item of a text that does not end right, or 0.
fn wrong_end(part: Where, text: &[Item]) -> Option<u32>
    requires { length text.now < 2 ^ 32 }
    ensures { LeastOrNone (HasWrongEnd part text.now) result }
{
    if ends_right(part, text) {
        None
    } else {
        Some(text.len().saturating_sub(1) as u32)
    }
}

/// Whether a text ends with a paragraph mark, or is an empty header text.
pub(crate) fn ends_right(part: Where, text: &[Item]) -> bool
    ensures { IsTrue result ↔ EndsRight part text.now }
{
    if text.is_empty() {
        is_head(part)
    } else {
        text[text.len() - 1].unit == PARAGRAPH_MARK
    }
}

/// Whether the place is a header text.
pub fn is_head(part: Where) -> bool
    ensures { IsTrue result ↔ IsHead part }
{
    match part {
        Where::Head(_) => true,
        Where::File | Where::Wd | Where::Table | Where::Sheet | Where::Main | Where::Note(_) =>
            false,
    }
}

/// The first item that is not right by the rule.
fn wrong_item(rule: ItemRule, sheet: &StyleSheet, part: Where, text: &[Item]) -> Option<u32>
    requires { IsFormedText text.now }
    ensures { LeastOrNone (IsWrongItem (IsValidItem rule sheet.now part (length text.now)) text.now) result }
{
    for (i, item) in text.iter().enumerate() {
        if !is_valid(rule, sheet, part, text.len(), i, item) {
            return Some(i as u32);
        }
    }
    None
}

/// Whether an item is right by the rule, in a text of so many items.
fn is_valid(
    rule: ItemRule,
    sheet: &StyleSheet,
    part: Where,
    len: usize,
    place: usize,
    item: &Item,
) -> bool
    requires place { place < 2 ^ 32 }
    requires maps { HasPropertyMaps item.now }
    ensures { IsTrue result ↔ IsValidItem rule sheet.now part len place item.now }
{
    match rule {
        ItemRule::Placing => is_placed_right(part, len, place, item),
        ItemRule::Styles => has_paragraph_style(sheet, item),
        ItemRule::Properties => has_short_properties(item),
    }
}

/// Whether the style of the mark, where there is one, is one of paragraphs.
pub(crate) fn has_paragraph_style(sheet: &StyleSheet, item: &Item) -> bool
    ensures { IsTrue result ↔ HasParagraphStyle sheet.now item.now }
{
    match &item.mark {
        None => true,
        Some(mark) => is_paragraph_style(sheet, mark.istd),
    }
}

/// Whether the style of this number is there and one of paragraphs.
fn is_paragraph_style(sheet: &StyleSheet, istd: u16) -> bool
    ensures { IsTrue result ↔ style_kind_at sheet.now istd ≡ 1 }
{
    match sheet.get(istd) {
        None => false,
        Some(style) => match &style.kind {
            Kind::Para { .. } => true,
            Kind::Char { .. } => false,
            Kind::Other { .. } => false,
        },
    }
}
