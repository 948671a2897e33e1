// Which places of a document a command may name. No call takes memory.
ghost use Rattle.std.specs.Prelude.{◌≡◌, ◌<◌, ◌↔◌, IsTrue};
ghost use Rattle.style_sheet.specs.Chain.{style_kind_at};
ghost use Rattle.edit_ops.specs.Ranges.{IsInRange, TakesText, HasPlace, HasRange};
ghost use Rattle.edit_ops.specs.Ranges.{EndsWithMark, BeginsParagraph, HasText};

use crate::Command;
use crate::bookmarks::has_bookmark;
use doc_bits::Story;
use doc_columns::{ColumnDocument, Columns};
use doc_patch::{find_text, has_mark, mark_place};
use style_sheet::{Kind, StyleSheet};
use text_codes::PARAGRAPH_MARK;

/// Whether the places that a command names are there.
pub fn is_in_range(document: &ColumnDocument, command: &Command) -> bool
    ensures { IsTrue result ↔ IsInRange document.now command.now }
{
    match command {
        Command::Insert(story, at, _) => takes_text(document, *story, *at),
        Command::Erase(story, from, to) => has_range(document, *story, *from, *to),
        Command::Char(story, from, to, _) => has_range(document, *story, *from, *to),
        Command::Plain(story, from, to) => has_range(document, *story, *from, *to),
        Command::Para(story, at, _) => has_place(document, *story, *at),
        Command::Style(story, at, _) => has_place(document, *story, *at),
        Command::Field(story, at, _, _, _) => has_place(document, *story, *at),
        Command::Note(at, _) => (*at as usize) < document.main.len(),
        Command::Split(story, at) => has_place(document, *story, *at),
        Command::Merge(story, at) => ends_with_mark(document, *story, *at),
        Command::Sect(at, _, _) => (*at as usize) < document.main.len(),
        Command::Row(story, at, _, _) => begins_paragraph(document, *story, *at),
        Command::StyleChar(istd, _) => kind_of(&document.sheet, *istd) > 0,
        Command::StylePara(istd, _) => kind_of(&document.sheet, *istd) == 1,
        Command::Bookmark(_, from, to) => from <= to && *to as usize <= document.main.len(),
        Command::Unmark(name) => has_bookmark(&document.bookmarks, name.as_slice()),
        Command::Save(_) => true,
    }
}

/// Whether items may be put before the place of the text.
fn takes_text(document: &ColumnDocument, story: Story, at: u32) -> bool
    ensures { IsTrue result ↔ HasText document.now story (TakesText story at) }
{
    match find_text(document, story) {
        None => false,
        Some(text) => takes_units(story, at as usize, text),
    }
}

/// Whether items may be put before the place.
fn takes_units(story: Story, at: usize, text: &Columns) -> bool
    ensures { IsTrue result ↔ TakesText story at text.now }
{
    match story {
        Story::Main => at < text.len(),
        Story::Note(_) => at < text.len(),
        Story::Head(_) => at < text.len() || (at == 0 && text.len() == 0),
    }
}

/// Whether the text has an item at the place.
fn has_place(document: &ColumnDocument, story: Story, at: u32) -> bool
    ensures { IsTrue result ↔ HasText document.now story (HasPlace at) }
{
    match find_text(document, story) {
        None => false,
        Some(text) => (at as usize) < text.len(),
    }
}

/// Whether the text has the range.
fn has_range(document: &ColumnDocument, story: Story, from: u32, to: u32) -> bool
    ensures { IsTrue result ↔ HasText document.now story (HasRange from to) }
{
    match find_text(document, story) {
        None => false,
        Some(text) => from < to && to as usize <= text.len(),
    }
}

/// Whether the paragraph that holds the place ends with a paragraph mark.
fn ends_with_mark(document: &ColumnDocument, story: Story, at: u32) -> bool
    ensures { IsTrue result ↔ HasText document.now story (EndsWithMark at) }
{
    match find_text(document, story) {
        None => false,
        Some(text) => has_mark_at(text, at as usize),
    }
}

/// Whether the paragraph of a text that holds the place ends with a paragraph mark.
fn has_mark_at(text: &Columns, at: usize) -> bool
    ensures { IsTrue result ↔ EndsWithMark at text.now }
{
    if at >= text.len() {
        return false;
    }
    match text.units().get(mark_place(text, at)) {
        None => false,
        Some(unit) => *unit == PARAGRAPH_MARK,
    }
}

/// Whether a paragraph begins at the place of the text.
fn begins_paragraph(document: &ColumnDocument, story: Story, at: u32) -> bool
    ensures { IsTrue result ↔ HasText document.now story (BeginsParagraph at) }
{
    match find_text(document, story) {
        None => false,
        Some(text) => begins_at(text, at as usize),
    }
}

/// Whether a paragraph of a text begins at the place.
fn begins_at(text: &Columns, at: usize) -> bool
    ensures { IsTrue result ↔ BeginsParagraph at text.now }
{
    if at >= text.len() {
        return false;
    }
    at == 0 || has_mark(text, at - 1)
}

/// The number of the kind of a style: 1 of paragraphs, 2 of characters, 0 of another kind or no style.
fn kind_of(sheet: &StyleSheet, istd: u16) -> u8
    ensures { result ≡ style_kind_at sheet.now istd }
{
    match sheet.get(istd) {
        None => 0,
        Some(style) => match &style.kind {
            Kind::Para { .. } => 1,
            Kind::Char { .. } => 2,
            Kind::Other { .. } => 0,
        },
    }
}
