// What an edit does, as guards are told. No call takes memory.
ghost use Rattle.std.specs.Prelude.{◌≡◌, ◌^◌, ◌<◌, ◌≤◌, length, slice_range};
ghost use Rattle.std.specs.List.{All, sum_by};
ghost use Rattle.plain_doc.specs.Sound.{IsSound};
ghost use Rattle.doc_patch.specs.Places.{items_at as items_there};
ghost use Rattle.edit_ops.specs.Causes.{CanBeTried};
ghost use Rattle.edit_ops.specs.Edits.{changes_of};
ghost use Rattle.edit_ops.specs.EditFacts.{edit_facts, items_added, items_removed, command_kind as kind_number};
ghost use Rattle.edit_ops.specs.EditFacts.{style_of_command as style_number, style_before as style_there};
ghost use Rattle.edit_ops.specs.Bookmarks.{place_before as place_there};
ghost use Rattle.doc_patch.specs.Makes.{CanRemove};

use crate::bookmarks::begin_of;
use crate::{Change, Changes, Command, Facts};
use doc_bits::Story;
use doc_columns::{ColumnDocument, ColumnTexts, Columns};
use doc_patch::{find_text, mark_at};
use std::cmp::min;

/// What an edit of these changes does, where it may be tried.
pub(crate) fn facts_of(document: &ColumnDocument, command: &Command, changes: &Changes) -> Facts
    requires sound { IsSound document.now }
    requires tried { CanBeTried document.now command.now }
    requires changes { changes.now ≡ changes_of document.now command.now }
    ensures { result ≡ edit_facts document.now command.now }
{
    Facts {
        kind: kind_of(command),
        units_in: all_added(changes),
        units_out: all_removed(document, changes),
        style: style_of(document, command),
    }
}

/// The number of the kind of a command; 0 for a save.
fn kind_of(command: &Command) -> u8
    ensures { result ≡ kind_number command.now }
{
    match command {
        Command::Insert(_, _, _) => 1,
        Command::Erase(_, _, _) => 2,
        Command::Char(_, _, _, _) => 3,
        Command::Plain(_, _, _) => 4,
        Command::Para(_, _, _) => 5,
        Command::Style(_, _, _) => 6,
        Command::Field(_, _, _, _, _) => 7,
        Command::Note(_, _) => 8,
        Command::Split(_, _) => 9,
        Command::Merge(_, _) => 10,
        Command::Sect(_, _, _) => 11,
        Command::Row(_, _, _, _) => 12,
        Command::StyleChar(_, _) => 13,
        Command::StylePara(_, _) => 14,
        Command::Bookmark(_, _, _) => 15,
        Command::Unmark(_) => 16,
        Command::Save(_) => 0,
    }
}

/// The style of the paragraph that a command begins in, or the style that it changes.
fn style_of(document: &ColumnDocument, command: &Command) -> u16
    ensures { result ≡ style_number document.now command.now }
{
    match command {
        Command::Insert(story, at, _) => style_at(document, *story, *at),
        Command::Erase(story, from, _) => style_at(document, *story, *from),
        Command::Char(story, from, _, _) => style_at(document, *story, *from),
        Command::Plain(story, from, _) => style_at(document, *story, *from),
        Command::Para(story, at, _) => style_at(document, *story, *at),
        Command::Style(story, at, _) => style_at(document, *story, *at),
        Command::Field(story, at, _, _, _) => style_at(document, *story, *at),
        Command::Note(at, _) => style_at(document, Story::Main, *at),
        Command::Split(story, at) => style_at(document, *story, *at),
        Command::Merge(story, at) => style_at(document, *story, *at),
        Command::Sect(at, _, _) => style_at(document, Story::Main, *at),
        Command::Row(story, at, _, _) => style_at(document, *story, *at),
        Command::StyleChar(istd, _) => *istd,
        Command::StylePara(istd, _) => *istd,
        Command::Bookmark(_, from, _) => style_of_bookmark(&document.main, *from),
        Command::Unmark(name) => {
            let from = begin_of(&document.bookmarks, name.as_slice());
            style_of_bookmark(&document.main, from)
        }
        Command::Save(_) => 0,
    }
}

/// The style of the paragraph that holds the place of the text; 0 where there is none.
fn style_at(document: &ColumnDocument, story: Story, at: u32) -> u16
    ensures { result ≡ style_there (items_there document.now story) at }
{
    match find_text(document, story) {
        None => 0,
        Some(text) => style_before(text, at as usize),
    }
}

/// The style of the paragraph that holds a bookmark's begin: the last one, where it begins at the end.
fn style_of_bookmark(main: &Columns, from: u32) -> u16
    ensures { result ≡ style_there main.now (place_there main.now from) }
{
    let place = min(from as usize, main.len().saturating_sub(1));
    style_before(main, place)
}

/// The style of the paragraph that holds the place; 0 where there is none.
fn style_before(text: &Columns, at: usize) -> u16
    ensures { result ≡ style_there text.now at }
{
    if at > text.len() {
        return 0;
    }
    match mark_at(text, at) {
        None => 0,
        Some(mark) => mark.istd,
    }
}

/// How many items the changes add.
fn all_added(changes: &Changes) -> u32
    requires { sum_by items_added changes.now < 2 ^ 32 }
    ensures { result ≡ sum_by items_added changes.now }
{
    let mut count = 0;
    for i in 0..changes.len() {
        count += count_added(changes.get(i));
    }
    count
}

/// How many items a change adds.
fn count_added(change: &Change) -> u32
    requires { items_added change.now < 2 ^ 32 }
    ensures { result ≡ items_added change.now }
{
    match change {
        Change::SpliceText(_, _, _, fresh) => fresh.len() as u32,
        Change::SpliceNotes(_, _, fresh) => items_in(fresh, 0, fresh.len()),
        Change::SpliceHeads(_, _, fresh) => items_in(fresh, 0, fresh.len()),
        Change::ModifyItems(_, _, _, _) => 0,
        Change::SetSection(_, _) => 0,
        Change::SetStyleCharacters(_, _) => 0,
        Change::SetStyleParagraphs(_, _) => 0,
        Change::SetBookmarks(_) => 0,
    }
}

/// How many items of the document the changes remove.
fn all_removed(document: &ColumnDocument, changes: &Changes) -> u32
    requires few { sum_by (items_removed document.now) changes.now < 2 ^ 32 }
    requires there { All (CanRemove document.now) changes.now }
    ensures { result ≡ sum_by (items_removed document.now) changes.now }
{
    let mut count = 0;
    for i in 0..changes.len() {
        count += count_removed(document, changes.get(i));
    }
    count
}

/// How many items of the document a change removes.
fn count_removed(document: &ColumnDocument, change: &Change) -> u32
    requires few { items_removed document.now change.now < 2 ^ 32 }
    requires there { CanRemove document.now change.now }
    ensures { result ≡ items_removed document.now change.now }
{
    match change {
        Change::SpliceText(_, from, to, _) => (*to - *from) as u32,
        Change::SpliceNotes(from, to, _) => items_in(&document.notes, *from, *to),
        Change::SpliceHeads(from, to, _) => items_in(&document.heads, *from, *to),
        Change::ModifyItems(_, _, _, _) => 0,
        Change::SetSection(_, _) => 0,
        Change::SetStyleCharacters(_, _) => 0,
        Change::SetStyleParagraphs(_, _) => 0,
        Change::SetBookmarks(_) => 0,
    }
}

/// How many items the texts of a range have.
fn items_in(texts: &ColumnTexts, from: usize, to: usize) -> u32
    requires ordered { from ≤ to }
    requires within { to ≤ length texts.now }
    requires few { sum_by length (slice_range texts.now from to) < 2 ^ 32 }
    ensures { result ≡ sum_by length (slice_range texts.now from to) }
{
    let mut count = 0;
    for k in from..to {
        count += texts.get(k).len() as u32;
    }
    count
}
