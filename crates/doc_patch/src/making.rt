// Changes made, by value: after want of memory there is no document.
ghost use Rattle.std.specs.Prelude.{◌≡◌, ◌<◌, [], length, Some, Err, IfOk, IsOk, OnOk, MatchResult, ⊤};
ghost use Rattle.std.specs.List.{splice};
ghost use Rattle.prop_map.specs.Formed.{IsPropertyMap, character_groups, paragraph_groups, section_groups};
ghost use Rattle.prop_map.specs.Modifiers.{IsFormedModifier};
ghost use Rattle.doc_patch.specs.Places.{story_text};
ghost use Rattle.doc_patch.specs.Places.{HasText, HasRange};
ghost use Rattle.style_sheet.specs.Chain.{style_kind_at};
ghost use Rattle.doc_patch.specs.Changes.{all_changed, changed, changed_at, map_range, modified_item, with_section};
ghost use Rattle.doc_patch.specs.Changes.{text_changed, text_spliced};
ghost use Rattle.doc_patch.specs.Changes.{with_kind_at, characters_set, paragraphs_set};
ghost use Rattle.doc_patch.specs.Makes.{CanMake, CanMakeAll, CanSplice, CanFollow, EndWithin};
ghost use Rattle.doc_model.specs.Marks.{main_spliced};

use crate::modify::{modify_text, section_over};
use crate::{Change, Changes};
use doc_bits::{Memory, Story};
use doc_columns::{ColumnDocument, ColumnTexts, Columns};
use doc_parts::Bookmarks;
use prop_map::{Modifier, PropMap};
use std::alloc::Global;
use std::mem;

/// The document after the changes, one after another.
pub fn make_all(
    alloc: Global,
    document: ColumnDocument,
    changes: &Changes,
) -> Result<ColumnDocument, Memory>
    requires { CanMakeAll changes.now document }
    ensures { IfOk result (λ made. made ≡ all_changed changes.now document) }
{
    let mut made = document;
    for k in 0..changes.len() {
        made = make(alloc, made, changes.get(k))?;
    }
    Ok(made)
}

/// The document after a change.
fn make(alloc: Global, document: ColumnDocument, change: &Change) -> Result<ColumnDocument, Memory>
    requires { CanMake document change.now }
    ensures { IfOk result (λ made. made ≡ changed change.now document) }
{
    let mut made = document;
    let done = make_in_place(alloc, &mut made, change);
    where_made(made, done)
}

/// What was made, where nothing failed.
fn where_made<T: Drop, E: Drop>(made: T, done: Result<(), E>) -> Result<T, E>
    ensures { MatchResult result
        (λ given. (given ≡ made) × IsOk done)
        (λ fault. done ≡ Err fault) }
{
    match done {
        Ok(()) => Ok(made),
        Err(fault) => Err(fault),
    }
}

/// Makes a change. After want of memory nothing is known of the document.
fn make_in_place(
    alloc: Global,
    document: &mut ColumnDocument,
    change: &Change,
) -> Result<(), Memory>
    requires { CanMake document.old change.now }
    ensures { OnOk result (document.new ≡ changed change.now document.old) }
{
    match change {
        Change::SpliceText(story, from, to, fresh) => {
            splice_text(alloc, document, *story, *from, *to, fresh)
        }
        Change::ModifyItems(story, from, to, modifier) => {
            modify_items(alloc, document, *story, *from, *to, modifier)
        }
        Change::SetSection(at, set) => set_section(alloc, document, *at, set),
        Change::SpliceNotes(from, to, fresh) => {
            splice_texts(alloc, &mut document.notes, *from, *to, fresh)
        }
        Change::SpliceHeads(from, to, fresh) => {
            splice_texts(alloc, &mut document.heads, *from, *to, fresh)
        }
        Change::SetStyleCharacters(istd, set) => set_characters(document, *istd, set),
        Change::SetStyleParagraphs(istd, set) => set_paragraphs(document, *istd, set),
        Change::SetBookmarks(list) => set_bookmarks(alloc, document, list),
    }
}

/// Puts copies of texts in place of a range of these.
fn splice_texts(
    alloc: Global,
    texts: &mut ColumnTexts,
    from: usize,
    to: usize,
    fresh: &ColumnTexts,
) -> Result<(), Memory>
    requires { CanSplice from to fresh.now texts.old }
    ensures { OnOk result (texts.new ≡ splice texts.old from to fresh.now) }
{
    let copy = fresh.copy(alloc, 0, fresh.len())?;
    texts.splice(from, to, copy)?;
    Ok(())
}

/// Puts copies of items in place of a range of a text. The ends of the bookmarks go with the main
/// text.
fn splice_text(
    alloc: Global,
    document: &mut ColumnDocument,
    story: Story,
    from: usize,
    to: usize,
    fresh: &Columns,
) -> Result<(), Memory>
    requires text { HasText document.old story (CanSplice from to fresh.now) }
    requires bookmarks { CanFollow document.old story }
    ensures { OnOk result (document.new ≡ text_spliced story from to fresh.now document.old) }
{
    match story {
        Story::Main => splice_main(alloc, document, from, to, fresh),
        Story::Note(_) => splice_items(alloc, document, story, from, to, fresh),
        Story::Head(_) => splice_items(alloc, document, story, from, to, fresh),
    }
}

/// Puts copies of items in place of a range of the main text, with the ends of the bookmarks.
fn splice_main(
    alloc: Global,
    document: &mut ColumnDocument,
    from: usize,
    to: usize,
    fresh: &Columns,
) -> Result<(), Memory>
    requires text { CanSplice from to fresh.now document.old.main }
    requires bookmarks { EndWithin (length document.old.main) document.old.bookmarks }
    ensures { OnOk result (document.new ≡ main_spliced from to fresh.now document.old) }
{
    let len = document.main.len();
    splice_items(alloc, document, Story::Main, from, to, fresh)?;
    document.bookmarks.follow(from, to, fresh.len(), len);
    Ok(())
}

/// Puts copies of items in place of a range of a text. No bookmark moves.
fn splice_items(
    alloc: Global,
    document: &mut ColumnDocument,
    story: Story,
    from: usize,
    to: usize,
    fresh: &Columns,
) -> Result<(), Memory>
    requires { HasText document.old story (CanSplice from to fresh.now) }
    ensures { OnOk result (document.new ≡ text_changed (λ text. splice text from to fresh.now) story document.old) }
{
    let copy = fresh.copy(alloc, 0, fresh.len())?;
    let text = take_text(alloc, document, story);
    let made = text.splice(alloc, from, to, copy)?;
    put_text(document, story, made);
    Ok(())
}

/// Acts with a modifier on each item of a range of a text. No bookmark moves.
fn modify_items(
    alloc: Global,
    document: &mut ColumnDocument,
    story: Story,
    from: usize,
    to: usize,
    modifier: &Modifier,
) -> Result<(), Memory>
    requires range { HasText document.old story (HasRange from to) }
    requires modifier { IsFormedModifier modifier.now }
    ensures { OnOk result
        (document.new ≡ text_changed (λ text. map_range (modified_item modifier.now) text from to) story document.old) }
{
    let text = take_text(alloc, document, story);
    let modified = modify_text(alloc, text, from, to, modifier)?;
    put_text(document, story, modified);
    Ok(())
}

/// Sets codes of the section that ends at an item of the main text.
fn set_section(
    alloc: Global,
    document: &mut ColumnDocument,
    at: usize,
    set: &PropMap,
) -> Result<(), Memory>
    requires within { at < length document.old.main }
    requires set { IsPropertyMap section_groups set.now }
    ensures { OnOk result
        (document.new ≡ record document.old { main = changed_at document.old.main at (with_section set.now) }) }
{
    let main = mem::replace(&mut document.main, Columns::new(alloc));
    document.main = section_over(alloc, main, at, set)?;
    Ok(())
}

/// Sets character codes of a style.
fn set_characters(document: &mut ColumnDocument, istd: u16, set: &PropMap) -> Result<(), Memory>
    requires style { 0 < style_kind_at document.old.sheet istd }
    requires set { IsPropertyMap character_groups set.now }
    ensures { OnOk result
        (document.new ≡ record document.old { sheet = with_kind_at document.old.sheet istd (characters_set set.now) }) }
{
    document.sheet.set_char(istd, set)?;
    Ok(())
}

/// Sets paragraph codes of a style.
fn set_paragraphs(document: &mut ColumnDocument, istd: u16, set: &PropMap) -> Result<(), Memory>
    requires style { style_kind_at document.old.sheet istd ≡ 1 }
    requires set { IsPropertyMap paragraph_groups set.now }
    ensures { OnOk result
        (document.new ≡ record document.old { sheet = with_kind_at document.old.sheet istd (paragraphs_set set.now) }) }
{
    document.sheet.set_para(istd, set)?;
    Ok(())
}

/// Puts a list of bookmarks in place of all.
fn set_bookmarks(
    alloc: Global,
    document: &mut ColumnDocument,
    list: &Bookmarks,
) -> Result<(), Memory>
    ensures { OnOk result (document.new ≡ record document.old { bookmarks = list.now }) }
{
    document.bookmarks = list.copy(alloc, 0, list.len())?;
    Ok(())
}

/// Takes a text out and leaves an empty one. It takes no memory.
fn take_text(alloc: Global, document: &mut ColumnDocument, story: Story) -> Columns
    requires { HasText document.old story (λ _. ⊤) }
    ensures taken { story_text document.old story ≡ Some result }
    ensures left { document.new ≡ text_changed (λ _. []) story document.old }
{
    swap_text(document, story, Columns::new(alloc))
}

/// Puts a text in place of another. It takes no memory.
pub fn put_text(document: &mut ColumnDocument, story: Story, text: Columns)
    requires { HasText document.old story (λ _. ⊤) }
    ensures { document.new ≡ text_changed (λ _. text) story document.old }
{
    drop(swap_text(document, story, text));
}

/// Puts a text in place of another, which it hands out.
pub fn swap_text(document: &mut ColumnDocument, story: Story, text: Columns) -> Columns
    requires { HasText document.old story (λ _. ⊤) }
    ensures taken { story_text document.old story ≡ Some result }
    ensures left { document.new ≡ text_changed (λ _. text) story document.old }
{
    match story {
        Story::Main => mem::replace(&mut document.main, text),
        Story::Note(number) => document.notes.replace(number as usize, text),
        Story::Head(number) => document.heads.replace(number as usize, text),
    }
}
