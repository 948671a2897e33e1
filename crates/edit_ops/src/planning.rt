// What a command changes.
ghost use Rattle.std.specs.Prelude.{◌≡◌, ◌+◌, ◌<◌, ◌≤◌, [], ◌∷◌, ◌++◌, length, replicate, IfOk, ⊤};
ghost use Rattle.prop_map.specs.Formed.{IsPropertyMap, section_groups};
ghost use Rattle.edit_script.specs.declared.commands.Command.TheVariants.{Insert};
ghost use Rattle.doc_patch.specs.declared.changes.Change.TheVariants.{SpliceText, ModifyItems, SpliceNotes};
ghost use Rattle.doc_patch.specs.declared.changes.Change.TheVariants.{SpliceHeads};
ghost use Rattle.doc_bits.specs.declared.places.Story.TheVariants.{Main};
ghost use Rattle.doc_patch.specs.Places.{items_at as items_there, mark_place as place_of_mark};
ghost use Rattle.doc_patch.specs.Places.{note_number as number_of_note, head_number as number_of_head};
ghost use Rattle.edit_ops.specs.Ranges.{HasText, HasPlace, HasRange, EndsWithMark};
ghost use Rattle.edit_ops.specs.Codes.{IsPutText, most_units};
ghost use Rattle.plain_doc.specs.Sound.{IsSound};
ghost use Rattle.edit_ops.specs.Causes.{CanBeTried};
ghost use Rattle.edit_ops.specs.Edits.{changes_of as changes_by, erased as erased_in};
ghost use Rattle.edit_ops.specs.Edits.{insertion as put_there, modified_at_mark};
ghost use Rattle.edit_ops.specs.Edits.{section_changes as changes_of_section};
ghost use Rattle.edit_ops.specs.Fresh.{base_properties as base_of, note_reference as reference_of};
ghost use Rattle.edit_ops.specs.Fresh.{note_items as note_of, split_item as item_split, field_items as field_of};
ghost use Rattle.edit_ops.specs.Fresh.{section_item as item_of_section};

use crate::bookmarks::{with_bookmark, without_bookmark};
use crate::fresh::{base_properties, field_items, inserted_items, note_items, note_reference};
use crate::marks::{section_item, split_item};
use crate::rows::row_items;
use crate::{Change, Changes, Command};
use doc_bits::{Memory, Story};
use doc_columns::{ColumnDocument, ColumnTexts, Columns};
use doc_patch::{
    clearing, head_number, mark_place, naming_style, note_number, property_characters,
    property_paragraphs, section_place, text_of,
};
use plain_doc::HEADERS_PER_SECTION;
use prop_map::{Modifier, PropMap};
use std::alloc::Global;

/// The changes of an edit that may be tried on a sound document, three at most. A save changes
/// nothing.
pub fn changes_of(
    alloc: Global,
    document: &ColumnDocument,
    command: &Command,
) -> Result<Changes, Memory>
    requires sound { IsSound document.now }
    requires tried { CanBeTried document.now command.now }
    ensures { IfOk result (λ made. made ≡ changes_by document.now command.now) }
{
    match command {
        Command::Insert(story, at, text) => insert_units(
            alloc,
            document,
            *story,
            *at,
            text.as_slice(),
        ),
        Command::Erase(story, from, to) => {
            erasure(alloc, document, *story, *from as usize, *to as usize)
        }
        Command::Char(story, from, to, set) => {
            modify(alloc, *story, *from, *to, property_characters(alloc, set)?)
        }
        Command::Plain(story, from, to) => modify(alloc, *story, *from, *to, clearing(alloc)),
        Command::Para(story, at, set) => {
            let modifier = property_paragraphs(alloc, set)?;
            at_mark(alloc, document, *story, *at, modifier)
        }
        Command::Style(story, at, istd) => {
            at_mark(alloc, document, *story, *at, naming_style(alloc, *istd))
        }
        Command::Field(story, at, kind, code, shown) => {
            let text = text_of(document, *story);
            let items = field(alloc, text, *at, *kind, code.as_slice(), shown.as_slice())?;
            insertion(alloc, *story, *at, items)
        }
        Command::Note(at, text) => note(alloc, &document.main, *at, text.as_slice()),
        Command::Split(story, at) => split(alloc, document, *story, *at),
        Command::Merge(story, at) => merge(alloc, document, *story, *at),
        Command::Sect(at, new, set) => section(alloc, &document.main, *at as usize, *new, set),
        Command::Row(story, at, width, cells) => {
            insertion(alloc, *story, *at, row_items(alloc, *width, cells)?)
        }
        Command::StyleChar(istd, set) => one_change(
            alloc,
            Change::SetStyleCharacters(*istd, set.copy(alloc)?),
        ),
        Command::StylePara(istd, set) => one_change(
            alloc,
            Change::SetStyleParagraphs(*istd, set.copy(alloc)?),
        ),
        Command::Bookmark(name, from, to) => {
            let list = with_bookmark(alloc, &document.bookmarks, name.as_slice(), *from, *to)?;
            one_change(alloc, Change::SetBookmarks(list))
        }
        Command::Unmark(name) => {
            let list = without_bookmark(alloc, &document.bookmarks, name.as_slice())?;
            one_change(alloc, Change::SetBookmarks(list))
        }
        Command::Save(_) => Ok(Changes::new(alloc)),
    }
}

/// A list of one change.
fn one_change(alloc: Global, change: Change) -> Result<Changes, Memory>
    ensures { IfOk result (λ made. made ≡ change ∷ []) }
{
    let mut changes = Changes::new(alloc);
    changes.add(change)?;
    Ok(changes)
}

/// The changes, and one more behind them.
fn with_change(changes: Changes, change: Change) -> Result<Changes, Memory>
    ensures { IfOk result (λ made. made ≡ changes ++ change ∷ []) }
{
    let mut made = changes;
    made.add(change)?;
    Ok(made)
}

/// Items put before a place of a text.
fn insertion(alloc: Global, story: Story, at: u32, items: Columns) -> Result<Changes, Memory>
    ensures { IfOk result (λ made. made ≡ put_there story at items) }
{
    one_change(
        alloc,
        Change::SpliceText(story, at as usize, at as usize, items),
    )
}

/// A modifier on a range of a text.
fn modify(
    alloc: Global,
    story: Story,
    from: u32,
    to: u32,
    modifier: Modifier,
) -> Result<Changes, Memory>
    ensures { IfOk result (λ made. made ≡ ModifyItems story from to modifier ∷ []) }
{
    one_change(
        alloc,
        Change::ModifyItems(story, from as usize, to as usize, modifier),
    )
}

/// Units put before a place of a text.
fn insert_units(
    alloc: Global,
    document: &ColumnDocument,
    story: Story,
    at: u32,
    units: &[u16],
) -> Result<Changes, Memory>
    requires place { HasText document.now story (λ _. ⊤) }
    requires text { IsPutText units.now }
    ensures { IfOk result (λ made. made ≡ changes_by document.now (Insert story at units.now)) }
{
    let text = text_of(document, story);
    let items = inserted_items(alloc, text, at as usize, units)?;
    insertion(alloc, story, at, items)
}

/// A field put before a place of a text.
fn field(
    alloc: Global,
    text: &Columns,
    at: u32,
    kind: u8,
    code: &[u16],
    shown: &[u16],
) -> Result<Columns, Memory>
    requires { length code.now + length shown.now ≤ most_units }
    ensures { IfOk result (λ made. made ≡ field_of (base_of text.now at) kind code.now shown.now) }
{
    let base = base_properties(alloc, text, at as usize)?;
    let items = field_items(alloc, &base, kind, code, shown)?;
    Ok(items)
}

/// The items of a range taken away, with the notes and header texts that go with them.
fn erasure(
    alloc: Global,
    document: &ColumnDocument,
    story: Story,
    from: usize,
    to: usize,
) -> Result<Changes, Memory>
    requires { HasText document.now story (HasRange from to) }
    ensures { IfOk result (λ made. made ≡ erased_in document.now story from to) }
{
    match story {
        Story::Main => erasure_in_main(alloc, &document.main, from, to),
        Story::Note(_) => one_change(
            alloc,
            Change::SpliceText(story, from, to, Columns::new(alloc)),
        ),
        Story::Head(_) => one_change(
            alloc,
            Change::SpliceText(story, from, to, Columns::new(alloc)),
        ),
    }
}

/// The items of a range of the main text taken away, with the notes and header texts that go with them.
fn erasure_in_main(alloc: Global, main: &Columns, from: usize, to: usize) -> Result<Changes, Memory>
    requires { HasRange from to main.now }
    ensures { IfOk result (λ made. made ≡
        SpliceText Main from to [] ∷ SpliceNotes (number_of_note main.now from) (number_of_note main.now to) []
        ∷ SpliceHeads (number_of_head main.now from) (number_of_head main.now to) [] ∷ []) }
{
    let mut changes = one_change(
        alloc,
        Change::SpliceText(Story::Main, from, to, Columns::new(alloc)),
    )?;
    let notes = ColumnTexts::new(alloc);
    let heads = ColumnTexts::new(alloc);
    let first = note_number(main, from);
    changes.add(Change::SpliceNotes(first, note_number(main, to), notes))?;
    let first = head_number(main, from);
    changes.add(Change::SpliceHeads(first, head_number(main, to), heads))?;
    Ok(changes)
}

/// A modifier on the mark of the paragraph that holds the place.
fn at_mark(
    alloc: Global,
    document: &ColumnDocument,
    story: Story,
    at: u32,
    modifier: Modifier,
) -> Result<Changes, Memory>
    requires { HasText document.now story (HasPlace at) }
    ensures { IfOk result (λ made. made ≡ modified_at_mark document.now story at modifier) }
{
    let mark = mark_place(text_of(document, story), at as usize);
    one_change(alloc, Change::ModifyItems(story, mark, mark + 1, modifier))
}

/// A note, and the reference to it before a place of the main text.
fn note(alloc: Global, main: &Columns, at: u32, units: &[u16]) -> Result<Changes, Memory>
    requires place { at < length main.now }
    requires text { IsPutText units.now }
    ensures { IfOk result (λ made. made ≡
        SpliceText Main at at (reference_of (base_of main.now at) ∷ [])
        ∷ SpliceNotes (number_of_note main.now at) (number_of_note main.now at) (note_of units.now ∷ []) ∷ []) }
{
    let notes = one_note(alloc, units)?;
    with_note(alloc, main, at, notes)
}

/// A note whose text is there, and the reference to it before a place of the main text.
fn with_note(alloc: Global, main: &Columns, at: u32, notes: ColumnTexts) -> Result<Changes, Memory>
    requires { at < length main.now }
    ensures { IfOk result (λ made. made ≡
        SpliceText Main at at (reference_of (base_of main.now at) ∷ [])
        ∷ SpliceNotes (number_of_note main.now at) (number_of_note main.now at) notes ∷ []) }
{
    let first = with_reference(alloc, main, at)?;
    let number = note_number(main, at as usize);
    with_change(first, Change::SpliceNotes(number, number, notes))
}

/// The reference to a note put before a place of the main text.
fn with_reference(alloc: Global, main: &Columns, at: u32) -> Result<Changes, Memory>
    ensures { IfOk result (λ made. made ≡ SpliceText Main at at (reference_of (base_of main.now at) ∷ []) ∷ []) }
{
    let base = base_properties(alloc, main, at as usize)?;
    let reference = note_reference(alloc, &base)?;
    insertion(alloc, Story::Main, at, reference)
}

/// The text of a note, alone.
fn one_note(alloc: Global, units: &[u16]) -> Result<ColumnTexts, Memory>
    requires { IsPutText units.now }
    ensures { IfOk result (λ made. made ≡ note_of units.now ∷ []) }
{
    let text = note_items(alloc, units)?;
    let mut notes = ColumnTexts::new(alloc);
    notes.add(text)?;
    Ok(notes)
}

/// A paragraph mark put before a place of a text.
fn split(alloc: Global, document: &ColumnDocument, story: Story, at: u32) -> Result<Changes, Memory>
    requires { HasText document.now story (HasPlace at) }
    ensures { IfOk result (λ made. made
        ≡ put_there story at (item_split (items_there document.now story) at ∷ [])) }
{
    let items = split_item(alloc, text_of(document, story), at as usize)?;
    insertion(alloc, story, at, items)
}

/// The mark of the paragraph that holds the place taken away.
fn merge(alloc: Global, document: &ColumnDocument, story: Story, at: u32) -> Result<Changes, Memory>
    requires { HasText document.now story (EndsWithMark at) }
    ensures { IfOk result (λ made. made ≡ erased_in document.now story
        (place_of_mark (items_there document.now story) at) (place_of_mark (items_there document.now story) at + 1)) }
{
    let mark = mark_place(text_of(document, story), at as usize);
    erasure(alloc, document, story, mark, mark + 1)
}

/// The properties of a section changed, or a new section before the place.
fn section(
    alloc: Global,
    main: &Columns,
    at: usize,
    new: bool,
    set: &PropMap,
) -> Result<Changes, Memory>
    requires place { at < length main.now }
    requires set { IsPropertyMap section_groups set.now }
    ensures { IfOk result (λ made. made ≡ changes_of_section main.now at new set.now) }
{
    if !new {
        let place = section_place(main, at);
        return one_change(alloc, Change::SetSection(place, set.copy(alloc)?));
    }
    let first = section_end(alloc, main, at, set)?;
    let heads = empty_heads(alloc)?;
    let number = head_number(main, at);
    with_change(first, Change::SpliceHeads(number, number, heads))
}

/// The mark that ends a new section put before the place.
fn section_end(alloc: Global, main: &Columns, at: usize, set: &PropMap) -> Result<Changes, Memory>
    requires place { at < length main.now }
    requires set { IsPropertyMap section_groups set.now }
    ensures { IfOk result (λ made. made ≡ SpliceText Main at at (item_of_section main.now at set.now ∷ []) ∷ []) }
{
    let item = section_item(alloc, main, at, set)?;
    one_change(alloc, Change::SpliceText(Story::Main, at, at, item))
}

/// The header texts of a new section.
fn empty_heads(alloc: Global) -> Result<ColumnTexts, Memory>
    ensures { IfOk result (λ made. made ≡ replicate 6 []) }
{
    let mut heads = ColumnTexts::new(alloc);
    for _k in 0..HEADERS_PER_SECTION {
        heads.add(Columns::new(alloc))?;
    }
    Ok(heads)
}
