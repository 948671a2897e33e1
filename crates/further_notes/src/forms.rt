// The texts of notes that were endnotes or comments.
ghost use Rattle.std.specs.Prelude.{◌≡◌, ◌+◌, ◌*◌, ◌<◌, ◌≤◌, ◌^◌, ◌++◌, length, IfOk};
ghost use Rattle.doc_bits.specs.Plc.{plc_entry};
ghost use Rattle.doc_parts.specs.Table.{plc_part};
ghost use Rattle.further_notes.specs.Forms.{note_form_of, story_mark as mark_of_story, unit_noted as noted_unit};
ghost use Rattle.further_notes.specs.Forms.{initials as initials_of, bracketed_units as units_of_title};
ghost use Rattle.further_notes.specs.Forms.{initials_items as title_items};
ghost use Rattle.further_notes.specs.Forms.{comment_titles as titles_of, story_titles as titles_of_story};
ghost use Rattle.further_notes.specs.Forms.{note_mark, own_marks as marks_of, as_note_text as text_of_note};

use crate::references::{ATRD_SIZE, PLCFAND_REF, comment_count};
use doc_bits::{Memory, get16};
use doc_columns::{ColumnTexts, Columns};
use doc_losses::COMMENT_MARK;
use doc_mends::NoteStory;
use fib_versions::AnyFib;
use plain_doc::Item;
use prop_map::PropMap;
use std::alloc::Global;

/// [MS-DOC] the character of a note's number, and that of a comment's mark.
const NOTE_MARK: u16 = 0x02;

/// How many characters the initials have at most.
const MAX_INITIALS: usize = 9;

/// The texts of a story, and what is put in front of each.
#[derive(Drop)]
pub(crate) struct NoteForm {
    pub(crate) story: NoteStory,
    pub(crate) titles: ColumnTexts,
}

/// Those of a file.
pub(crate) fn note_form(
    alloc: Global,
    story: NoteStory,
    fib: &AnyFib<'_>,
    table: &[u8],
) -> Result<NoteForm, Memory>
    ensures { IfOk result (λ form. form ≡ note_form_of story fib.now table.now) }
{
    let titles = story_titles(alloc, story, fib, table)?;
    Ok(NoteForm { story, titles })
}

/// What is put in front of its texts.
fn story_titles(
    alloc: Global,
    story: NoteStory,
    fib: &AnyFib<'_>,
    table: &[u8],
) -> Result<ColumnTexts, Memory>
    ensures { IfOk result (λ titles. titles ≡ titles_of_story story fib.now table.now) }
{
    match story {
        NoteStory::Endnotes => Ok(ColumnTexts::new(alloc)),
        NoteStory::Comments => comment_titles(alloc, fib.part(table, PLCFAND_REF)),
    }
}

/// The initials of the comments of PlcfandRef. So many that there is no room are no less than memory can hold.
fn comment_titles(alloc: Global, plc: &[u8]) -> Result<ColumnTexts, Memory>
    ensures { IfOk result (λ titles. titles ≡ titles_of (plc_part 30 plc.now)) }
{
    let count = comment_count(plc);
    if count >= 1 << 31 {
        return Err(Memory);
    }
    let mut titles = ColumnTexts::new(alloc);
    for k in 0..count {
        let title = title_of(alloc, entry_at(plc, count, k))?;
        titles.add(title)?;
    }
    Ok(titles)
}

/// What PlcfandRef, of so many comments, has for one of them beside its CP.
fn entry_at(plc: &[u8], count: usize, k: usize) -> &[u8]
    requires below { k < count }
    requires few { count < 2 ^ 31 }
    requires within { 4 + 34 * count ≤ length plc.now }
    ensures entry { result.now ≡ plc_entry (record { bytes = plc.now; size = 30; count = count }) k }
    ensures len { length result.now ≡ 30 }
{
    let from = 4 * (count + 1) + ATRD_SIZE * k;
    &plc[from..from + ATRD_SIZE]
}

/// What is put in front of a comment. So many characters that there is no room are no less than memory can hold.
fn title_of(alloc: Global, entry: &[u8]) -> Result<Columns, Memory>
    requires { length entry.now ≡ 30 }
    ensures { IfOk result (λ title. title ≡ title_items entry.now) }
{
    let initials = initials(alloc, entry)?;
    let units = title_units(alloc, &initials)?;
    if units.len() >= 1 << 32 {
        return Err(Memory);
    }
    let none = PropMap::new(alloc);
    let title = Columns::new(alloc).add_units(&units, none)?;
    Ok(title)
}

/// The initials of its author.
fn initials(alloc: Global, entry: &[u8]) -> Result<Vec<u16>, Memory>
    requires { length entry.now ≡ 30 }
    ensures { IfOk result (λ units. units.items ≡ initials_of entry.now) }
{
    let count = (get16(entry, 0) as usize).min(MAX_INITIALS);
    let mut units = Vec::with_capacity(alloc, count)?;
    for k in 0..count {
        let unit = get16(entry, 2 + 2 * k);
        units.push(unit)?;
    }
    Ok(units)
}

/// They are in brackets, and a space is behind them, where there are some.
fn title_units(alloc: Global, initials: &[u16]) -> Result<Vec<u16>, Memory>
    ensures { IfOk result (λ units. units.items ≡ units_of_title initials.now) }
{
    let mut units = Vec::new(alloc);
    if initials.is_empty() {
        return Ok(units);
    }
    units.push(0x5B)?;
    units.extend_from_slice(initials)?;
    units.push(0x5D)?;
    units.push(0x20)?;
    Ok(units)
}

/// The character of a story's marks.
fn story_mark(story: NoteStory) -> u16
    ensures { result ≡ mark_of_story story }
{
    match story {
        NoteStory::Endnotes => NOTE_MARK,
        NoteStory::Comments => COMMENT_MARK,
    }
}

/// A unit, with the mark of a note in place of that of the story.
pub(crate) fn unit_noted(story: NoteStory, unit: u16) -> u16
    ensures { result ≡ noted_unit story unit }
{
    if unit == story_mark(story) {
        NOTE_MARK
    } else {
        unit
    }
}

/// A text as that of a note: the title is behind its mark.
pub(crate) fn note_text(
    alloc: Global,
    story: NoteStory,
    title: Columns,
    text: &Columns,
) -> Result<Columns, Memory>
    ensures { IfOk result (λ made. made ≡ text_of_note story title text.now) }
{
    let marks = own_marks(alloc, story, text)?;
    let rest = text.copy(alloc, marks.len(), text.len())?;
    let titled = joined_texts(alloc, title, rest)?;
    let made = joined_texts(alloc, marks, titled)?;
    Ok(made)
}

/// The mark that a text begins with, as that of a note.
fn own_marks(alloc: Global, story: NoteStory, text: &Columns) -> Result<Columns, Memory>
    ensures marks { IfOk result (λ marks. marks ≡ marks_of story text.now) }
    ensures within { IfOk result (λ marks. length marks ≤ length text.now) }
{
    let none = Columns::new(alloc);
    if text.len() == 0 {
        return Ok(none);
    }
    let item = text.item(alloc, 0)?;
    if item.unit != story_mark(story) {
        return Ok(none);
    }
    let marks = none.add(as_note_mark(item))?;
    Ok(marks)
}

/// An item with the mark of a note in place of its character.
fn as_note_mark(item: Item) -> Item
    ensures { result ≡ record item { unit = note_mark } }
{
    let mut made = item;
    made.unit = NOTE_MARK;
    made
}

/// One text behind another. So many items that there is no room are no less than memory can hold.
fn joined_texts(alloc: Global, first: Columns, more: Columns) -> Result<Columns, Memory>
    ensures { IfOk result (λ made. made ≡ first ++ more) }
{
    let len = first.len();
    if len + more.len() >= 1 << 32 {
        return Err(Memory);
    }
    let made = first.splice(alloc, len, len, more)?;
    Ok(made)
}
