// The line of a mend.
ghost use Rattle.std.specs.Prelude.{◌≡◌, ◌++◌, IfOk, OnOk};
ghost use Rattle.std.specs.List.{flat_map};
ghost use Rattle.doc_mends.specs.Lines.{made_line as line_of_made, cells_line as line_of_cells};
ghost use Rattle.doc_mends.specs.Lines.{note_story_word as word_of_story};
ghost use Rattle.doc_mends.specs.Lines.{mend_line as line_of, strike_line as line_of_strike, keep_line as line_of_keep};
ghost use Rattle.doc_mends.specs.Lines.{base_line as line_of_base, wrong_mark_line as line_of_mark};
ghost use Rattle.doc_mends.specs.Lines.{row_line as line_of_row, cut_line as line_of_cut, end_line as line_of_end};

use crate::mends::{BrokenRow, DeletedRange, MadeNote, Mend, NoteStory, RowMark, WrongMark};
use doc_bits::{Memory, Story, Text};
use std::alloc::Global;
use text_losses::{Reference, reference_text, story_place};

/// Appends the lines of mends. After want of memory some of them may be there.
pub fn push_mends(alloc: Global, text: &mut Text, mends: &[Mend]) -> Result<(), Memory>
    ensures { OnOk result (text.new ≡ text.old ++ flat_map line_of mends.now) }
{
    for k in 0..mends.len() {
        push_mend(alloc, text, &mends[k])?;
    }
    Ok(())
}

/// Appends the line of a mend.
fn push_mend(alloc: Global, text: &mut Text, mend: &Mend) -> Result<(), Memory>
    ensures { OnOk result (text.new ≡ text.old ++ line_of mend.now) }
{
    let line = mend_line(alloc, mend)?;
    text.push_all(line.as_str())
}

/// The line of a mend.
fn mend_line(alloc: Global, mend: &Mend) -> Result<Text, Memory>
    ensures { IfOk result (λ line. line ≡ line_of mend.now) }
{
    match mend {
        Mend::MakeNote(made) => made_line(alloc, *made),
        Mend::StrikeDeleted(range) => strike_line(alloc, *range),
        Mend::KeepDeleted(range) => keep_line(alloc, *range),
        Mend::DefineRow(mark) => cells_line(alloc, *mark),
        Mend::DropBase(istd) => base_line(alloc, *istd),
        Mend::NormalMark(mark) => mark_line(alloc, *mark),
        Mend::PlainRow(row) => row_line(alloc, *row),
        Mend::CutReference(reference) => cut_line(alloc, *reference),
        Mend::EndText(story) => end_line(alloc, *story),
    }
}

/// The line of an endnote or a comment that became a note.
fn made_line(alloc: Global, made: MadeNote) -> Result<Text, Memory>
    ensures { IfOk result (λ line. line ≡ line_of_made made) }
{
    let word = story_word(made.story);
    let number = made.number;
    let note = made.note;
    let line = format!(in alloc; "{word} {number}: note {note}\n")?;
    Ok(Text::from_string(line))
}

/// The word for a text of a story.
fn story_word(story: NoteStory) -> &'static str
    ensures { result.now ≡ word_of_story story }
{
    match story {
        NoteStory::Endnotes => "endnote",
        NoteStory::Comments => "comment",
    }
}

/// The line of a range that is struck.
fn strike_line(alloc: Global, range: DeletedRange) -> Result<Text, Memory>
    ensures { IfOk result (λ line. line ≡ line_of_strike range) }
{
    let place = story_place(alloc, range.story)?;
    let place = place.as_str();
    let from = range.from;
    let to = range.to;
    let line = format!(in alloc; "deleted {place} {from} {to}: struck\n")?;
    Ok(Text::from_string(line))
}

/// The line of a range that stays as it is.
fn keep_line(alloc: Global, range: DeletedRange) -> Result<Text, Memory>
    ensures { IfOk result (λ line. line ≡ line_of_keep range) }
{
    let place = story_place(alloc, range.story)?;
    let place = place.as_str();
    let from = range.from;
    let to = range.to;
    let line = format!(in alloc; "deleted {place} {from} {to}\n")?;
    Ok(Text::from_string(line))
}

/// The line of a row's mark that gets its cells.
fn cells_line(alloc: Global, mark: RowMark) -> Result<Text, Memory>
    ensures { IfOk result (λ line. line ≡ line_of_cells mark) }
{
    let place = story_place(alloc, mark.story)?;
    let place = place.as_str();
    let at = mark.at;
    let line = format!(in alloc; "mark {place} {at}: cells of Data\n")?;
    Ok(Text::from_string(line))
}

/// The line of a style whose base is taken away.
fn base_line(alloc: Global, istd: u16) -> Result<Text, Memory>
    ensures { IfOk result (λ line. line ≡ line_of_base istd) }
{
    let line = format!(in alloc; "base {istd}\n")?;
    Ok(Text::from_string(line))
}

/// The line of a mark that gets style 0.
fn mark_line(alloc: Global, mark: WrongMark) -> Result<Text, Memory>
    ensures { IfOk result (λ line. line ≡ line_of_mark mark) }
{
    let place = story_place(alloc, mark.story)?;
    let place = place.as_str();
    let at = mark.at;
    let istd = mark.istd;
    let line = format!(in alloc; "mark {place} {at}: style {istd}\n")?;
    Ok(Text::from_string(line))
}

/// The line of a row that becomes paragraphs.
fn row_line(alloc: Global, row: BrokenRow) -> Result<Text, Memory>
    ensures { IfOk result (λ line. line ≡ line_of_row row) }
{
    let place = story_place(alloc, row.story)?;
    let place = place.as_str();
    let from = row.from;
    let cells = row.cells;
    let line = format!(in alloc; "row {place} {from}: {cells} cells\n")?;
    Ok(Text::from_string(line))
}

/// The line of the mark of a story that is cut.
fn cut_line(alloc: Global, reference: Reference) -> Result<Text, Memory>
    ensures { IfOk result (λ line. line ≡ line_of_cut reference) }
{
    let named = reference_text(alloc, reference)?;
    let named = named.as_str();
    let line = format!(in alloc; "{named}: cut\n")?;
    Ok(Text::from_string(line))
}

/// The line of a text that gets an end.
fn end_line(alloc: Global, story: Story) -> Result<Text, Memory>
    ensures { IfOk result (λ line. line ≡ line_of_end story) }
{
    let place = story_place(alloc, story)?;
    let place = place.as_str();
    let line = format!(in alloc; "end {place}\n")?;
    Ok(Text::from_string(line))
}
