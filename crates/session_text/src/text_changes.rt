// The step of a text for each change of its document.
ghost use Rattle.std.specs.Prelude.{◌≡◌, ◌+◌, ◌^◌, ◌<◌, ◌≤◌, length, slice_get, MatchOption, IfOk};
ghost use Rattle.doc_model.specs.declared.document.Document.{Document as TheDocument};
ghost use Rattle.doc_model.specs.Collected.{joined_texts};
ghost use Rattle.doc_patch.specs.declared.changes.Change.TheVariants.{SpliceText};
ghost use Rattle.doc_patch.specs.Changes.{changed};
ghost use Rattle.save_laws.specs.Ends.{ends_of};
ghost use Rattle.session_text.specs.StoryMarks.{nth_text_begin};
ghost use Rattle.session_text.specs.SessionChanges.{text_begin as begin_in_whole};
ghost use Rattle.session_text.specs.EditSteps.{KeepsNamed, items_put};
ghost use Rattle.session_text.specs.TextSteps.{AreStories, IsTextStep, IsRangeOf, HasRangeOf, CanStep};

use crate::gathered::join_texts;
use crate::steps::{TextStep, head_step, main_step, no_step, note_step};
use crate::stories::{Stories, begin_of_text, slots_of};
use doc_bits::{Memory, Story};
use doc_columns::{ColumnDocument, ColumnTexts, Columns};
use doc_patch::Change;
use std::alloc::Global;

/// The step of a change that is no modifier. The texts that it names are those of the document; the stories are those
/// that the changes before it left.
pub(crate) fn step_of(
    alloc: Global,
    document: &ColumnDocument,
    stories: Stories,
    change: &Change,
) -> Result<TextStep, Memory>
    requires can { CanStep document.now stories change.now }
    requires few { stories.main + (stories.notes + (stories.heads + (length (items_put change.now) + 3))) < 2 ^ 32 }
    ensures step { IfOk result (λ step. (now : TheDocument) → AreStories now stories →
        KeepsNamed document.now now change.now → IsTextStep now (changed change.now now) stories.ends step) }
    ensures items { IfOk result (λ step. step.items ≡ items_put change.now) }
{
    match change {
        Change::SpliceText(story, from, to, fresh) => {
            let items = copy_text(alloc, fresh)?;
            Ok(splice_text(document, stories, *story, (*from, *to), items))
        }
        Change::SpliceNotes(from, to, fresh) => {
            let items = join_texts(alloc, fresh)?;
            let range = range_of_texts(&document.notes, *from, *to);
            Ok(note_step(stories, range.0, range.1, items))
        }
        Change::SpliceHeads(from, to, fresh) => {
            let items = join_texts(alloc, fresh)?;
            let range = range_of_texts(&document.heads, *from, *to);
            Ok(head_step(stories, range.0, range.1, items))
        }
        Change::ModifyItems(_, _, _, _) => Ok(no_step(alloc, stories)),
        Change::SetSection(_, _) => Ok(no_step(alloc, stories)),
        Change::SetStyleCharacters(_, _) => Ok(no_step(alloc, stories)),
        Change::SetStyleParagraphs(_, _) => Ok(no_step(alloc, stories)),
        Change::SetBookmarks(_) => Ok(no_step(alloc, stories)),
    }
}

/// A copy of the text, which shares its maps.
fn copy_text(alloc: Global, text: &Columns) -> Result<Columns, Memory>
    ensures { IfOk result (λ copy. copy ≡ text.now) }
{
    let copy = text.copy(alloc, 0, text.len())?;
    Ok(copy)
}

/// The step of a splice of a text.
fn splice_text(
    document: &ColumnDocument,
    stories: Stories,
    story: Story,
    range: (usize, usize),
    fresh: Columns,
) -> TextStep
    requires can { CanStep document.now stories (SpliceText story range.0 range.1 fresh) }
    requires few { stories.main + (stories.notes + (stories.heads + (length fresh + 3))) < 2 ^ 32 }
    ensures step { (now : TheDocument) → AreStories now stories →
        KeepsNamed document.now now (SpliceText story range.0 range.1 fresh) →
        IsTextStep now (changed (SpliceText story range.0 range.1 fresh) now) stories.ends result }
    ensures items { result.items ≡ fresh }
{
    match story {
        Story::Main => main_step(stories, range.0, range.1, fresh),
        Story::Note(number) => {
            let all = range_of(&document.notes, number as usize, range);
            note_step(stories, all.0, all.1, fresh)
        }
        Story::Head(number) => {
            let all = range_of(&document.heads, number as usize, range);
            head_step(stories, all.0, all.1, fresh)
        }
    }
}

/// The range of all items that is this one of the items of a text.
fn range_of(texts: &ColumnTexts, number: usize, range: (usize, usize)) -> (usize, usize)
    requires text { MatchOption (slice_get texts.now number) ⊥ (IsRangeOf range.0 range.1) }
    requires few { length (joined_texts texts.now) < 2 ^ 32 }
    ensures from { result.0 ≡ nth_text_begin texts.now number + range.0 }
    ensures to { result.1 ≡ nth_text_begin texts.now number + range.1 }
    ensures within { result.1 ≤ length (joined_texts texts.now) }
{
    let begin = begin_of_text(texts, number);
    (begin + range.0, begin + range.1)
}

/// The range of all items that is that of some of the texts.
fn range_of_texts(texts: &ColumnTexts, from: usize, to: usize) -> (usize, usize)
    requires order { from ≤ to }
    requires within { to ≤ length texts.now }
    requires few { length (joined_texts texts.now) < 2 ^ 32 }
    ensures from { result.0 ≡ nth_text_begin texts.now from }
    ensures to { result.1 ≡ nth_text_begin texts.now to }
    ensures order { result.0 ≤ result.1 }
    ensures within { result.1 ≤ length (joined_texts texts.now) }
{
    (begin_of_text(texts, from), begin_of_text(texts, to))
}

/// The range of CPs that is this one of the items of a text.
pub(crate) fn range_in_whole(
    document: &ColumnDocument,
    stories: Stories,
    story: Story,
    range: (usize, usize),
) -> (u32, u32)
    requires text { HasRangeOf document.now story range.0 range.1 }
    requires stories { AreStories document.now stories }
    requires few { stories.main + (stories.notes + (stories.heads + 3)) < 2 ^ 32 }
    ensures from { result.0 ≡ begin_in_whole document.now (ends_of stories.ends) story + range.0 }
    ensures to { result.1 ≡ begin_in_whole document.now (ends_of stories.ends) story + range.1 }
{
    match story {
        Story::Main => behind(0, range),
        Story::Note(number) => {
            let all = range_of(&document.notes, number as usize, range);
            behind(stories.main, all)
        }
        Story::Head(number) => {
            let all = range_of(&document.heads, number as usize, range);
            behind(
                stories.main + slots_of(stories.notes, stories.ends.notes),
                all,
            )
        }
    }
}

/// A range that begins so much later.
fn behind(begin: u32, range: (usize, usize)) -> (u32, u32)
    requires from { begin + range.0 < 2 ^ 32 }
    requires to { begin + range.1 < 2 ^ 32 }
    ensures from { result.0 ≡ begin + range.0 }
    ensures to { result.1 ≡ begin + range.1 }
{
    (begin + range.0 as u32, begin + range.1 as u32)
}
