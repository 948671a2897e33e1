// The marks of stories that are left out, in the texts that stay.
ghost use Rattle.std.specs.Prelude.{◌≡◌, ◌+◌, ◌^◌, ◌<◌, [], ◌∷◌, ◌++◌, length, IfOk, OnOk};
ghost use Rattle.std.specs.List.{filter_map};
ghost use Rattle.doc_losses.specs.References.{text_marks as marks_of_text, text_references, references_by as listed_by};
ghost use Rattle.doc_losses.specs.References.{reference_at, all_head_references, references as references_of};
ghost use Rattle.doc_losses.specs.Marks.{names_of_marks};

use crate::Marks;
use doc_bits::{Memory, Story};
use doc_columns::{ColumnDocument, ColumnTexts, Columns};
use fib_versions::Further;
use run_lists::{Cursor, seek};
use std::alloc::Global;
use text_losses::Reference;

/// Of each item of a text, which begins at a CP of the main text or of the header texts, the story whose mark it is.
pub fn text_marks(
    alloc: Global,
    marks: &Marks,
    story: Story,
    begin: usize,
    text: &Columns,
) -> Result<Vec<Option<Further>>, Memory>
    requires { begin + length text.now < 2 ^ 64 }
    ensures { IfOk result (λ list. list.items ≡ marks_of_text (names_of_marks marks.now) story begin text.now) }
{
    let units = text.units();
    let attachments = text.attachments();
    let mut cursor = Cursor::new();
    let mut list = Vec::with_capacity(alloc, units.len())?;
    for at in 0..units.len() {
        let attached = seek(attachments, &mut cursor, at);
        list.push(marks.mark_of(story, begin + at, units[at], attached))?;
    }
    Ok(list)
}

/// The references of a document to stories that are left out: those of the main text, and those of the header texts.
pub fn references(
    alloc: Global,
    marks: &Marks,
    document: &ColumnDocument,
) -> Result<Vec<Reference>, Memory>
    ensures { IfOk result (λ list. list.items ≡ references_of (names_of_marks marks.now) document.now) }
{
    let mut list = Vec::new(alloc);
    let _len = document.main.len();
    add_text(alloc, marks, Story::Main, 0, &document.main, &mut list)?;
    add_heads(alloc, marks, &document.heads, &mut list)?;
    Ok(list)
}

/// Appends the references of a text that begins at a CP.
fn add_text(
    alloc: Global,
    marks: &Marks,
    story: Story,
    begin: usize,
    text: &Columns,
    list: &mut Vec<Reference>,
) -> Result<(), Memory>
    requires { begin + length text.now < 2 ^ 64 }
    ensures { OnOk result
        (list.new.items ≡ list.old.items ++ text_references (names_of_marks marks.now) story begin text.now) }
{
    let found = text_marks(alloc, marks, story, begin, text)?;
    add_marks(story, &found, list)
}

/// Appends a reference for each of the marks of a text.
fn add_marks(
    story: Story,
    marks: &[Option<Further>],
    list: &mut Vec<Reference>,
) -> Result<(), Memory>
    ensures { OnOk result (list.new.items ≡ list.old.items ++ listed_by story marks.now) }
{
    for at in 0..marks.len() {
        add_mark(story, at, marks[at], list)?;
    }
    Ok(())
}

/// Appends a reference for a mark, where there is one.
fn add_mark(
    story: Story,
    at: usize,
    mark: Option<Further>,
    list: &mut Vec<Reference>,
) -> Result<(), Memory>
    ensures { OnOk result (list.new.items
        ≡ list.old.items ++ filter_map (λ reference. reference) (reference_at story at mark ∷ [])) }
{
    if let Some(to) = mark {
        list.push(Reference { to, story, at })?;
    }
    Ok(())
}

/// Appends the references of all header texts.
fn add_heads(
    alloc: Global,
    marks: &Marks,
    heads: &ColumnTexts,
    list: &mut Vec<Reference>,
) -> Result<(), Memory>
    ensures { OnOk result
        (list.new.items ≡ list.old.items ++ all_head_references (names_of_marks marks.now) heads.now) }
{
    let mut begin = 0;
    for number in 0..heads.len() {
        let text = heads.get(number);
        let len = text.len();
        add_text(alloc, marks, Story::Head(number as u32), begin, text, list)?;
        begin += len;
    }
    Ok(())
}
