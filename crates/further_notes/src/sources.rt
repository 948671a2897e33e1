// Where notes come from, and their texts.
ghost use Rattle.std.specs.Prelude.{◌≡◌, ◌∷◌, [], ◌++◌, ◌≤◌, is_some, IfOk, OnOk};
ghost use Rattle.std.specs.List.{count_by, filter_map};
ghost use Rattle.further_notes.specs.Sources.{source_by as source_of, note_sources as sources_by};
ghost use Rattle.further_notes.specs.Sources.{source_text, note_texts as texts_of};
ghost use Rattle.further_notes.specs.Forms.{as_note_text as text_of_note, text_or_empty as text_there};

use crate::forms::{NoteForm, note_text};
use crate::main_text::kind_at;
use doc_bits::Memory;
use doc_columns::{ColumnTexts, Columns};
use plain_doc::NoteKind;
use std::alloc::Global;

/// A note by its number among those of the document, or of the other one.
#[derive(Clone, Copy)]
pub(crate) enum NoteSource {
    Own(usize),
    Other(usize),
}

/// The notes in the order of their references, by the kinds of own notes and of others that items refer to.
pub(crate) fn note_sources(
    alloc: Global,
    own: &[Option<NoteKind>],
    others: &[Option<NoteKind>],
) -> Result<Vec<NoteSource>, Memory>
    ensures { IfOk result (λ list. list.items ≡ sources_by own.now others.now) }
{
    let mut list = Vec::new(alloc);
    let mut before = 0;
    let mut more = 0;
    for at in 0..own.len() {
        let note = own[at];
        let other = kind_at(others, at);
        push_source(&mut list, source_by(note, other, before, more))?;
        before += one_if(note);
        more += one_if(other);
    }
    Ok(list)
}

/// What an item refers to, of which so many of either are before it.
fn source_by(
    note: Option<NoteKind>,
    other: Option<NoteKind>,
    before: usize,
    more: usize,
) -> Option<NoteSource>
    ensures { result ≡ source_of note other before more }
{
    if note.is_some() {
        return Some(NoteSource::Own(before));
    }
    if other.is_some() {
        return Some(NoteSource::Other(more));
    }
    None
}

/// One where there is a note.
pub(crate) fn one_if(kind: Option<NoteKind>) -> usize
    ensures count { result ≡ count_by is_some (kind ∷ []) }
    ensures few { result ≤ 1 }
{
    if kind.is_some() { 1 } else { 0 }
}

/// Puts a note last, where there is one.
fn push_source(list: &mut Vec<NoteSource>, source: Option<NoteSource>) -> Result<(), Memory>
    ensures { OnOk result (list.new.items ≡ list.old.items ++ filter_map (λ s. s) (source ∷ [])) }
{
    if let Some(source) = source {
        list.push(source)?;
    }
    Ok(())
}

/// The texts of the notes. So many that there is no room are no less than memory can hold.
pub(crate) fn note_texts(
    alloc: Global,
    form: &NoteForm,
    own: &ColumnTexts,
    others: &ColumnTexts,
    sources: &[NoteSource],
) -> Result<ColumnTexts, Memory>
    ensures { IfOk result (λ texts. texts ≡ texts_of form.now own.now others.now sources.now) }
{
    if sources.len() >= 1 << 32 {
        return Err(Memory);
    }
    let mut texts = ColumnTexts::new(alloc);
    for note in 0..sources.len() {
        let text = text_of(alloc, form, own, others, sources[note])?;
        texts.add(text)?;
    }
    Ok(texts)
}

/// The text of a note.
fn text_of(
    alloc: Global,
    form: &NoteForm,
    own: &ColumnTexts,
    others: &ColumnTexts,
    source: NoteSource,
) -> Result<Columns, Memory>
    ensures { IfOk result (λ text. text ≡ source_text form.now own.now others.now source) }
{
    match source {
        NoteSource::Own(number) => text_at(alloc, own, number),
        NoteSource::Other(number) => other_text(alloc, form, others, number),
    }
}

/// The text of a note that was another one's.
fn other_text(
    alloc: Global,
    form: &NoteForm,
    others: &ColumnTexts,
    number: usize,
) -> Result<Columns, Memory>
    ensures { IfOk result (λ text.
        text ≡ text_of_note form.now.story (text_there form.now.titles number) (text_there others.now number)) }
{
    let title = text_at(alloc, &form.titles, number)?;
    let text = text_at(alloc, others, number)?;
    let made = note_text(alloc, form.story, title, &text)?;
    Ok(made)
}

/// A copy of a text, which has no items where there is none.
fn text_at(alloc: Global, texts: &ColumnTexts, number: usize) -> Result<Columns, Memory>
    ensures { IfOk result (λ text. text ≡ text_there texts.now number) }
{
    if number >= texts.len() {
        return Ok(Columns::new(alloc));
    }
    let text = texts.get(number);
    text.copy(alloc, 0, text.len())
}
