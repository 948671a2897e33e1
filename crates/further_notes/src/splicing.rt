// Endnotes and comments of two streams as notes of their document.
ghost use Rattle.std.specs.Prelude.{◌≡◌, ◌↔◌, ◌<◌, ◌^◌, ◌&&◌, is_some, IsTrue, length, IfOk, MatchOption};
ghost use Rattle.doc_bits.specs.Rules.{Hold};
ghost use Rattle.fib_versions.specs.VersionRules.{version_rules};
ghost use Rattle.further_notes.specs.Noted.{AreSteps, AreTwoSteps, HasNoSplice, IsSpliced, IsSplicedFrom};
ghost use Rattle.further_notes.specs.Splices.{CanSpliceNotes, HasNoSpliceBy, HasNoStep, HasReferences, NoteState};
ghost use Rattle.further_notes.specs.Splices.{IsSplice, IsSplicedBy, IsStorySplice, document_with, first_state};
ghost use Rattle.further_notes.specs.Splices.{sources_of, note_state_of, with_notes};
ghost use Rattle.further_notes.specs.Sources.{made_notes as made_from, note_kinds as kinds_of};

use crate::files::{further_story, note_file};
use crate::forms::{NoteForm, note_form};
use crate::main_text::{kind_at, note_kinds, text_noted};
use crate::origins::{NoteOrigin, made_notes, note_origins};
use crate::sources::{NoteSource, note_sources, note_texts, one_if};
use crate::stories::NotedStories;
use doc_bits::{Memory, drop_then};
use doc_columns::{ColumnDocument, ColumnTexts, Columns};
use doc_lift::{ReadFault, lift};
use doc_mends::{MadeNote, NoteStory};
use fib_versions::AnyFib;
use plain_doc::NoteKind;
use std::alloc::Global;

/// A document with texts of its further stories as notes, and which notes they are.
#[derive(Drop)]
pub struct Spliced {
    pub document: ColumnDocument,
    pub made: Vec<MadeNote>,
}

/// A document, and which of its notes are of further stories.
#[derive(Drop)]
pub(crate) struct NotedDocument {
    pub(crate) document: ColumnDocument,
    pub(crate) origins: Vec<Option<NoteOrigin>>,
}

/// The document of two streams with the texts of these stories as notes, where they can be.
pub fn with_further_notes(
    alloc: Global,
    stories: NotedStories,
    fib: &AnyFib<'_>,
    wd: &[u8],
    table: &[u8],
    document: &ColumnDocument,
) -> Result<Option<Spliced>, Memory>
    requires same { fib.now ≡ wd.now }
    requires version { Hold (version_rules wd.now) }
    requires small { length wd.now < 2 ^ 32 }
    ensures { IfOk result (λ found. MatchOption found
        (HasNoSplice stories wd.now table.now document.now)
        (λ spliced. IsSpliced stories wd.now table.now document.now spliced.document spliced.made.items)) }
{
    let start = start_of(alloc, document)?;
    let found = spliced_from(alloc, stories, fib, wd, table, &start);
    drop_then(start, found)
}

/// The document, of which no note is of a further story.
fn start_of(alloc: Global, document: &ColumnDocument) -> Result<NotedDocument, Memory>
    ensures { IfOk result (λ start. note_state_of start ≡ first_state document.now) }
{
    let copy = document.copy(alloc)?;
    Ok(NotedDocument {
        document: copy,
        origins: Vec::new(alloc),
    })
}

/// The document with the texts of these stories as notes, where they can be, and which notes they are.
fn spliced_from(
    alloc: Global,
    stories: NotedStories,
    fib: &AnyFib<'_>,
    wd: &[u8],
    table: &[u8],
    start: &NotedDocument,
) -> Result<Option<Spliced>, Memory>
    requires same { fib.now ≡ wd.now }
    requires version { Hold (version_rules wd.now) }
    requires small { length wd.now < 2 ^ 32 }
    ensures { IfOk result (λ found. MatchOption found
        ((new : NoteState) → ¬ AreSteps stories wd.now table.now (note_state_of start.now) new)
        (λ spliced. IsSplicedFrom stories wd.now table.now (note_state_of start.now) spliced)) }
{
    let last = steps(alloc, stories, fib, wd, table, start)?;
    match last {
        None => Ok(None),
        Some(noted) => {
            let spliced = spliced_of(alloc, noted)?;
            Ok(Some(spliced))
        }
    }
}

/// The document, and which of its notes are of further stories.
fn spliced_of(alloc: Global, noted: NotedDocument) -> Result<Spliced, Memory>
    ensures document { IfOk result (λ spliced. spliced.document ≡ noted.document) }
    ensures made { IfOk result (λ spliced. spliced.made.items ≡ made_from noted.origins.items) }
{
    match made_notes(alloc, &noted.origins) {
        Ok(made) => Ok(with_made(noted, made)),
        Err(fault) => drop_then(noted, Err(fault)),
    }
}

/// The document, with these notes. It takes no memory.
fn with_made(noted: NotedDocument, made: Vec<MadeNote>) -> Spliced
    ensures { result ≡ record { document = noted.document; made = made } }
{
    let NotedDocument { document, .. } = noted;
    Spliced { document, made }
}

/// The document with the texts of these stories as notes, where they can be.
fn steps(
    alloc: Global,
    stories: NotedStories,
    fib: &AnyFib<'_>,
    wd: &[u8],
    table: &[u8],
    noted: &NotedDocument,
) -> Result<Option<NotedDocument>, Memory>
    requires same { fib.now ≡ wd.now }
    requires version { Hold (version_rules wd.now) }
    requires small { length wd.now < 2 ^ 32 }
    ensures { IfOk result (λ found. MatchOption found
        ((new : NoteState) → ¬ AreSteps stories wd.now table.now (note_state_of noted.now) new)
        (λ last. AreSteps stories wd.now table.now (note_state_of noted.now) (note_state_of last))) }
{
    match stories {
        NotedStories::Both => {
            let both = two_steps(alloc, fib, wd, table, noted)?;
            Ok(both)
        }
        NotedStories::Endnotes => {
            let endnotes = step(alloc, NoteStory::Endnotes, fib, wd, table, noted)?;
            Ok(endnotes)
        }
        NotedStories::Comments => {
            let comments = step(alloc, NoteStory::Comments, fib, wd, table, noted)?;
            Ok(comments)
        }
    }
}

/// The document with its endnotes and then its comments as notes, where they can be.
fn two_steps(
    alloc: Global,
    fib: &AnyFib<'_>,
    wd: &[u8],
    table: &[u8],
    noted: &NotedDocument,
) -> Result<Option<NotedDocument>, Memory>
    requires same { fib.now ≡ wd.now }
    requires version { Hold (version_rules wd.now) }
    requires small { length wd.now < 2 ^ 32 }
    ensures { IfOk result (λ found. MatchOption found
        ((new : NoteState) → ¬ AreTwoSteps wd.now table.now (note_state_of noted.now) new)
        (λ last. AreTwoSteps wd.now table.now (note_state_of noted.now) (note_state_of last))) }
{
    let Some(middle) = step(alloc, NoteStory::Endnotes, fib, wd, table, noted)? else {
        return Ok(None);
    };
    let last = step(alloc, NoteStory::Comments, fib, wd, table, &middle);
    drop_then(middle, last)
}

/// The document with the texts of a story as notes, where they can be.
fn step(
    alloc: Global,
    story: NoteStory,
    fib: &AnyFib<'_>,
    wd: &[u8],
    table: &[u8],
    noted: &NotedDocument,
) -> Result<Option<NotedDocument>, Memory>
    requires same { fib.now ≡ wd.now }
    requires version { Hold (version_rules wd.now) }
    requires small { length wd.now < 2 ^ 32 }
    ensures { IfOk result (λ found. MatchOption found
        (HasNoStep story wd.now table.now (note_state_of noted.now))
        (λ new. IsStorySplice story wd.now table.now (note_state_of noted.now) (note_state_of new))) }
{
    if fib.further(further_story(story)) == 0 {
        return Ok(None);
    }
    match note_file(alloc, story, fib, wd, table)? {
        None => Ok(None),
        Some(file) => {
            let form = note_form(alloc, story, fib, table)?;
            let found = splice_file(alloc, file.as_slice(), &form, noted)?;
            Ok(found)
        }
    }
}

/// The document with the notes of a file as notes, where they can be.
fn splice_file(
    alloc: Global,
    file: &[u8],
    form: &NoteForm,
    noted: &NotedDocument,
) -> Result<Option<NotedDocument>, Memory>
    ensures { IfOk result (λ found. MatchOption found
        (HasNoSpliceBy file.now form.now (note_state_of noted.now))
        (λ new. IsSplicedBy file.now form.now (note_state_of noted.now) (note_state_of new))) }
{
    match lift(alloc, file) {
        Ok(lifted) => {
            let found = splice(alloc, form, noted, &lifted.document);
            drop_then(lifted, found)
        }
        Err(ReadFault::Refused { .. }) => Ok(None),
        Err(ReadFault::Memory) => Err(Memory),
    }
}

/// The document with the notes of another one, where these have references of their own.
fn splice(
    alloc: Global,
    form: &NoteForm,
    noted: &NotedDocument,
    other: &ColumnDocument,
) -> Result<Option<NotedDocument>, Memory>
    ensures { IfOk result (λ found. MatchOption found
        (¬ CanSpliceNotes noted.now.document other.now)
        (λ new. IsSplice form.now (note_state_of noted.now) other.now (note_state_of new))) }
{
    let own = note_kinds(alloc, &noted.document.main)?;
    let others = note_kinds(alloc, &other.main)?;
    if !have_references(&own, &others, other.notes.len()) {
        return Ok(None);
    }
    let spliced = splice_kinds(alloc, form, noted, other, &own, &others)?;
    Ok(Some(spliced))
}

/// The document with the notes of another one, by the notes that their items refer to.
fn splice_kinds(
    alloc: Global,
    form: &NoteForm,
    noted: &NotedDocument,
    other: &ColumnDocument,
    own: &[Option<NoteKind>],
    others: &[Option<NoteKind>],
) -> Result<NotedDocument, Memory>
    requires own { own.now ≡ kinds_of noted.now.document.main }
    requires others { others.now ≡ kinds_of other.now.main }
    ensures { IfOk result (λ new. note_state_of new ≡ with_notes form.now (note_state_of noted.now) other.now) }
{
    let sources = note_sources(alloc, own, others)?;
    let document = spliced_document(alloc, form, &noted.document, other, others, &sources)?;
    let origins = note_origins(alloc, form.story, &noted.origins, &sources)?;
    Ok(NotedDocument { document, origins })
}

/// The document with the notes of another one, by where the notes come from.
fn spliced_document(
    alloc: Global,
    form: &NoteForm,
    document: &ColumnDocument,
    other: &ColumnDocument,
    others: &[Option<NoteKind>],
    sources: &[NoteSource],
) -> Result<ColumnDocument, Memory>
    requires others { others.now ≡ kinds_of other.now.main }
    requires sources { sources.now ≡ sources_of document.now other.now }
    ensures { IfOk result (λ made. made ≡ document_with form.now document.now other.now) }
{
    let main = text_noted(alloc, form.story, &document.main, others)?;
    let notes = note_texts(alloc, form, &document.notes, &other.notes, sources)?;
    let copy = document.copy(alloc)?;
    Ok(with_texts(copy, main, notes))
}

/// The document with this main text and these notes.
fn with_texts(document: ColumnDocument, main: Columns, notes: ColumnTexts) -> ColumnDocument
    ensures { result ≡ record document { main = main; notes = notes } }
{
    let mut made = document;
    made.main = main;
    made.notes = notes;
    made
}

/// Whether so many notes are referred to in a text, each by an item that refers to none of its own.
fn have_references(own: &[Option<NoteKind>], others: &[Option<NoteKind>], count: usize) -> bool
    ensures { IsTrue result ↔ HasReferences own.now others.now count }
{
    let mut found = 0;
    for at in 0..own.len() {
        let other = kind_at(others, at);
        if are_both(own[at], other) {
            return false;
        }
        found += one_if(other);
    }
    count > 0 && found == count
}

/// Whether there is a note, and another one.
fn are_both(note: Option<NoteKind>, other: Option<NoteKind>) -> bool
    ensures { result ≡ (is_some note && is_some other) }
{
    note.is_some() && other.is_some()
}
