// The main text, of which items refer to notes.
ghost use Rattle.std.specs.Prelude.{◌≡◌, map, IfOk};
ghost use Rattle.doc_columns.specs.Attached.{attached_of};
ghost use Rattle.further_notes.specs.Sources.{note_kinds as kinds_of, note_kind_at as kind_there};
ghost use Rattle.further_notes.specs.Splices.{attached_noted as noted_of, text_noted as noted_text, with_kinds};
ghost use Rattle.further_notes.specs.Splices.{unit_with as unit_of};

use crate::forms::unit_noted;
use doc_bits::Memory;
use doc_columns::{Attached, Columns};
use doc_mends::NoteStory;
use plain_doc::NoteKind;
use run_lists::{Cursor, Runs, Shared, copy_runs, seek};
use std::alloc::Global;

/// What note each item of a text refers to.
pub(crate) fn note_kinds(alloc: Global, text: &Columns) -> Result<Vec<Option<NoteKind>>, Memory>
    ensures { IfOk result (λ kinds. kinds.items ≡ kinds_of text.now) }
{
    let len = text.len();
    let attachments = text.attachments();
    let mut cursor = Cursor::new();
    let mut kinds = Vec::with_capacity(alloc, len)?;
    for at in 0..len {
        let attached = seek(attachments, &mut cursor, at);
        kinds.push(attached.note)?;
    }
    Ok(kinds)
}

/// What note the item at a place refers to, where there is one.
pub(crate) fn kind_at(kinds: &[Option<NoteKind>], at: usize) -> Option<NoteKind>
    ensures { result ≡ kind_there kinds.now at }
{
    if at < kinds.len() { kinds[at] } else { None }
}

/// A text whose items refer to notes of these kinds beside their own, which are of the story.
pub(crate) fn text_noted(
    alloc: Global,
    story: NoteStory,
    text: &Columns,
    kinds: &[Option<NoteKind>],
) -> Result<Columns, Memory>
    ensures { IfOk result (λ made. made ≡ noted_text story kinds.now text.now) }
{
    let len = text.len();
    let units = units_noted(alloc, story, text.units(), kinds)?;
    let chps = copy_runs(alloc, text.chps(), &mut Cursor::new(), 0, len)?;
    let attachments = attachments_noted(alloc, text, kinds)?;
    Ok(Columns::from_parts(units, chps, attachments))
}

/// Its units then.
fn units_noted(
    alloc: Global,
    story: NoteStory,
    units: &[u16],
    kinds: &[Option<NoteKind>],
) -> Result<Vec<u16>, Memory>
    ensures { IfOk result (λ made. made.items ≡ with_kinds (unit_of story) kinds.now units.now) }
{
    let mut made = Vec::with_capacity(alloc, units.len())?;
    for at in 0..units.len() {
        made.push(unit_with(story, kind_at(kinds, at), units[at]))?;
    }
    Ok(made)
}

/// A unit of which the item refers to a note of this kind, where there is one.
fn unit_with(story: NoteStory, kind: Option<NoteKind>, unit: u16) -> u16
    ensures { result ≡ unit_of story kind unit }
{
    match kind {
        Some(_) => unit_noted(story, unit),
        None => unit,
    }
}

/// What is beside its units then.
fn attachments_noted(
    alloc: Global,
    text: &Columns,
    kinds: &[Option<NoteKind>],
) -> Result<Runs<Attached>, Memory>
    ensures { IfOk result (λ made. made ≡ with_kinds noted_of kinds.now (map attached_of text.now)) }
{
    let len = text.len();
    let attachments = text.attachments();
    let mut cursor = Cursor::new();
    let mut made = Runs::new(alloc);
    for at in 0..len {
        let attached = seek(attachments, &mut cursor, at).copy(alloc)?;
        made.add(1, attached_noted(attached, kind_at(kinds, at)))?;
    }
    Ok(made)
}

/// What is beside a unit whose item refers to a note of this kind, where there is one.
fn attached_noted(attached: Attached, kind: Option<NoteKind>) -> Attached
    ensures { result ≡ noted_of kind attached }
{
    let Attached {
        fld,
        note,
        mark,
        sect,
    } = attached;
    Attached {
        fld,
        note: kind.or(note),
        mark,
        sect,
    }
}
