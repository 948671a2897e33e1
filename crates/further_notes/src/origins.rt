// Which notes are texts of further stories.
ghost use Rattle.std.specs.Prelude.{◌≡◌, ◌∷◌, [], ◌++◌, option_map, IfOk, OnOk};
ghost use Rattle.std.specs.List.{filter_map};
ghost use Rattle.further_notes.specs.Sources.{origin_at as origin_there, origin_by as origin_of};
ghost use Rattle.further_notes.specs.Sources.{note_origins as origins_of, made_by as made_of, made_notes as made_from};

use crate::sources::NoteSource;
use doc_bits::Memory;
use doc_mends::{MadeNote, NoteStory};
use std::alloc::Global;

/// The text of a further story that became a note, by its number there.
#[derive(Clone, Copy)]
pub(crate) struct NoteOrigin {
    pub(crate) story: NoteStory,
    pub(crate) number: usize,
}

/// Those of notes by where they come from, where the other notes are of this story.
pub(crate) fn note_origins(
    alloc: Global,
    story: NoteStory,
    origins: &[Option<NoteOrigin>],
    sources: &[NoteSource],
) -> Result<Vec<Option<NoteOrigin>>, Memory>
    ensures { IfOk result (λ list. list.items ≡ origins_of story origins.now sources.now) }
{
    let mut list = Vec::with_capacity(alloc, sources.len())?;
    for note in 0..sources.len() {
        list.push(origin_by(story, origins, sources[note]))?;
    }
    Ok(list)
}

/// That of a note by where it comes from.
fn origin_by(
    story: NoteStory,
    origins: &[Option<NoteOrigin>],
    source: NoteSource,
) -> Option<NoteOrigin>
    ensures { result ≡ origin_of story origins.now source }
{
    match source {
        NoteSource::Own(number) => origin_at(origins, number),
        NoteSource::Other(number) => Some(NoteOrigin { story, number }),
    }
}

/// That of a note; a note of the file has none.
fn origin_at(origins: &[Option<NoteOrigin>], note: usize) -> Option<NoteOrigin>
    ensures { result ≡ origin_there origins.now note }
{
    if note < origins.len() {
        origins[note]
    } else {
        None
    }
}

/// The texts that became notes.
pub(crate) fn made_notes(
    alloc: Global,
    origins: &[Option<NoteOrigin>],
) -> Result<Vec<MadeNote>, Memory>
    ensures { IfOk result (λ made. made.items ≡ made_from origins.now) }
{
    let mut made = Vec::new(alloc);
    for note in 0..origins.len() {
        push_made(&mut made, note, origins[note])?;
    }
    Ok(made)
}

/// Puts a note last, where it was a text of a further story.
fn push_made(
    made: &mut Vec<MadeNote>,
    note: usize,
    origin: Option<NoteOrigin>,
) -> Result<(), Memory>
    ensures { OnOk result
        (made.new.items ≡ made.old.items ++ filter_map (λ m. m) (option_map (made_of note) origin ∷ [])) }
{
    if let Some(origin) = origin {
        made.push(MadeNote {
            story: origin.story,
            number: origin.number,
            note,
        })?;
    }
    Ok(())
}
