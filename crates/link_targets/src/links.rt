// Where the links of a document lead, and what its bookmarks are called.
ghost use Rattle.std.specs.Prelude.{◌≡◌, None, Some, MatchOption};
ghost use Rattle.link_targets.specs.Links.{between, bookmark_name, instruction_of, begins_no_field, note_text_units};
ghost use Rattle.link_targets.specs.Links.{url_in};

use doc_columns::ColumnDocument;
use field_links::{LinkText, link_of};
use text_codes::FIELD_BEGIN;
use view_places::Link;

/// The instruction of a link.
pub fn instruction_of(document: &ColumnDocument, link: Link) -> &[u16]
    ensures { result.now ≡ instruction_of document.now link }
{
    between(units_of(document, link.note), link.begin, link.end)
}

/// The units of the note with this number, from 1, or of the main text.
fn units_of(document: &ColumnDocument, note: usize) -> &[u16]
    ensures { result.now ≡ note_text_units document.now note }
{
    if note == 0 {
        return document.main.units();
    }
    if note - 1 < document.notes.len() {
        document.notes.get(note - 1).units()
    } else {
        &[]
    }
}

/// The units between two places.
fn between(units: &[u16], begin: usize, end: usize) -> &[u16]
    ensures { result.now ≡ between units.now begin end }
{
    if begin <= end && end <= units.len() {
        &units[begin..end]
    } else {
        &[]
    }
}

/// Where the field of an instruction leads.
pub fn url_in(instruction: &[u16]) -> Option<LinkText<'_>>
    ensures { MatchOption result (url_in instruction.now ≡ None) (λ text. url_in instruction.now ≡ Some text) }
{
    if is_plain(instruction) {
        link_of(instruction).url()
    } else {
        None
    }
}

/// Whether no field begins in an instruction.
fn is_plain(instruction: &[u16]) -> bool
    ensures { result ≡ begins_no_field instruction.now }
{
    for unit in instruction {
        if *unit == FIELD_BEGIN {
            return false;
        }
    }
    true
}

/// The name of the bookmark with this number.
pub fn bookmark_name(document: &ColumnDocument, number: usize) -> Option<&[u16]>
    ensures { MatchOption result (bookmark_name document.now number ≡ None)
        (λ name. bookmark_name document.now number ≡ Some name.now) }
{
    if number < document.bookmarks.len() {
        Some(document.bookmarks.get(number).name.as_slice())
    } else {
        None
    }
}
