// The lines of an outline. One number at a time is kept beside them.
ghost use Rattle.std.specs.Prelude.{◌≡◌, ◌^◌, ◌<◌, length, IfOk};
ghost use Rattle.plain_doc.specs.Sound.{IsSound};
ghost use Rattle.list_numbers.specs.Places.{paragraphs};
ghost use Rattle.list_numbers.specs.Numbers.{numbers_at, AreFit};
ghost use Rattle.list_numbers.specs.Outline.{outline_of, AreOutlineLines};

use crate::counters::new_counters;
use crate::document_lists::DocumentLists;
use crate::list_formats::ListFormats;
use crate::list_place::ListPlace;
use crate::mark_values::MarkValues;
use crate::numbering::next_number;
use crate::outline_line::push_line;
use crate::paragraphs::{document_values, mark_of};
use doc_bits::{Memory, Text};
use doc_columns::ColumnDocument;
use plain_doc::Document;
use run_lists::Cursor;
use std::alloc::Global;

/// The lines of the main paragraphs of a sound document that have a number, or a level in the outline: the index of the
/// paragraph, the level, the number and the text. The document is put by columns first.
pub fn outline_lines(alloc: Global, document: &Document) -> Result<Text, Memory>
    requires { IsSound document.now }
    ensures { IfOk result (AreOutlineLines document.now) }
{
    let columns = ColumnDocument::from_document(alloc, document)?;
    let made = outline_lines_of_columns(alloc, &columns);
    drop(columns);
    made
}

/// The lines of the main paragraphs of a sound document by columns that have a number, or a level of an outline.
pub fn outline_lines_of_columns(alloc: Global, document: &ColumnDocument) -> Result<Text, Memory>
    requires { IsSound document.now }
    ensures { IfOk result (AreOutlineLines document.now) }
{
    let values = document_values(alloc, document)?;
    let lists = DocumentLists::of(alloc, &document.carried)?;
    let places = lists.places_of(alloc, &values)?;
    let text = lines_of(alloc, document, &lists.lists, &values, &places)?;
    Ok(text)
}

/// The lines of the main paragraphs that have these values and places.
fn lines_of(
    alloc: Global,
    document: &ColumnDocument,
    lists: &ListFormats,
    values: &[MarkValues],
    places: &[Option<ListPlace>],
) -> Result<Text, Memory>
    requires sound { IsSound document.now }
    requires lists { length lists.now < 2 ^ 16 }
    requires fit { AreFit lists.now places.now }
    requires values { length values.now ≡ length (paragraphs document.now.main) }
    requires places { length places.now ≡ length (paragraphs document.now.main) }
    ensures { IfOk result (λ text. text
        ≡ outline_of (paragraphs document.now.main) values.now (numbers_at lists.now places.now)) }
{
    let len = document.main.len();
    let units = document.main.units();
    let attachments = document.main.attachments();
    let mut counts = new_counters(alloc, lists.len())?;
    let mut text = Text::new(alloc);
    let mut marks = Cursor::new();
    let mut at = 0;
    for i in 0..places.len() {
        let (_mark, end) = mark_of(attachments, &mut marks, at, len);
        let number = next_number(alloc, lists, &mut counts, places[i])?;
        push_line(
            alloc,
            &mut text,
            i,
            values[i].outline,
            &number,
            &units[at..end - 1],
        )?;
        at = end;
    }
    Ok(text)
}
