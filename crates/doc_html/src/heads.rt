// Rows that are the heads of tables.
ghost use Rattle.std.specs.Prelude.{◌≡◌, ◌≤◌, length, Bool, None, Some, if◌then◌else◌};
ghost use Rattle.run_lists.specs.Places.{IsAtRunBegin};
ghost use Rattle.doc_columns.specs.Walks.{items_in, AreFullParts};
ghost use Rattle.doc_view.specs.declared.reading.Manner.{Manner};
ghost use Rattle.doc_view.specs.Layout.{row_goes_on};
ghost use Rattle.doc_view.specs.Seen.{Formats};
ghost use Rattle.doc_places.specs.Grid.{is_head_row};
ghost use Rattle.doc_html.specs.Writes.{head_by, paragraphs_left};

use doc_columns::{Parts, paragraph_end};
use doc_view::Standing;
use run_lists::{Cursor, seek};

/// Whether the row of a paragraph is a head of its table, where the paragraph ends at a place. What is known of the row
/// need not be read again.
pub(crate) fn is_head(
    parts: &Parts<'_>,
    marks: Cursor,
    place: usize,
    standing: Standing,
    known: Option<bool>,
) -> bool
    requires parts { AreFullParts parts.now }
    requires marks { IsAtRunBegin parts.now.attachments.now marks }
    requires ahead { marks.begin ≤ place }
    requires within { place ≤ length parts.now.units.now }
    requires known { (formats : Formats) (manner : Manner) (head : Bool) → known ≡ Some head
        → head ≡ head_by standing (paragraphs_left formats manner (items_in parts.now) place) }
    ensures { (formats : Formats) (manner : Manner)
        → result ≡ head_by standing (paragraphs_left formats manner (items_in parts.now) place) }
{
    if !standing.keeps_row() {
        return standing.ends_head();
    }
    match known {
        Some(head) => head,
        None => is_head_row(parts, marks, place),
    }
}

/// What is known of the row of the next paragraph behind one whose row is a head or not.
pub(crate) fn known_behind(standing: Standing, is_head: bool) -> Option<bool>
    ensures { result ≡ (if row_goes_on standing then Some is_head else None) }
{
    if standing.keeps_row() {
        Some(is_head)
    } else {
        None
    }
}

/// Whether the row that goes on at a place is a head of its table. It is linear in the rest of the row.
fn is_head_row(parts: &Parts<'_>, from: Cursor, place: usize) -> bool
    requires parts { AreFullParts parts.now }
    requires marks { IsAtRunBegin parts.now.attachments.now from }
    requires ahead { from.begin ≤ place }
    requires within { place ≤ length parts.now.units.now }
    ensures { (formats : Formats) (manner : Manner)
        → result ≡ is_head_row (paragraphs_left formats manner (items_in parts.now) place) }
{
    let len = parts.units.len();
    let mut marks = from;
    let mut at = place;
    while at < len {
        let end = paragraph_end(parts.attachments, &mut marks, at, len);
        let last = seek(parts.attachments, &mut marks, end - 1);
        let standing = Standing::of(parts.units[end - 1], &last.mark);
        if !standing.keeps_row() {
            return standing.ends_head();
        }
        at = end;
    }
    false
}
