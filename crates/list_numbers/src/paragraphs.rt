// The main paragraphs of a document, and the values of their marks.
ghost use Rattle.std.specs.Prelude.{◌≡◌, ◌^◌, ◌<◌, ◌≤◌, List, IfOk, MatchOption, map, replicate, None};
ghost use Rattle.run_lists.specs.Spread.{expanded, total_len};
ghost use Rattle.run_lists.specs.Places.{IsAtRunBegin};
ghost use Rattle.doc_model.specs.declared.item.Item.{Item};
ghost use Rattle.doc_model.specs.Paragraphs.{HasNoParagraphEnd};
ghost use Rattle.plain_doc.specs.Sound.{IsSound};
ghost use Rattle.doc_columns.specs.Attached.{attached_of};
ghost use Rattle.list_numbers.specs.Numbers.{AreDocumentValues};
ghost use Rattle.list_numbers.specs.Places.{ParagraphEndsBefore};

use crate::mark_values::MarkValues;
use crate::style_values::values_of_mark;
use doc_bits::Memory;
use doc_columns::{Attached, ColumnDocument, paragraph_end};
use plain_doc::Mark;
use run_lists::{Cursor, Run, seek};
use std::alloc::Global;

/// The values in effect of the main paragraphs, in their order. It goes over the runs of marks once.
pub(crate) fn document_values(
    alloc: Global,
    document: &ColumnDocument,
) -> Result<Vec<MarkValues>, Memory>
    requires { IsSound document.now }
    ensures { IfOk result (λ values. AreDocumentValues document.now values.items) }
{
    let sheet = &document.sheet;
    let len = document.main.len();
    let attachments = document.main.attachments();
    let mut known = no_values(alloc, sheet.slots())?;
    let mut values = Vec::new(alloc);
    let mut marks = Cursor::new();
    let mut at = 0;
    while at < len {
        let (found, end) = mark_of(attachments, &mut marks, at, len);
        let own = values_of_mark(alloc, sheet, &mut known, found.unwrap())?;
        values.push(own)?;
        at = end;
    }
    Ok(values)
}

/// The values of so many styles, before the first one is met.
fn no_values(alloc: Global, count: usize) -> Result<Vec<Option<MarkValues>>, Memory>
    ensures { IfOk result (λ known. known.items ≡ replicate count None) }
{
    let mut known = Vec::new(alloc);
    for _i in 0..count {
        known.push(None)?;
    }
    Ok(known)
}

/// The mark that ends the paragraph of a place, where there is one, and where the paragraph ends: behind the mark, or
/// at the end of the text, which has `len` units. The cursor is not behind the place, and goes to the mark.
pub(crate) fn mark_of<'a>(
    attachments: &'a [Run<Attached>],
    marks: &mut Cursor,
    at: usize,
    len: usize,
) -> (Option<&'a Mark>, usize)
    requires long { total_len attachments.now ≡ len }
    requires few { len < 2 ^ 32 }
    requires cursor { IsAtRunBegin attachments.now marks.old }
    requires ahead { marks.old.begin ≤ at }
    requires within { at < len }
    ensures cursor { IsAtRunBegin attachments.now marks.new }
    ensures ahead { marks.new.begin ≤ result.1 }
    ensures some { at < result.1 }
    ensures within { result.1 ≤ len }
    ensures found { (text : List Item) → expanded attachments.now ≡ map attached_of text → MatchOption result.0
        (HasNoParagraphEnd text at) (λ mark. ParagraphEndsBefore text at result.1 mark.now) }
{
    let end = paragraph_end(attachments, marks, at, len);
    let last = seek(attachments, marks, end - 1);
    (last.mark.as_ref(), end)
}
