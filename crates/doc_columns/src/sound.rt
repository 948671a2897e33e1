// Whether a document by columns breaks no rule.
ghost use Rattle.std.specs.Prelude.{◌≡◌, ◌<◌, ◌^◌, IsTrue, IfOk, length};
ghost use Rattle.std.specs.List.{sum_by};
ghost use Rattle.plain_doc.specs.RulesOfSheet.{heads_of_sections, item_count};
ghost use Rattle.plain_doc.specs.Sound.{IsSound};
ghost use Rattle.doc_columns.specs.Marks.{AreValidBookmarks};

use crate::judge::{are_valid_texts, right_counts};
use crate::{ColumnDocument, ColumnTexts};
use doc_bits::{Memory, Where};
use doc_parts::Bookmarks;
use plain_doc::{Counts, HEADERS_PER_SECTION, MAX_BOOKMARKS, SEPARATORS, Side, is_valid_sheet};
use std::alloc::Global;

/// The most items of all texts.
const MAX_ITEMS: u128 = 499_998;

/// Whether a document is known to break no rule. Where it is not known, a walk over its items tells:
/// `plain_doc::check`.
pub fn is_sound(alloc: Global, document: &ColumnDocument) -> Result<bool, Memory>
    ensures { IfOk result (λ sound. IsTrue sound → IsSound document.now) }
{
    if all_items(document) > MAX_ITEMS {
        return Ok(false);
    }
    if !are_valid(alloc, &document.bookmarks, document.main.len())? {
        return Ok(false);
    }
    let Some(counts) = right_counts(alloc, &document.sheet, Where::Main, &document.main)? else {
        return Ok(false);
    };
    if !are_valid_texts(alloc, &document.sheet, Side::Notes, &document.notes)? {
        return Ok(false);
    }
    if !are_valid_texts(alloc, &document.sheet, Side::Heads, &document.heads)? {
        return Ok(false);
    }
    if !fit_counts(document, counts) {
        return Ok(false);
    }
    Ok(is_valid_sheet(&document.sheet))
}

/// Whether the bookmarks of a main text of `len` units are formed, not too many, and none has the
/// name of an earlier one.
fn are_valid(alloc: Global, bookmarks: &Bookmarks, len: usize) -> Result<bool, Memory>
    ensures { IfOk result (λ valid. IsTrue valid → AreValidBookmarks len bookmarks.now) }
{
    if bookmarks.len() > MAX_BOOKMARKS || !bookmarks.are_formed(len) {
        return Ok(false);
    }
    let same = bookmarks.find_same_name(alloc)?;
    Ok(same.is_none())
}

/// Whether the numbers of notes and header texts are those that the main text counts.
fn fit_counts(document: &ColumnDocument, counts: Counts) -> bool
    requires { counts.sections < 2 ^ 32 }
    ensures { IsTrue result → (length document.now.notes ≡ counts.notes)
        × (length document.now.heads ≡ heads_of_sections counts.sections) }
{
    if document.notes.len() != counts.notes {
        return false;
    }
    document.heads.len() == SEPARATORS + HEADERS_PER_SECTION * counts.sections
}

/// How many items all texts have.
pub fn all_items(document: &ColumnDocument) -> u128
    ensures { result ≡ item_count document.now }
{
    let attached = items_of(&document.notes) as u128 + items_of(&document.heads) as u128;
    document.main.len() as u128 + attached
}

/// How many items these texts have.
fn items_of(texts: &ColumnTexts) -> u64
    ensures { result ≡ sum_by length texts.now }
{
    let mut count = 0;
    for k in 0..texts.len() {
        count += texts.get(k).len() as u64;
    }
    count
}
