// The lines that show the texts of a document, and the document.
ghost use Rattle.std.specs.Prelude.{◌≡◌, ◌++◌, IfOk, OnOk};
ghost use Rattle.std.specs.Fmt.{decimal};
ghost use Rattle.doc_show.specs.Listing.{listing_of, numbered_lines, text_lines};

use crate::bookmark_lines::push_bookmarks;
use crate::story::push_story;
use crate::styles::push_sheet;
use doc_bits::{Memory, Text};
use doc_columns::{ColumnDocument, ColumnTexts, Columns};
use plain_doc::Document;
use std::alloc::Global;

/// The lines that show a document: its styles, its main text, its notes, its header texts, and its
/// bookmarks. The document is put by columns first.
pub fn listing(alloc: Global, document: &Document) -> Result<Text, Memory>
    ensures { IfOk result (λ text. text ≡ listing_of document.now) }
{
    let columns = ColumnDocument::from_document(alloc, document)?;
    let made = listing_of_columns(alloc, &columns);
    drop(columns);
    made
}

/// The lines that show a document by columns. It is linear in the units and the runs.
pub fn listing_of_columns(alloc: Global, document: &ColumnDocument) -> Result<Text, Memory>
    ensures { IfOk result (λ text. text ≡ listing_of document.now) }
{
    let mut text = Text::new(alloc);
    push_sheet(alloc, &mut text, &document.sheet)?;
    push_text(alloc, &mut text, "story main", &document.main)?;
    push_texts(alloc, &mut text, "story note ", &document.notes)?;
    push_texts(alloc, &mut text, "story head ", &document.heads)?;
    push_bookmarks(alloc, &mut text, &document.bookmarks)?;
    Ok(text)
}

/// Appends the lines of a text under its heading, where it has items. After want of memory a part of them may be there.
fn push_text(alloc: Global, text: &mut Text, heading: &str, columns: &Columns) -> Result<(), Memory>
    ensures { OnOk result (text.new ≡ text.old ++ text_lines heading.now columns.now) }
{
    if columns.len() == 0 {
        return Ok(());
    }
    text.push_all(heading)?;
    text.push_all("\n")?;
    push_story(alloc, text, columns)
}

/// Appends the lines of texts, each under the word and its number. After want of memory a part of them may be there.
fn push_texts(alloc: Global, text: &mut Text, word: &str, texts: &ColumnTexts) -> Result<(), Memory>
    ensures { OnOk result (text.new ≡ text.old ++ numbered_lines word.now texts.now) }
{
    for k in 0..texts.len() {
        push_numbered(alloc, text, word, k, texts.get(k))?;
    }
    Ok(())
}

/// Appends the lines of a text under the word and its number, where it has items.
fn push_numbered(
    alloc: Global,
    text: &mut Text,
    word: &str,
    number: usize,
    columns: &Columns,
) -> Result<(), Memory>
    ensures { OnOk result (text.new ≡ text.old ++ text_lines (word.now ++ decimal number) columns.now) }
{
    let heading = format!(in alloc; "{word}{number}")?;
    push_text(alloc, text, heading.as_str(), columns)
}
