// The main text of a document.
ghost use Rattle.std.specs.Prelude.{◌≡◌, IfOk};
ghost use Rattle.doc_show.specs.MainText.{main_text_of};

use doc_bits::{Memory, Text};
use doc_columns::ColumnDocument;
use plain_doc::Document;
use std::alloc::Global;
use text_codes::ShownText;

/// The shown main text of a document, with a line feed for each paragraph mark. The document is put by columns first.
pub fn main_text(alloc: Global, document: &Document) -> Result<Text, Memory>
    ensures { IfOk result (λ text. text ≡ main_text_of document.now) }
{
    let columns = ColumnDocument::from_document(alloc, document)?;
    let made = main_text_of_columns(alloc, &columns);
    drop(columns);
    made
}

/// The shown main text of a document by columns, with a line feed for each paragraph mark. It is linear in the units.
pub fn main_text_of_columns(alloc: Global, document: &ColumnDocument) -> Result<Text, Memory>
    ensures { IfOk result (λ text. text ≡ main_text_of document.now) }
{
    let mut text = ShownText::new(alloc, true);
    text.push_all(document.main.units())?;
    text.finish()
}
