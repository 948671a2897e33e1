// The numbers of the main paragraphs of a document.
ghost use Rattle.std.specs.Prelude.{IfOk};
ghost use Rattle.plain_doc.specs.Sound.{IsSound};
ghost use Rattle.list_numbers.specs.Numbers.{AreNumbers};

use crate::document_lists::DocumentLists;
use crate::numbers_list::Numbers;
use crate::numbers_of_places::numbers_at;
use crate::paragraphs::document_values;
use doc_bits::Memory;
use doc_columns::ColumnDocument;
use plain_doc::Document;
use std::alloc::Global;

/// The numbers of the main paragraphs of a sound document, in their order. The document is put by columns first.
pub fn numbers(alloc: Global, document: &Document) -> Result<Numbers, Memory>
    requires { IsSound document.now }
    ensures { IfOk result (AreNumbers document.now) }
{
    let columns = ColumnDocument::from_document(alloc, document)?;
    let made = numbers_of_columns(alloc, &columns);
    drop(columns);
    made
}

/// The numbers of the main paragraphs of a sound document by columns, in their order.
pub fn numbers_of_columns(alloc: Global, document: &ColumnDocument) -> Result<Numbers, Memory>
    requires { IsSound document.now }
    ensures { IfOk result (AreNumbers document.now) }
{
    let values = document_values(alloc, document)?;
    let lists = DocumentLists::of(alloc, &document.carried)?;
    let places = lists.places_of(alloc, &values)?;
    let numbers = numbers_at(alloc, &lists.lists, &places)?;
    Ok(numbers)
}
