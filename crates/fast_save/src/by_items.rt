// The document of a session, item by item and as a file.
ghost use Rattle.std.specs.Prelude.{◌≡◌, IfOk, MatchResult};
ghost use Rattle.doc_model.specs.Formed.{IsFormed};
ghost use Rattle.plain_doc.specs.Sound.{IsSound};
ghost use Rattle.full_save.specs.Layout.{full_save_image, FitsCompoundFile, IsTooLarge};

use doc_bits::{Bytes, Memory};
use doc_columns::{ColumnDocument, columns_are_formed};
use full_save::{SaveFault, full_of_columns};
use plain_doc::{Document, documents_are_formed};
use std::alloc::Global;

/// The document item by item, which is well formed.
pub(crate) fn items_of(alloc: Global, document: &ColumnDocument) -> Result<Document, Memory>
    ensures items { IfOk result (λ items. items ≡ document.now) }
    ensures formed { IfOk result IsFormed }
{
    let items = document.expand(alloc)?;
    documents_are_formed(&items);
    Ok(items)
}

/// The file of a full save.
pub(crate) fn file_in_full(alloc: Global, document: &ColumnDocument) -> Result<Bytes, SaveFault>
    requires { IsSound document.now }
    ensures { MatchResult result
        (λ file. (file ≡ full_save_image document.now) × (FitsCompoundFile document.now × IsFormed document.now))
        (IsTooLarge document.now) }
{
    columns_are_formed(document);
    let file = full_of_columns(alloc, document)?;
    Ok(file)
}
