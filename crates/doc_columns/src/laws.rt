// What the special items of a document say of all of it.
ghost use Rattle.doc_columns.specs.Laws.{SpecialItemsDecide};

/// A document with right bare items and right bookmarks is sound where the document of its special items is.
pub fn special_items_decide()
    ensures { SpecialItemsDecide }
{}
