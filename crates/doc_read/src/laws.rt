// Laws over the definitions alone.
ghost use Rattle.doc_read.specs.Laws.{DocumentIsOne, FirstFaultIsLeast, FilesHoldDocuments};
ghost use Rattle.doc_read.specs.Laws.{HeldBookmarksAreFormed, CarriedStreamsAreShort};

/// A file holds at most one document.
pub fn document_is_one()
    ensures { DocumentIsOne }
{}

/// The first broken rule of a file is the least of all that are broken, at its least place.
pub fn first_fault_is_least()
    ensures { FirstFaultIsLeast }
{}

/// A file of bytes that breaks none of the rules 1 to 57 holds a document, which is well formed.
pub fn files_hold_documents()
    ensures { FilesHoldDocuments }
{}

/// The bookmarks of a document that a file holds are in order and within its main text.
pub fn held_bookmarks_are_formed()
    ensures { HeldBookmarksAreFormed }
{}

/// A document that a file holds carries streams that are no longer than the longest file.
pub fn carried_streams_are_short()
    ensures { CarriedStreamsAreShort }
{}
