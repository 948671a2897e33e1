// Laws over the definitions alone.
ghost use Rattle.docview_run.specs.Laws.{FilesAreShown, ViewIsOne, ViewedDocumentIsOne};
ghost use Rattle.docview_run.specs.Safe.{PrintedPagesAreSafe};

/// A file has one document that is shown.
pub fn viewed_document_is_one()
    ensures { ViewedDocumentIsOne }
{}

/// Words and known files have one outcome, unless the shelf fails.
pub fn view_is_one()
    ensures { ViewIsOne }
{}

/// A file that breaks no rule, or, but for a strict view, none of those that are left, is shown.
pub fn files_are_shown()
    ensures { FilesAreShown }
{}

/// Each page that is printed is safe: no control in text, and in HTML and Markdown no markup but its own.
pub fn printed_pages_are_safe()
    ensures { PrintedPagesAreSafe }
{}
