// Laws over the definitions alone.
ghost use Rattle.doc_view.specs.Laws.{EachItemIsShownOnce, NoControls, PageIsOne, PagesAreShort};

/// A document has one page of these options.
pub fn pages_are_one()
    ensures { PageIsOne }
{}

/// No character of a page is a control but tabs, line feeds and form feeds.
pub fn no_controls()
    ensures { NoControls }
{}

/// What is shown of the items of a text is shown once, in their order.
pub fn each_item_is_shown_once()
    ensures { EachItemIsShownOnce }
{}

/// A page of text has at most 468 bytes for each item of its document, and four.
pub fn pages_are_short()
    ensures { PagesAreShort }
{}
