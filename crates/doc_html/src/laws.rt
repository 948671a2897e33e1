// Laws over the definitions alone.
ghost use Rattle.doc_html.specs.Laws.{FormPagesAreOne, HtmlPagesAreReadBack, HtmlPagesAreSafe};

/// A document has one page of a form and of these options.
pub fn form_pages_are_one()
    ensures { FormPagesAreOne }
{}

/// Each page in HTML is read as the tokens that it was printed of.
pub fn html_pages_are_read_back()
    ensures { HtmlPagesAreReadBack }
{}

/// Of each page in HTML characters are read, and tags of a closed list, which nest, with links to allowed URLs alone.
pub fn html_pages_are_safe()
    ensures { HtmlPagesAreSafe }
{}
