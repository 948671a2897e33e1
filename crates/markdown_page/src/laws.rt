// Laws over the definitions alone.
ghost use Rattle.markdown_page.specs.Laws.{LinksAreAllowed, PagesAreReadBack};

/// A page is read as the characters, markup and tags that it was printed of.
pub fn pages_are_read_back()
    ensures { PagesAreReadBack }
{}

/// A link of a page leads to a URL of one of five schemes.
pub fn links_are_allowed()
    ensures { LinksAreAllowed }
{}
