// Laws over the definitions alone.
ghost use Rattle.doc_markdown.specs.Laws.{MarkdownPagesAreReadBack};

/// A page of a document is read as the characters, markup and tags that it was printed of.
pub fn markdown_pages_are_read_back()
    ensures { MarkdownPagesAreReadBack }
{}
