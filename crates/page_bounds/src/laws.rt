// Laws over the definitions alone.
ghost use Rattle.page_bounds.specs.Laws.{HtmlPagesAreShort, MarkdownPagesAreShort};

/// A page in HTML has no more bytes than a number for each item of its document and for each bookmark, the addresses of
/// the links that it opens, and a constant; each image may have as many bytes more as its address.
pub fn html_pages_are_short()
    ensures { HtmlPagesAreShort }
{}

/// A page in Markdown has no more bytes than a number for each item and each bookmark of its document, and those of the
/// destinations of the links that it opens.
pub fn markdown_pages_are_short()
    ensures { MarkdownPagesAreShort }
{}
