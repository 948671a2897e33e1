// Laws over the definitions alone.
ghost use Rattle.markdown_text.specs.Laws.{MarkdownIsReadBack, TextsAreReadBack};

/// A page is read as the characters and the markup that it was printed of.
pub fn markdown_is_read_back()
    ensures { MarkdownIsReadBack }
{}

/// A text is read as its characters.
pub fn texts_are_read_back()
    ensures { TextsAreReadBack }
{}
