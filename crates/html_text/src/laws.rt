// Laws over the definitions alone.
ghost use Rattle.html_text.specs.Laws.{HtmlIsReadBack, TextsAreNoMarkup, TextsAreReadBack};

/// A page is read as the characters and tags that it was printed of.
pub fn html_is_read_back()
    ensures { HtmlIsReadBack }
{}

/// A text is read as its characters.
pub fn texts_are_read_back()
    ensures { TextsAreReadBack }
{}

/// What is printed for a text has no markup.
pub fn texts_are_no_markup()
    ensures { TextsAreNoMarkup }
{}
