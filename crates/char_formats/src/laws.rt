// Laws over the definitions alone.
ghost use Rattle.char_formats.specs.Laws.{CharFormatIsOne, CharFormatIsThere};

/// A character has one format at most.
pub fn char_format_is_one()
    ensures { CharFormatIsOne }
{}

/// A character has a format.
pub fn char_format_is_there()
    ensures { CharFormatIsThere }
{}
