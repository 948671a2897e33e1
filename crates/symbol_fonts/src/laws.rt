// Laws over the definitions alone.
ghost use Rattle.symbol_fonts.specs.Laws.{SignsAreCharacters, UnitsAreShown};

/// What a sign is shown as is a character of one unit, and no control.
pub fn signs_are_characters()
    ensures { SignsAreCharacters }
{}

/// A unit in a symbol font is shown as its character, or as itself where it has none.
pub fn units_are_shown()
    ensures { UnitsAreShown }
{}
