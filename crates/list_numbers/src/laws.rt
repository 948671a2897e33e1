// Laws over the definitions alone.
ghost use Rattle.list_numbers.specs.Laws.{RomanNumeralsAreReadBack, NumbersAreOne, OutlineLinesAreOne};
ghost use Rattle.list_numbers.specs.Laws.{ParagraphValuesAreOne, NumbersExist, OutlineLinesExist};
ghost use Rattle.list_numbers.specs.Laws.{ParagraphValuesExist};

/// A Roman number is what its letters say: the sum of their values, a letter before a greater one taken off.
pub fn roman_numerals_are_read_back()
    ensures { RomanNumeralsAreReadBack }
{}

/// The main paragraphs of a document have one list of numbers.
pub fn numbers_are_one()
    ensures { NumbersAreOne }
{}

/// A document has one text of outline lines.
pub fn outline_lines_are_one()
    ensures { OutlineLinesAreOne }
{}

/// A document has one list of values of its paragraphs.
pub fn paragraph_values_are_one()
    ensures { ParagraphValuesAreOne }
{}

/// The main paragraphs of a sound document have numbers.
pub fn numbers_exist()
    ensures { NumbersExist }
{}

/// A sound document has a text of outline lines.
pub fn outline_lines_exist()
    ensures { OutlineLinesExist }
{}

/// The main paragraphs of a sound document have values.
pub fn paragraph_values_exist()
    ensures { ParagraphValuesExist }
{}
