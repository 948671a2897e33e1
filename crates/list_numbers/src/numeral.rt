// A number as a text.
ghost use Rattle.std.specs.Prelude.{◌≡◌, ◌++◌, OnOk, IfOk};
ghost use Rattle.std.specs.String.{string_bytes};
ghost use Rattle.list_numbers.specs.NumberKind.{kind_of_nfc};
ghost use Rattle.list_numbers.specs.NumberText.{number_text, numeral_in, within};

use crate::number_kind::{LetterCase, NumberKind};
use crate::roman::{push_letters, push_roman};
use doc_bits::{Memory, Text};
use std::alloc::Global;

/// The greatest number that is written in Roman letters.
const MAX_ROMAN: u16 = 3999;

/// The greatest number that is written by letters.
const MAX_LETTERS: u16 = 780;

/// The text of a number, by the number of its kind ([MS-DOC] MSONFC): 1 and 2 upper and lower Roman, 3 and 4 upper and
/// lower letters. All other kinds, and what these have no text for, are decimal.
pub fn number_text(alloc: Global, kind: u8, value: i64) -> Result<Text, Memory>
    ensures { IfOk result (λ text. text ≡ number_text kind value) }
{
    let mut text = String::new(alloc);
    push_number(alloc, &mut text, NumberKind::of(kind), value)?;
    Ok(Text::from_string(text))
}

/// Appends the text of a number.
pub(crate) fn push_number(
    alloc: Global,
    text: &mut String,
    kind: NumberKind,
    value: i64,
) -> Result<(), Memory>
    ensures { OnOk result (string_bytes text.new ≡ string_bytes text.old ++ numeral_in kind value) }
{
    match kind {
        NumberKind::Roman(case) => push_roman_or_decimal(alloc, text, case, value),
        NumberKind::Letters(case) => push_letters_or_decimal(alloc, text, case, value),
        NumberKind::Decimal => push_decimal(alloc, text, value),
        NumberKind::Bullet => push_decimal(alloc, text, value),
        NumberKind::Nothing => push_decimal(alloc, text, value),
    }
}

/// Appends a number in Roman letters where it has them.
fn push_roman_or_decimal(
    alloc: Global,
    text: &mut String,
    case: LetterCase,
    value: i64,
) -> Result<(), Memory>
    ensures { OnOk result
        (string_bytes text.new ≡ string_bytes text.old ++ numeral_in (NumberKind.Roman case) value) }
{
    match within(value, MAX_ROMAN) {
        Some(number) => push_roman(text, case, number),
        None => push_decimal(alloc, text, value),
    }
}

/// Appends a number by letters where it has them.
fn push_letters_or_decimal(
    alloc: Global,
    text: &mut String,
    case: LetterCase,
    value: i64,
) -> Result<(), Memory>
    ensures { OnOk result
        (string_bytes text.new ≡ string_bytes text.old ++ numeral_in (NumberKind.Letters case) value) }
{
    match within(value, MAX_LETTERS) {
        Some(number) => push_letters(text, case, number),
        None => push_decimal(alloc, text, value),
    }
}

/// Appends a number in decimal digits, with a minus where it is negative.
fn push_decimal(alloc: Global, text: &mut String, value: i64) -> Result<(), Memory>
    ensures { OnOk result
        (string_bytes text.new ≡ string_bytes text.old ++ numeral_in NumberKind.Decimal value) }
{
    let digits = format!(in alloc; "{value}")?;
    text.push_str(digits.as_str())?;
    Ok(())
}

/// The value where it is from 1 to `most`.
fn within(value: i64, most: u16) -> Option<u16>
    ensures { result ≡ within most value }
{
    if value >= 1 && value <= most as i64 {
        Some(value as u16)
    } else {
        None
    }
}
