// Roman numbers by their four decimal digits, and numbers by letters.
ghost use Rattle.std.specs.Prelude.{◌≡◌, ◌<◌, ◌≤◌, ◌++◌, ◌∷◌, [], ◌%◌, OnOk, length, replicate};
ghost use Rattle.std.specs.List.{All};
ghost use Rattle.std.specs.String.{string_bytes};
ghost use Rattle.list_numbers.specs.NumberText.{roman, letters, roman_digit, roman_steps, in_case};

use crate::number_kind::LetterCase;
use doc_bits::Memory;

/// Appends a Roman number.
#[tactic(auto, unfolding(crate::specs::NumberText::roman))]
pub(crate) fn push_roman(text: &mut String, case: LetterCase, number: u16) -> Result<(), Memory>
    requires { number ≤ 3999 }
    ensures { OnOk result (string_bytes text.new ≡ string_bytes text.old ++ roman case number) }
{
    push_times(text, in_case(b'M', case), number / 1000)?;
    push_digit(text, [b'C', b'D', b'M'], case, number / 100 % 10)?;
    push_digit(text, [b'X', b'L', b'C'], case, number / 10 % 10)?;
    push_digit(text, [b'I', b'V', b'X'], case, number % 10)
}

/// Appends a number by letters: A to Z, then AA to ZZ, and so on.
#[tactic(auto, unfolding(crate::specs::NumberText::letters))]
pub(crate) fn push_letters(text: &mut String, case: LetterCase, number: u16) -> Result<(), Memory>
    requires { 1 ≤ number }
    ensures { OnOk result (string_bytes text.new ≡ string_bytes text.old ++ letters case number) }
{
    let before = number - 1;
    let letter = in_case(b'A' + (before % 26) as u8, case);
    push_times(text, letter, before / 26 + 1)
}

/// Appends a digit of a Roman number, by the letters of one, five and ten of its place.
fn push_digit(text: &mut String, place: [u8; 3], case: LetterCase, digit: u16) -> Result<(), Memory>
    requires digit { digit < 10 }
    requires ascii { All (λ letter. letter < 91) place }
    ensures { OnOk result (string_bytes text.new ≡ string_bytes text.old ++ roman_digit place case digit) }
{
    for step in steps(digit) {
        push_letter(text, in_case(place[*step], case))?;
    }
    Ok(())
}

/// The letters of a digit: 0 for that of one, 1 for that of five, 2 for that of ten.
fn steps(digit: u16) -> &'static [usize]
    requires { digit < 10 }
    ensures steps { result.now ≡ roman_steps digit }
    ensures letters { All (λ step. step < 3) result.now }
{
    match digit {
        0 => &[],
        1 => &[0],
        2 => &[0, 0],
        3 => &[0, 0, 0],
        4 => &[0, 1],
        5 => &[1],
        6 => &[1, 0],
        7 => &[1, 0, 0],
        8 => &[1, 0, 0, 0],
        _ => &[0, 2],
    }
}

/// The capital letter, or the small one.
fn in_case(letter: u8, case: LetterCase) -> u8
    requires { letter < 91 }
    ensures letter { result ≡ in_case case letter }
    ensures ascii { result < 128 }
{
    match case {
        LetterCase::Upper => letter,
        LetterCase::Lower => letter + 32,
    }
}

/// Appends a letter so many times.
fn push_times(text: &mut String, letter: u8, times: u16) -> Result<(), Memory>
    requires { letter < 128 }
    ensures { OnOk result (string_bytes text.new ≡ string_bytes text.old ++ replicate times letter) }
{
    for _time in 0..times {
        push_letter(text, letter)?;
    }
    Ok(())
}

/// Appends a letter.
fn push_letter(text: &mut String, letter: u8) -> Result<(), Memory>
    requires { letter < 128 }
    ensures { OnOk result (string_bytes text.new ≡ string_bytes text.old ++ letter ∷ []) }
{
    text.push(letter as char)?;
    Ok(())
}
