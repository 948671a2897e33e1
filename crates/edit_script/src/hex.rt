// Lower-case hexadecimal, two digits a byte.
ghost use Rattle.std.specs.Prelude.{◌≡◌, ◌<◌, ◌∷◌, [], ◌++◌, IfSome, OnOk};
ghost use Rattle.edit_script.specs.Json.{GivesReading};
ghost use Rattle.edit_script.specs.Hex.{digit_of, byte_of_digits, bytes_of_digits, code_of_digits};

use crate::ShapeError;
use doc_bits::{Bytes, Memory};
use std::alloc::Global;

/// The number of a digit.
fn digit(character: u8) -> Option<u8>
    ensures number { result ≡ digit_of character }
    ensures small { IfSome result (λ number. number < 16) }
{
    if character >= b'0' && character <= b'9' {
        return Some(character - b'0');
    }
    if character >= b'a' && character <= b'f' {
        return Some(character - b'a' + 10);
    }
    None
}

/// The byte of two digits.
fn byte_of(high: u8, low: u8) -> Option<u8>
    ensures { result ≡ byte_of_digits high low }
{
    let upper = digit(high)?;
    let lower = digit(low)?;
    Some(16 * upper + lower)
}

/// The code of four digits.
pub(crate) fn code_in(digits: &[u8]) -> Option<u16>
    ensures { result ≡ code_of_digits digits.now }
{
    match digits {
        [a, b, c, d] => {
            let high = byte_of(*a, *b)?;
            let low = byte_of(*c, *d)?;
            Some(256 * high as u16 + low as u16)
        }
        _ => None,
    }
}

/// The bytes of a text of digits.
pub(crate) fn bytes_from_digits(alloc: Global, digits: &[u8]) -> Result<Bytes, ShapeError>
    ensures { GivesReading result (bytes_of_digits digits.now) }
{
    let mut bytes = Bytes::new(alloc);
    let mut at = 0;
    while digits.len() - at > 1 {
        match byte_of(digits[at], digits[at + 1]) {
            None => return Err(ShapeError::Shape),
            Some(byte) => add(&mut bytes, byte)?,
        }
        at += 2;
    }
    if at < digits.len() {
        return Err(ShapeError::Shape);
    }
    Ok(bytes)
}

/// Puts a byte last.
fn add(bytes: &mut Bytes, byte: u8) -> Result<(), Memory>
    ensures { OnOk result (bytes.new ≡ bytes.old ++ byte ∷ []) }
{
    bytes.push_all(&[byte])
}
