// Bytes and words as hexadecimal digits.
ghost use Rattle.std.specs.Prelude.{◌≡◌, ◌<◌, ◌≤◌, ◌*◌, ◌++◌, OnOk, length, take};
ghost use Rattle.std.specs.Str.{IsUtf8};
ghost use Rattle.text_codes.specs.Shown.{hex_digit};
ghost use Rattle.text_codes.specs.Digits.{byte_text, word_text, bytes_text};

use doc_bits::{Memory, Text};
use std::str;

/// How many bytes have their digits put at once.
const BYTES_A_BLOCK: usize = 64;

/// The lower-case hexadecimal digit of a number below 16.
pub fn hex_digit(number: u8) -> u8
    requires { number < 16 }
    ensures value { result ≡ hex_digit number }
    ensures ascii { result < 128 }
{
    if number < 10 {
        b'0' + number
    } else {
        b'a' + (number - 10)
    }
}

/// Appends the two lower-case hexadecimal digits of a byte.
pub fn push_byte(text: &mut Text, byte: u8) -> Result<(), Memory>
    ensures { OnOk result (text.new ≡ text.old ++ byte_text byte) }
{
    let digits = [hex_digit(byte / 16), hex_digit(byte % 16)];
    text.push_all(str::from_utf8(&digits).unwrap())
}

/// Appends the four lower-case hexadecimal digits of a word. After want of memory a part of them may be there.
pub fn push_word(text: &mut Text, word: u16) -> Result<(), Memory>
    ensures { OnOk result (text.new ≡ text.old ++ word_text word) }
{
    push_byte(text, (word / 256) as u8)?;
    push_byte(text, (word % 256) as u8)
}

/// Appends the digits of each byte. After want of memory a part of them may be there.
pub fn push_bytes(text: &mut Text, bytes: &[u8]) -> Result<(), Memory>
    ensures { OnOk result (text.new ≡ text.old ++ bytes_text bytes.now) }
{
    let mut done = 0;
    while done < bytes.len() {
        let count = (bytes.len() - done).min(BYTES_A_BLOCK);
        let mut block = [0u8; 2 * BYTES_A_BLOCK];
        put_digits(&bytes[done..done + count], &mut block);
        text.push_all(str::from_utf8(&block[..2 * count]).unwrap())?;
        done += count;
    }
    Ok(())
}

/// Puts the digits of each byte at the front of a block.
fn put_digits(bytes: &[u8], block: &mut [u8])
    requires { 2 * length bytes.now ≤ length block.old }
    ensures long { length block.new ≡ length block.old }
    ensures digits { take (2 * length bytes.now) block.new ≡ bytes_text bytes.now }
    ensures valid { IsUtf8 (bytes_text bytes.now) }
{
    for k in 0..bytes.len() {
        block[2 * k] = hex_digit(bytes[k] / 16);
        block[2 * k + 1] = hex_digit(bytes[k] % 16);
    }
}
