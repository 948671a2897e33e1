// The text of properties: for each code ascending a space, four digits, an equals sign, and the bytes of its value.
ghost use Rattle.std.specs.Prelude.{◌≡◌, ◌++◌, [], ◌∷◌, OnOk};
ghost use Rattle.doc_show.specs.Settings.{property_text, properties_text};

use doc_bits::{Memory, Text};
use prop_map::PropMap;
use std::str;
use text_codes::{hex_digit, push_bytes, push_word};

/// Appends the text of properties. After want of memory a part of it may be there, as with each call here.
pub(crate) fn push_properties(text: &mut Text, map: &PropMap) -> Result<(), Memory>
    ensures { OnOk result (text.new ≡ text.old ++ properties_text map.now) }
{
    let mut left = map.entries();
    while let Some((code, value)) = left.next() {
        push_property(text, code.0, value)?;
    }
    Ok(())
}

/// Appends the text of a code and its value. What most properties have, a value of one byte, is put at once.
fn push_property(text: &mut Text, code: u16, value: &[u8]) -> Result<(), Memory>
    ensures { OnOk result (text.new ≡ text.old ++ property_text (code, value.now)) }
{
    match value {
        [byte] => push_small(text, code, *byte),
        _ => push_large(text, code, value),
    }
}

/// Appends the text of a code and its value of one byte.
fn push_small(text: &mut Text, code: u16, byte: u8) -> Result<(), Memory>
    ensures { OnOk result (text.new ≡ text.old ++ property_text (code, byte ∷ [])) }
{
    let high = (code / 256) as u8;
    let low = (code % 256) as u8;
    let shown = [
        b' ',
        hex_digit(high / 16),
        hex_digit(high % 16),
        hex_digit(low / 16),
        hex_digit(low % 16),
        b'=',
        hex_digit(byte / 16),
        hex_digit(byte % 16),
    ];
    text.push_all(str::from_utf8(&shown).unwrap())
}

/// Appends the text of a code and its value of any length.
fn push_large(text: &mut Text, code: u16, value: &[u8]) -> Result<(), Memory>
    ensures { OnOk result (text.new ≡ text.old ++ property_text (code, value.now)) }
{
    text.push_all(" ")?;
    push_word(text, code)?;
    text.push_all("=")?;
    push_bytes(text, value)
}
