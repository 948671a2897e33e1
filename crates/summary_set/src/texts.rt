// [MS-OLEPS] TypedPropertyValue with a CodePageString.
ghost use Rattle.std.specs.Prelude.{◌≡◌, ◌==◌, option_map};
ghost use Rattle.std.specs.List.{position_or_len};
ghost use Rattle.summary_set.specs.Texts.{text_of_value, page_of_value};

use doc_bits::{get16, get32};

/// The type of a text in bytes of the code page.
pub(crate) const VT_LPSTR: u16 = 0x1E;

const TYPE: usize = 0;

const COUNT: usize = 4;

const TEXT: usize = 8;

/// The text of a value, up to its first zero. A value of another form is no text.
pub(crate) fn text(value: &[u8]) -> Option<&[u8]>
    ensures { option_map (λ text. text.now) result ≡ text_of_value value.now }
{
    if value.len() < TEXT {
        return None;
    }
    if get16(value, TYPE) != VT_LPSTR {
        return None;
    }
    let count = get32(value, COUNT) as usize;
    if value.len() - TEXT < count {
        return None;
    }
    let bytes = &value[TEXT..TEXT + count];
    let end = zero_place(bytes);
    Some(&bytes[..end])
}

/// The type of a number of 16 bits.
const VT_I2: u16 = 2;

/// The code page of a value. A value of another form is none.
pub(crate) fn page(value: &[u8]) -> Option<u16>
    ensures { result ≡ page_of_value value.now }
{
    if value.len() < COUNT + 2 {
        return None;
    }
    if get16(value, TYPE) != VT_I2 {
        return None;
    }
    Some(get16(value, COUNT))
}

/// The place of the first zero, or how many bytes there are.
fn zero_place(bytes: &[u8]) -> usize
    ensures { result ≡ position_or_len (λ byte. byte == 0) bytes.now }
{
    for i in 0..bytes.len() {
        if bytes[i] == 0 {
            return i;
        }
    }
    bytes.len()
}
