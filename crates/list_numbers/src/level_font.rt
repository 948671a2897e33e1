// The font of a level, by its properties of characters.
ghost use Rattle.std.specs.Prelude.{◌≡◌, ◌+◌, ◌^◌, ◌<◌, ◌≤◌, length, slice_index};
ghost use Rattle.doc_bits.specs.Number.{u16_at};
ghost use Rattle.sprm_table.specs.Operands.{size_of};
ghost use Rattle.list_numbers.specs.LevelFonts.{font_by, font_in, operand_len};

use doc_bits::get16;
use sprm_table::{Code, OperandSize, operand_size};

/// [MS-DOC] sprmCRgFtc2.
const SPRM_C_RG_FTC2: u16 = 0x4A51;

/// The last font that a list of properties names. Behind a property that is cut off there is none.
pub(crate) fn font_in(list: &[u8]) -> Option<u16>
    ensures { result ≡ font_in list.now }
{
    let mut at = 0;
    let mut font = None;
    for _count in 0..list.len() {
        if list.len() < at + 2 {
            return font;
        }
        let len = len_at(list, at);
        let rest = list.len() - (at + 2);
        if rest < len {
            return font;
        }
        font = font_by(list, at, font);
        at = at + 2 + len;
    }
    font
}

/// How many bytes the operand of the property at a place has, its count included.
fn len_at(list: &[u8], at: usize) -> usize
    requires { at + 2 ≤ length list.now }
    ensures { result ≡ operand_len (size_of (u16_at list.now at)) list.now (at + 2) }
{
    operand_len(operand_size(Code(get16(list, at))), list, at + 2)
}

/// How many bytes the operand at a place has, its count included.
fn operand_len(size: OperandSize, list: &[u8], at: usize) -> usize
    requires { at ≤ length list.now }
    ensures { result ≡ operand_len size list.now at }
{
    match size {
        OperandSize::Fixed(size) => size,
        OperandSize::CountedByByte => 1 + byte_at(list, at) as usize,
        OperandSize::CountedByWord => 1 + word_at(list, at) as usize,
    }
}

/// The font behind the property at a place.
fn font_by(list: &[u8], at: usize, font: Option<u16>) -> Option<u16>
    requires { at + 2 ≤ length list.now }
    ensures { result ≡ font_by list.now at font }
{
    if get16(list, at) == SPRM_C_RG_FTC2 {
        Some(word_at(list, at + 2))
    } else {
        font
    }
}

/// The 16-bit number at a place; bytes that are not there count as 0.
fn word_at(list: &[u8], at: usize) -> u16
    requires { at ≤ length list.now }
    ensures { result ≡ u16_at list.now at }
{
    byte_at(list, at) as u16 + byte_at(list, at + 1) as u16 * 256
}

/// The byte at a place, or 0 where none is.
fn byte_at(list: &[u8], at: usize) -> u8
    ensures { result ≡ slice_index list.now at }
{
    if at < list.len() { list[at] } else { 0 }
}
