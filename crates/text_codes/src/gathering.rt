// The text of the units at the front of a list, as bytes in a block.
ghost use Rattle.std.specs.Prelude.{◌≡◌, ◌+◌, ◌%◌, ◌<◌, ◌≤◌, ◌++◌, ◌⊎◌, ◌∷◌, []};
ghost use Rattle.std.specs.Prelude.{ℕ, length, take, slice_index, IsTrue, encode_utf8, true, false};
ghost use Rattle.text_codes.specs.Gathered.{IsShownText, HasTextBehind};
ghost use Rattle.text_codes.specs.Shown.{shown_alone, is_escaped, escape, IsUnescapedAscii};

use crate::digits::hex_digit;
use crate::paragraph::{PARAGRAPH_MARK, PART_LEN};
use crate::showing::escapes;

/// The bytes that a block has room for.
pub(crate) const BLOCK_LEN: usize = 512;

/// The most bytes that a unit takes: those of its number.
const UNIT_LEN: usize = 6;

/// The first unit of two bytes, and the first one of three.
const TWO_BYTES: u16 = 0x80;

const THREE_BYTES: u16 = 0x800;

/// How many units at the front are in no pair whatever follows, as many as the block has room for, and how many bytes
/// their text takes. It is at the front of the block. With `lines` a paragraph mark is shown as a line feed.
pub(crate) fn gather(units: &[u16], lines: bool, block: &mut [u8]) -> (usize, usize)
    ensures inside { result.0 ≤ length units.now }
    ensures room { result.1 ≤ length block.new }
    ensures text { IsShownText lines (take result.0 units.now) (take result.1 block.new) }
{
    let mut count = 0;
    let mut len = 0;
    while count < units.len() && block.len() - len >= PART_LEN {
        let (more, end) = gather_part(&units[count..], lines, block, len);
        count += more;
        len = end;
        if more == 0 {
            break;
        }
    }
    (count, len)
}

/// Puts the text of a part of units behind the first bytes of a block: how many units these are, and where it ends.
fn gather_part(units: &[u16], lines: bool, block: &mut [u8], len: usize) -> (usize, usize)
    requires { len + PART_LEN ≤ length block.old }
    ensures long { length block.new ≡ length block.old }
    ensures inside { result.0 ≤ length units.now }
    ensures text { HasTextBehind lines (take result.0 units.now) (take len block.old) block.new result.1 }
{
    if units.len() >= PART_LEN && are_plain(units) {
        put_plain(units, block, len);
        return (PART_LEN, len + PART_LEN);
    }
    gather_units(units, lines, block, len)
}

/// Whether each unit of the first part is printable ASCII and no reverse solidus.
#[inline(always)]
fn are_plain(units: &[u16]) -> bool
    requires { PART_LEN ≤ length units.now }
    ensures { IsTrue result → (k : ℕ) → k < PART_LEN → IsUnescapedAscii (slice_index units.now k) }
{
    let mut all = true;
    for k in 0..PART_LEN {
        all &= is_plain(units[k]);
    }
    all
}

/// Whether a unit is printable ASCII and no reverse solidus.
#[inline(always)]
fn is_plain(unit: u16) -> bool
    ensures { IsTrue result → IsUnescapedAscii unit }
{
    unit >= 0x20 && unit < TWO_BYTES && unit != 0x5C
}

/// Puts the units of a part as bytes behind the first bytes of a block.
#[inline(always)]
fn put_plain(units: &[u16], block: &mut [u8], len: usize)
    requires room { len + PART_LEN ≤ length block.old }
    requires part { PART_LEN ≤ length units.now }
    requires plain { (k : ℕ) → k < PART_LEN → IsUnescapedAscii (slice_index units.now k) }
    ensures long { length block.new ≡ length block.old }
    ensures bytes { take (len + PART_LEN) block.new ≡ take len block.old ++ take PART_LEN units.now }
{
    for k in 0..PART_LEN {
        block[len + k] = units[k] as u8;
    }
}

/// Puts the text of units of any kind behind the first bytes of a block, one by one, up to a surrogate.
fn gather_units(units: &[u16], lines: bool, block: &mut [u8], len: usize) -> (usize, usize)
    requires { len ≤ length block.old }
    ensures long { length block.new ≡ length block.old }
    ensures inside { result.0 ≤ length units.now }
    ensures text { HasTextBehind lines (take result.0 units.now) (take len block.old) block.new result.1 }
{
    let most = units.len().min(PART_LEN);
    let mut count = 0;
    let mut end = len;
    while count < most && block.len() - end >= UNIT_LEN {
        let unit = units[count];
        if is_surrogate(unit) {
            break;
        }
        end = put(block, end, lines, unit);
        count += 1;
    }
    (count, end)
}

/// Whether a unit may be half of a pair.
#[inline(always)]
fn is_surrogate(unit: u16) -> bool
    ensures { result ≡ false → (unit < 0xD800) ⊎ (0xE000 ≤ unit) }
{
    unit >= 0xD800 && unit < 0xE000
}

/// Puts the text of a unit that is no surrogate behind the first bytes of a block. It gives their number then.
#[inline(always)]
fn put(block: &mut [u8], len: usize, lines: bool, unit: u16) -> usize
    requires room { len + UNIT_LEN ≤ length block.old }
    requires alone { (unit < 0xD800) ⊎ (0xE000 ≤ unit) }
    ensures long { length block.new ≡ length block.old }
    ensures inside { result ≤ length block.new }
    ensures bytes { take result block.new ≡ take len block.old ++ shown_alone lines unit }
{
    if escapes(unit) {
        return put_escaped(block, len, lines, unit);
    }
    put_character(block, len, unit)
}

/// Puts a line feed for a paragraph mark where paragraphs are lines, and the number of other units.
#[inline(always)]
fn put_escaped(block: &mut [u8], len: usize, lines: bool, unit: u16) -> usize
    requires room { len + UNIT_LEN ≤ length block.old }
    requires escaped { is_escaped unit ≡ true }
    ensures long { length block.new ≡ length block.old }
    ensures inside { result ≤ length block.new }
    ensures bytes { take result block.new ≡ take len block.old ++ shown_alone lines unit }
{
    if lines && unit == PARAGRAPH_MARK {
        block[len] = b'\n';
        return len + 1;
    }
    put_number(block, len, unit)
}

/// Puts a reverse solidus, the letter u and the four digits of a unit.
fn put_number(block: &mut [u8], len: usize, unit: u16) -> usize
    requires { len + UNIT_LEN ≤ length block.old }
    ensures long { length block.new ≡ length block.old }
    ensures inside { result ≤ length block.new }
    ensures bytes { take result block.new ≡ take len block.old ++ escape unit }
{
    put_three(block, len, b'\\', b'u', hex_digit((unit / 0x1000) as u8));
    let second = hex_digit((unit / 0x100 % 16) as u8);
    let third = hex_digit((unit / 0x10 % 16) as u8);
    put_three(block, len + 3, second, third, hex_digit((unit % 16) as u8));
    len + UNIT_LEN
}

/// Puts the bytes of a unit that is a character.
#[inline(always)]
fn put_character(block: &mut [u8], len: usize, unit: u16) -> usize
    requires { len + 3 ≤ length block.old }
    ensures long { length block.new ≡ length block.old }
    ensures inside { result ≤ length block.new }
    ensures bytes { take result block.new ≡ take len block.old ++ encode_utf8 unit }
{
    if unit < TWO_BYTES {
        block[len] = unit as u8;
        return len + 1;
    }
    if unit < THREE_BYTES {
        block[len] = (0xC0 + unit / 0x40) as u8;
        block[len + 1] = continuation(unit);
        return len + 2;
    }
    let first = (0xE0 + unit / 0x1000) as u8;
    put_three(
        block,
        len,
        first,
        continuation(unit / 0x40),
        continuation(unit),
    );
    len + 3
}

/// Puts three bytes behind the first ones of a block.
#[inline(always)]
fn put_three(block: &mut [u8], len: usize, first: u8, second: u8, third: u8)
    requires { len + 3 ≤ length block.old }
    ensures long { length block.new ≡ length block.old }
    ensures bytes { take (len + 3) block.new ≡ take len block.old ++ first ∷ second ∷ third ∷ [] }
{
    block[len] = first;
    block[len + 1] = second;
    block[len + 2] = third;
}

/// A byte behind the first one of a character: the low six bits.
#[inline(always)]
fn continuation(bits: u16) -> u8
    ensures { result ≡ 128 + bits % 64 }
{
    (0x80 + bits % 0x40) as u8
}
