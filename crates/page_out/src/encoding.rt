// Units that are characters, as UTF-8 in a block of bytes.
ghost use Rattle.std.specs.Prelude.{◌≡◌, ◌+◌, ◌<◌, ◌≤◌, ◌++◌, ℕ, length, take, slice_index, IsTrue};
ghost use Rattle.std.specs.Prelude.{encode_utf8, encode_utf8_all};
ghost use Rattle.std.specs.Char.{IsScalar};
ghost use Rattle.std.specs.List.{All};

/// How many units are looked at together.
const PART_LEN: usize = 8;

/// The most bytes that a character takes.
const CHARACTER_LEN: usize = 4;

/// The first unit that is not ASCII.
const PAST_ASCII: u16 = 0x80;

/// How many characters at the front of a list a block has room for, and how many bytes they take. These are at its
/// front then.
pub(crate) fn encode_front(units: &[u16], block: &mut [u8]) -> (usize, usize)
    requires room { PART_LEN ≤ length block.old }
    requires characters { All IsScalar units.now }
    ensures some { 0 < length units.now → 0 < result.0 }
    ensures inside { result.0 ≤ length units.now }
    ensures room { result.1 ≤ length block.new }
    ensures bytes { take result.1 block.new ≡ encode_utf8_all (take result.0 units.now) }
{
    let mut count = 0;
    let mut len = 0;
    while count < units.len() {
        if block.len() - len < PART_LEN {
            return (count, len);
        }
        let (more, end) = encode_part(&units[count..], block, len);
        count += more;
        len = end;
    }
    (count, len)
}

/// Puts the bytes of a part of units behind the first bytes of a block: how many units these are, and where it ends.
fn encode_part(units: &[u16], block: &mut [u8], len: usize) -> (usize, usize)
    requires some { 0 < length units.now }
    requires room { len + PART_LEN ≤ length block.old }
    requires characters { All IsScalar units.now }
    ensures long { length block.new ≡ length block.old }
    ensures some { 0 < result.0 }
    ensures inside { result.0 ≤ length units.now }
    ensures room { result.1 ≤ length block.new }
    ensures bytes { take result.1 block.new ≡ take len block.old ++ encode_utf8_all (take result.0 units.now) }
{
    if units.len() >= PART_LEN && are_ascii(units) {
        put_ascii(units, block, len);
        return (PART_LEN, len + PART_LEN);
    }
    put_units(units, block, len)
}

/// Whether each unit of the first part is ASCII.
#[inline(always)]
fn are_ascii(units: &[u16]) -> bool
    requires { PART_LEN ≤ length units.now }
    ensures { IsTrue result → (k : ℕ) → k < PART_LEN → slice_index units.now k < 128 }
{
    let mut all = true;
    for k in 0..PART_LEN {
        all &= units[k] < PAST_ASCII;
    }
    all
}

/// Puts the units of a part as bytes behind the first bytes of a block.
#[inline(always)]
fn put_ascii(units: &[u16], block: &mut [u8], len: usize)
    requires room { len + PART_LEN ≤ length block.old }
    requires part { PART_LEN ≤ length units.now }
    requires ascii { (k : ℕ) → k < PART_LEN → slice_index units.now k < 128 }
    ensures long { length block.new ≡ length block.old }
    ensures bytes { take (len + PART_LEN) block.new ≡ take len block.old ++ take PART_LEN units.now }
{
    for k in 0..PART_LEN {
        block[len + k] = units[k] as u8;
    }
}

/// Puts the bytes of characters of any kind behind the first bytes of a block, one by one.
fn put_units(units: &[u16], block: &mut [u8], len: usize) -> (usize, usize)
    requires some { 0 < length units.now }
    requires room { len + PART_LEN ≤ length block.old }
    requires characters { All IsScalar units.now }
    ensures long { length block.new ≡ length block.old }
    ensures some { 0 < result.0 }
    ensures inside { result.0 ≤ length units.now }
    ensures room { result.1 ≤ length block.new }
    ensures bytes { take result.1 block.new ≡ take len block.old ++ encode_utf8_all (take result.0 units.now) }
{
    let most = units.len().min(PART_LEN);
    let mut count = 0;
    let mut end = len;
    while count < most {
        if block.len() - end < CHARACTER_LEN {
            return (count, end);
        }
        end = put_unit(block, end, units[count]);
        count += 1;
    }
    (count, end)
}

/// Puts the bytes of a character behind the first bytes of a block.
#[inline(always)]
fn put_unit(block: &mut [u8], len: usize, unit: u16) -> usize
    requires room { len + CHARACTER_LEN ≤ length block.old }
    requires character { IsScalar unit }
    ensures long { length block.new ≡ length block.old }
    ensures room { result ≤ length block.new }
    ensures bytes { take result block.new ≡ take len block.old ++ encode_utf8 unit }
{
    if unit < PAST_ASCII {
        block[len] = unit as u8;
        return len + 1;
    }
    let mut bytes = [0u8; CHARACTER_LEN];
    let character = char::from_u32(unit as u32).unwrap();
    let text = character.encode_utf8(&mut bytes).as_bytes();
    put_bytes(text, block, len);
    len + text.len()
}

/// Puts bytes behind the first bytes of a block.
#[inline(always)]
fn put_bytes(bytes: &[u8], block: &mut [u8], len: usize)
    requires { len + length bytes.now ≤ length block.old }
    ensures long { length block.new ≡ length block.old }
    ensures bytes { take (len + length bytes.now) block.new ≡ take len block.old ++ bytes.now }
{
    for k in 0..bytes.len() {
        block[len + k] = bytes[k];
    }
}
