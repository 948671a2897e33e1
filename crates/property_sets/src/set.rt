// The property sets of a stream, and the pairs of a set.
ghost use Rattle.std.specs.Prelude.{◌≡◌, ◌≤◌, ◌<◌, ◌+◌, ◌*◌, ◌↔◌, ℕ, List, length, IsTrue, MatchOption};
ghost use Rattle.property_sets.specs.Sets.{IsSet, IsSetInStream, NamesSet, pair_at, pair_count};

use doc_bits::{get16, get32};

/// [MS-OLEPS] PropertySetStream: where ByteOrder, NumPropertySets and the first Offset are.
const BYTE_ORDER: usize = 0;

pub const SET_COUNT: usize = 24;

const OFFSET0: usize = 44;

const LITTLE_ENDIAN: u16 = 0xFFFE;

/// The bytes of the head of a stream with one set, and those of each FMTID and Offset.
const HEAD_LEN: usize = 48;

const ENTRY_LEN: usize = 20;

/// [MS-OLEPS] PropertySet: where NumProperties is, and the bytes of Size and NumProperties, or of a pair.
const PAIR_COUNT: usize = 4;

const NUMBERS_LEN: usize = 8;

/// [MS-OLEPS] PropertyIdentifierAndOffset: the id of a property, and where its value begins, in bytes from the
/// beginning of the set.
#[derive(Clone, Copy)]
pub struct PropertyPair {
    pub id: u32,
    pub offset: u32,
}

/// The bytes of a property set of a stream, where it is in form. The first set is 0.
pub fn property_set(stream: &[u8], k: usize) -> Option<&[u8]>
    requires { k < 2 }
    ensures { MatchOption result
        ((set : List ℕ) → ¬ IsSetInStream stream.now k set)
        (λ set. IsSetInStream stream.now k set.now) }
{
    if !names_set(stream, k) {
        return None;
    }
    let begin = get32(stream, OFFSET0 + ENTRY_LEN * k) as usize;
    let end = begin + get32(stream, begin) as usize;
    if end > stream.len() {
        return None;
    }
    let set = &stream[begin..end];
    if !is_set(set) {
        return None;
    }
    Some(set)
}

/// Whether the head of a stream names a set whose first numbers are there.
fn names_set(stream: &[u8], k: usize) -> bool
    requires { k < 2 }
    ensures { IsTrue result ↔ NamesSet stream.now k }
{
    HEAD_LEN + ENTRY_LEN * k <= stream.len()
        && get16(stream, BYTE_ORDER) == LITTLE_ENDIAN
        && k < get32(stream, SET_COUNT) as usize
        && get32(stream, OFFSET0 + ENTRY_LEN * k) as usize + NUMBERS_LEN <= stream.len()
}

/// Whether a set has all of its pairs.
fn is_set(set: &[u8]) -> bool
    ensures { IsTrue result ↔ IsSet set.now }
{
    NUMBERS_LEN <= set.len()
        && NUMBERS_LEN + NUMBERS_LEN * get32(set, PAIR_COUNT) as usize <= set.len()
}

/// How many pairs a set has.
pub(crate) fn pair_count(set: &[u8]) -> u32
    requires { IsSet set.now }
    ensures { result ≡ pair_count set.now }
{
    get32(set, PAIR_COUNT)
}

/// A pair of a set.
pub(crate) fn pair_at(set: &[u8], i: u32) -> PropertyPair
    requires { 16 + 8 * i ≤ length set.now }
    ensures { result ≡ pair_at set.now i }
{
    let at = NUMBERS_LEN + NUMBERS_LEN * i as usize;
    PropertyPair {
        id: get32(set, at),
        offset: get32(set, at + 4),
    }
}
