// [MS-OLEPS] TypedPropertyValue: a type, two bytes of padding, and the data of the type.
ghost use Rattle.std.specs.Prelude.{◌≡◌, ◌≤◌, ◌+◌, ◌^◌, None, Some, length, MatchOption};
ghost use Rattle.property_sets.specs.Values.{counted_width, counts_bytes, data_len, fixed_value_len, head_len};
ghost use Rattle.property_sets.specs.Values.{has_one, has_two, has_four, has_eight, typed_value, value_at};

use doc_bits::{get16, get32};

/// Type and padding.
const TYPE_LEN: usize = 4;

/// The data of a value, and its type.
#[derive(Clone, Copy)]
pub(crate) struct TypedData<'a> {
    pub(crate) kind: u16,
    pub(crate) bytes: &'a [u8],
}

/// The value at an offset, where the set has all of it.
pub(crate) fn value_at(set: &[u8], offset: u32) -> Option<TypedData<'_>>
    ensures { MatchOption result
        (value_at set.now offset ≡ None)
        (λ found. value_at set.now offset ≡ Some (record { kind = found.kind; bytes = found.bytes.now })) }
{
    let at = offset as usize;
    if at + TYPE_LEN > set.len() {
        return None;
    }
    typed_value(set, offset, get16(set, at))
}

/// The value of a type at an offset.
fn typed_value(set: &[u8], offset: u32, kind: u16) -> Option<TypedData<'_>>
    ensures { MatchOption result
        (typed_value set.now offset kind ≡ None)
        (λ found. typed_value set.now offset kind ≡ Some (record { kind = found.kind; bytes = found.bytes.now })) }
{
    let from = offset as usize + head_len(kind);
    if from > set.len() {
        return None;
    }
    let to = from + data_len(set, offset, kind);
    if to > set.len() {
        return None;
    }
    let bytes = &set[from..to];
    Some(TypedData { kind, bytes })
}

/// How many bytes the data of a type has.
fn data_len(set: &[u8], offset: u32, kind: u16) -> usize
    requires { offset + head_len kind ≤ length set.now }
    ensures is { result ≡ data_len set.now offset kind }
    ensures most { result ≤ 2 ^ 34 }
{
    let width = counted_width(kind);
    if width == 0 {
        return fixed_len(kind);
    }
    width * get32(set, offset as usize + TYPE_LEN) as usize
}

/// How many bytes are before the data.
fn head_len(kind: u16) -> usize
    ensures { result ≡ head_len kind }
{
    if counted_width(kind) == 0 {
        TYPE_LEN
    } else {
        2 * TYPE_LEN
    }
}

/// How many bytes are counted by one; 0 where the type has no count.
fn counted_width(kind: u16) -> usize
    ensures is { result ≡ counted_width kind }
    ensures most { result ≤ 2 }
{
    if kind == 0x1F {
        2
    } else if counts_bytes(kind) {
        1
    } else {
        0
    }
}

fn counts_bytes(kind: u16) -> bool
    ensures { result ≡ counts_bytes kind }
{
    kind == 0x08 || kind == 0x1E || kind == 0x41 || kind == 0x47
}

/// How many bytes the data of a type has that has no count.
fn fixed_len(kind: u16) -> usize
    ensures is { result ≡ fixed_value_len kind }
    ensures most { result ≤ 16 }
{
    if has_one(kind) {
        1
    } else if has_two(kind) {
        2
    } else if has_four(kind) {
        4
    } else if has_eight(kind) {
        8
    } else if kind == 0x48 {
        16
    } else {
        0
    }
}

fn has_one(kind: u16) -> bool
    ensures { result ≡ has_one kind }
{
    kind == 0x10 || kind == 0x11
}

fn has_two(kind: u16) -> bool
    ensures { result ≡ has_two kind }
{
    kind == 0x02 || kind == 0x0B || kind == 0x12
}

fn has_four(kind: u16) -> bool
    ensures { result ≡ has_four kind }
{
    kind == 0x03 || kind == 0x04 || kind == 0x0A || kind == 0x13 || kind == 0x16 || kind == 0x17
}

fn has_eight(kind: u16) -> bool
    ensures { result ≡ has_eight kind }
{
    kind == 0x05 || kind == 0x06 || kind == 0x07 || kind == 0x14 || kind == 0x15 || kind == 0x40
}
