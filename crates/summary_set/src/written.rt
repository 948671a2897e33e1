// The bytes of a stream with one property set.
ghost use Rattle.std.specs.Prelude.{◌≡◌, ◌≤◌, ◌<◌, ◌+◌, ◌^◌, ◌++◌, length, IfOk, OnOk, flat_map};
ghost use Rattle.summary_set.specs.Written.{kept_bytes, written_set, written_size, written_head, pair_bytes};
ghost use Rattle.summary_set.specs.Written.{first_offset, pad_len, padded_value};

use crate::form::LITTLE_ENDIAN;
use crate::values::Property;
use doc_bits::{Bytes, Memory};
use std::alloc::Global;

/// The set begins behind the head of the stream.
const HEAD_LEN: u32 = 48;

/// The size and the count of the set, or a pair.
const NUMBERS_LEN: usize = 8;

const ZEROS: [u8; 3] = [0; 3];

/// The kept bytes of a stream, and these properties.
pub(crate) fn written_set(
    alloc: Global,
    stream: &[u8],
    values: &[Property],
) -> Result<Bytes, Memory>
    requires long { 56 ≤ length stream.now }
    requires fits { written_size values.now < 2 ^ 32 }
    ensures { IfOk result (λ made. made ≡ written_set (kept_bytes stream.now) values.now) }
{
    let mut bytes = Bytes::new(alloc);
    print_head(&mut bytes, stream)?;
    bytes.push32(size_of_set(values))?;
    bytes.push32(values.len() as u32)?;
    print_pairs(&mut bytes, values)?;
    print_values(&mut bytes, values)?;
    Ok(bytes)
}

fn print_head(bytes: &mut Bytes, stream: &[u8]) -> Result<(), Memory>
    requires long { 56 ≤ length stream.now }
    ensures { OnOk result (bytes.new ≡ bytes.old ++ written_head (kept_bytes stream.now)) }
{
    bytes.push16(LITTLE_ENDIAN)?;
    bytes.push_all(&stream[2..24])?;
    bytes.push32(1)?;
    bytes.push_all(&stream[28..44])?;
    bytes.push32(HEAD_LEN)
}

/// How many zeros are behind a value of so many bytes.
fn pad_len(len: usize) -> usize
    ensures { result ≡ pad_len len }
{
    (4 - len % 4) % 4
}

/// How many bytes a value has with its zeros.
fn padded_len(value: &Bytes) -> u64
    ensures { result ≡ length (padded_value value.now) }
{
    let len = value.as_slice().len();
    len as u64 + pad_len(len) as u64
}

/// The size of a set of these properties.
fn size_of_set(values: &[Property]) -> u32
    requires fits { written_size values.now < 2 ^ 32 }
    ensures { result ≡ written_size values.now }
{
    let mut size = (NUMBERS_LEN + NUMBERS_LEN * values.len()) as u64;
    for property in values {
        size += padded_len(&property.value);
    }
    size as u32
}

/// The pairs: each value is behind the one before it.
fn print_pairs(bytes: &mut Bytes, values: &[Property]) -> Result<(), Memory>
    requires fits { written_size values.now < 2 ^ 32 }
    ensures { OnOk result (bytes.new ≡ bytes.old ++ pair_bytes (first_offset values.now) values.now) }
{
    let mut offset = (NUMBERS_LEN + NUMBERS_LEN * values.len()) as u64;
    for property in values {
        bytes.push32(property.id)?;
        bytes.push32(offset as u32)?;
        offset += padded_len(&property.value);
    }
    Ok(())
}

/// The values, each with zeros up to a multiple of four bytes.
fn print_values(bytes: &mut Bytes, values: &[Property]) -> Result<(), Memory>
    ensures { OnOk result (bytes.new ≡ bytes.old ++ flat_map (λ property. padded_value property.value) values.now) }
{
    for property in values {
        let value = property.value.as_slice();
        bytes.push_all(value)?;
        bytes.push_all(&ZEROS[..pad_len(value.len())])?;
    }
    Ok(())
}
