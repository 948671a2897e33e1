// Numbers in bytes of which some may be missing: those are 0.
ghost use Rattle.std.specs.Prelude.{◌≡◌, ◌^◌, ◌<◌, slice_index};
ghost use Rattle.doc_bits.specs.Number.{u16_at, u32_at};

/// The byte at a place.
fn byte_at(bytes: &[u8], at: usize) -> u8
    ensures { result ≡ slice_index bytes.now at }
{
    match bytes.get(at) {
        Some(byte) => *byte,
        None => 0,
    }
}

/// The 16-bit number at a place.
pub(crate) fn word_at(bytes: &[u8], at: usize) -> u16
    requires { at < 2 ^ 63 }
    ensures { result ≡ u16_at bytes.now at }
{
    let low = byte_at(bytes, at) as u16;
    let high = byte_at(bytes, at + 1) as u16;
    low + high * 0x100
}

/// The 32-bit number at a place.
pub(crate) fn long_at(bytes: &[u8], at: usize) -> u32
    requires { at < 2 ^ 62 }
    ensures { result ≡ u32_at bytes.now at }
{
    let low = word_at(bytes, at) as u32;
    let high = word_at(bytes, at + 2) as u32;
    low + high * 0x10000
}
